//! Where snapshots stood together.

ghost use Rattle.std.specs.Prelude.{◌≡◌, max, map, Err};
ghost use Rattle.std.specs.List.{AllByRecursion, find, reduce};
ghost use Rattle.std.specs.Option.{option_copied};
ghost use Rattle.hk_node.specs.Sound.{IsNodeEvent};
ghost use Rattle.hk_journal.specs.Journal.{IsReplay};
ghost use Rattle.hk_place.specs.declared.placing.PlaceFault.TheVariants.{NoPlace};
ghost use Rattle.hk_place.specs.Place.{greatest, is_displaced, place_of, IsPlaced};

use crate::changes::Changes;
use hk_base::{Key, Memory};
use hk_joint_reads::Snapshots;
use hk_journal::Journal;
use hk_node::Node;
use hk_snap::Snapshot;
use std::alloc::Global;
use std::fmt;
use thiserror::Error;

/// Why snapshots have no place.
#[derive(Drop, Error)]
pub enum PlaceFault {
    /// An allocation was refused.
    #[error("no memory")]
    Memory,
    /// The key was shown as the step of ticket `shown` left it, but the last step that changed its row, up to the greatest ticket that was shown, is that
    /// of ticket `kept`; or none did.
    #[error("the row that step {shown} left is not the last of its key")]
    NoPlace {
        key: Key,
        shown: u64,
        kept: Option<u64>,
    },
}

// Keys print nothing of themselves.
impl fmt::Debug for PlaceFault {
    fn fmt<W: fmt::Write>(&self, f: &mut fmt::Formatter<W>) -> fmt::Result {
        fmt::Display::fmt(self, f)
    }
}

impl From<Memory> for PlaceFault {
    ghost use Rattle.hk_place.specs.declared.placing.PlaceFault.TheVariants.{Memory as Wanting};

    ghost from_gives = { λ memory result. result ≡ Wanting };

    fn from(_error: Memory) -> PlaceFault
        ensures from_gives { result ≡ Wanting }
    {
        PlaceFault::Memory
    }
}

fn greatest_ticket(found: &[Snapshot]) -> Option<u64>
    ensures { result ≡ reduce max (map (λ s. s.ticket) found.now) }
{
    found.iter().map(|snapshot| snapshot.ticket).max()
}

// The greatest ticket of the snapshots, 0 where there are none.
fn greatest(found: &[Snapshot]) -> u64
    ensures { result ≡ greatest found.now }
{
    match greatest_ticket(found) {
        Some(ticket) => ticket,
        None => 0,
    }
}

// That this snapshot is not the last of its key.
fn no_place(snapshot: &Snapshot, kept: Option<u64>) -> PlaceFault
    ensures { IsPlaced (Err result) (Err (NoPlace snapshot.now.key snapshot.now.ticket kept)) }
{
    match snapshot.key.share() {
        Ok(key) => PlaceFault::NoPlace {
            key,
            shown: snapshot.ticket,
            kept,
        },
        Err(_) => PlaceFault::Memory,
    }
}

impl<'a> Changes<'a> {
    // Whether the last step up to the moment that changed the key's row is not the snapshot's.
    fn is_displaced(&self, snapshot: &Snapshot, moment: u64) -> bool
        ensures { result ≡ is_displaced self.now moment snapshot.now }
    {
        match self.last_change(&snapshot.key, moment) {
            Some(ticket) => ticket != snapshot.ticket,
            None => true,
        }
    }

    fn first_displaced<'s>(&self, found: &'s [Snapshot], moment: u64) -> Option<&'s Snapshot>
        ensures { option_copied result ≡ find (is_displaced self.now moment) found.now }
    {
        found
            .iter()
            .find(|snapshot| self.is_displaced(snapshot, moment))
    }

    /// Where the snapshots stood together, as [`place`] tells it.
    pub fn place(&self, found: &Snapshots) -> Result<u64, PlaceFault>
        ensures { IsPlaced result (place_of self.now found.now) }
    {
        let found = found.as_slice();
        let moment = greatest(found);
        match self.first_displaced(found, moment) {
            Some(snapshot) => {
                let kept = self.last_change(&snapshot.key, moment);
                Err(no_place(snapshot, kept))
            }
            None => Ok(moment),
        }
    }
}

/// Where snapshots of a shard's keys stood together, by the shard's base and journal: the greatest of their tickets. Ok exactly where for each key the last step
/// up to that ticket which changed its row is the snapshot's; else NoPlace tells of the first key for which it is another one, or none. It makes all steps
/// of the journal again: of many reads, each is placed by look-ups with [`Changes`].
pub fn place(
    alloc: Global,
    base: &Node,
    journal: &Journal,
    found: &Snapshots,
) -> Result<u64, PlaceFault>
    requires replay { IsReplay base.now journal.now }
    requires events { AllByRecursion (λ e. IsNodeEvent e.event) journal.now }
    ensures { IsPlaced result (place_of (record { base = base.now; journal = journal.now }) found.now) }
{
    let changes = Changes::of(alloc, base, journal)?;
    changes.place(found)
}
