//! The order of a key with the events at which its entries stand.

ghost use Rattle.std.specs.Prelude.{◌≡◌, ◌++◌, map, IfOk, OnOk};
ghost use Rattle.std.specs.List.Sorted.{IsStrictlySortedBy};
ghost use Rattle.std.specs.Map.{keys_of};
ghost use Rattle.std.specs.Ordering.{nat_cmp};
ghost use Rattle.hk_safety.specs.Placed.{change_placed, look_placed, placed_at, kept_placed, at_moments};

use crate::evidence::Evidence;
use crate::key_run::{AtStamp, KeyRun, ReadOnlyCalls};
use hk_base::{CallNo, Memory, Sequence};
use hk_history::Entry;
use std::alloc::Global;

/// An entry of an order, and the number of the event at which it stands.
#[derive(Clone, Copy, Debug, PartialEq, Eq)]
pub struct Placed {
    pub event: u64,
    pub entry: Entry,
}

/// Entries with their events.
pub type PlacedEntries = Sequence<Placed>;

// Puts the update of the stamp behind the others, if it is complete, at the event that completed it.
fn place_change(
    placed: &mut Vec<Placed>,
    stamp: u64,
    update: Option<CallNo>,
    evidence: &Evidence,
) -> Result<(), Memory>
    ensures { OnOk result (placed.new.items ≡ placed.old.items ++ change_placed evidence.now stamp update) }
{
    let Some(call) = update else {
        return Ok(());
    };
    match evidence {
        Evidence::Complete { event } => {
            let entry = Entry {
                call,
                tag: Some(stamp),
            };
            placed.push(Placed {
                event: *event,
                entry,
            })?;
            Ok(())
        }
        Evidence::Covers(_) => Ok(()),
    }
}

// Puts the calls that found the stamp behind the others, each at the event that replied to it.
fn place_looks(placed: &mut Vec<Placed>, read_only: &ReadOnlyCalls) -> Result<(), Memory>
    ensures { OnOk result (placed.new.items ≡ placed.old.items ++ map look_placed read_only.now) }
{
    for look in read_only.as_slice() {
        let entry = Entry {
            call: look.call,
            tag: None,
        };
        placed.push(Placed {
            event: look.event,
            entry,
        })?;
    }
    Ok(())
}

fn place_stamp(placed: &mut Vec<Placed>, stamp: u64, at: &AtStamp) -> Result<(), Memory>
    ensures { OnOk result (placed.new.items ≡ placed.old.items ++ placed_at (stamp, at.now)) }
{
    place_change(placed, stamp, at.update, &at.evidence)?;
    place_looks(placed, &at.read_only)
}

// Brings each change forward to the least event of its own and those of the changes behind it.
fn bring_forward(placed: &mut Vec<Placed>, last: u64)
    ensures { placed.new.items ≡ at_moments last placed.old.items }
{
    let count = placed.len();
    let mut least = last;
    for turn in 0..count {
        let place = count - 1 - turn;
        let Placed { event, entry } = placed[place];
        if entry.tag.is_some() {
            least = event.min(least);
            placed[place] = Placed {
                event: least,
                entry,
            };
        }
    }
}

impl KeyRun {
    /// The order of the key, each entry with its event, of a run whose last event has this number.
    pub(crate) fn placed(&self, alloc: Global, last: u64) -> Result<PlacedEntries, Memory>
        ensures exact { IfOk result (λ placed. placed ≡ at_moments last (kept_placed self.now)) }
        // The stamps rise, on which it rests that these are the events of the printed order.
        ensures ordered { IsStrictlySortedBy nat_cmp (keys_of self.now.stamps) }
    {
        let mut placed = Vec::new(alloc);
        for (stamp, at) in self.stamps.iter() {
            place_stamp(&mut placed, *stamp, at)?;
        }
        bring_forward(&mut placed, last);
        Ok(PlacedEntries::from_vec(placed))
    }
}
