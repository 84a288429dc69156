//! Reads that have no place.

ghost use Rattle.std.specs.Prelude.{◌≡◌, Result, ℕ, IfOk};
ghost use Rattle.hk_place.specs.declared.placing.PlaceFault.{PlaceFault as Fault};
ghost use Rattle.hk_place.specs.Place.{IsPlaced, place_of};
ghost use Rattle.hk_joint_storm.specs.Gaps.{gap_by, first_gap};

use hk_base::{Memory, Sequence};
use hk_joint_reads::Snapshots;
use hk_place::{Changes, PlaceFault};

/// What joint reads found, the first read first.
pub type JointFounds = Sequence<Snapshots>;

/// A key that was read had been changed again at the moment of its read, or was never there.
#[derive(Clone, Copy, Debug, PartialEq, Eq)]
pub struct JointGap {
    /// The ticket that its cell showed.
    pub shown: u64,
    /// The ticket of the step that had changed it last by then, if one had.
    pub kept: Option<u64>,
}

fn gap_of(placed: Result<u64, PlaceFault>) -> Result<Option<JointGap>, Memory>
    ensures { (place : Result ℕ Fault) → IsPlaced placed place → IfOk result (λ gap. gap ≡ gap_by place) }
{
    match placed {
        Ok(_) => Ok(None),
        Err(PlaceFault::NoPlace { shown, kept, .. }) => Ok(Some(JointGap { shown, kept })),
        Err(PlaceFault::Memory) => Err(Memory),
    }
}

// The gap of a read, if it has no place.
fn gap_at(changes: &Changes, found: &Snapshots) -> Result<Option<JointGap>, Memory>
    ensures { IfOk result (λ gap. gap ≡ gap_by (place_of changes.now found.now)) }
{
    gap_of(changes.place(found))
}

/// The gap of the first read that has no place.
pub(crate) fn first_gap(changes: &Changes, founds: &[Snapshots]) -> Result<Option<JointGap>, Memory>
    ensures { IfOk result (λ gap. gap ≡ first_gap changes.now founds.now) }
{
    for found in founds {
        let gap = gap_at(changes, found)?;
        if gap.is_some() {
            return Ok(gap);
        }
    }
    Ok(None)
}
