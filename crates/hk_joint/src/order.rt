//! The joint order of a run.

ghost use Rattle.std.specs.Prelude.{◌≡◌, ◌++◌, map, IfOk, OnOk};
ghost use Rattle.std.specs.List.{flat_map};
ghost use Rattle.hk_safety.specs.Run.{named};
ghost use Rattle.hk_safety.specs.Placed.{placed};
ghost use Rattle.hk_joint.specs.Joint.{joint_order, entries_of};
ghost use Rattle.hk_joint.specs.Legal.{JointLegal};

use crate::laws::{joint_orders_are_legal, placed_are_joint};
use crate::placing::sort_by_event;
use hk_base::{Key, Memory};
use hk_history::Entries;
use hk_safety::{LiveRun, Placed, Run};
use std::alloc::Global;

/// The entries of a joint order, the first one first.
pub type JointEntries = Entries;

// Puts the order of the key behind the others.
fn place_key(order: &mut Vec<Placed>, alloc: Global, run: &LiveRun, key: &Key) -> Result<(), Memory>
    ensures { OnOk result (order.new.items ≡ order.old.items ++ placed run.now key.now) }
{
    let entries = run.placed(alloc, key)?;
    order.extend_from_slice(entries.as_slice())?;
    Ok(())
}

// The orders of all keys, one behind the other.
fn place_keys(alloc: Global, run: &LiveRun) -> Result<Vec<Placed>, Memory>
    ensures { IfOk result (λ entries. entries.items ≡ flat_map (placed run.now) (named run.now)) }
{
    let keys = run.keys(alloc)?;
    let mut order = Vec::new(alloc);
    for key in keys.as_slice() {
        place_key(&mut order, alloc, run, key)?;
    }
    Ok(order)
}

// The entries without their events.
fn entries_in(alloc: Global, placed: &[Placed]) -> Result<JointEntries, Memory>
    ensures { IfOk result (λ entries. entries ≡ map (λ p. p.entry) placed.now) }
{
    let mut entries = JointEntries::new(alloc);
    for at in placed {
        entries.push(at.entry)?;
    }
    Ok(entries)
}

/// The joint order of a run whose events are not kept, as [`joint_order`] has it.
pub fn live_joint_order(alloc: Global, run: &LiveRun) -> Result<JointEntries, Memory>
    ensures exact { IfOk result (λ order. order ≡ entries_of (joint_order run.now)) }
    ensures legal { JointLegal run.now (joint_order run.now) }
{
    joint_orders_are_legal();
    placed_are_joint();
    run.sound();
    let mut placed = place_keys(alloc, run)?;
    sort_by_event(&mut placed)?;
    entries_in(alloc, placed.as_slice())
}

/// The entries of the orders of all keys in one order, which is legal: by the events at which they stand, those of one event by their keys, those of one key as its order
/// has them.
pub fn joint_order(alloc: Global, run: &Run) -> Result<JointEntries, Memory>
    ensures exact { IfOk result (λ order. order ≡ entries_of (joint_order run.now)) }
    ensures legal { JointLegal run.now (joint_order run.now) }
{
    live_joint_order(alloc, run.live())
}
