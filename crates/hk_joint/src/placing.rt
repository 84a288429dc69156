//! Entries in the order of the events at which they stand.

ghost use Rattle.std.specs.Prelude.{OnOk};
ghost use Rattle.hk_joint.specs.Placing.{IsByEvent};

use hk_base::Memory;
use hk_safety::Placed;

/// Brings the entries into the order of their events. Those of one event stay in the order that they have.
pub fn sort_by_event(placed: &mut Vec<Placed>) -> Result<(), Memory>
    ensures { OnOk result (IsByEvent placed.old.items placed.new.items) }
{
    placed.sort_by_key(|entry| entry.event)?;
    Ok(())
}
