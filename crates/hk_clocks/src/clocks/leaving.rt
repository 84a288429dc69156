//! Actors that stop.

ghost use Rattle.std.specs.Prelude.{◌≡◌, false, is_some, map};
ghost use Rattle.std.specs.BTreeMap.{is_at};
ghost use Rattle.std.specs.Map.{remove_entry};
ghost use Rattle.hk_clocks.specs.Clocks.{by_actor, pace_of};
ghost use Rattle.hk_clocks.specs.Steps.{forgets};

use crate::pace::Pace;
use hk_base::Actor;
use std::collections::BTreeMap;

/// Takes an actor out, and tells whether it was there. It takes no memory.
pub(super) fn take_out(paces: &mut BTreeMap<Actor, Pace>, actor: Actor) -> bool
    ensures told { result ≡ is_some (pace_of paces.old.entries actor) }
    ensures out { paces.new.entries ≡ remove_entry (is_at (by_actor actor)) paces.old.entries }
    ensures none { result ≡ false → paces.new.entries ≡ paces.old.entries }
{
    paces.remove(&actor).is_some()
}

/// Forgets the leads of all others over an actor. It takes no memory.
pub(super) fn forget(paces: &mut BTreeMap<Actor, Pace>, actor: Actor)
    ensures { paces.new.entries ≡ map (forgets actor) paces.old.entries }
{
    paces.retain(|_other, pace| {
        pace.forget(actor);
        true
    });
}
