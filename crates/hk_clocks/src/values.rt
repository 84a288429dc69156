//! Maps from actors.

ghost use Rattle.std.specs.Prelude.{◌≡◌};
ghost use Rattle.std.specs.BTreeMap.{is_at};
ghost use Rattle.std.specs.Map.{set_value};
ghost use Rattle.hk_clocks.specs.Clocks.{by_actor};

use hk_base::Actor;
use std::collections::BTreeMap;

/// Writes the value of an actor, if there is one. It takes no memory.
pub(crate) fn write<V: Drop>(map: &mut BTreeMap<Actor, V>, actor: Actor, value: V)
    ensures { map.new.entries ≡ set_value (is_at (by_actor actor)) map.old.entries value }
{
    if let Some(kept) = map.get_mut(&actor) {
        *kept = value;
    }
}
