//! One live actor's clock.

ghost use Rattle.std.specs.Prelude.{◌≡◌, ◌≤◌, ◌*◌};
ghost use Rattle.std.specs.BTreeMap.{is_at};
ghost use Rattle.std.specs.Map.{remove_entry};
ghost use Rattle.hk_base.specs.declared.time.TheConstants.{MAX_TIME};
ghost use Rattle.hk_clocks.specs.Clocks.{by_actor};
ghost use Rattle.hk_clocks.specs.InPlace.{fallen};

use crate::leads::Leads;
use hk_base::Actor;

/// The clock of a live actor, in milliseconds, and its leads over the clocks of others.
#[derive(Drop)]
pub struct Pace {
    pub clock: u64,
    pub leads: Leads,
}

impl Pace {
    /// Forgets the lead over an actor.
    pub(crate) fn forget(&mut self, other: Actor)
        ensures { self.new ≡ record self.old { leads = remove_entry (is_at (by_actor other)) self.old.leads } }
    {
        self.leads.forget(other);
    }

    /// The lead over an actor, falls by what that one's clock rose.
    pub(crate) fn fall(&mut self, other: Actor, risen: u64)
        requires { risen ≤ MAX_TIME }
        ensures { self.new ≡ record self.old { leads = fallen other (1100 * risen) self.old.leads } }
    {
        self.leads.fall(other, 1100 * risen);
    }
}
