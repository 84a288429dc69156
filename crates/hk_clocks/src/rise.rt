//! How clocks rise.

ghost use Rattle.std.specs.Prelude.{◌≡◌, ◌≤◌, ◌-◌};
ghost use Rattle.hk_base.specs.declared.time.TheConstants.{MAX_TIME};

use hk_base::Actor;

/// The clock of one actor, or of all live ones, becomes `to`.
#[derive(Clone, Copy, Debug, PartialEq, Eq)]
pub enum Rise {
    One { actor: Actor, to: u64 },
    All { to: u64 },
}

impl Rise {
    ghost use Rattle.hk_clocks.specs.Steps.{clock_after};
    ghost use Rattle.hk_clocks.specs.Sound.{IsRise};

    /// What the clock of an actor becomes.
    pub(crate) fn clock_after(&self, actor: Actor, clock: u64) -> u64
        ensures { result ≡ clock_after self.now actor clock }
    {
        match *self {
            Rise::One { actor: ticked, to } => {
                if ticked == actor {
                    return to;
                }
                clock
            }
            Rise::All { to } => to,
        }
    }

    /// By how much it rises.
    pub(crate) fn elapsed(&self, actor: Actor, clock: u64) -> u64
        requires { IsRise self.now }
        ensures value { result ≡ clock_after self.now actor clock - clock }
        ensures bound { result ≤ MAX_TIME }
    {
        self.clock_after(actor, clock).saturating_sub(clock)
    }
}
