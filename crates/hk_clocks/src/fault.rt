//! Why clocks stay as they are.

ghost use Rattle.std.specs.Prelude.{◌≡◌};

use hk_base::Memory;
use thiserror::Error;

/// Why clocks stay as they are.
#[derive(Clone, Copy, Debug, PartialEq, Eq, Error)]
pub enum ClockFault {
    /// An allocation was refused.
    #[error("no memory")]
    Memory,
    /// The actor that would start is live.
    #[error("the actor is live")]
    Live,
    /// The actor is not live.
    #[error("the actor is not live")]
    NotLive,
    /// The clock, or the greatest of those that would rise, reads more already, namely `clock`.
    #[error("the clock reads {clock} already")]
    ClockFalls { clock: u64 },
    /// A clock at `to` would run too far ahead of that of another live actor, which reads `other` before the rise.
    #[error("a clock at {to} would run too far ahead of one that reads {other}")]
    Skew { to: u64, other: u64 },
}

impl From<Memory> for ClockFault {
    ghost use Rattle.hk_clocks.specs.declared.fault.ClockFault.TheVariants.{Memory as Wanting};

    ghost from_gives = { λ memory result. result ≡ Wanting };

    fn from(_error: Memory) -> ClockFault
        ensures from_gives { result ≡ Wanting }
    {
        ClockFault::Memory
    }
}
