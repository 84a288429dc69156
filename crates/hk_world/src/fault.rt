//! Why a step is not made.

ghost use Rattle.std.specs.Prelude.{◌≡◌};

use hk_base::Memory;
use hk_clocks::ClockFault;
use hk_event::Refused;
use hk_manager::ManagerFault;
use thiserror::Error;

/// Why a step is not made. The world is as it was.
#[derive(Clone, Copy, Debug, PartialEq, Eq, Error)]
pub enum WorldFault {
    /// An allocation was refused.
    #[error("no memory")]
    Memory,
    #[error("{0}")]
    Refused(Refused),
}

impl From<Memory> for WorldFault {
    ghost use Rattle.hk_world.specs.declared.fault.WorldFault.TheVariants.{Memory as Wanting};

    ghost from_gives = { λ memory result. result ≡ Wanting };

    fn from(_error: Memory) -> WorldFault
        ensures from_gives { result ≡ Wanting }
    {
        WorldFault::Memory
    }
}

impl From<ClockFault> for WorldFault {
    ghost use Rattle.hk_world.specs.Faults.{clock_fault};

    ghost from_gives = { λ fault result. result ≡ clock_fault fault };

    fn from(fault: ClockFault) -> WorldFault
        ensures from_gives { result ≡ clock_fault fault }
    {
        match fault {
            ClockFault::Memory => WorldFault::Memory,
            ClockFault::Live => WorldFault::Refused(Refused::NoActor),
            ClockFault::NotLive => WorldFault::Refused(Refused::NoActor),
            ClockFault::ClockFalls { clock } => WorldFault::Refused(Refused::ClockFalls { clock }),
            ClockFault::Skew { to, other } => WorldFault::Refused(Refused::Skew { to, other }),
        }
    }
}

impl From<ManagerFault> for WorldFault {
    ghost use Rattle.hk_world.specs.Faults.{manager_fault};

    ghost from_gives = { λ fault result. result ≡ manager_fault fault };

    fn from(fault: ManagerFault) -> WorldFault
        ensures from_gives { result ≡ manager_fault fault }
    {
        match fault {
            ManagerFault::Memory => WorldFault::Memory,
            ManagerFault::Behind { held } => WorldFault::Refused(Refused::Behind { held }),
            ManagerFault::NoSuchMember => WorldFault::Refused(Refused::NoSuchMember),
            ManagerFault::LastMember => WorldFault::Refused(Refused::LastMember),
            ManagerFault::Full => WorldFault::Refused(Refused::Full),
            ManagerFault::NoNumbers => WorldFault::Refused(Refused::NoNumbers),
            ManagerFault::NotPast { node, end } => {
                WorldFault::Refused(Refused::NotPast { node, end })
            }
        }
    }
}
