//! Why jobs could not be started.

ghost use Rattle.std.specs.Prelude.{◌≡◌};

use hk_base::Memory;
use hk_outside::{Failed, Status};
use hk_shared_state::LostTail;
use thiserror::Error;

/// Why the jobs of a process were not all started.
#[derive(Clone, Copy, Debug, PartialEq, Eq, Error)]
pub enum StartFault {
    /// An allocation was refused.
    #[error("no memory")]
    Memory,
    /// A job was refused: the spawner's count of faults rose.
    #[error("a thread could not be started")]
    Refused,
}

/// Why a process of a group ends that could go on.
#[derive(Clone, Copy, Debug, PartialEq, Eq, Error)]
pub enum ServeFault {
    /// The log of its manager has fewer records than others were told.
    #[error("{0}")]
    LostTail(LostTail),
    /// Its node was left out, or its group is no more.
    #[error("left out of the view; start again")]
    Out,
}

impl From<Memory> for StartFault {
    ghost use Rattle.std.specs.Prelude.{◌≡◌};
    ghost use Rattle.hk_host.specs.declared.fault.StartFault.TheVariants as faults;

    ghost from_gives = { λ memory result. result ≡ faults.Memory };

    fn from(_memory: Memory) -> StartFault
        ensures from_gives { result ≡ faults.Memory }
    {
        StartFault::Memory
    }
}

impl From<Failed> for StartFault {
    ghost use Rattle.std.specs.Prelude.{◌≡◌};
    ghost use Rattle.hk_host.specs.declared.fault.StartFault.TheVariants as faults;

    ghost from_gives = { λ failed result. result ≡ faults.Refused };

    fn from(_failed: Failed) -> StartFault
        ensures from_gives { result ≡ faults.Refused }
    {
        StartFault::Refused
    }
}

impl StartFault {
    /// How a process ends that can't start its jobs.
    pub(crate) fn status(self) -> Status
        ensures memory { self ≡ StartFault.Memory → result ≡ Status.Memory }
        ensures refused { self ≡ StartFault.Refused → result ≡ Status.SpawnFault }
    {
        match self {
            StartFault::Memory => Status::Memory,
            StartFault::Refused => Status::SpawnFault,
        }
    }
}
