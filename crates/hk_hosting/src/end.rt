//! How a command of a group over hosts ends.

use hk_base::Memory;
use hk_managing::BeginFault;
use hk_outside::Status;
use hk_shared_state::IdentityFault;
use thiserror::Error;

/// Why a command did not do what it is for. Its text is for the person who started it.
#[derive(Clone, Copy, Debug, PartialEq, Eq, Error)]
pub enum HostEnd {
    /// As any command ends.
    #[error("{0}")]
    Plain(Status),
    /// The node was left out of the view, or its group is no more.
    #[error("left out of the view; start again")]
    Out,
    /// The log of the manager can't be taken up.
    #[error("{0}")]
    Log(BeginFault),
    /// The log of the manager has fewer records than others were told.
    #[error("lost its tail")]
    LostTail,
    /// The log of the manager is held by another process.
    #[error("is held by another process")]
    Held,
    /// It was refused.
    #[error("refused")]
    Refused,
    /// A host does not answer.
    #[error("no answer")]
    Unreachable,
    /// An address of this host can't be opened.
    #[error("can't be opened")]
    Shut,
    /// The system gives no random bytes.
    #[error("no random bytes can be had")]
    NoRandomness,
}

impl HostEnd {
    /// The number that the process ends with: 0 to 9 as any command's, 10 where its node was left out, 11 for its log, 12 where it is refused, 13 where a host does not answer.
    pub fn number(&self) -> u8 {
        match self {
            HostEnd::Plain(status) => status.number(),
            HostEnd::Out => 10,
            HostEnd::Log(BeginFault::Memory) => Status::Memory.number(),
            HostEnd::Log(_) => 11,
            HostEnd::LostTail => 11,
            HostEnd::Held => 11,
            HostEnd::Refused => 12,
            HostEnd::Unreachable => 13,
            HostEnd::Shut => Status::DoorFault.number(),
            HostEnd::NoRandomness => Status::SpawnFault.number(),
        }
    }
}

impl From<Memory> for HostEnd {
    fn from(_memory: Memory) -> HostEnd {
        HostEnd::Plain(Status::Memory)
    }
}

impl From<IdentityFault> for HostEnd {
    fn from(fault: IdentityFault) -> HostEnd {
        match fault {
            IdentityFault::Memory => HostEnd::Plain(Status::Memory),
            IdentityFault::Unfit => HostEnd::Refused,
        }
    }
}
