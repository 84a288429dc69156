//! Why a host gives no answer, and why a command does not do what it is for.

ghost use Rattle.std.specs.Prelude.{◌≡◌};
ghost use Rattle.hk_init.specs.Faults.{not_asked, number_of_fault};

use hk_base::Sequence;
use hk_hello::HelloRefusal;
use thiserror::Error;

/// Why the manager of a host told no answer.
#[derive(Clone, Copy, Debug, PartialEq, Eq, Error)]
pub enum NoAnswer {
    /// An allocation was refused.
    #[error("no memory")]
    Memory,
    /// No connection could be had in time, or no answer came that can be read.
    #[error("no answer")]
    Silent,
    /// The host took no connection, for this reason.
    #[error("refused: {0}")]
    Refused(HelloRefusal),
}

/// Why a command did not do what it is for. [`put_fault`](crate::put_fault) tells it in words.
#[derive(Drop)]
pub enum CommandFault {
    /// An allocation was refused.
    Memory,
    /// The line could not be written.
    WriteFault,
    /// The manager of this place did not answer, or by nothing that answers what it was asked.
    Unreachable { place: usize },
    /// The host of this place took no connection, for this reason.
    Denied { place: usize, reason: HelloRefusal },
    /// A manager said NO, with this text.
    Refused { text: Sequence<u8> },
    /// The host of this place has another lease or skew than the first one.
    OtherLease { place: usize },
    /// No node waits at any host.
    NoNode,
    /// The hosts took so long to answer that they may not be reserved any more.
    Late,
    /// All managers were founded, and that of this place has not opened, as often as it was asked.
    NotOpen { place: usize },
    /// No manager that answers tells which node the host of this place has.
    UnknownNode { place: usize },
    /// A node was to leave, and is a member still, as often as that was asked for.
    StillMember,
}

impl CommandFault {
    /// The number that the process ends with: 1 and 4 as for any command, 12 where the group refuses, 13 where a host
    /// can't be had.
    pub fn number(&self) -> u8
        ensures { result ≡ number_of_fault self.now }
    {
        match self {
            CommandFault::Memory => 1,
            CommandFault::WriteFault => 4,
            CommandFault::Unreachable { .. } => 13,
            CommandFault::Denied { .. } => 12,
            CommandFault::Refused { .. } => 12,
            CommandFault::OtherLease { .. } => 12,
            CommandFault::NoNode => 12,
            CommandFault::Late => 12,
            CommandFault::NotOpen { .. } => 13,
            CommandFault::UnknownNode { .. } => 12,
            CommandFault::StillMember => 12,
        }
    }

    // Why a command ends where the host of a place told no answer.
    pub(crate) fn of_ask(place: usize, fault: NoAnswer) -> CommandFault
        ensures { result ≡ not_asked place fault }
    {
        match fault {
            NoAnswer::Memory => CommandFault::Memory,
            NoAnswer::Silent => CommandFault::Unreachable { place },
            NoAnswer::Refused(reason) => CommandFault::Denied { place, reason },
        }
    }
}
