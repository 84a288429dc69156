//! What can be wrong with a message.

ghost use Rattle.std.specs.Prelude.{◌≡◌};

use hk_fields::FieldFault;
use thiserror::Error;

/// Why bytes are no message.
#[derive(Clone, Copy, Debug, PartialEq, Eq, Error)]
pub enum MessageFault {
    /// An allocation was refused.
    #[error("no memory")]
    Memory,
    /// The bytes end within the frame: `wanted` bytes are needed, 4 for its length and, once that is known, all that it
    /// tells. Nothing but the length was looked at.
    #[error("{wanted} bytes are wanted")]
    Short { wanted: usize },
    /// No message begins with the bytes, whatever follows them.
    #[error("malformed")]
    Malformed,
}

impl From<FieldFault> for MessageFault {
    ghost use Rattle.hk_inside.specs.Told.{fault_of};

    fn from(fault: FieldFault) -> MessageFault
        ensures { result ≡ fault_of fault }
    {
        match fault {
            FieldFault::Memory => MessageFault::Memory,
            FieldFault::Malformed => MessageFault::Malformed,
        }
    }
}

/// Why a response is not printed.
#[derive(Clone, Copy, Debug, PartialEq, Eq, Error)]
pub enum PrintFault {
    /// An allocation was refused.
    #[error("no memory")]
    Memory,
    /// It takes more than 65,535 bytes behind the length.
    #[error("the response is too long")]
    TooLong,
}
