//! Why nothing is heard.

use thiserror::Error;

/// Why a message was not heard. What came of it is there for whoever reads next.
#[derive(Clone, Copy, Debug, PartialEq, Eq, Error)]
pub enum HearFault {
    /// An allocation was refused.
    #[error("no memory")]
    Memory,
    /// A read failed, or waited for too long: the count of the connection's faults rose.
    #[error("a read failed")]
    ReadFault,
    /// The connection ended before the message was whole.
    #[error("the connection ended")]
    Ended,
    /// The message was not whole in time.
    #[error("too late")]
    Late,
    /// No message of this kind begins what came, whatever follows.
    #[error("malformed")]
    Malformed,
}
