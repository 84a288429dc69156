//! How connections end.

use thiserror::Error;

/// How a connection ended.
#[derive(Clone, Copy, Debug, PartialEq, Eq, Error)]
pub enum ConnEnd {
    /// An allocation was refused to the server. Some of the replies were written.
    #[error("no memory")]
    Memory,
    /// The client quit.
    #[error("the client quit")]
    Quit,
    /// The client sent no more.
    #[error("the client sent no more")]
    End,
    /// Reading failed: the count of the connection's faults as a source rose.
    #[error("a read failed")]
    ReadFault,
    /// Writing failed: the count of the connection's faults as a sink rose.
    #[error("a write failed")]
    WriteFault,
    /// A line was longer than 65,536 bytes. The client was told so.
    #[error("a line has more than 65536 bytes")]
    TooLong,
    /// The connection made all the reads that it may, so many, each of which gave something.
    #[error("the connection made {reads} reads, all that it may")]
    Spent { reads: u64 },
}
