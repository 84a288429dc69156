//! How the connection of a peer ends.

use hk_frame::FrameFault;
use thiserror::Error;

/// How the connection of a peer ended.
#[derive(Clone, Copy, Debug, PartialEq, Eq, Error)]
pub enum PeerEnd {
    /// An allocation was refused, or a put found the link full when nobody took from it any more. Some of the parcels were put.
    #[error("no memory")]
    Memory,
    /// The peer sent no more.
    #[error("the peer sent no more")]
    End,
    /// Reading failed: the count of the connection's faults rose.
    #[error("a read failed")]
    ReadFault,
    /// The peer sent what is no frame: a `BadKind`, `BadLength` or `BadField`. Nothing behind it was put.
    #[error("the peer sent what is no frame: {0}")]
    BadFrame(FrameFault),
    /// The connection made all the reads that it may, so many, each of which gave something.
    #[error("the connection made {reads} reads, all that it may")]
    Spent { reads: u64 },
}
