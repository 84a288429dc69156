//! What a manager keeps of what it was told.

use hk_base::NodeId;
use hk_fields::Ticket;
use hk_inside::{Report, Text};

/// The last report of a process.
#[derive(Drop)]
pub struct Came {
    pub report: Report,
    /// The reading at which it came, in milliseconds.
    pub at: u64,
}

/// A node's last ask for a lease in one shard.
#[derive(Clone, Copy, Debug, PartialEq, Eq)]
pub struct AskCame {
    /// The epoch of the view of which it asked.
    pub epoch: u64,
    /// The reading at which it came, in milliseconds.
    pub at: u64,
}

/// What is kept of a node's number.
#[derive(Clone, Copy, Debug, PartialEq, Eq)]
pub struct NumberKept {
    pub node: NodeId,
    /// The reading at which it was bound last, in milliseconds, if it was.
    pub bound: Option<u64>,
    /// The last asks of its node, by shards.
    pub asks: [Option<AskCame>; 8],
}

/// What this manager proposed upon a view of one shard.
#[derive(Clone, Copy, Debug, PartialEq, Eq)]
pub struct Proposed {
    /// The epoch of the view.
    pub epoch: u64,
    /// How many changes it proposed. It is 0 where it proposed none of any view.
    pub count: u32,
    /// The reading at which it proposed the last one, in milliseconds.
    pub at: u64,
}

/// A number was given to a process that has not become ready since.
#[derive(Drop)]
pub struct SeatGiven {
    pub node: NodeId,
    /// The process to which it was given.
    pub ticket: Ticket,
    /// The address at which other processes reach it.
    pub inside: Text,
    /// The reading at which the number was given, in milliseconds.
    pub at: u64,
}
