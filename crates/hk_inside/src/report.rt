//! What a process reports of itself.

use hk_base::{NodeId, Sequence};
use hk_fields::Ticket;

/// A text of at most 255 bytes, whatever they are.
pub type Text = Sequence<u8>;

/// How a node's process stands.
#[derive(Clone, Copy, Debug, PartialEq, Eq)]
pub enum NodeState {
    /// It has no number yet.
    Waiting,
    /// It has a number, and waits for a view in which it is a member.
    Seated,
    /// It copies the store.
    Copying,
    /// It serves clients.
    Ready,
    /// It wants to be left out.
    Leaving,
}

/// The eight shards of a node, taken together.
#[derive(Clone, Copy, Debug, PartialEq, Eq)]
pub struct ShardsTold {
    /// How many of them are ready, 0 to 8.
    pub ready: u8,
    /// The least epoch of their views.
    pub least_epoch: u64,
    /// For how long the lease that ends first still runs, in milliseconds.
    pub least_lease_left: u32,
}

/// What a node holds, and what it has answered since it started.
#[derive(Clone, Copy, Debug, PartialEq, Eq)]
pub struct Counts {
    /// How many keys it holds.
    pub keys: u64,
    /// How many bytes these and their data have.
    pub bytes: u64,
    pub gets: u64,
    pub sets: u64,
    pub busy: u64,
    pub aborted: u64,
    /// How many calls it told that their outcome is unknown.
    pub unknown: u64,
}

/// What a process has seen of a node.
#[derive(Clone, Copy, Debug, PartialEq, Eq)]
pub struct NodeSeen {
    pub node: NodeId,
    /// How long ago it asked this process's manager for a lease, in milliseconds, in the shard where that is longest. None
    /// where it never asked in one of them. It is below 4,294,967,295.
    pub age_of_ask: Option<u32>,
    /// For how long the oldest INV to it has waited to be acknowledged, in milliseconds. It is 0 where none waits.
    pub unacknowledged: u32,
}

/// The nodes that a process has seen, 255 at most.
pub type NodesSeen = Sequence<NodeSeen>;

/// How a process stands, as it reports at each beat.
#[derive(Drop)]
pub struct Report {
    pub ticket: Ticket,
    /// Its node's number, below 65,535, if it has one.
    pub node: Option<NodeId>,
    pub state: NodeState,
    /// The place of its manager, 0 to 8, if that is open.
    pub manager: Option<u8>,
    /// How many records the log of its manager has.
    pub records: u64,
    pub shards: ShardsTold,
    pub counts: Counts,
    /// The address at which other processes reach it.
    pub inside: Text,
    /// The address at which clients reach it.
    pub clients: Text,
    pub nodes: NodesSeen,
}
