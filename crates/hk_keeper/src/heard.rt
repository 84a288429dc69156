//! What a manager has heard, and what it wishes.

use hk_base::{Change, NodeId, Sequence, View};
use hk_inside::NodeState;

/// What a node's last report told of it.
#[derive(Clone, Copy, Debug, PartialEq, Eq)]
pub struct StateTold {
    pub state: NodeState,
    /// How long ago it came, in milliseconds.
    pub age: u64,
}

/// A node's last ask for a lease in one shard.
#[derive(Clone, Copy, Debug, PartialEq, Eq)]
pub struct Ask {
    /// How long ago it came, in milliseconds. Where none came: how long ago the node's number was bound, or this manager started, the later one.
    pub age: u64,
    /// The epoch of which it asked, if it came.
    pub epoch: Option<u64>,
}

/// What is heard of the node of a number.
#[derive(Clone, Copy, Debug, PartialEq, Eq)]
pub struct NodeHeard {
    pub node: NodeId,
    /// Whether the number is bound to a process.
    pub bound: bool,
    /// What its last report told, if one came.
    pub told: Option<StateTold>,
    /// Its last asks, by shards.
    pub asks: [Ask; 8],
}

/// How long ago a node asked another manager for a lease, in the shard where that is longest, as the manager told it.
#[derive(Clone, Copy, Debug, PartialEq, Eq)]
pub struct AgeTold {
    pub node: NodeId,
    /// In milliseconds.
    pub age: u64,
}

/// What is heard of a manager.
#[derive(Drop)]
pub struct ManagerHeard {
    /// Its place, counted from 0.
    pub place: u8,
    /// How long ago its last report came, in milliseconds, if one came.
    pub report: Option<u64>,
    /// What that report told of nodes. A node that never asked it is not among them.
    pub ages: Sequence<AgeTold>,
}

/// What is known of a shard.
#[derive(Drop)]
pub struct ShardHeard {
    /// The view that this manager holds.
    pub held: View,
    /// How many changes this manager proposed of it.
    pub proposals: u32,
    /// How long ago it proposed the last one, in milliseconds.
    pub proposed: u64,
}

/// What a manager has heard at one moment.
#[derive(Drop)]
pub struct Heard {
    /// The reading of its clock, in milliseconds, which began with 1 when it started.
    pub clock: u64,
    /// Its own place.
    pub place: u8,
    /// The length of a lease in milliseconds.
    pub lease: u32,
    /// The 1 to 9 managers, this one among them, of which nothing but the place is read.
    pub managers: Sequence<ManagerHeard>,
    /// All nodes of which anything is known: each member of a view, and each whose number is bound.
    pub nodes: Sequence<NodeHeard>,
    /// Whether a process waits that has no number.
    pub newcomer: bool,
    /// The eight shards.
    pub shards: Sequence<ShardHeard>,
}

/// A change of the view that is held.
#[derive(Clone, Copy, Debug, PartialEq, Eq)]
pub struct Proposal {
    pub change: Change,
    /// For how many milliseconds it has to be wished before it is proposed.
    pub patience: u64,
}

/// What a manager wishes in a shard.
#[derive(Clone, Copy, Debug, PartialEq, Eq)]
pub enum Wish {
    Nothing,
    /// To propose a change of the view that it holds.
    Propose(Proposal),
    /// That the view that it holds begins.
    Activate,
}
