//! How a group stands, as a manager sees it.

use hk_base::{NodeId, Sequence, View};
use hk_inside::{Counts, ShardsTold, Stage, Text};

/// How a manager of the group stands.
#[derive(Drop)]
pub struct ManagerLine {
    /// Its place, 0 to 8.
    pub place: u8,
    /// The address at which other processes reach it.
    pub inside: Text,
    /// Whether it is up: it is the manager that tells, or it reported within half a lease.
    pub is_up: bool,
    /// How long ago it last reported, in milliseconds. None where it never did.
    pub age: Option<u64>,
    /// How many records its log has, if it told that.
    pub records: Option<u64>,
}

/// How a node stands.
#[derive(Clone, Copy, Debug, PartialEq, Eq)]
pub enum NodeShown {
    /// It has a number, and waits for a view in which it is a member.
    Seated,
    /// It copies the store.
    Copying,
    /// It serves clients.
    Ready,
    /// It wants to be left out, or is to be.
    Leaving,
    /// Nothing was heard of it for a lease.
    Gone,
}

/// What a node's process told of it last.
#[derive(Drop)]
pub struct NodeTold {
    /// The place of the manager of the same process, if that is open.
    pub manager: Option<u8>,
    /// The address at which clients reach it. It is empty where none do.
    pub clients: Text,
    pub shards: ShardsTold,
    pub counts: Counts,
}

/// How a node of the group stands.
#[derive(Drop)]
pub struct NodeLine {
    pub node: NodeId,
    /// The address at which other processes reach it. It is empty where that is not known.
    pub inside: Text,
    pub state: NodeShown,
    /// What it told last, if it told anything.
    pub told: Option<NodeTold>,
}

/// A node waits for another one to acknowledge what it wrote.
#[derive(Clone, Copy, Debug, PartialEq, Eq)]
pub struct WaitLine {
    /// The node that waits.
    pub node: NodeId,
    /// The node that does not acknowledge.
    pub other: NodeId,
    /// For how long, in milliseconds.
    pub time: u32,
}

/// How a group stands, as one of its managers sees it.
#[derive(Drop)]
pub struct GroupStatus {
    /// The group's name.
    pub group: Text,
    /// The number of its founding, if it was founded.
    pub founding: Option<u64>,
    pub stage: Stage,
    /// The length of a lease in milliseconds.
    pub lease: u32,
    /// How far clocks may jump, in milliseconds.
    pub skew: u32,
    pub managers: Sequence<ManagerLine>,
    /// The views of the shards, by the shards' numbers. None while the group is not open.
    pub views: Sequence<View>,
    pub nodes: Sequence<NodeLine>,
    pub waits: Sequence<WaitLine>,
    /// The addresses of processes that have no number yet.
    pub waiting: Sequence<Text>,
    /// Whether no member is ready any more, so that the group's data is gone.
    pub is_lost: bool,
}
