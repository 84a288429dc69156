//! Why an event is not made.

use hk_base::NodeId;
use thiserror::Error;

/// Why a world refuses an event. Nothing changes then.
#[derive(Clone, Copy, Debug, PartialEq, Eq, Error)]
pub enum Refused {
    /// There is no such actor, or not yet.
    #[error("there is no such actor")]
    NoActor,
    /// The actor has crashed.
    #[error("the actor has crashed")]
    Crashed,
    /// No letter of this number was sent.
    #[error("no letter has this number")]
    NoLetter,
    /// A clock at `to` would run too far ahead of that of another live actor, which reads `other`.
    #[error("a clock at {to} would run too far ahead of one that reads {other}")]
    Skew { to: u64, other: u64 },
    /// The clock, or the greatest of those that would rise, reads more already, namely `clock`.
    #[error("the clock reads {clock} already")]
    ClockFalls { clock: u64 },
    /// The lease of a live node outside the view may still run: it ends at `end`.
    #[error("the lease of node {} may run to {end}", .node.0)]
    LeaseRuns { node: NodeId, end: u64 },
    /// The group has managers: it is not told its views and leases from outside.
    #[error("the group has managers")]
    Managed,
    /// No view of this epoch was agreed.
    #[error("no view of this epoch was agreed")]
    NoView,
    /// The view does not have the node as a member.
    #[error("the node is no member of the view")]
    NotMember,
    /// The node is in an epoch that is not below, or the manager holds the view of another one, namely `held`.
    #[error("epoch {held} is held")]
    Behind { held: u64 },
    /// The node that is to leave is no member.
    #[error("the node is no member")]
    NoSuchMember,
    /// It is the only member.
    #[error("it is the only member")]
    LastMember,
    /// The view has 16 members.
    #[error("the view has 16 members")]
    Full,
    /// All numbers of nodes were given.
    #[error("all numbers of nodes were given")]
    NoNumbers,
    /// A lease of a node outside the view that the manager holds may still run: its clock is not past `end`, the until that it
    /// noted for the node.
    #[error("a lease of node {} may run to {end}", .node.0)]
    NotPast { node: NodeId, end: u64 },
    /// The node has started already.
    #[error("the node has started")]
    Started,
}
