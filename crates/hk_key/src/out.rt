//! What a step of a row gives to the node that makes it.

use hk_base::{NodeId, Reply, Stamp};

/// Whom a step addresses. *Others* are the members of the node's view except itself, in rising order.
#[derive(Clone, Copy, Debug, PartialEq, Eq)]
pub enum Aim {
    /// One node, the sender of the letter that was taken.
    One(NodeId),
    /// All others.
    Others,
    /// Each other whose acknowledgement of the pending update is not noted.
    NotAcked,
}

/// What a step sends.
#[derive(Clone, Copy, Debug, PartialEq, Eq)]
pub enum What {
    /// INV of the row's own stamp, kind and content.
    InvRow,
    /// INV of the pending update.
    InvPending,
    /// ACK of the stamp, with the row's own stamp as top.
    Ack { stamp: Stamp, top: Stamp },
    /// VAL of the stamp.
    Val { stamp: Stamp },
}

/// What a step sends, and to whom.
#[derive(Clone, Copy, Debug, PartialEq, Eq)]
pub struct Sending {
    pub aim: Aim,
    pub what: What,
}

/// What a step gives: letters to send, and the answer of a call. One step sends at most one kind of letter, and answers
/// at most one call.
#[derive(Drop)]
pub struct Out {
    pub send: Option<Sending>,
    pub reply: Option<Reply>,
}
