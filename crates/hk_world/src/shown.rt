//! What an event shows.

use hk_base::{CallNo, Letters, NodeId, View};
use hk_node::{Report, StepReplies};

/// A node that acted, and what the event did to it.
#[derive(Drop)]
pub struct Acted {
    pub node: NodeId,
    pub report: Report,
}

/// What an event shows to whoever watches the world.
#[derive(Drop)]
pub struct Shown {
    /// The number of the call that was made.
    pub call: Option<CallNo>,
    /// The view that was agreed, that the manager `chosen` now holds, or that the node `installed` now has.
    pub view: Option<View>,
    /// The manager that now holds another view than before.
    pub chosen: Option<u8>,
    /// The node that installed a view.
    pub installed: Option<NodeId>,
    /// The number of the first letter that was sent, if any was; letters are numbered from 1.
    pub first_letter: u64,
    /// The letters that were sent, in the order of their numbers.
    pub letters: Letters,
    /// The calls that were answered, in key order.
    pub replies: StepReplies,
    /// The node that acted, and what the event did to it. None where no node did.
    pub acted: Option<Acted>,
}
