//! What a step of a manager gives, and what it replaced.

use crate::instance::Instance;
use hk_base::{Letters, NodeId, View};
use hk_paxos::Proposer;

/// What a step replaced, each with what stood there before. By it the step is undone: [`crate::Manager::undo`].
#[derive(Drop)]
pub enum Replaced {
    Nothing,
    /// The clock.
    Clock(u64),
    /// The until that was noted for a node, if one was.
    Until {
        node: NodeId,
        until: Option<u64>,
    },
    /// What was known of the instance of an epoch, if anything was.
    Instance {
        epoch: u64,
        instance: Option<Instance>,
    },
    /// What was known of the instance of an epoch, if anything was, and the latest proposal, if there was one: a new proposal
    /// began.
    Begun {
        epoch: u64,
        instance: Option<Instance>,
        proposal: Option<Proposer>,
    },
    /// The latest proposal, if there was one, and the view that was held, if another one is held now.
    Proposal {
        proposal: Option<Proposer>,
        held: Option<View>,
    },
    /// The view that was held.
    Held(View),
}

/// What a step gives to whoever makes it.
#[derive(Drop)]
pub struct ManagerOut {
    /// The letters to send, in rising order of the addressees: at most 16.
    pub letters: Letters,
    /// The epoch of the view that the manager holds from now on, exactly where that is another view than before.
    pub chosen: Option<u64>,
    /// What the step replaced.
    pub replaced: Replaced,
}
