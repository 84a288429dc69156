//! What the node of a process is to be, and how it stands.

ghost use Rattle.std.specs.Prelude.{◌≡◌};
ghost use Rattle.hk_shared_state.specs.Parts.{number, holds_place, joins, part, copying, state_behind};

use crate::identity::Identity;
use crate::standing::Standing;
use hk_base::{NodeId, SHARDS};
use hk_inside::NodeState;

/// What the node of a process is.
#[derive(Clone, Copy, Debug, PartialEq, Eq)]
pub enum Part {
    /// A founder, of the number of its host's place.
    Founder(u8),
    /// A joiner of this number.
    Joiner(NodeId),
}

impl Part {
    /// The number of the node.
    pub fn number(self) -> NodeId
        ensures { result ≡ number self }
    {
        match self {
            Part::Founder(place) => NodeId(u16::from(place)),
            Part::Joiner(node) => node,
        }
    }
}

// How a node stands that was not ready yet, with so many shards ready, of whose views this is the least epoch.
fn copying(ready: u8, least_epoch: u64) -> NodeState
    ensures { result ≡ copying ready least_epoch }
{
    if ready == SHARDS {
        NodeState::Ready
    } else if least_epoch == 0 {
        NodeState::Seated
    } else {
        NodeState::Copying
    }
}

/// How a node stands that stood so before, and has so many shards ready, of whose views this is the least epoch, 0 before it has any.
pub fn state_behind(before: NodeState, ready: u8, least_epoch: u64) -> NodeState
    ensures { result ≡ state_behind before ready least_epoch }
{
    match before {
        NodeState::Waiting | NodeState::Seated | NodeState::Copying => copying(ready, least_epoch),
        NodeState::Ready => NodeState::Ready,
        NodeState::Leaving => NodeState::Leaving,
    }
}

impl Standing {
    // Whether the number of the host's place is bound to this process.
    fn holds_place(&self, identity: &Identity, place: u8) -> bool
        ensures { result ≡ holds_place self.now identity.now place }
    {
        self.founding != 0 && self.is_holder(identity, NodeId(u16::from(place)))
    }

    fn joins(&self, identity: &Identity) -> Option<Part>
        ensures { result ≡ joins self.now identity.now }
    {
        match self.held(identity) {
            Some(node) => Some(Part::Joiner(node)),
            None => None,
        }
    }

    /// What the node of this process is, once that is known: a founder where the boards of a majority bind the number of its host's place to it, else a joiner by the
    /// number that it was given and holds.
    pub fn part(&self, identity: &Identity) -> Option<Part>
        ensures { result ≡ part self.now identity.now }
    {
        match identity.place {
            Some(place) => {
                if self.holds_place(identity, place) {
                    Some(Part::Founder(place))
                } else {
                    self.joins(identity)
                }
            }
            None => self.joins(identity),
        }
    }
}
