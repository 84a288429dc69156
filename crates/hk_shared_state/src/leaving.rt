//! How the node of a process leaves its group.

ghost use Rattle.std.specs.Prelude.{◌≡◌, ◌+◌, ◌*◌, nat_le};
ghost use Rattle.hk_shared_state.specs.Leaving.{is_ready, is_to_leave, leaves_on, leaving_noted};

use crate::identity::Identity;
use crate::standing::Standing;
use hk_inside::NodeState;

fn is_ready(state: NodeState) -> bool
    ensures { result ≡ is_ready state }
{
    match state {
        NodeState::Waiting => false,
        NodeState::Seated => false,
        NodeState::Copying => false,
        NodeState::Ready => true,
        NodeState::Leaving => false,
    }
}

// Whether so many leases have passed since a reading.
fn have_passed(since: u64, leases: u8, lease: u32, now: u64) -> bool
    ensures { result ≡ nat_le (since + leases * lease) now }
{
    match since.checked_add(u64::from(leases) * u64::from(lease)) {
        Some(end) => end <= now,
        None => false,
    }
}

impl Standing {
    fn is_to_leave(&self, identity: &Identity) -> bool
        ensures { result ≡ is_to_leave self.now identity.now }
    {
        match self.node {
            Some(node) => self
                .boards
                .is_to_leave(self.founding, node, identity.ticket),
            None => false,
        }
    }

    // It leaves since a reading.
    fn leave_on(&mut self, since: u64, identity: &Identity, now: u64)
        ensures { self.new ≡ leaves_on since self.old identity.now now }
    {
        if have_passed(since, 4, identity.lease, now) && !self.is_to_leave(identity) {
            self.state = NodeState::Ready;
            self.leaving = None;
        } else if have_passed(since, 2, identity.lease, now) {
            self.state = NodeState::Leaving;
        }
    }

    /// Notes, at this reading, whether its node is to leave: one that is ready leaves from then on. It stays where it still is a member four leases later, and nobody
    /// wants it to leave any more. Its reports tell that it leaves two leases behind its beginning, when its own leases are over, so that a view without it begins
    /// at once.
    pub fn note_leaving(&mut self, identity: &Identity, now: u64)
        ensures { self.new ≡ leaving_noted self.old identity.now now }
    {
        match self.leaving {
            Some(since) => self.leave_on(since, identity, now),
            None => {
                if is_ready(self.state) && self.is_to_leave(identity) {
                    self.leaving = Some(now);
                }
            }
        }
    }
}
