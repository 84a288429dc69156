//! The requests for leases that are due.

ghost use Rattle.std.specs.Prelude.{◌≡◌, ◌<◌, length, None, MatchOption, IfOk, IfSome};
ghost use Rattle.hk_turns.specs.Requests.{first_due, no_requests, raised, requests_in, IsTaken};

use hk_base::{Memory, SHARDS};
use std::alloc::Global;
use std::marker::Model;

/// For each of a node's eight shards, to how many of the managers its request for a lease has still to go. Contracts see how many managers there are, and these
/// numbers by shard.
#[derive(Drop)]
pub struct LeaseRequests {
    managers: u8,
    left: Vec<u8>,
}

impl Model for LeaseRequests {
    ghost use Rattle.std.specs.Prelude.{◌≡◌, length};
    ghost use Rattle.hk_turns.specs.Requests.{RequestState};

    ghost Value = { RequestState };

    ghost view = { λ r. record { managers = r.managers; left = r.left.items } };

    ghost invariant = { λ r. length r.left.items ≡ 8 };
}

// The first shard that has a request to make.
fn first_due(left: &[u8]) -> Option<usize>
    ensures { result ≡ first_due left.now }
{
    left.iter().position(|count| *count > 0)
}

impl LeaseRequests {
    /// No request is due. There are so many managers.
    pub fn new(alloc: Global, managers: u8) -> Result<LeaseRequests, Memory>
        ensures { IfOk result (λ made. made ≡ no_requests managers) }
    {
        let left = vec![in alloc; 0u8; usize::from(SHARDS)]?;
        Ok(LeaseRequests { managers, left })
    }

    /// The shard is to ask each manager once. It takes no memory.
    pub fn raise(&mut self, shard: u8)
        requires { shard < 8 }
        ensures raised { self.new ≡ raised self.old shard }
        ensures long { length self.old.left ≡ 8 }
    {
        self.left[usize::from(shard)] = self.managers;
    }

    /// How many requests are due.
    pub fn count(&self) -> u64
        ensures { result ≡ requests_in self.now.left }
    {
        let mut due = 0;
        for place in 0..usize::from(SHARDS) {
            due += u64::from(self.left[place]);
        }
        due
    }

    /// Takes the first request that is due, in the order of shards and managers: the shard and the manager that it asks. It takes no memory.
    pub fn take(&mut self) -> Option<(u8, u8)>
        ensures taken { MatchOption result ((first_due self.old.left ≡ None) × (self.new ≡ self.old)) (λ request. IsTaken request.0 request.1 self.old self.new) }
        ensures below { IfSome result (λ request. request.0 < 8) }
    {
        let shard = first_due(self.left.as_slice())?;
        let count = self.left[shard];
        self.left[shard] = count.saturating_sub(1);
        Some((shard as u8, self.managers.saturating_sub(count)))
    }
}
