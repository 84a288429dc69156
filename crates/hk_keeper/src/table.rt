//! The table of wishes.

ghost use Rattle.std.specs.Prelude.{◌≡◌, ◌≤◌, ◌*◌, ◌/◌, ◌&&◌, ℕ, nat_lt, length, slice_get};
ghost use Rattle.std.specs.List.{count_by};
ghost use Rattle.std.specs.Option.{option_copied};
ghost use Rattle.hk_keeper.specs.Heard.{is_up};
ghost use Rattle.hk_keeper.specs.Table.{epoch_of, is_above, is_below, is_overtaken, is_awaited, pause, may_propose, patience, catching_up, can_go, dropped, is_added, dropped_or, proposed, is_begun, wished, wish_at, wish_of, wishes};

use crate::heard::{Heard, NodeHeard, Proposal, ShardHeard, Wish};
use hk_base::{Change, NodeId};
use hk_lease::wait;

fn is_above(asked: Option<u64>, epoch: u64) -> bool
    ensures { result ≡ is_above asked epoch }
{
    match asked {
        Some(asked) => epoch < asked,
        None => false,
    }
}

fn is_below(asked: Option<u64>, epoch: u64) -> bool
    ensures { result ≡ is_below asked epoch }
{
    match asked {
        Some(asked) => asked < epoch,
        None => false,
    }
}

// By how many quarters of a lease a manager waits behind its last proposal.
fn quarters(proposals: u32) -> u64
    ensures few { result ≤ 16 }
    ensures exact { (lease : ℕ) → lease / 4 * result ≡ pause lease proposals }
{
    if proposals == 0 {
        0
    } else if proposals == 1 {
        1
    } else if proposals == 2 {
        2
    } else if proposals == 3 {
        4
    } else if proposals == 4 {
        8
    } else {
        16
    }
}

impl NodeHeard {
    // The epoch of its last ask in the shard, if it asked.
    fn epoch_in(&self, shard: usize) -> Option<u64>
        ensures { result ≡ epoch_of (slice_get self.now.asks shard) }
    {
        match self.asks.get(shard) {
            Some(ask) => ask.epoch,
            None => None,
        }
    }
}

impl ShardHeard {
    // Row 2: a change that can be proposed.
    fn catching_up(&self) -> Change
        ensures { result ≡ catching_up self.now }
    {
        let members = self.held.members.as_slice();
        match members.last() {
            Some(greatest) => {
                if 1 < members.len() {
                    Change::Drop(*greatest)
                } else {
                    Change::Add
                }
            }
            None => Change::Add,
        }
    }
}

fn wished(proposal: Option<Proposal>, begins: bool) -> Wish
    ensures { result ≡ wished proposal begins }
{
    match proposal {
        Some(proposal) => Wish::Propose(proposal),
        None => {
            if begins {
                Wish::Activate
            } else {
                Wish::Nothing
            }
        }
    }
}

impl Heard {
    fn is_overtaken(&self, place: usize, shard: &ShardHeard) -> bool
        ensures { result ≡ is_overtaken self.now place shard.now }
    {
        self.nodes
            .as_slice()
            .iter()
            .any(|node| is_above(node.epoch_in(place), shard.held.epoch))
    }

    fn is_awaited(&self, place: usize, shard: &ShardHeard) -> bool
        ensures { result ≡ is_awaited self.now place shard.now }
    {
        self.nodes.as_slice().iter().any(|node| {
            shard.held.has_member(node.node) && is_below(node.epoch_in(place), shard.held.epoch)
        })
    }

    fn may_propose(&self, shard: &ShardHeard) -> bool
        ensures { result ≡ may_propose self.now shard.now }
    {
        u64::from(self.lease) / 4 * quarters(shard.proposals) <= shard.proposed
    }

    fn count_before(&self) -> usize
        ensures count { result ≡ count_by (λ m. nat_lt m.place self.now.place && is_up self.now m) self.now.managers }
        ensures few { result ≤ length self.now.managers }
    {
        self.managers
            .as_slice()
            .iter()
            .filter(|manager| manager.place < self.place && self.is_up(manager))
            .count()
    }

    // For how long a change is wished before it is proposed.
    fn patience(&self) -> u64
        requires { length self.now.managers ≤ 9 }
        ensures { result ≡ patience self.now }
    {
        self.count_before() as u64 * (u64::from(self.lease) / 4)
    }

    fn can_go(&self, shard: &ShardHeard, member: &NodeId) -> bool
        ensures { result ≡ can_go self.now shard.now member.now }
    {
        self.has_to_go(*member) && self.another_ready(shard, *member)
    }

    // Row 3: whom to drop.
    fn dropped<'s>(&self, shard: &'s ShardHeard) -> Option<&'s NodeId>
        ensures { option_copied result ≡ dropped self.now shard.now }
    {
        shard
            .held
            .members
            .as_slice()
            .iter()
            .find(|member| self.can_go(shard, member))
    }

    // Row 4: whether to add.
    fn is_added(&self, shard: &ShardHeard) -> bool
        ensures { result ≡ is_added self.now shard.now }
    {
        shard.held.members.len() < 16
            && (self.one_ready(shard)
                && (self.is_behind(shard) || (self.all_level(shard) && self.next_may_join(shard))))
    }

    // Rows 3 and 4.
    fn dropped_or_added(&self, shard: &ShardHeard) -> Option<Proposal>
        requires { length self.now.managers ≤ 9 }
        ensures { result ≡ dropped_or self.now shard.now (dropped self.now shard.now) }
    {
        let patience = self.patience();
        match self.dropped(shard) {
            Some(member) => Some(Proposal {
                change: Change::Drop(*member),
                patience,
            }),
            None => {
                if self.is_added(shard) {
                    Some(Proposal {
                        change: Change::Add,
                        patience,
                    })
                } else {
                    None
                }
            }
        }
    }

    // Rows 2 to 4.
    fn proposed(&self, place: usize, shard: &ShardHeard) -> Option<Proposal>
        requires { length self.now.managers ≤ 9 }
        ensures { result ≡ proposed self.now place shard.now }
    {
        if !self.may_propose(shard) {
            return None;
        }
        if self.is_overtaken(place, shard) {
            return Some(Proposal {
                change: shard.catching_up(),
                patience: 0,
            });
        }
        self.dropped_or_added(shard)
    }

    // Row 5.
    fn is_begun(&self, place: usize, shard: &ShardHeard) -> bool
        ensures { result ≡ is_begun self.now place shard.now }
    {
        self.is_awaited(place, shard) && 1 + wait(u64::from(self.lease)) < self.clock
    }

    fn wish_at(&self, place: usize, shard: &ShardHeard) -> Wish
        requires { length self.now.managers ≤ 9 }
        ensures { result ≡ wish_at self.now place shard.now }
    {
        if !self.majority_up() {
            return Wish::Nothing;
        }
        let proposal = self.proposed(place, shard);
        let begins = self.is_begun(place, shard);
        wished(proposal, begins)
    }

    fn wish(&self, place: usize) -> Wish
        requires { length self.now.managers ≤ 9 }
        ensures { result ≡ wish_of self.now place }
    {
        match self.shards.get(place) {
            Some(shard) => self.wish_at(place, shard),
            None => Wish::Nothing,
        }
    }

    /// The wish in each of the eight shards: the first row of the table that holds there, else Nothing.
    pub fn decide(&self) -> [Wish; 8]
        requires { length self.now.managers ≤ 9 }
        ensures { result ≡ wishes self.now }
    {
        [
            self.wish(0),
            self.wish(1),
            self.wish(2),
            self.wish(3),
            self.wish(4),
            self.wish(5),
            self.wish(6),
            self.wish(7),
        ]
    }
}
