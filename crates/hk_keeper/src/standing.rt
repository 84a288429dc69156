//! How managers and nodes stand.

ghost use Rattle.std.specs.Prelude.{◌≡◌};
ghost use Rattle.std.specs.List.{count_by, list_all};
ghost use Rattle.hk_keeper.specs.Heard.{is_within, is_up, majority_up, is_younger, told_younger, hears, misses, majority_misses, is_gone, told_ready, told_leaving, is_ready, is_leaving, is_out, is_lost, has_to_go, one_ready, another_ready, asks_everywhere, is_silent, may_join, next_may_join, is_behind, all_level};

use crate::heard::{Heard, ManagerHeard, NodeHeard, ShardHeard, StateTold};
use hk_base::NodeId;
use hk_inside::NodeState;

fn is_within(age: Option<u64>, time: u64) -> bool
    ensures { result ≡ is_within age time }
{
    match age {
        Some(age) => age <= time,
        None => false,
    }
}

fn told_ready(told: Option<StateTold>, time: u64) -> bool
    ensures { result ≡ told_ready told time }
{
    match told {
        Some(told) => matches!(told.state, NodeState::Ready) && told.age <= time,
        None => false,
    }
}

fn told_leaving(told: Option<StateTold>, time: u64) -> bool
    ensures { result ≡ told_leaving told time }
{
    match told {
        Some(told) => matches!(told.state, NodeState::Leaving) && told.age <= time,
        None => false,
    }
}

impl NodeHeard {
    // Whether its age is below this one.
    fn is_younger(&self, time: u64) -> bool
        ensures { result ≡ is_younger self.now time }
    {
        self.asks.iter().all(|ask| ask.age < time)
    }

    fn asks_everywhere(&self, time: u64) -> bool
        ensures { result ≡ asks_everywhere self.now time }
    {
        self.asks
            .iter()
            .all(|ask| ask.epoch.is_some() && ask.age <= time)
    }

    fn is_silent(&self, time: u64) -> bool
        ensures { result ≡ is_silent self.now time }
    {
        self.asks.iter().all(|ask| time <= ask.age)
    }
}

impl ManagerHeard {
    // Whether it told an age of the node that is below this one.
    fn told_younger(&self, node: NodeId, time: u64) -> bool
        ensures { result ≡ told_younger self.now node time }
    {
        self.ages
            .as_slice()
            .iter()
            .any(|told| told.node.0 == node.0 && told.age < time)
    }
}

impl Heard {
    // The length of a lease.
    fn lease(&self) -> u64
        ensures { result ≡ self.now.lease }
    {
        u64::from(self.lease)
    }

    pub(crate) fn is_up(&self, manager: &ManagerHeard) -> bool
        ensures { result ≡ is_up self.now manager.now }
    {
        manager.place == self.place || is_within(manager.report, self.lease() / 2)
    }

    fn count_up(&self) -> usize
        ensures { result ≡ count_by (is_up self.now) self.now.managers }
    {
        self.managers
            .as_slice()
            .iter()
            .filter(|manager| self.is_up(manager))
            .count()
    }

    /// Whether more than half of the managers are up, this one counted.
    pub fn majority_up(&self) -> bool
        ensures { result ≡ majority_up self.now }
    {
        self.managers.len() / 2 < self.count_up()
    }

    fn hears(&self, node: &NodeHeard, manager: &ManagerHeard) -> bool
        ensures { result ≡ hears self.now node.now manager.now }
    {
        let time = 3 * self.lease() / 4;
        if manager.place == self.place {
            node.is_younger(time)
        } else {
            manager.told_younger(node.node, time)
        }
    }

    fn misses(&self, node: &NodeHeard, manager: &ManagerHeard) -> bool
        ensures { result ≡ misses self.now node.now manager.now }
    {
        self.is_up(manager) && !self.hears(node, manager)
    }

    fn count_missing(&self, node: &NodeHeard) -> usize
        ensures { result ≡ count_by (misses self.now node.now) self.now.managers }
    {
        self.managers
            .as_slice()
            .iter()
            .filter(|manager| self.misses(node, manager))
            .count()
    }

    fn majority_misses(&self, node: &NodeHeard) -> bool
        ensures { result ≡ majority_misses self.now node.now }
    {
        self.managers.len() / 2 < self.count_missing(node)
    }

    fn is_gone(&self, node: &NodeHeard) -> bool
        ensures { result ≡ is_gone self.now node.now }
    {
        !node.is_younger(self.lease()) && self.majority_misses(node)
    }

    fn is_ready(&self, node: &NodeHeard) -> bool
        ensures { result ≡ is_ready self.now node.now }
    {
        told_ready(node.told, self.lease()) && node.is_younger(self.lease())
    }

    fn is_leaving(&self, node: &NodeHeard) -> bool
        ensures { result ≡ is_leaving self.now node.now }
    {
        told_leaving(node.told, self.lease())
    }

    fn is_out(&self, member: NodeId) -> bool
        ensures { result ≡ is_out self.now member }
    {
        self.shards.as_slice().iter().any(|shard| {
            u32::from(member.0) < shard.held.next && !shard.held.has_member(member)
        })
    }

    fn is_lost(&self, member: NodeId) -> bool
        ensures { result ≡ is_lost self.now member }
    {
        self.nodes.as_slice().iter().any(|node| {
            node.node.0 == member.0 && (self.is_gone(node) || self.is_leaving(node))
        })
    }

    pub(crate) fn has_to_go(&self, member: NodeId) -> bool
        ensures { result ≡ has_to_go self.now member }
    {
        self.is_lost(member) || self.is_out(member)
    }

    pub(crate) fn one_ready(&self, shard: &ShardHeard) -> bool
        ensures { result ≡ one_ready self.now shard.now }
    {
        self.nodes.as_slice().iter().any(|node| shard.held.has_member(node.node)
            && self.is_ready(node))
    }

    /// Whether in each shard a member is ready.
    pub fn each_has_ready(&self) -> bool
        ensures { result ≡ list_all (one_ready self.now) self.now.shards }
    {
        self.shards
            .as_slice()
            .iter()
            .all(|shard| self.one_ready(shard))
    }

    /// Whether in each shard a member is ready that is not this one.
    pub fn each_has_another(&self, member: NodeId) -> bool
        ensures { result ≡ list_all (λ s. another_ready self.now s member) self.now.shards }
    {
        self.shards
            .as_slice()
            .iter()
            .all(|shard| self.another_ready(shard, member))
    }

    pub(crate) fn another_ready(&self, shard: &ShardHeard, member: NodeId) -> bool
        ensures { result ≡ another_ready self.now shard.now member }
    {
        self.nodes.as_slice().iter().any(|node| {
            node.node.0 != member.0 && (shard.held.has_member(node.node) && self.is_ready(node))
        })
    }

    fn may_join(&self, node: &NodeHeard) -> bool
        ensures { result ≡ may_join self.now node.now }
    {
        node.bound
            && (node.asks_everywhere(self.lease() / 4)
                || (node.is_silent(2 * self.lease()) && self.newcomer))
    }

    pub(crate) fn next_may_join(&self, shard: &ShardHeard) -> bool
        ensures { result ≡ next_may_join self.now shard.now }
    {
        self.nodes.as_slice().iter().any(|node| u32::from(node.node.0) == shard.held.next
            && self.may_join(node))
    }

    pub(crate) fn is_behind(&self, shard: &ShardHeard) -> bool
        ensures { result ≡ is_behind self.now shard.now }
    {
        self.shards
            .as_slice()
            .iter()
            .any(|other| shard.held.next < other.held.next)
    }

    pub(crate) fn all_level(&self, shard: &ShardHeard) -> bool
        ensures { result ≡ all_level self.now shard.now }
    {
        self.shards
            .as_slice()
            .iter()
            .all(|other| other.held.next == shard.held.next)
    }
}
