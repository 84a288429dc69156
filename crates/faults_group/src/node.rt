//! Nodes, as far as views and leases go.

ghost use Rattle.std.specs.Prelude.{◌<◌, ◌≤◌};
ghost use Rattle.hk_base.specs.declared.time.TheConstants.{MAX_TIME};

use crate::identity::MOST_MANAGERS;
use hk_base::{Actor, Body, Letter, MAX_TIME, Memory, NodeId, SHARDS, View};
use hk_lease::node_end;
use hk_link::Parcel;
use std::alloc::Global;

/// One of a node's shards.
#[derive(Drop)]
pub struct NodeShard {
    pub view: Option<View>,
    /// Whether it has all rows.
    pub is_whole: bool,
    // When its lease ends, by the process's clock.
    granted: u64,
    // By managers, the last lease that each granted, and the last epoch that it let begin.
    ends: Vec<u64>,
    activated: Vec<u64>,
}

/// The node of a process.
#[derive(Drop)]
pub struct Node {
    pub number: NodeId,
    pub shards: Vec<NodeShard>,
}

/// What a letter did to a shard.
#[derive(Clone, Copy, PartialEq, Eq)]
pub enum Taken {
    Nothing,
    Lease,
    View,
}

// A node asks a manager for a lease.
#[tactic(auto, unfolding(hk_base::specs::Lengths::body_length))]
fn ask(node: NodeId, manager: u8, shard: u8, epoch: u64, asked: u64) -> Parcel
    requires manager { manager < 9 }
    requires shard { shard < 8 }
    requires time { asked ≤ MAX_TIME }
{
    let letter = Letter {
        from: Actor::Node(node),
        to: Actor::Manager(manager),
        epoch,
        body: Body::LeaseAsk { asked },
    };
    Parcel { shard, letter }
}

// When a lease ends by these ends.
fn end_by(ends: &[u64]) -> u64 {
    match u8::try_from(ends.len()) {
        Ok(managers) => {
            if managers > 0 {
                node_end(ends, managers)
            } else {
                0
            }
        }
        Err(_) => 0,
    }
}

impl NodeShard {
    fn new(alloc: Global, managers: u8, view: Option<View>) -> Result<NodeShard, Memory> {
        let ends = vec![in alloc; 0; usize::from(managers)]?;
        let activated = vec![in alloc; 0; usize::from(managers)]?;
        let is_whole = view.is_some();
        Ok(NodeShard {
            view,
            is_whole,
            granted: 0,
            ends,
            activated,
        })
    }

    /// The epoch of its view, 0 before it has one.
    pub fn epoch(&self) -> u64 {
        match &self.view {
            Some(view) => view.epoch,
            None => 0,
        }
    }

    /// Whether its lease serves at this reading.
    pub fn serves(&self, reading: u64, skew: u64) -> bool {
        self.view.is_some() && reading.saturating_add(skew) < self.granted
    }

    // Whether more of its lease has gone than is left.
    fn is_short(&self, reading: u64, lease: u64, skew: u64) -> bool {
        let left = self.granted.saturating_sub(reading.saturating_add(skew));
        left.saturating_mul(2) < lease.saturating_sub(skew)
    }

    fn take_lease(&mut self, from: u8, end: u64) -> Taken {
        let Some(known) = self.ends.get_mut(usize::from(from)) else {
            return Taken::Nothing;
        };
        *known = (*known).max(end);
        let granted = end_by(&self.ends);
        if granted <= self.granted {
            return Taken::Nothing;
        }
        self.granted = granted;
        Taken::Lease
    }

    // Whether a majority told just this epoch.
    fn is_activated(&self, epoch: u64) -> bool {
        let told = self.activated.iter().filter(|told| **told == epoch).count();
        self.activated.len() / 2 < told
    }

    fn take_activate(
        &mut self,
        alloc: Global,
        node: NodeId,
        from: u8,
        view: &View,
    ) -> Result<Taken, Memory> {
        if self.activated.iter().any(|told| *told > view.epoch) {
            return Ok(Taken::Nothing);
        }
        if let Some(known) = self.activated.get_mut(usize::from(from)) {
            *known = view.epoch;
        }
        let is_new = self.is_activated(view.epoch) && view.epoch > self.epoch();
        if !is_new || !view.has_member(node) {
            return Ok(Taken::Nothing);
        }
        self.view = Some(view.copy(alloc)?);
        Ok(Taken::View)
    }
}

impl Node {
    /// A founder where there is a view, else a joiner.
    pub fn new(
        alloc: Global,
        number: NodeId,
        managers: u8,
        first: Option<&View>,
    ) -> Result<Node, Memory> {
        let mut shards = Vec::new(alloc);
        for _shard in 0..SHARDS {
            let view = match first {
                Some(view) => Some(view.copy(alloc)?),
                None => None,
            };
            shards.push(NodeShard::new(alloc, managers, view)?)?;
        }
        Ok(Node { number, shards })
    }

    /// How many of its shards have all rows.
    pub fn count_whole(&self) -> u8 {
        let mut count: u8 = 0;
        for shard in &self.shards {
            if shard.is_whole {
                count = count.saturating_add(1);
            }
        }
        count
    }

    /// The least epoch of its views.
    pub fn least_epoch(&self) -> u64 {
        let mut least = u64::MAX;
        for shard in &self.shards {
            least = least.min(shard.epoch());
        }
        least
    }

    /// When the first of its leases ends.
    pub fn least_end(&self) -> u64 {
        let mut least = u64::MAX;
        for shard in &self.shards {
            least = least.min(shard.granted);
        }
        least
    }

    /// What it asks a manager for at this reading, in a shard whose lease is short.
    pub fn ask(
        &self,
        manager: u8,
        shard: u8,
        reading: u64,
        lease: u64,
        skew: u64,
    ) -> Option<Parcel> {
        let held = self.shards.get(usize::from(shard))?;
        if usize::from(manager) >= MOST_MANAGERS || shard >= SHARDS || reading > MAX_TIME {
            return None;
        }
        if held.is_short(reading, lease, skew) {
            Some(ask(self.number, manager, shard, held.epoch(), reading))
        } else {
            None
        }
    }

    /// Takes a letter of a manager.
    pub fn take(&mut self, alloc: Global, parcel: &Parcel) -> Result<Taken, Memory> {
        let Actor::Manager(from) = parcel.letter.from else {
            return Ok(Taken::Nothing);
        };
        let Some(shard) = self.shards.get_mut(usize::from(parcel.shard)) else {
            return Ok(Taken::Nothing);
        };
        match &parcel.letter.body {
            Body::LeaseGive { end } => Ok(shard.take_lease(from, *end)),
            Body::Activate(view) => shard.take_activate(alloc, self.number, from, view),
            _ => Ok(Taken::Nothing),
        }
    }
}
