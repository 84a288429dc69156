//! The shards of a node that is to be made.

ghost use Rattle.std.specs.Prelude.{◌≡◌, ◌≤◌, true, IfOk};
ghost use Rattle.std.specs.List.{AllByRecursion};
ghost use Rattle.hk_base.specs.declared.time.TheConstants.{MAX_TIME};
ghost use Rattle.hk_base.specs.View.{IsView, is_member};
ghost use Rattle.hk_node.specs.Made.{founder, joiner};
ghost use Rattle.hk_shard.specs.Shard.{IsNew};
ghost use Rattle.hk_worker.specs.Founding.{AreOver, IsOver, names_of, names_of_cells};

use crate::asking::Tickets;
use crate::eight::{Eight, each_made};
use crate::shards::Founded;
use crate::waiting::Waits;
use hk_base::{Memory, NodeId, View};
use hk_link::Bell;
use hk_node::Node;
use hk_shard::{Shard, ShardCells};
use std::alloc::Global;
use std::marker::Model;
use std::sync::{Arc, Wait};

/// The cells of the eight shards of a node that is to be made: which they are can be told before the node has a number. Contracts see them, those of shard 0 first.
#[derive(Drop)]
pub struct NodeCells {
    shards: Eight<ShardCells>,
}

impl Model for NodeCells {
    ghost use Rattle.std.specs.Prelude.{List, ◌∷◌, []};
    ghost use Rattle.hk_shard.specs.Shard.{CellsState};

    ghost Value = { List CellsState };

    ghost view = { λ n. n.shards.of_0 ∷ n.shards.of_1 ∷ n.shards.of_2 ∷ n.shards.of_3 ∷ n.shards.of_4 ∷ n.shards.of_5 ∷ n.shards.of_6 ∷ n.shards.of_7 ∷ [] };
}

// A shard over a founder.
fn founder<R: Wait>(
    rt: &R,
    alloc: Global,
    cells: ShardCells,
    node: NodeId,
    view: &View,
    lease_end: u64,
    skew: u64,
    managers: u8,
) -> Result<Shard, Memory>
    requires view { IsView view.now }
    requires member { is_member node view.now.members ≡ true }
    requires lease_end { lease_end ≤ MAX_TIME }
    requires skew { skew ≤ MAX_TIME }
    requires managers { managers ≤ 9 }
    ensures { IfOk result (IsOver (founder node view.now lease_end skew managers) skew cells) }
{
    let view = view.copy(alloc)?;
    let base = Node::founder(alloc, node, view, lease_end, skew, managers)?;
    Shard::over(rt, alloc, cells, base)
}

// All eight of them.
fn founders<R: Wait>(
    rt: &R,
    alloc: Global,
    cells: Eight<ShardCells>,
    node: NodeId,
    view: &View,
    lease_end: u64,
    skew: u64,
    managers: u8,
) -> Result<Eight<Shard>, Memory>
    requires view { IsView view.now }
    requires member { is_member node view.now.members ≡ true }
    requires lease_end { lease_end ≤ MAX_TIME }
    requires skew { skew ≤ MAX_TIME }
    requires managers { managers ≤ 9 }
    ensures { IfOk result (AreOver (founder node view.now lease_end skew managers) skew cells) }
{
    let Eight {
        of_0,
        of_1,
        of_2,
        of_3,
        of_4,
        of_5,
        of_6,
        of_7,
    } = cells;
    let made = Eight {
        of_0: founder(rt, alloc, of_0, node, view, lease_end, skew, managers),
        of_1: founder(rt, alloc, of_1, node, view, lease_end, skew, managers),
        of_2: founder(rt, alloc, of_2, node, view, lease_end, skew, managers),
        of_3: founder(rt, alloc, of_3, node, view, lease_end, skew, managers),
        of_4: founder(rt, alloc, of_4, node, view, lease_end, skew, managers),
        of_5: founder(rt, alloc, of_5, node, view, lease_end, skew, managers),
        of_6: founder(rt, alloc, of_6, node, view, lease_end, skew, managers),
        of_7: founder(rt, alloc, of_7, node, view, lease_end, skew, managers),
    };
    each_made(made)
}

// A shard over a joiner.
fn joiner<R: Wait>(
    rt: &R,
    alloc: Global,
    cells: ShardCells,
    node: NodeId,
    skew: u64,
    managers: u8,
) -> Result<Shard, Memory>
    requires skew { skew ≤ MAX_TIME }
    requires managers { managers ≤ 9 }
    ensures { IfOk result (IsOver (joiner node skew managers) skew cells) }
{
    let base = Node::joiner(alloc, node, skew, managers)?;
    Shard::over(rt, alloc, cells, base)
}

// All eight of them.
fn joiners<R: Wait>(
    rt: &R,
    alloc: Global,
    cells: Eight<ShardCells>,
    node: NodeId,
    skew: u64,
    managers: u8,
) -> Result<Eight<Shard>, Memory>
    requires skew { skew ≤ MAX_TIME }
    requires managers { managers ≤ 9 }
    ensures { IfOk result (AreOver (joiner node skew managers) skew cells) }
{
    let Eight {
        of_0,
        of_1,
        of_2,
        of_3,
        of_4,
        of_5,
        of_6,
        of_7,
    } = cells;
    let made = Eight {
        of_0: joiner(rt, alloc, of_0, node, skew, managers),
        of_1: joiner(rt, alloc, of_1, node, skew, managers),
        of_2: joiner(rt, alloc, of_2, node, skew, managers),
        of_3: joiner(rt, alloc, of_3, node, skew, managers),
        of_4: joiner(rt, alloc, of_4, node, skew, managers),
        of_5: joiner(rt, alloc, of_5, node, skew, managers),
        of_6: joiner(rt, alloc, of_6, node, skew, managers),
        of_7: joiner(rt, alloc, of_7, node, skew, managers),
    };
    each_made(made)
}

impl NodeCells {
    /// Cells that show nothing.
    pub fn new<R: Wait>(rt: &R, alloc: Global) -> Result<NodeCells, Memory> {
        let made = Eight {
            of_0: ShardCells::new(rt, alloc),
            of_1: ShardCells::new(rt, alloc),
            of_2: ShardCells::new(rt, alloc),
            of_3: ShardCells::new(rt, alloc),
            of_4: ShardCells::new(rt, alloc),
            of_5: ShardCells::new(rt, alloc),
            of_6: ShardCells::new(rt, alloc),
            of_7: ShardCells::new(rt, alloc),
        };
        let shards = each_made(made)?;
        Ok(NodeCells { shards })
    }

    /// Eight shards over these at which nothing has happened yet, each of a founder of this number. The first leases end at `lease_end`, which may be 0; a lease that is
    /// asked for is `lease` milliseconds long.
    pub fn founders<R: Wait>(
        self,
        rt: &R,
        alloc: Global,
        node: NodeId,
        view: &View,
        lease_end: u64,
        lease: u64,
        skew: u64,
        managers: u8,
        tickets: Arc<Tickets>,
    ) -> Result<Founded, Memory>
        requires view { IsView view.now }
        requires member { is_member node view.now.members ≡ true }
        requires lease_end { lease_end ≤ MAX_TIME }
        requires skew { skew ≤ MAX_TIME }
        requires managers { managers ≤ 9 }
        ensures node { IfOk result (λ founded. founded.node ≡ node) }
        ensures skew { IfOk result (λ founded. founded.skew ≡ skew) }
        ensures lease { IfOk result (λ founded. founded.lease ≡ lease) }
        ensures founders { IfOk result (λ founded. AllByRecursion (IsNew (founder node view.now lease_end skew managers)) founded.shards) }
        ensures cells { IfOk result (λ founded. names_of founded ≡ names_of_cells skew self) }
    {
        let bell = Arc::new(alloc, Bell::new())?;
        let shards = founders(
            rt,
            alloc,
            self.shards,
            node,
            view,
            lease_end,
            skew,
            managers,
        )?;
        Ok(Founded {
            alloc,
            node,
            skew,
            lease,
            managers,
            shards,
            tickets,
            bell,
            waits: Waits::usual(),
        })
    }

    /// Eight shards over these at which nothing has happened yet, each of a joiner of this number: it has no view, no row and no lease. A lease that is asked for is
    /// `lease` milliseconds long.
    pub fn joiners<R: Wait>(
        self,
        rt: &R,
        alloc: Global,
        node: NodeId,
        lease: u64,
        skew: u64,
        managers: u8,
        tickets: Arc<Tickets>,
    ) -> Result<Founded, Memory>
        requires skew { skew ≤ MAX_TIME }
        requires managers { managers ≤ 9 }
        ensures node { IfOk result (λ founded. founded.node ≡ node) }
        ensures skew { IfOk result (λ founded. founded.skew ≡ skew) }
        ensures lease { IfOk result (λ founded. founded.lease ≡ lease) }
        ensures joiners { IfOk result (λ founded. AllByRecursion (IsNew (joiner node skew managers)) founded.shards) }
        ensures cells { IfOk result (λ founded. names_of founded ≡ names_of_cells skew self) }
    {
        let bell = Arc::new(alloc, Bell::new())?;
        let shards = joiners(rt, alloc, self.shards, node, skew, managers)?;
        Ok(Founded {
            alloc,
            node,
            skew,
            lease,
            managers,
            shards,
            tickets,
            bell,
            waits: Waits::usual(),
        })
    }
}
