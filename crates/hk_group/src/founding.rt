//! The nodes of a group, before anything happened.

ghost use Rattle.std.specs.Prelude.{◌≡◌, ◌≤◌, ◌<◌, length, map, IfOk};
ghost use Rattle.std.specs.List.{AllByRecursion};
ghost use Rattle.hk_base.specs.declared.time.TheConstants.{MAX_TIME};
ghost use Rattle.hk_node.specs.Made.{joiner};
ghost use Rattle.hk_shard.specs.Shard.{IsNew};
ghost use Rattle.hk_worker.specs.Founding.{names_of, names_of_cells, AreNamed};
ghost use Rattle.hk_base.specs.View.{first_view};
ghost use Rattle.hk_group.specs.Founding.{AreFounders, IsGroup};

use crate::group::Group;
use hk_base::{MAX_TIME, Memory, NodeId, View};
use hk_worker::{Founded, NodeCells, Tickets};
use std::alloc::Global;
use std::sync::{Arc, Wait};

// When the first leases end. With no managers they are never over.
fn first_end(group: &Group) -> u64
    requires { IsGroup group.now }
    ensures { result ≤ MAX_TIME }
{
    if group.managers == 0 {
        MAX_TIME
    } else {
        group.lease
    }
}

// The shards of the node of this number over these cells, at which nothing happened yet. Their first leases end then.
fn found_with<R: Wait>(
    rt: &R,
    alloc: Global,
    cells: NodeCells,
    view: &View,
    group: &Group,
    number: u8,
    tickets: Arc<Tickets>,
    first_end: u64,
) -> Result<Founded, Memory>
    requires group { IsGroup group.now }
    requires view { view.now ≡ first_view group.now.nodes }
    requires number { number < group.now.nodes }
    requires first_end { first_end ≤ MAX_TIME }
    ensures node { IfOk result (λ founded. founded.node ≡ record { 0 = number }) }
    ensures lease { IfOk result (λ founded. founded.lease ≡ group.now.lease) }
    ensures founders { IfOk result (λ founded. AreFounders group.now number first_end founded.shards) }
    ensures cells { IfOk result (λ founded. names_of founded ≡ names_of_cells group.now.skew cells) }
{
    cells.founders(
        rt,
        alloc,
        NodeId(u16::from(number)),
        view,
        first_end,
        group.lease,
        group.skew,
        group.managers,
        tickets,
    )
}

/// The shards of the node of this number, at which nothing happened yet.
pub fn found_node<R: Wait>(
    rt: &R,
    alloc: Global,
    view: &View,
    group: &Group,
    number: u8,
    tickets: &Arc<Tickets>,
) -> Result<Founded, Memory>
    requires group { IsGroup group.now }
    requires view { view.now ≡ first_view group.now.nodes }
    requires number { number < group.now.nodes }
    ensures node { IfOk result (λ founded. founded.node ≡ record { 0 = number }) }
    ensures lease { IfOk result (λ founded. founded.lease ≡ group.now.lease) }
{
    let tickets = Arc::try_clone(tickets)?;
    let cells = NodeCells::new(rt, alloc)?;
    found_with(
        rt,
        alloc,
        cells,
        view,
        group,
        number,
        tickets,
        first_end(group),
    )
}

/// The same over these cells, of a node whose first leases have ended: it has to ask the managers for each that it is to have.
pub fn found_without_lease<R: Wait>(
    rt: &R,
    alloc: Global,
    cells: NodeCells,
    view: &View,
    group: &Group,
    number: u8,
    tickets: Arc<Tickets>,
) -> Result<Founded, Memory>
    requires group { IsGroup group.now }
    requires view { view.now ≡ first_view group.now.nodes }
    requires number { number < group.now.nodes }
    ensures node { IfOk result (λ founded. founded.node ≡ record { 0 = number }) }
    ensures lease { IfOk result (λ founded. founded.lease ≡ group.now.lease) }
    ensures founders { IfOk result (λ founded. AreFounders group.now number 0 founded.shards) }
    ensures cells { IfOk result (λ founded. names_of founded ≡ names_of_cells group.now.skew cells) }
{
    found_with(rt, alloc, cells, view, group, number, tickets, 0)
}

/// The shards over these cells of a node that is to join a group of so many managers, at which nothing happened yet: it has no view, no row and no lease.
pub fn found_joiner<R: Wait>(
    rt: &R,
    alloc: Global,
    cells: NodeCells,
    group: &Group,
    node: NodeId,
    tickets: Arc<Tickets>,
) -> Result<Founded, Memory>
    requires group { IsGroup group.now }
    ensures node { IfOk result (λ founded. founded.node ≡ node) }
    ensures lease { IfOk result (λ founded. founded.lease ≡ group.now.lease) }
    ensures joiners { IfOk result (λ founded. AllByRecursion (IsNew (joiner node group.now.skew group.now.managers)) founded.shards) }
    ensures cells { IfOk result (λ founded. names_of founded ≡ names_of_cells group.now.skew cells) }
{
    cells.joiners(
        rt,
        alloc,
        node,
        group.lease,
        group.skew,
        group.managers,
        tickets,
    )
}

/// The shards of all nodes, node 0 first. So a list of their names, in this order, names each.
pub(crate) fn found_nodes<R: Wait>(
    rt: &R,
    alloc: Global,
    view: &View,
    group: &Group,
) -> Result<Vec<Founded>, Memory>
    requires group { IsGroup group.now }
    requires view { view.now ≡ first_view group.now.nodes }
    ensures named { IfOk result (λ nodes. AreNamed (map names_of nodes.items) nodes.items) }
    ensures all { IfOk result (λ nodes. length nodes.items ≡ group.now.nodes) }
{
    let tickets = Arc::new(alloc, Tickets::new())?;
    let mut nodes = Vec::new(alloc);
    for number in 0..group.nodes {
        let node = found_node(rt, alloc, view, group, number, &tickets)?;
        nodes.push(node)?;
    }
    Ok(nodes)
}
