//! The nodes of a storm.

ghost use Rattle.std.specs.Prelude.{◌≡◌, ◌<◌, ◌≤◌, ◌+◌, length, IfOk, OnOk};
ghost use Rattle.hk_script.specs.Drawn.{group_of};
ghost use Rattle.hk_world.specs.Start.{founding_view};
ghost use Rattle.hk_locked.specs.Places.{node_names};
ghost use Rattle.hk_worker.specs.Founding.{names_of, AreNamed};
ghost use Rattle.hk_storm.specs.Founding.{AreFounded};

use crate::quiet::Quiet;
use hk_base::{MAX_TIME, Memory, NodeId, View};
use hk_locked::Places;
use hk_worker::{Founded, Shards, Tickets};
use std::alloc::Global;
use std::marker::Brand;
use std::sync::{Arc, Wait};

/// The shards of a node, which its callers and workers share.
pub(crate) type Node<P> = Arc<Shards<Quiet, P>>;

// The shards of a founder.
fn found_one<R: Wait>(
    rt: &R,
    alloc: Global,
    view: &View,
    node: u8,
    nodes: u8,
    tickets: &Arc<Tickets>,
) -> Result<Founded, Memory>
    requires node { node < nodes }
    requires few { nodes ≤ 8 }
    requires view { view.now ≡ founding_view (group_of nodes) }
    ensures { IfOk result (λ founded. founded.node ≡ record { 0 = node }) }
{
    let tickets = Arc::try_clone(tickets)?;
    let id = NodeId(u16::from(node));
    Shards::<Quiet, Brand>::founders(rt, alloc, id, view, MAX_TIME, MAX_TIME, 0, 0, tickets)
}

// Puts the founder of this number behind those of lower numbers.
fn put_founder<R: Wait>(
    rt: &R,
    alloc: Global,
    view: &View,
    node: u8,
    nodes: u8,
    tickets: &Arc<Tickets>,
    all: &mut Vec<Founded>,
) -> Result<(), Memory>
    requires node { node < nodes }
    requires few { nodes ≤ 8 }
    requires view { view.now ≡ founding_view (group_of nodes) }
    ensures { AreFounded all.old.items → length all.old.items ≡ node → OnOk result (AreFounded all.new.items × (length all.new.items ≡ node + 1)) }
{
    let founded = found_one(rt, alloc, view, node, nodes, tickets)?;
    all.push(founded)?;
    Ok(())
}

/// The founders of a storm, whose leases end at the limit of clocks.
pub(crate) fn found_all<R: Wait>(
    rt: &R,
    alloc: Global,
    nodes: u8,
    tickets: &Arc<Tickets>,
) -> Result<Vec<Founded>, Memory>
    requires few { nodes ≤ 8 }
    ensures { IfOk result (λ founded. AreFounded founded.items) }
{
    let view = View::first(alloc, nodes)?;
    let mut all = Vec::new(alloc);
    for node in 0..nodes {
        put_founder(rt, alloc, &view, node, nodes, tickets, &mut all)?;
    }
    Ok(all)
}

// Puts the shards of a node under their locks.
fn put_node<P: Places>(
    alloc: Global,
    founded: Founded,
    nodes: &mut Vec<Node<P>>,
) -> Result<(), Memory>
    requires { node_names P.places founded.node ≡ names_of founded }
{
    let node = Arc::new(alloc, founded.named())?;
    nodes.push(node)?;
    Ok(())
}

// Puts the shards of all nodes under their locks.
fn put_nodes<P: Places>(
    alloc: Global,
    founded: Vec<Founded>,
    nodes: &mut Vec<Node<P>>,
) -> Result<(), Memory>
    requires { AreNamed P.places founded.items }
{
    for one in founded {
        put_node(alloc, one, nodes)?;
    }
    Ok(())
}

/// The shards of all nodes under their locks.
pub(crate) fn name_all<P: Places>(
    alloc: Global,
    founded: Vec<Founded>,
) -> Result<Vec<Node<P>>, Memory>
    requires { AreNamed P.places founded.items }
{
    let mut nodes = Vec::new(alloc);
    put_nodes(alloc, founded, &mut nodes)?;
    Ok(nodes)
}
