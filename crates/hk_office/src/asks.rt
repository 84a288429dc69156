//! How long ago nodes asked for leases.

ghost use Rattle.std.specs.Prelude.{◌≡◌, ◌<◌, max, map, IfOk, IfSome};
ghost use Rattle.std.specs.List.{list_all, reduce};
ghost use Rattle.hk_office.specs.Asks.{asked_in_all, oldest, age_of_ask, seen_of, asks_seen};

use crate::office::Office;
use hk_base::{Memory, Sequence, View};
use hk_inside::{NodeSeen, NodesSeen};
use hk_keeper::{Ask, NodeHeard};
use std::alloc::Global;

// The greatest age of an ask that is told.
const GREATEST_AGE: u64 = 4_294_967_294;

fn asked_in_all(asks: &[Ask]) -> bool
    ensures { result ≡ asked_in_all asks.now }
{
    asks.iter().all(|ask| ask.epoch.is_some())
}

fn oldest(asks: &[Ask]) -> Option<u64>
    ensures { result ≡ oldest asks.now }
{
    asks.iter().map(|ask| ask.age).max()
}

// In the shard where that is longest, if it asked in each. An age above the greatest counts as that.
fn age_of_ask(asks: &[Ask]) -> Option<u32>
    ensures { result ≡ age_of_ask asks.now }
{
    if !asked_in_all(asks) {
        return None;
    }
    let oldest = oldest(asks)?;
    Some(oldest.min(GREATEST_AGE) as u32)
}

fn seen_of(node: &NodeHeard) -> NodeSeen
    ensures { result ≡ seen_of node.now }
{
    NodeSeen {
        node: node.node,
        age_of_ask: age_of_ask(&node.asks),
        unacknowledged: 0,
    }
}

fn all_seen(alloc: Global, nodes: &[NodeHeard]) -> Result<NodesSeen, Memory>
    ensures { IfOk result (λ seen. seen ≡ map seen_of nodes.now) }
{
    let mut seen = Sequence::new(alloc);
    for node in nodes {
        seen.push(seen_of(node))?;
    }
    Ok(seen)
}

impl Office {
    /// How long ago each node that it knows of asked its cores for leases, as other managers are told.
    pub fn asks_seen(&self, alloc: Global, now: u64, views: &[View]) -> Result<NodesSeen, Memory>
        ensures { IfOk result (λ seen. seen ≡ asks_seen self.now now views.now) }
    {
        let heard = self.heard(alloc, now, views)?;
        all_seen(alloc, heard.nodes.as_slice())
    }
}
