//! What a manager has heard at one moment.

ghost use Rattle.std.specs.Prelude.{◌≡◌, ◌≤◌, ◌+◌, map, take, length, if◌then◌else◌, slice_get, IfOk, OnOk};
ghost use Rattle.std.specs.List.{find, filter_map, list_any};
ghost use Rattle.std.specs.Option.{option_copied};
ghost use Rattle.hk_base.specs.View.{is_member};
ghost use Rattle.hk_reports.specs.declared.hearing.TheConstants.{PLACES};
ghost use Rattle.hk_reports.specs.Reports.{age, number_of};
ghost use Rattle.hk_reports.specs.Hearing.{places, is_manager, is_up_at, bit, managers_up, age_told, manager_by, manager_heard, with_node, with_nodes, with_members, known_nodes, is_node, state_told, silent_since, ask_heard, ask_in, asks_heard, node_heard, node_by, is_waiting_state, is_newcomer, proposals_by, shard_by, shards_heard, heard_by};

use crate::kept::{AskCame, Came, NumberKept, Proposed};
use crate::reports::MANAGERS;
use crate::steps::number_of;
use hk_base::{Memory, NodeId, Sequence, View};
use hk_inside::{NodeSeen, NodeState};
use hk_keeper::{AgeTold, Ask, Heard, ManagerHeard, NodeHeard, ShardHeard, StateTold};
use std::alloc::Global;

// The places of managers.
static PLACES: [u8; MANAGERS] = [0, 1, 2, 3, 4, 5, 6, 7, 8];

// How long ago that was.
pub(crate) fn age(now: u64, at: u64) -> u64
    ensures { result ≡ age now at }
{
    now.saturating_sub(at)
}

// Whether the process says that it has the manager of this place.
fn is_manager(place: u8, came: &Came) -> bool
    ensures { result ≡ is_manager place came.now }
{
    match came.report.manager {
        Some(told) => told == place,
        None => false,
    }
}

fn last_of_manager(came: &[Came], place: u8) -> Option<&Came>
    ensures { option_copied result ≡ find (is_manager place) came.now }
{
    came.iter().find(|last| is_manager(place, *last))
}

pub(crate) fn is_up(now: u64, own: u8, lease: u32, came: &[Came], place: u8) -> bool
    ensures { result ≡ is_up_at now own lease came.now place }
{
    if place == own {
        return true;
    }
    match last_of_manager(came, place) {
        Some(last) => age(now, last.at) <= u64::from(lease) / 2,
        None => false,
    }
}

pub(crate) fn bit(up: bool, value: u16) -> u16
    ensures exact { result ≡ bit up value }
    ensures few { result ≤ value }
{
    if up { value } else { 0 }
}

fn age_told(seen: &NodeSeen) -> Option<AgeTold>
    ensures { result ≡ age_told seen.now }
{
    match seen.age_of_ask {
        Some(age) => Some(AgeTold {
            node: seen.node,
            age: u64::from(age),
        }),
        None => None,
    }
}

fn ages_told(alloc: Global, seen: &[NodeSeen]) -> Result<Vec<AgeTold>, Memory>
    ensures { IfOk result (λ ages. ages.items ≡ filter_map age_told seen.now) }
{
    let ages = seen
        .iter()
        .filter_map(|node| age_told(node))
        .collect(alloc)?;
    Ok(ages)
}

fn manager_heard(alloc: Global, now: u64, came: &[Came], place: u8) -> Result<ManagerHeard, Memory>
    ensures { IfOk result (λ heard. heard ≡ manager_heard now came.now place) }
{
    match last_of_manager(came, place) {
        Some(last) => {
            let ages = ages_told(alloc, last.report.nodes.as_slice())?;
            Ok(ManagerHeard {
                place,
                report: Some(age(now, last.at)),
                ages: Sequence::from_vec(ages),
            })
        }
        None => Ok(ManagerHeard {
            place,
            report: None,
            ages: Sequence::new(alloc),
        }),
    }
}

// The places of so many managers, of 9 at most.
fn places(managers: u8) -> &'static [u8]
    ensures { result.now ≡ places managers }
{
    let count = usize::from(managers).min(MANAGERS);
    let (places, _) = PLACES.split_at(count);
    places
}

// What is heard of the managers of so many places, the first ones.
pub(crate) fn managers_heard(
    alloc: Global,
    now: u64,
    came: &[Came],
    count: u8,
) -> Result<Sequence<ManagerHeard>, Memory>
    ensures { IfOk result (λ managers. managers ≡ map (manager_heard now came.now) (places count)) }
{
    let mut managers = Sequence::new(alloc);
    for place in places(count) {
        let manager = manager_heard(alloc, now, came, *place)?;
        managers.push(manager)?;
    }
    Ok(managers)
}

fn has_node(nodes: &[NodeId], node: NodeId) -> bool
    ensures { result ≡ is_member node nodes.now }
{
    nodes.contains(&node)
}

fn add_node(nodes: &mut Vec<NodeId>, node: NodeId) -> Result<(), Memory>
    ensures { OnOk result (nodes.new.items ≡ with_node node nodes.old.items) }
{
    if !has_node(nodes.as_slice(), node) {
        nodes.push(node)?;
    }
    Ok(())
}

fn add_nodes(nodes: &mut Vec<NodeId>, more: &[NodeId]) -> Result<(), Memory>
    ensures { OnOk result (nodes.new.items ≡ with_nodes nodes.old.items more.now) }
{
    for node in more {
        add_node(nodes, *node)?;
    }
    Ok(())
}

// Each node that is bound, and each member of a view, once.
pub(crate) fn known_nodes(
    alloc: Global,
    views: &[View],
    bound: &[NodeId],
) -> Result<Vec<NodeId>, Memory>
    ensures { IfOk result (λ nodes. nodes.items ≡ known_nodes views.now bound.now) }
{
    let mut nodes = Vec::new(alloc);
    add_nodes(&mut nodes, bound)?;
    for view in views {
        add_nodes(&mut nodes, view.members.as_slice())?;
    }
    Ok(nodes)
}

// Whether the process says that it has this number.
fn is_node(node: NodeId, came: &Came) -> bool
    ensures { result ≡ is_node node came.now }
{
    match came.report.node {
        Some(told) => told.0 == node.0,
        None => false,
    }
}

fn last_of_node(came: &[Came], node: NodeId) -> Option<&Came>
    ensures { option_copied result ≡ find (is_node node) came.now }
{
    came.iter().find(|last| is_node(node, *last))
}

fn state_told(now: u64, came: &[Came], node: NodeId) -> Option<StateTold>
    ensures { result ≡ state_told now came.now node }
{
    match last_of_node(came, node) {
        Some(last) => Some(StateTold {
            state: last.report.state,
            age: age(now, last.at),
        }),
        None => None,
    }
}

fn silent_since(start: u64, bound: Option<u64>) -> u64
    ensures { result ≡ silent_since start bound }
{
    match bound {
        Some(bound) => start.max(bound),
        None => start,
    }
}

fn ask_heard(now: u64, since: u64, ask: Option<AskCame>) -> Ask
    ensures { result ≡ ask_heard now since ask }
{
    match ask {
        Some(ask) => Ask {
            age: age(now, ask.at),
            epoch: Some(ask.epoch),
        },
        None => Ask {
            age: age(now, since),
            epoch: None,
        },
    }
}

impl NumberKept {
    // The last ask of its node in a shard, as a keeper wants it.
    fn ask_in(&self, now: u64, start: u64, shard: usize) -> Ask
        ensures { result ≡ ask_in now start self.now shard }
    {
        let since = silent_since(start, self.bound);
        match self.asks.get(shard) {
            Some(ask) => ask_heard(now, since, *ask),
            None => ask_heard(now, since, None),
        }
    }

    fn asks_heard(&self, now: u64, start: u64) -> [Ask; 8]
        ensures { result ≡ asks_heard now start self.now }
    {
        [
            self.ask_in(now, start, 0),
            self.ask_in(now, start, 1),
            self.ask_in(now, start, 2),
            self.ask_in(now, start, 3),
            self.ask_in(now, start, 4),
            self.ask_in(now, start, 5),
            self.ask_in(now, start, 6),
            self.ask_in(now, start, 7),
        ]
    }
}

// What is heard of a node of which this is kept.
pub(crate) fn node_heard(
    now: u64,
    start: u64,
    came: &[Came],
    number: NumberKept,
    bound: &[NodeId],
) -> NodeHeard
    ensures { result ≡ node_by now start came.now number bound.now }
{
    NodeHeard {
        node: number.node,
        bound: has_node(bound, number.node),
        told: state_told(now, came, number.node),
        asks: number.asks_heard(now, start),
    }
}

// Whether a process without a number waits.
pub(crate) fn is_newcomer(now: u64, lease: u32, came: &Came) -> bool
    ensures { result ≡ is_newcomer now lease came.now }
{
    matches!(came.report.state, NodeState::Waiting)
        && came.report.node.is_none()
        && age(now, came.at) <= u64::from(lease)
}

// How many changes this manager proposed of the view of this epoch, and how long ago the last one.
fn proposals_of(now: u64, epoch: u64, proposed: &[Proposed], shard: usize) -> (u32, u64)
    ensures { result ≡ proposals_by now epoch (slice_get proposed.now shard) }
{
    match proposed.get(shard) {
        Some(last) => {
            if last.epoch == epoch {
                (last.count, age(now, last.at))
            } else {
                (0, 0)
            }
        }
        None => (0, 0),
    }
}

fn shard_heard(
    alloc: Global,
    now: u64,
    proposed: &[Proposed],
    shard: usize,
    view: &View,
) -> Result<ShardHeard, Memory>
    ensures { IfOk result (λ heard. heard ≡ shard_by now view.now (slice_get proposed.now shard)) }
{
    let held = view.copy(alloc)?;
    let (proposals, ago) = proposals_of(now, view.epoch, proposed, shard);
    Ok(ShardHeard {
        held,
        proposals,
        proposed: ago,
    })
}

// What is known of the shards of these views.
pub(crate) fn shards_heard(
    alloc: Global,
    now: u64,
    proposed: &[Proposed],
    views: &[View],
) -> Result<Sequence<ShardHeard>, Memory>
    ensures { IfOk result (λ shards. shards ≡ shards_heard now proposed.now 0 views.now) }
{
    let mut shards = Sequence::new(alloc);
    for (shard, view) in views.iter().enumerate() {
        let heard = shard_heard(alloc, now, proposed, shard, view)?;
        shards.push(heard)?;
    }
    Ok(shards)
}
