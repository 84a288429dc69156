//! How the group stands, as a manager tells it.

ghost use Rattle.std.specs.Prelude.{◌≡◌, ◌++◌, map, take, IfOk, OnOk};
ghost use Rattle.std.specs.List.{flat_map, list_any};
ghost use Rattle.std.specs.Option.{option_copied};
ghost use Rattle.hk_reports.specs.Hearing.{came_ago, is_up_at, is_waiting_state};
ghost use Rattle.hk_office.specs.Board.{places};
ghost use Rattle.hk_office.specs.Telling.{records_by, manager_told, state_shown, node_shown, told_by, node_by, node_told, nodes_told, wait_of, waits_by, waits_told, is_waiting, waiting_by, is_ready_shown, is_ready_member, has_acted, is_quiet, is_lost, founding_shown, status_told};

use crate::board::{PLACES, inside_of};
use crate::marks::is_in_view;
use crate::numbers::numbers;
use crate::office::Office;
use crate::stages::stage_told;
use hk_base::{Actor, Memory, NodeId, Sequence, View};
use hk_inside::{NodeSeen, NodeState, Text};
use hk_lease::wait;
use hk_reports::Came;
use hk_stage::Stage;
use hk_status::{GroupStatus, ManagerLine, NodeLine, NodeShown, NodeTold, WaitLine};
use std::alloc::Global;

/// Since when a manager acts, and for how long what it granted may be held.
#[derive(Clone, Copy, Debug, PartialEq, Eq)]
pub struct Acting {
    /// The reading from which on it acts. None before.
    pub since: Option<u64>,
    /// The last reading at which a lease that it granted may run.
    pub until: u64,
}

// All is lost only behind so many leases without anybody who is ready.
const LEASES_WITHOUT: u64 = 4;

fn copy_of(alloc: Global, text: &[u8]) -> Result<Text, Memory>
    ensures { IfOk result (λ copy. copy ≡ text.now) }
{
    let text = text.to_vec(alloc)?;
    Ok(Sequence::from_vec(text))
}

// ---- managers

fn age_of(now: u64, came: Option<&Came>) -> Option<u64>
    ensures { result ≡ came_ago now (option_copied came.entry) }
{
    match came {
        Some(came) => Some(now.saturating_sub(came.at)),
        None => None,
    }
}

fn records_of(came: Option<&Came>) -> Option<u64>
    ensures { result ≡ records_by (option_copied came.entry) }
{
    match came {
        Some(came) => Some(came.report.records),
        None => None,
    }
}

// The places of so many managers, of 9 at most.
fn places_of(managers: u8) -> &'static [u8]
    ensures { result.now ≡ take managers places }
{
    let count = usize::from(managers);
    if count < PLACES.len() {
        let (front, _) = PLACES.split_at(count);
        front
    } else {
        &PLACES
    }
}

impl Office {
    fn is_manager_up(&self, now: u64, place: u8) -> bool
        ensures { result ≡ is_up_at now self.now.terms.place self.now.terms.lease self.now.reports.came place }
    {
        if place == self.terms.place {
            return true;
        }
        match self.of_manager(place) {
            Some(came) => now.saturating_sub(came.at) <= u64::from(self.terms.lease) / 2,
            None => false,
        }
    }

    #[tactic(auto, unfolding(crate::specs::Telling::manager_told))]
    fn manager_told(&self, alloc: Global, now: u64, place: u8) -> Result<ManagerLine, Memory>
        ensures { IfOk result (λ line. line ≡ manager_told self.now now place) }
    {
        let came = self.of_manager(place);
        let inside = inside_of(alloc, came)?;
        Ok(ManagerLine {
            place,
            inside,
            is_up: self.is_manager_up(now, place),
            age: age_of(now, came),
            records: records_of(came),
        })
    }

    fn managers_told(
        &self,
        alloc: Global,
        now: u64,
        places: &[u8],
    ) -> Result<Sequence<ManagerLine>, Memory>
        ensures { IfOk result (λ lines. lines ≡ map (manager_told self.now now) places.now) }
    {
        let mut lines = Sequence::new(alloc);
        for place in places {
            let line = self.manager_told(alloc, now, *place)?;
            lines.push(line)?;
        }
        Ok(lines)
    }
}

// ---- nodes

fn state_shown(state: NodeState) -> NodeShown
    ensures { result ≡ state_shown state }
{
    match state {
        NodeState::Waiting => NodeShown::Seated,
        NodeState::Seated => NodeShown::Seated,
        NodeState::Copying => NodeShown::Copying,
        NodeState::Ready => NodeShown::Ready,
        NodeState::Leaving => NodeShown::Leaving,
    }
}

fn node_shown(now: u64, lease: u32, came: Option<&Came>) -> NodeShown
    ensures { result ≡ node_shown now lease (option_copied came.entry) }
{
    match came {
        Some(came) => {
            if now.saturating_sub(came.at) <= u64::from(lease) {
                state_shown(came.report.state)
            } else {
                NodeShown::Gone
            }
        }
        None => NodeShown::Gone,
    }
}

fn told_by(alloc: Global, came: Option<&Came>) -> Result<Option<NodeTold>, Memory>
    ensures { IfOk result (λ told. told ≡ told_by (option_copied came.entry)) }
{
    match came {
        Some(came) => {
            let clients = copy_of(alloc, came.report.clients.as_slice())?;
            Ok(Some(NodeTold {
                manager: came.report.manager,
                clients,
                shards: came.report.shards,
                counts: came.report.counts,
            }))
        }
        None => Ok(None),
    }
}

fn put_wait(node: NodeId, seen: &NodeSeen, waits: &mut Vec<WaitLine>) -> Result<(), Memory>
    ensures { OnOk result (waits.new.items ≡ waits.old.items ++ wait_of node seen.now) }
{
    if 0 < seen.unacknowledged {
        waits.push(WaitLine {
            node,
            other: seen.node,
            time: seen.unacknowledged,
        })?;
    }
    Ok(())
}

fn put_all_seen(node: NodeId, nodes: &[NodeSeen], waits: &mut Vec<WaitLine>) -> Result<(), Memory>
    ensures { OnOk result (waits.new.items ≡ waits.old.items ++ flat_map (wait_of node) nodes.now) }
{
    for seen in nodes {
        put_wait(node, seen, waits)?;
    }
    Ok(())
}

fn put_waits_by(node: NodeId, came: Option<&Came>, waits: &mut Vec<WaitLine>) -> Result<(), Memory>
    ensures { OnOk result (waits.new.items ≡ waits.old.items ++ waits_by node (option_copied came.entry)) }
{
    match came {
        Some(came) => put_all_seen(node, came.report.nodes.as_slice(), waits),
        None => Ok(()),
    }
}

fn is_ready_shown(state: NodeShown) -> bool
    ensures { result ≡ is_ready_shown state }
{
    matches!(state, NodeShown::Ready)
}

fn is_ready_member(views: &[View], line: &NodeLine) -> bool
    ensures { result ≡ is_ready_member views.now line.now }
{
    is_ready_shown(line.state) && is_in_view(views, line.node)
}

fn has_ready_member(views: &[View], lines: &[NodeLine]) -> bool
    ensures { result ≡ list_any (is_ready_member views.now) lines.now }
{
    lines.iter().any(|line| is_ready_member(views, line))
}

// Whether it has acted for this time, and no lease runs that it granted.
fn has_acted(now: u64, time: u64, acting: Acting) -> bool
    ensures { result ≡ has_acted now time acting }
{
    match acting.since {
        Some(since) => now.saturating_sub(since) >= time && acting.until < now,
        None => false,
    }
}

impl Office {
    // Whether for four leases no process told that its node is ready, and all leases have ended that this manager may have
    // granted before its process began.
    fn is_quiet(&self, now: u64) -> bool
        ensures { result ≡ is_quiet self.now now }
    {
        let lease = u64::from(self.terms.lease);
        now.saturating_sub(self.reports.ready_at()) >= LEASES_WITHOUT * lease
            && 1 + wait(lease) < now
    }

    fn is_lost(&self, now: u64, acting: Acting, views: &[View], lines: &[NodeLine]) -> bool
        ensures { result ≡ is_lost self.now now acting views.now lines.now }
    {
        let time = LEASES_WITHOUT * u64::from(self.terms.lease);
        0 < views.len()
            && !has_ready_member(views, lines)
            && has_acted(now, time, acting)
            && self.is_quiet(now)
    }
}

impl Office {
    fn node_by(
        &self,
        alloc: Global,
        now: u64,
        node: NodeId,
        came: Option<&Came>,
    ) -> Result<NodeLine, Memory>
        ensures { IfOk result (λ line. line ≡ node_by self.now now node (option_copied came.entry)) }
    {
        let inside = inside_of(alloc, came)?;
        let told = told_by(alloc, came)?;
        Ok(NodeLine {
            node,
            inside,
            state: node_shown(now, self.terms.lease, came),
            told,
        })
    }

    // The line of a number, if it is bound.
    #[tactic(auto, unfolding(crate::specs::Telling::node_told))]
    fn put_node_told(
        &self,
        alloc: Global,
        now: u64,
        node: NodeId,
        lines: &mut Vec<NodeLine>,
    ) -> Result<(), Memory>
        ensures { OnOk result (lines.new.items ≡ lines.old.items ++ node_told self.now now node) }
    {
        if let Some(ticket) = self.roll.bound(Actor::Node(node)) {
            let line = self.node_by(alloc, now, node, self.reports.last(ticket))?;
            lines.push(line)?;
        }
        Ok(())
    }

    fn nodes_told(&self, alloc: Global, now: u64, nodes: &[NodeId]) -> Result<Vec<NodeLine>, Memory>
        ensures { IfOk result (λ lines. lines.items ≡ flat_map (node_told self.now now) nodes.now) }
    {
        let mut lines = Vec::new(alloc);
        for node in nodes {
            self.put_node_told(alloc, now, *node, &mut lines)?;
        }
        Ok(lines)
    }

    // For whom the node of a number waits, if that is bound.
    #[tactic(auto, unfolding(crate::specs::Telling::waits_told))]
    fn put_waits(&self, node: NodeId, waits: &mut Vec<WaitLine>) -> Result<(), Memory>
        ensures { OnOk result (waits.new.items ≡ waits.old.items ++ waits_told self.now node) }
    {
        match self.roll.bound(Actor::Node(node)) {
            Some(ticket) => put_waits_by(node, self.reports.last(ticket), waits),
            None => Ok(()),
        }
    }

    fn waits_told(&self, alloc: Global, nodes: &[NodeId]) -> Result<Vec<WaitLine>, Memory>
        ensures { IfOk result (λ waits. waits.items ≡ flat_map (waits_told self.now) nodes.now) }
    {
        let mut waits = Vec::new(alloc);
        for node in nodes {
            self.put_waits(*node, &mut waits)?;
        }
        Ok(waits)
    }
}

// ---- who has no number yet

fn is_waiting(now: u64, lease: u32, came: &Came) -> bool
    ensures { result ≡ is_waiting now lease came.now }
{
    matches!(came.report.state, NodeState::Waiting)
        && now.saturating_sub(came.at) <= u64::from(lease)
}

fn put_waiting(
    alloc: Global,
    now: u64,
    lease: u32,
    came: &Came,
    waiting: &mut Vec<Text>,
) -> Result<(), Memory>
    ensures { OnOk result (waiting.new.items ≡ waiting.old.items ++ waiting_by now lease came.now) }
{
    if is_waiting(now, lease, came) {
        let inside = inside_of(alloc, Some(came))?;
        waiting.push(inside)?;
    }
    Ok(())
}

fn waiting_told(alloc: Global, now: u64, lease: u32, reports: &[Came]) -> Result<Vec<Text>, Memory>
    ensures { IfOk result (λ waiting. waiting.items ≡ flat_map (waiting_by now lease) reports.now) }
{
    let mut waiting = Vec::new(alloc);
    for came in reports {
        put_waiting(alloc, now, lease, came, &mut waiting)?;
    }
    Ok(waiting)
}

// ---- all of it

fn founding_shown(stage: Stage) -> Option<u64>
    ensures { result ≡ founding_shown stage }
{
    match stage {
        Stage::Empty => None,
        Stage::Founded(founding) => Some(founding),
        Stage::Open(founding) => Some(founding),
    }
}

fn copies_of(alloc: Global, views: &[View]) -> Result<Sequence<View>, Memory>
    ensures { IfOk result (λ copies. copies ≡ views.now) }
{
    let mut copies = Sequence::new(alloc);
    for view in views {
        let copy = view.copy(alloc)?;
        copies.push(copy)?;
    }
    Ok(copies)
}

impl Office {
    /// How the group of this name stands at a reading of the manager's clock. `views` are those that its cores hold, by
    /// the shards' numbers, and none where the group is not open.
    pub fn status(
        &self,
        alloc: Global,
        now: u64,
        name: &[u8],
        views: &[View],
        acting: Acting,
    ) -> Result<GroupStatus, Memory>
        ensures { IfOk result (λ status. status ≡ status_told self.now now name.now views.now acting) }
    {
        let lease = self.terms.lease;
        let shown = self.opening.shown(now);
        let known = numbers(alloc, views)?;
        let group = copy_of(alloc, name)?;
        let managers = self.managers_told(alloc, now, places_of(self.terms.managers))?;
        let held = copies_of(alloc, views)?;
        let nodes = self.nodes_told(alloc, now, &known)?;
        let waits = self.waits_told(alloc, &known)?;
        let waiting = waiting_told(alloc, now, lease, self.reports.all())?;
        let is_lost = self.is_lost(now, acting, views, &nodes);
        Ok(GroupStatus {
            group,
            founding: founding_shown(shown),
            stage: stage_told(shown),
            lease,
            skew: self.terms.skew,
            managers,
            views: held,
            nodes: Sequence::from_vec(nodes),
            waits: Sequence::from_vec(waits),
            waiting: Sequence::from_vec(waiting),
            is_lost,
        })
    }
}
