//! The job that reports to a manager, and hears its board.

ghost use Rattle.std.specs.Prelude.{◌≡◌, ◌<◌, ◌≤◌, IfSome, IfOk};
ghost use Rattle.std.specs.List.{filter};
ghost use Rattle.hk_inside.specs.Parts.{IsReportInRange};
ghost use Rattle.hk_inside.specs.Messages.{IsInquiryInRange};
ghost use Rattle.hk_channel.specs.Reporting.{number_told, manager_told, lease_left, shards_told, fits, nodes_told, report_of, IsReport, IsAskedThen};

use crate::asking::AskManager;
use hk_base::{Memory, NodeId, SHARDS, Sequence};
use hk_boards::HeardBoard;
use hk_fields::Ticket;
use hk_inside::{Board, Inquiry, NodeSeen, NodesSeen, Report, Response, ShardsTold};
use hk_outside::{Clock, Job};
use hk_shared_state::{
    Coming, Identity, Notice, Presence, ShardsSeen, SharedState, Standing, rest,
};
use std::alloc::Global;
use std::io::Eprint;
use std::sync::{Arc, Wait};

/// Reports to the manager of a host at each beat, and keeps the board that it answers with. The operator is told where
/// it answers none for a lease, and where it is back then.
#[derive(Drop)]
pub struct ReportJob<R: Wait + Drop, C: Drop, A: Drop> {
    pub shared: Arc<SharedState<R, C>>,
    /// The place of that host.
    pub place: u8,
    pub asker: A,
}

// The greatest number says in a report that there is none.
const NO_NODE: u16 = u16::MAX;

// The greatest number says in a report that a node never asked.
const NO_AGE: u32 = u32::MAX;

// A report tells of so many nodes at most.
const MOST_NODES: usize = 255;

// The number as it is reported.
fn number_told(node: Option<NodeId>) -> Option<NodeId>
    ensures exact { result ≡ number_told node }
    ensures range { IfSome result (λ node. node.0 < 65535) }
{
    match node {
        Some(node) => { if node.0 < NO_NODE { Some(node) } else { None } }
        None => None,
    }
}

// The place of the process's manager, once that is open.
fn manager_told(manager: Option<Ticket>, place: Option<u8>) -> Option<u8>
    ensures { result ≡ manager_told manager place }
{
    match manager {
        Some(_) => place,
        None => None,
    }
}

// For how many milliseconds a lease that ends then serves on.
fn lease_left(end: u64, skew: u32, now: u64) -> u32
    ensures { result ≡ lease_left end skew now }
{
    let left = end.saturating_sub(now.saturating_add(u64::from(skew)));
    left.min(u64::from(u32::MAX)) as u32
}

// What a node tells of its shards.
fn shards_told(seen: ShardsSeen, skew: u32, now: u64) -> ShardsTold
    ensures exact { result ≡ shards_told seen skew now }
    ensures range { result.ready ≤ 8 }
{
    ShardsTold {
        ready: seen.ready.min(SHARDS),
        least_epoch: seen.least_epoch,
        least_lease_left: lease_left(seen.lease_end, skew, now),
    }
}

// Whether the age, if there is one, may stand in a report.
fn fits(seen: &NodeSeen) -> bool
    ensures { result ≡ fits seen.now }
{
    match seen.age_of_ask {
        Some(age) => age < NO_AGE,
        None => true,
    }
}

fn keep_fitting(nodes: &mut Vec<NodeSeen>)
    ensures { nodes.new.items ≡ filter fits nodes.old.items }
{
    nodes.retain(|seen| fits(seen));
}

// What was seen of nodes, as it is reported.
fn nodes_told(
    alloc: Global,
    asks: &[NodeSeen],
    unacknowledged: &[NodeSeen],
) -> Result<NodesSeen, Memory>
    ensures { IfOk result (λ nodes. nodes ≡ nodes_told asks.now unacknowledged.now) }
{
    let mut told = asks.to_vec(alloc)?;
    told.extend_from_slice(unacknowledged)?;
    keep_fitting(&mut told);
    told.truncate(MOST_NODES);
    Ok(Sequence::from_vec(told))
}

/// What a process tells of itself that stands so at a reading of its clock, in milliseconds.
pub fn report_of(
    alloc: Global,
    identity: &Identity,
    standing: &Standing,
    now: u64,
) -> Result<Report, Memory>
    ensures exact { IfOk result (λ report. report ≡ report_of identity.now standing.now now) }
    ensures range { IfOk result IsReportInRange }
{
    let inside = identity.inside.as_slice().to_vec(alloc)?;
    let clients = identity.clients.as_slice().to_vec(alloc)?;
    Ok(Report {
        ticket: identity.ticket,
        node: number_told(standing.node),
        state: standing.state,
        manager: manager_told(standing.manager, identity.place),
        records: standing.records,
        shards: shards_told(standing.shards, identity.skew, now),
        counts: standing.counts,
        inside: Sequence::from_vec(inside),
        clients: Sequence::from_vec(clients),
        nodes: nodes_told(
            alloc,
            standing.asks.as_slice(),
            standing.unacknowledged.as_slice(),
        )?,
    })
}

// How the process stands now.
fn report<R: Wait + Drop, C: Clock + Drop>(shared: &SharedState<R, C>) -> Result<Report, Memory>
    ensures range { IfOk result IsReportInRange }
    ensures tells { IfOk result (IsReport shared.now.identity) }
{
    let now = shared.clock.now();
    let guard = shared.standing.lock(&shared.rt);
    let standing = &*guard;
    match report_of(shared.alloc, &shared.identity, standing, now) {
        Ok(report) => Ok(report),
        Err(memory) => Err(memory),
    }
}

// Keeps the board of a manager as its last one.
fn keep<R: Wait + Drop, C: Drop>(shared: &SharedState<R, C>, place: u8, heard: HeardBoard) {
    let mut guard = shared.standing.lock(&shared.rt);
    let standing = &mut *guard;
    standing.boards.hear(place, heard);
    standing.note_boards();
}

// Keeps what a manager told, and tells this host's own.
fn hear<R: Wait + Drop, C: Clock + Drop>(
    shared: &SharedState<R, C>,
    place: u8,
    asked: u64,
    board: Board,
) {
    let heard = HeardBoard {
        asked,
        came: shared.clock.now(),
        board,
    };
    keep(shared, place, heard);
    if shared.identity.place.is_some() {
        shared.mailbox.put(&shared.rt, Coming::Told { place });
    }
}

// Reports once, and gives whether the manager told its board.
fn report_to<R: Wait + Drop, C: Clock + Drop, A: AskManager>(
    shared: &SharedState<R, C>,
    place: u8,
    asker: &mut A,
) -> bool {
    let asked = shared.clock.now();
    let Ok(report) = report(shared) else {
        return false;
    };
    let Some(Response::Board(board)) = asker.ask(&Inquiry::Report(report)) else {
        return false;
    };
    hear(shared, place, asked, board);
    true
}

// Notes whether the manager of a place answered, and tells the operator where it is gone, or back.
fn watch<R: Wait + Eprint + Drop, C: Clock + Drop>(
    shared: &SharedState<R, C>,
    place: u8,
    presence: &mut Presence,
    has_answered: bool,
) {
    let now = shared.clock.now();
    if has_answered {
        if presence.shows(now) {
            shared.tell(&Notice::Back { place });
        }
    } else if presence.misses(u64::from(shared.identity.lease), now) {
        shared.tell(&Notice::Gone { place });
    }
}

// What is to be asked of the manager of this place beside the report.
fn asks_of<R: Wait + Drop, C: Clock + Drop>(
    shared: &SharedState<R, C>,
    place: u8,
) -> Option<Inquiry>
    ensures range { IfSome result IsInquiryInRange }
    ensures asks { IsAskedThen shared.now.identity place result }
{
    let now = shared.clock.now();
    let guard = shared.standing.lock(&shared.rt);
    let standing = &*guard;
    standing.asks_of(&shared.identity, place, now)
}

// Keeps the number that the manager gave.
fn keep_given<R: Wait + Drop, C: Drop>(shared: &SharedState<R, C>, node: NodeId) {
    let mut guard = shared.standing.lock(&shared.rt);
    let standing = &mut *guard;
    standing.take_given(node);
}

fn keep_refusal<R: Wait + Drop, C: Drop>(shared: &SharedState<R, C>, place: u8, node: NodeId) {
    let mut guard = shared.standing.lock(&shared.rt);
    let standing = &mut *guard;
    standing.note_refusal(place, node);
}

// Keeps what a manager answered to what was asked of it beside the report.
fn take_answer<R: Wait + Drop, C: Drop>(
    shared: &SharedState<R, C>,
    place: u8,
    claimed: Option<NodeId>,
    answer: Response,
) {
    match answer {
        Response::Seated(node) => keep_given(shared, node),
        Response::No { .. } => {
            if let Some(node) = claimed {
                keep_refusal(shared, place, node);
            }
        }
        _ => {}
    }
}

// The number that is claimed by what is asked.
fn number_claimed(inquiry: &Inquiry) -> Option<NodeId> {
    match inquiry {
        Inquiry::Claim { node, .. } => Some(*node),
        _ => None,
    }
}

// Asks the manager of this place for a number, or for the one that was given, where that is to be asked.
fn seek<R: Wait + Drop, C: Clock + Drop, A: AskManager>(
    shared: &SharedState<R, C>,
    place: u8,
    asker: &mut A,
) {
    let Some(inquiry) = asks_of(shared, place) else {
        return;
    };
    let claimed = number_claimed(&inquiry);
    if let Some(answer) = asker.ask(&inquiry) {
        take_answer(shared, place, claimed, answer);
    }
}

impl<
    R: Wait + Eprint + Send + Sync + Drop + 'static,
    C: Clock + Send + Sync + Drop + 'static,
    A: AskManager + Send + Drop + 'static,
> Job for ReportJob<R, C, A> {
    fn run(self) {
        let ReportJob {
            shared,
            place,
            mut asker,
        } = self;
        let beat = shared.identity.beat();
        let mut presence = Presence::Unseen;
        for _ in shared.rt.forever() {
            let has_answered = report_to(&*shared, place, &mut asker);
            watch(&*shared, place, &mut presence, has_answered);
            seek(&*shared, place, &mut asker);
            rest(&shared.rt, beat);
        }
    }
}
