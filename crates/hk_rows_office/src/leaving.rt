//! Who of three ready nodes may leave. Leases last 1,000 ms; the manager is 0 of 3, and its process began at 100.

ghost use Rattle.std.specs.Prelude.{◌≡◌, ◌<◌, ◌≤◌, length};
ghost use Rattle.hk_base.specs.declared.time.TheConstants.{MAX_TIME};

use crate::reports::{READY, Told, report, views};
use hk_base::{NodeId, Sequence};
use hk_fields::{FoundingHosts, HostTickets, Ticket};
use hk_inside::{Board, Inquiry, Leaver, Mark, NodeState, Party};
use hk_log::Founding;
use hk_office::{GroupLog, Office, OfficeAnswer, OfficeRefusal};
use hk_restore::Terms;
use std::alloc::Global;
use std::process::Abort;

const TERMS: Terms = Terms {
    place: 0,
    managers: 3,
    lease: 1_000,
    skew: 10,
};

const HOST: HostTickets = HostTickets {
    manager: Ticket([10; 16]),
    node: Ticket([1; 16]),
};

const SECOND: HostTickets = HostTickets {
    manager: Ticket([11; 16]),
    node: Ticket([2; 16]),
};

const THIRD: HostTickets = HostTickets {
    manager: Ticket([12; 16]),
    node: Ticket([3; 16]),
};

fn hosts(rt: &impl Abort, alloc: Global) -> FoundingHosts
    ensures { length result ≡ 3 }
{
    let mut hosts = Vec::new(alloc);
    hosts.push(HOST).expect(rt, "memory");
    hosts.push(SECOND).expect(rt, "memory");
    hosts.push(THIRD).expect(rt, "memory");
    Sequence::from_vec(hosts)
}

// Of an open group of three hosts.
fn office(rt: &impl Abort, alloc: Global) -> Option<Office> {
    let logged = GroupLog {
        founding: Some(Founding {
            number: 7,
            place: 0,
            lease: 1_000,
            skew: 10,
            hosts: hosts(rt, alloc),
        }),
        is_open: true,
        bindings: Sequence::new(alloc),
    };
    Office::begin(alloc, TERMS, HOST, &logged, 100).ok()
}

// The node of a host reports, whose manager is open.
fn tell(
    rt: &impl Abort,
    alloc: Global,
    office: &mut Office,
    now: u64,
    host: u8,
    state: NodeState,
) -> OfficeAnswer
    requires { now ≤ MAX_TIME }
{
    let told = Told {
        ticket: host.wrapping_add(1),
        node: Some(u16::from(host)),
        state,
        manager: Some(host),
        ..READY
    };
    let inquiry = Inquiry::Report(report(rt, alloc, told));
    let views = views(rt, alloc);
    let step = office
        .answer(alloc, now, &views, &[], inquiry)
        .expect(rt, "memory");
    step.answer
}

fn ask_in_all(rt: &impl Abort, office: &mut Office, now: u64, node: u16) {
    for shard in 0..8 {
        office
            .note_ask(now, shard, NodeId(node), 3)
            .expect(rt, "memory");
    }
}

// All three nodes are ready.
fn stand(rt: &impl Abort, alloc: Global, office: &mut Office, now: u64)
    requires { now ≤ MAX_TIME }
{
    for host in 0..3_u8 {
        ask_in_all(rt, office, now, u16::from(host));
        let _board = tell(rt, alloc, office, now, host, NodeState::Ready);
    }
}

// What is answered where somebody wants a node to leave.
fn leave(rt: &impl Abort, alloc: Global, office: &mut Office, now: u64, node: u16) -> OfficeAnswer
    requires { now ≤ MAX_TIME }
{
    let views = views(rt, alloc);
    let inquiry = Inquiry::Leave(Leaver::Node(NodeId(node)));
    let step = office
        .answer(alloc, now, &views, &[], inquiry)
        .expect(rt, "memory");
    step.answer
}

fn is_yes(answer: &OfficeAnswer) -> bool {
    matches!(answer, OfficeAnswer::Yes)
}

fn is_refused(answer: &OfficeAnswer, why: OfficeRefusal) -> bool {
    match answer {
        OfficeAnswer::No(refusal) => *refusal == why,
        _ => false,
    }
}

fn mark_in(board: &Board, node: u16) -> Option<Mark> {
    match board
        .lines
        .as_slice()
        .iter()
        .find(|line| line.party == Party::Node(NodeId(node)))
    {
        Some(line) => Some(line.mark),
        None => None,
    }
}

// How a node stands, as the ready one of host 0 is told.
fn mark(rt: &impl Abort, alloc: Global, office: &mut Office, now: u64, node: u16) -> Option<Mark>
    requires { now ≤ MAX_TIME }
{
    match &tell(rt, alloc, office, now, 0, NodeState::Ready) {
        OfficeAnswer::Board(board) => mark_in(board, node),
        _ => None,
    }
}

#[test]
fn one_stays_of_all_that_are_ready(rt: HostRuntime) {
    let alloc = rt.alloc();
    let mut office = office(&rt, alloc).expect(&rt, "memory");
    stand(&rt, alloc, &mut office, 500);
    assert!(rt; is_yes(&leave(&rt, alloc, &mut office, 500, 0)));
    assert!(rt; is_yes(&leave(&rt, alloc, &mut office, 600, 1)));
    let third = leave(&rt, alloc, &mut office, 700, 2);
    assert!(rt; is_refused(&third, OfficeRefusal::NoOtherIsReady));
    // who wants again what it was granted is granted it
    assert!(rt; is_yes(&leave(&rt, alloc, &mut office, 700, 0)));
    assert_eq!(rt; mark(&rt, alloc, &mut office, 700, 0), Some(Mark::ToLeave));
    assert_eq!(rt; mark(&rt, alloc, &mut office, 700, 1), Some(Mark::ToLeave));
    assert_eq!(rt; mark(&rt, alloc, &mut office, 700, 2), Some(Mark::Member));
}

#[test]
fn who_stays_after_a_lease_counts_again(rt: HostRuntime) {
    let alloc = rt.alloc();
    let mut office = office(&rt, alloc).expect(&rt, "memory");
    stand(&rt, alloc, &mut office, 500);
    assert!(rt; is_yes(&leave(&rt, alloc, &mut office, 500, 0)));
    assert!(rt; is_yes(&leave(&rt, alloc, &mut office, 600, 1)));
    stand(&rt, alloc, &mut office, 1_400);
    let early = leave(&rt, alloc, &mut office, 1_499, 2);
    assert!(rt; is_refused(&early, OfficeRefusal::NoOtherIsReady));
    assert!(rt; is_yes(&leave(&rt, alloc, &mut office, 1_500, 2)));
}

#[test]
fn who_is_refused_is_not_to_leave_any_more(rt: HostRuntime) {
    let alloc = rt.alloc();
    let mut office = office(&rt, alloc).expect(&rt, "memory");
    stand(&rt, alloc, &mut office, 500);
    assert!(rt; is_yes(&leave(&rt, alloc, &mut office, 500, 0)));
    assert!(rt; is_yes(&leave(&rt, alloc, &mut office, 500, 1)));
    let _board = tell(&rt, alloc, &mut office, 600, 2, NodeState::Copying);
    let again = leave(&rt, alloc, &mut office, 600, 0);
    assert!(rt; is_refused(&again, OfficeRefusal::NoOtherIsReady));
    assert_eq!(rt; mark(&rt, alloc, &mut office, 600, 0), Some(Mark::Member));
    // so it counts for others
    assert!(rt; is_yes(&leave(&rt, alloc, &mut office, 600, 1)));
    assert_eq!(rt; mark(&rt, alloc, &mut office, 600, 1), Some(Mark::ToLeave));
    // two managers are silent for too long
    let silent = leave(&rt, alloc, &mut office, 1_101, 1);
    assert!(rt; is_refused(&silent, OfficeRefusal::NoMajority));
    assert_eq!(rt; mark(&rt, alloc, &mut office, 1_101, 1), Some(Mark::Member));
}
