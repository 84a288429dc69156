//! What a manager makes of reports, asks and what it noted itself. Leases last 1,000 ms; the manager is 0 of 3, and its process began at 1.

use hk_base::{Members, NodeId, View};
use hk_fields::Ticket;
use hk_inside::{Counts, NodeSeen, NodeState, NodesSeen, Report, ShardsTold, Text};
use hk_keeper::{Ask, Heard, StateTold};
use hk_reports::{MOST_PROCESSES, Reports};
use std::alloc::Global;
use std::process::Abort;

// What is told in a report.
#[derive(Clone, Copy)]
pub struct Told {
    pub ticket: u8,
    pub node: Option<u16>,
    pub state: NodeState,
    pub manager: Option<u8>,
    pub records: u64,
    // At which address, as one byte.
    pub inside: u8,
    // The age of node 2's ask.
    pub age: Option<u32>,
}

pub const READY: Told = Told {
    ticket: 7,
    node: Some(1),
    state: NodeState::Ready,
    manager: Some(1),
    records: 40,
    inside: b'b',
    age: Some(310),
};

const NEWCOMER: Told = Told {
    ticket: 9,
    node: None,
    state: NodeState::Waiting,
    manager: None,
    records: 0,
    inside: b'd',
    age: None,
};

fn text(rt: &impl Abort, alloc: Global, byte: u8) -> Text {
    let mut text = Text::new(alloc);
    text.push(byte).expect(rt, "memory");
    text
}

fn nodes_seen(rt: &impl Abort, alloc: Global, age: Option<u32>) -> NodesSeen {
    let mut nodes = NodesSeen::new(alloc);
    let two = NodeSeen {
        node: NodeId(2),
        age_of_ask: age,
        unacknowledged: 0,
    };
    nodes.push(two).expect(rt, "memory");
    nodes
}

pub fn report(rt: &impl Abort, alloc: Global, told: Told) -> Report {
    Report {
        ticket: Ticket([told.ticket; 16]),
        node: match told.node {
            Some(number) => Some(NodeId(number)),
            None => None,
        },
        state: told.state,
        manager: told.manager,
        records: told.records,
        shards: ShardsTold {
            ready: 8,
            least_epoch: 3,
            least_lease_left: 900,
        },
        counts: Counts {
            keys: 0,
            bytes: 0,
            gets: 0,
            sets: 0,
            busy: 0,
            aborted: 0,
            unknown: 0,
        },
        inside: text(rt, alloc, told.inside),
        clients: text(rt, alloc, told.inside),
        nodes: nodes_seen(rt, alloc, told.age),
    }
}

fn take(rt: &impl Abort, alloc: Global, reports: &mut Reports, now: u64, told: Told) {
    let report = report(rt, alloc, told);
    reports.take(now, report).expect(rt, "memory");
}

// The view of epoch 3, with members 0 to 2.
fn founders(rt: &impl Abort, alloc: Global) -> View {
    let mut members = Members::new(alloc);
    for number in 0..3_u16 {
        members.push(NodeId(number)).expect(rt, "memory");
    }
    View {
        epoch: 3,
        members,
        next: 3,
    }
}

// Of all eight shards.
pub fn views(rt: &impl Abort, alloc: Global) -> Vec<View> {
    let mut views = Vec::new(alloc);
    for _ in 0..8 {
        views.push(founders(rt, alloc)).expect(rt, "memory");
    }
    views
}

fn heard(rt: &impl Abort, alloc: Global, reports: &Reports, now: u64) -> Heard {
    let views = views(rt, alloc);
    let bound = [NodeId(3), NodeId(0)];
    reports
        .heard(alloc, now, 0, 3, 1000, views.as_slice(), &bound)
        .expect(rt, "memory")
}

fn numbers(rt: &impl Abort, alloc: Global, heard: &Heard) -> Vec<u16> {
    let mut numbers = Vec::new(alloc);
    for node in heard.nodes.as_slice() {
        numbers.push(node.node.0).expect(rt, "memory");
    }
    numbers
}

fn state_of(heard: &Heard, place: usize) -> Option<StateTold> {
    match heard.nodes.get(place) {
        Some(node) => node.told,
        None => None,
    }
}

fn ask(heard: &Heard, place: usize, shard: usize) -> Option<Ask> {
    match heard.nodes.get(place) {
        Some(node) => match node.asks.get(shard) {
            Some(ask) => Some(*ask),
            None => None,
        },
        None => None,
    }
}

fn report_age(heard: &Heard, place: usize) -> Option<u64> {
    match heard.managers.get(place) {
        Some(manager) => manager.report,
        None => None,
    }
}

fn proposals(heard: &Heard, shard: usize) -> Option<(u32, u64)> {
    match heard.shards.get(shard) {
        Some(shard) => Some((shard.proposals, shard.proposed)),
        None => None,
    }
}

fn came_at(reports: &Reports, ticket: u8) -> Option<u64> {
    match reports.last(Ticket([ticket; 16])) {
        Some(came) => Some(came.at),
        None => None,
    }
}

#[test]
fn the_last_report_of_a_ticket_is_kept(rt: HostRuntime) {
    let alloc = rt.alloc();
    let mut reports = Reports::new(alloc, 1);
    take(&rt, alloc, &mut reports, 50_000, READY);
    take(&rt, alloc, &mut reports, 50_010, NEWCOMER);
    take(&rt, alloc, &mut reports, 50_062, READY);
    assert_eq!(rt; reports.all().len(), 2);
    assert_eq!(rt; came_at(&reports, 7), Some(50_062));
    assert_eq!(rt; came_at(&reports, 9), Some(50_010));
    assert_eq!(rt; came_at(&reports, 8), None);
}

#[test]
fn the_process_that_is_silent_for_longest_goes(rt: HostRuntime) {
    let alloc = rt.alloc();
    let mut reports = Reports::new(alloc, 1);
    for ticket in 0..65_u8 {
        let told = Told { ticket, ..NEWCOMER };
        take(&rt, alloc, &mut reports, 100 + u64::from(ticket), told);
    }
    assert_eq!(rt; reports.all().len(), MOST_PROCESSES);
    assert_eq!(rt; came_at(&reports, 0), None);
    assert_eq!(rt; came_at(&reports, 1), Some(101));
}

#[test]
fn managers_are_up_for_half_a_lease(rt: HostRuntime) {
    let alloc = rt.alloc();
    let mut reports = Reports::new(alloc, 1);
    let third = Told {
        ticket: 8,
        manager: Some(2),
        ..READY
    };
    take(&rt, alloc, &mut reports, 49_499, third);
    take(&rt, alloc, &mut reports, 49_500, READY);
    assert_eq!(rt; reports.managers_up(50_000, 0, 1000), 3);
    assert_eq!(rt; reports.managers_up(50_000, 2, 1000), 6);
    assert_eq!(rt; reports.managers_up(60_000, 0, 1000), 1);
}

#[test]
fn the_most_records_are_kept(rt: HostRuntime) {
    let alloc = rt.alloc();
    let mut reports = Reports::new(alloc, 1);
    take(&rt, alloc, &mut reports, 10, READY);
    let older = Told {
        ticket: 8,
        records: 31,
        ..READY
    };
    take(&rt, alloc, &mut reports, 20, older);
    assert_eq!(rt; reports.most_records(1), 40);
    assert_eq!(rt; reports.most_records(2), 0);
    assert_eq!(rt; reports.most_records(200), 0);
}

// Who was given a number, and somebody else.
const OWN: Ticket = Ticket([1; 16]);

const OTHER: Ticket = Ticket([2; 16]);

#[test]
fn an_address_is_seated_in_vain_for_ten_minutes(rt: HostRuntime) {
    let alloc = rt.alloc();
    let mut reports = Reports::new(alloc, 1);
    reports
        .note_seated(alloc, 1000, NodeId(5), OWN, b"d")
        .expect(&rt, "memory");
    reports
        .note_seated(alloc, 1000, NodeId(6), OWN, b"e")
        .expect(&rt, "memory");
    assert!(rt; reports.was_lately_in_vain(600_999, b"d", OTHER));
    assert!(rt; !reports.was_lately_in_vain(601_000, b"d", OTHER));
    assert!(rt; !reports.was_lately_in_vain(1000, b"f", OTHER));
    let ready = Told {
        inside: b'd',
        ..READY
    };
    take(&rt, alloc, &mut reports, 2000, ready);
    assert!(rt; !reports.was_lately_in_vain(2000, b"d", OTHER));
    assert!(rt; reports.was_lately_in_vain(2000, b"e", OTHER));
}

#[test]
fn who_loses_a_race_for_a_number_is_not_seated_in_vain(rt: HostRuntime) {
    let alloc = rt.alloc();
    let mut reports = Reports::new(alloc, 1);
    reports
        .note_seated(alloc, 1000, NodeId(5), OWN, b"d")
        .expect(&rt, "memory");
    // whoever was given it asks again
    assert!(rt; !reports.was_lately_in_vain(1000, b"d", OWN));
    assert!(rt; reports.was_lately_in_vain(1000, b"d", OTHER));
    // another one has it
    reports
        .note_bound(1100, NodeId(5), OTHER)
        .expect(&rt, "memory");
    assert!(rt; !reports.was_lately_in_vain(1100, b"d", OTHER));
}

#[test]
fn a_keeper_hears_all_of_it(rt: HostRuntime) {
    let alloc = rt.alloc();
    let mut reports = Reports::new(alloc, 1);
    take(&rt, alloc, &mut reports, 49_970, READY);
    take(&rt, alloc, &mut reports, 49_000, NEWCOMER);
    reports
        .note_bound(40_000, NodeId(3), OWN)
        .expect(&rt, "memory");
    reports
        .note_ask(49_960, 5, NodeId(1), 3)
        .expect(&rt, "memory");
    reports.note_proposal(49_000, 6, 2);
    reports.note_proposal(49_500, 6, 3);
    reports.note_proposal(49_750, 6, 3);
    let heard = heard(&rt, alloc, &reports, 50_000);
    assert_eq!(rt;
        numbers(&rt, alloc, &heard).as_slice(),
        [3, 0, 1, 2].as_slice()
    );
    assert_eq!(rt; heard.managers.len(), 3);
    assert_eq!(rt; report_age(&heard, 1), Some(30));
    assert_eq!(rt; report_age(&heard, 2), None);
    assert_eq!(rt;
        state_of(&heard, 2),
        Some(StateTold {
            state: NodeState::Ready,
            age: 30
        })
    );
    assert_eq!(rt; state_of(&heard, 1), None);
    assert_eq!(rt;
        ask(&heard, 0, 5),
        Some(Ask {
            age: 10_000,
            epoch: None
        })
    );
    assert_eq!(rt;
        ask(&heard, 2, 5),
        Some(Ask {
            age: 40,
            epoch: Some(3)
        })
    );
    assert_eq!(rt;
        ask(&heard, 2, 4),
        Some(Ask {
            age: 49_999,
            epoch: None
        })
    );
    assert!(rt; heard.newcomer);
    assert_eq!(rt; proposals(&heard, 6), Some((2, 250)));
    assert_eq!(rt; proposals(&heard, 0), Some((0, 0)));
}
