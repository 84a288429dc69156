//! When a manager tells that all is lost.

ghost use Rattle.std.specs.Prelude.{◌≡◌, length};

use hk_base::{NodeId, Sequence, View};
use hk_fields::{FoundingHosts, HostTickets, Ticket};
use hk_log::Founding;
use hk_office::{Acting, GroupLog, Office};
use hk_restore::Terms;
use std::alloc::Global;
use std::process::Abort;

const TERMS: Terms = Terms {
    place: 0,
    managers: 1,
    lease: 1_000,
    skew: 10,
};

const TICKETS: HostTickets = HostTickets {
    manager: Ticket([1; 16]),
    node: Ticket([2; 16]),
};

fn hosts(rt: &impl Abort, alloc: Global) -> FoundingHosts
    ensures { length result ≡ 1 }
{
    let mut hosts = Vec::new(alloc);
    hosts.push(TICKETS).expect(rt, "memory");
    Sequence::from_vec(hosts)
}

// An open group of one host, as a process begins at reading 100 that finds its log.
pub fn office(rt: &impl Abort, alloc: Global) -> Option<Office> {
    let logged = GroupLog {
        founding: Some(Founding {
            number: 7,
            place: 0,
            lease: 1_000,
            skew: 10,
            hosts: hosts(rt, alloc),
        }),
        is_open: true,
        bindings: Sequence::new(alloc),
    };
    Office::begin(alloc, TERMS, TICKETS, &logged, 100).ok()
}

pub fn view(rt: &impl Abort, alloc: Global) -> View {
    let mut members = Sequence::new(alloc);
    members.push(NodeId(0)).expect(rt, "memory");
    View {
        epoch: 1,
        next: 1,
        members,
    }
}

// Whether it is told at this reading by a manager that acts so.
fn is_lost(
    rt: &impl Abort,
    alloc: Global,
    office: &Office,
    now: u64,
    since: Option<u64>,
    until: u64,
) -> bool {
    let views = [view(rt, alloc)];
    let acting = Acting { since, until };
    let status = office.status(alloc, now, b"hermes", &views, acting);
    status.expect(rt, "memory").is_lost
}

#[test]
fn all_is_lost_behind_four_leases_without_a_node(rt: HostRuntime) {
    let alloc = rt.alloc();
    let office = office(&rt, alloc).expect(&rt, "memory");
    assert!(rt; is_lost(&rt, alloc, &office, 4_100, Some(100), 1_101));
    // nothing was heard for too short a time
    assert!(rt; !is_lost(&rt, alloc, &office, 4_099, Some(50), 1_101));
    // it acts for too short a time, or not at all
    assert!(rt; !is_lost(&rt, alloc, &office, 4_200, Some(201), 1_101));
    assert!(rt; !is_lost(&rt, alloc, &office, 4_200, None, 1_101));
    // a lease may run that it granted
    assert!(rt; !is_lost(&rt, alloc, &office, 4_200, Some(100), 4_200));
    assert!(rt; is_lost(&rt, alloc, &office, 4_200, Some(100), 4_199));
}
