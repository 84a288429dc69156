//! What lines for the operator are, and which are written.

use hk_base::{Actor, NodeId};
use hk_hello::HelloRefusal;
use hk_host_words::Verbosity;
use hk_hosts::read_address;
use hk_shared_state::{Level, Moment, Notice, Telling};
use std::alloc::Global;
use std::process::Abort;

const NODE: NodeId = NodeId(3);

// The text of a notice, behind its level.
fn text(rt: &impl Abort, alloc: Global, notice: &Notice<'_>) -> String {
    let level = notice.level();
    format!(in alloc; "{level}: {notice}").expect(rt, "memory")
}

fn moment(rt: &impl Abort, alloc: Global, millis: u64) -> String {
    format!(in alloc; "{}", Moment(millis)).expect(rt, "memory")
}

#[test]
fn errors_and_warnings_have_their_texts(rt: HostRuntime) {
    let alloc = rt.alloc();
    let of_node = Notice::Refused {
        to: Actor::Node(NODE),
        refusal: HelloRefusal::NoSuchActor,
    };
    let of_manager = Notice::Refused {
        to: Actor::Manager(1),
        refusal: HelloRefusal::OtherHosts,
    };
    let told = "error: the log can't be written; this host has no manager from now on";
    assert_eq!(rt; text(&rt, alloc, &Notice::LogEnded).as_str(), told);
    let told = "error: the group lives and d is empty: this host has no manager";
    assert_eq!(rt;
        text(&rt, alloc, &Notice::NoManager { folder: "d" }).as_str(),
        told
    );
    assert_eq!(rt;
        text(&rt, alloc, &of_node).as_str(),
        "warning: node 3 refused: no such actor"
    );
    assert_eq!(rt;
        text(&rt, alloc, &of_manager).as_str(),
        "warning: manager 1 refused: other hosts"
    );
    assert_eq!(rt;
        text(&rt, alloc, &Notice::Gone { place: 2 }).as_str(),
        "warning: manager 2 is gone"
    );
    let over = Notice::LeaseOver { node: NODE };
    assert_eq!(rt;
        text(&rt, alloc, &over).as_str(),
        "warning: the lease of node 3 is over"
    );
}

#[test]
fn what_an_operator_must_know_has_its_text(rt: HostRuntime) {
    let alloc = rt.alloc();
    let told = "info: the group of founding 00000000000000ff is open";
    assert_eq!(rt;
        text(&rt, alloc, &Notice::Open { founding: 255 }).as_str(),
        told
    );
    let members = [NodeId(0), NodeId(2), NodeId(11)];
    let begins = Notice::Begins { members: &members };
    assert_eq!(rt;
        text(&rt, alloc, &begins).as_str(),
        "info: a view begins with members 0, 2, 11"
    );
    assert_eq!(rt;
        text(&rt, alloc, &Notice::Back { place: 2 }).as_str(),
        "info: manager 2 is back"
    );
    assert_eq!(rt;
        text(&rt, alloc, &Notice::Ready { node: NODE }).as_str(),
        "info: node 3 is ready"
    );
    assert_eq!(rt;
        text(&rt, alloc, &Notice::Leaving { node: NODE }).as_str(),
        "info: node 3 leaves"
    );
    let back = Notice::LeaseBack { node: NODE };
    assert_eq!(rt;
        text(&rt, alloc, &back).as_str(),
        "info: node 3 has a lease again"
    );
    assert_eq!(rt;
        text(&rt, alloc, &Notice::Seated { node: NODE }).as_str(),
        "debug: node 3 is seated"
    );
    assert_eq!(rt;
        text(&rt, alloc, &Notice::Copying { node: NODE }).as_str(),
        "debug: node 3 copies"
    );
}

#[test]
fn where_clients_are_served_is_told(rt: HostRuntime) {
    let alloc = rt.alloc();
    let address = &read_address(alloc, "host-a:11212", 1).expect(&rt, "an address");
    assert_eq!(rt;
        text(&rt, alloc, &Notice::Listens { address }).as_str(),
        "info: clients are served at host-a:11212"
    );
    assert_eq!(rt;
        text(&rt, alloc, &Notice::Shut { address }).as_str(),
        "warning: host-a:11212 can't be opened, and is tried again each second"
    );
}

// Of which levels lines are written, from errors on.
fn wanted(verbosity: Verbosity) -> [bool; 4] {
    let telling = Telling {
        verbosity,
        began: 0,
    };
    [
        telling.wants(Level::Error),
        telling.wants(Level::Warning),
        telling.wants(Level::Info),
        telling.wants(Level::Debug),
    ]
}

#[test]
fn who_is_quiet_tells_errors_alone(rt: HostRuntime) {
    assert_eq!(rt; wanted(Verbosity::Quiet), [true, false, false, false]);
    assert_eq!(rt; wanted(Verbosity::Usual), [true, true, true, false]);
    assert_eq!(rt; wanted(Verbosity::Verbose), [true, true, true, true]);
}

#[test]
fn moments_have_their_dates(rt: HostRuntime) {
    let alloc = rt.alloc();
    assert_eq!(rt; moment(&rt, alloc, 0).as_str(), "1970-01-01T00:00:00.000Z");
    assert_eq!(rt;
        moment(&rt, alloc, 951_782_399_999).as_str(),
        "2000-02-28T23:59:59.999Z"
    );
    assert_eq!(rt;
        moment(&rt, alloc, 951_782_400_000).as_str(),
        "2000-02-29T00:00:00.000Z"
    );
    assert_eq!(rt;
        moment(&rt, alloc, 951_868_800_000).as_str(),
        "2000-03-01T00:00:00.000Z"
    );
    assert_eq!(rt;
        moment(&rt, alloc, 1_709_164_800_000).as_str(),
        "2024-02-29T00:00:00.000Z"
    );
    assert_eq!(rt;
        moment(&rt, alloc, 1_796_115_165_123).as_str(),
        "2026-12-01T08:52:45.123Z"
    );
    assert_eq!(rt;
        moment(&rt, alloc, 1_798_761_599_999).as_str(),
        "2026-12-31T23:59:59.999Z"
    );
    assert_eq!(rt;
        moment(&rt, alloc, 4_107_542_400_000).as_str(),
        "2100-03-01T00:00:00.000Z"
    );
}
