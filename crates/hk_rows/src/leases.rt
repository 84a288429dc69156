//! The numbers of leases.

use hk_base::{Members, NodeId, View};
use hk_lease::{Grants, NotPast, node_end};

#[test]
fn the_end_that_a_majority_granted(rt: HostRuntime) {
    assert_eq!(rt; node_end(&[300, 100, 200], 3), 200);
    assert_eq!(rt; node_end(&[300, 100, 200, 0], 4), 100);
    assert_eq!(rt; node_end(&[7], 1), 7);
    assert_eq!(rt; node_end(&[5, 0], 2), 0);
}

#[test]
fn grants_outside_a_view_are_past_or_not(rt: HostRuntime) {
    let alloc = rt.alloc();
    let mut members = Members::new(alloc);
    members.push(NodeId(0)).expect(&rt, "memory");
    let view = View {
        epoch: 2,
        members,
        next: 2,
    };
    let mut grants = Grants::new(alloc);
    grants.grant(NodeId(0), 500).expect(&rt, "memory");
    grants.grant(NodeId(1), 100).expect(&rt, "memory");
    grants.grant(NodeId(1), 90).expect(&rt, "memory");
    let not_past = NotPast {
        node: NodeId(1),
        end: 100,
    };
    assert_eq!(rt; grants.all_past(&view, 100), Err(not_past));
    assert_eq!(rt; grants.all_past(&view, 101), Ok(()));
}
