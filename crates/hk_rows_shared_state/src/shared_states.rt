//! What threads are told of a process, behind its locks.

use crate::outside::{OWN, second};
use crate::standings::{OWN_MANAGER, open};
use hk_base::{Actor, NodeId};
use hk_host_words::Verbosity;
use hk_link::link;
use hk_shared_state::{Mailbox, SharedState, Telling};
use std::alloc::Global;
use std::process::Abort;
use std::sync::atomic::AtomicBool;
use std::sync::{Arc, Mutex, Wait};

// The second host's process, whose manager takes letters.
fn shared<R: Wait + Abort + Copy + Drop>(rt: R, alloc: Global) -> SharedState<R, u8> {
    let mailbox = Mailbox::new(alloc).expect(&rt, "memory");
    let (outlet, _) = link(alloc, 4).expect(&rt, "memory");
    SharedState {
        rt,
        alloc,
        clock: Arc::new(alloc, 0).expect(&rt, "memory"),
        identity: second(&rt, alloc, 1_000),
        telling: Telling {
            verbosity: Verbosity::Usual,
            began: 0,
        },
        standing: Mutex::new(open(&rt, alloc)),
        manager: Mutex::new(Some(outlet)),
        mailbox,
        is_out: AtomicBool::new(false),
        is_leaving: AtomicBool::new(false),
    }
}

#[test]
fn a_process_tells_who_is_here(rt: HostRuntime) {
    let shared = shared(rt, rt.alloc());
    assert_eq!(rt; shared.founding(), 9);
    assert_eq!(rt; shared.own_ticket(Actor::Manager(1)), Some(OWN_MANAGER));
    assert_eq!(rt; shared.own_ticket(Actor::Manager(0)), None);
    assert_eq!(rt; shared.own_ticket(Actor::Node(NodeId(1))), Some(OWN));
    assert_eq!(rt; shared.own_ticket(Actor::Node(NodeId(0))), None);
    assert!(rt; shared.manager_outlet().is_some());
}

#[test]
fn a_process_tells_where_others_are(rt: HostRuntime) {
    let shared = shared(rt, rt.alloc());
    let first = shared
        .address_of(Actor::Node(NodeId(0)))
        .expect(&rt, "an address");
    let third = shared
        .address_of(Actor::Manager(2))
        .expect(&rt, "an address");
    assert_eq!(rt; first.host.as_slice(), b"10.0.0.1".as_slice());
    assert_eq!(rt; first.port, 11_400);
    assert_eq!(rt; third.host.as_slice(), b"10.0.0.3".as_slice());
    assert!(rt; shared.address_of(Actor::Node(NodeId(2))).is_none());
    assert!(rt; shared.address_of(Actor::Manager(3)).is_none());
}
