//! Which connection ends which.

use hk_base::{Actor, NodeId};
use hk_channel::{ConnUse, IncomingConns};
use hk_hello::{Party, Purpose};
use hk_hosts::Ender;
use std::alloc::Global;
use std::process::Abort;
use std::sync::Arc;
use std::sync::atomic::{AtomicU64, Ordering};

const MANAGER: Party = Party::Actor(Actor::Manager(0));

const NODE: Party = Party::Actor(Actor::Node(NodeId(4)));

fn conn_use(purpose: Purpose, from: Party, to: Party) -> ConnUse {
    ConnUse { purpose, from, to }
}

/// How often a connection was ended.
#[derive(Drop)]
struct Ends(Arc<AtomicU64>);

impl Ends {
    fn new(rt: &impl Abort, alloc: Global) -> Ends {
        Ends(Arc::new(alloc, AtomicU64::new(0)).expect(rt, "memory"))
    }

    fn ender(&self, rt: &impl Abort) -> Ender {
        Ender::Counted(Arc::try_clone(&self.0).expect(rt, "memory"))
    }

    fn count(&self) -> u64 {
        self.0.load(Ordering::SeqCst)
    }
}

// A connection begins, and says nothing. Gives its number.
fn begin(rt: &impl Abort, incoming: &mut IncomingConns, ends: &Ends) -> u64 {
    incoming.begin(ends.ender(rt)).expect(rt, "memory")
}

// Whether the connection of this number is to be served, whose hello says this.
fn welcome(
    rt: &impl Abort,
    incoming: &mut IncomingConns,
    number: u64,
    conn_use: ConnUse,
    ends: &Ends,
) -> bool {
    incoming
        .welcome(number, conn_use, ends.ender(rt))
        .expect(rt, "memory")
}

// One more is welcomed, and is to be served.
fn enter(rt: &impl Abort, incoming: &mut IncomingConns, conn_use: ConnUse, ends: &Ends) -> u64 {
    let number = begin(rt, incoming, ends);
    assert!(rt; welcome(rt, incoming, number, conn_use, ends));
    number
}

#[test]
fn the_oldest_greeting_makes_room(rt: HostRuntime) {
    let alloc = rt.alloc();
    let mut incoming = IncomingConns::new(alloc);
    let oldest = Ends::new(&rt, alloc);
    let others = Ends::new(&rt, alloc);
    let first = begin(&rt, &mut incoming, &oldest);
    for _ in 0..63 {
        begin(&rt, &mut incoming, &others);
    }
    assert_eq!(rt; oldest.count(), 0);
    begin(&rt, &mut incoming, &others);
    assert_eq!(rt; oldest.count(), 1);
    assert_eq!(rt; others.count(), 0);
    // its hello came in this very moment
    let late = conn_use(Purpose::Requests, MANAGER, MANAGER);
    assert!(rt; !welcome(&rt, &mut incoming, first, late, &oldest));
    begin(&rt, &mut incoming, &others);
    assert_eq!(rt; others.count(), 1);
}

#[test]
fn greetings_that_ended_take_no_room(rt: HostRuntime) {
    let alloc = rt.alloc();
    let mut incoming = IncomingConns::new(alloc);
    let ends = Ends::new(&rt, alloc);
    for number in 0..100 {
        let number = enter(
            &rt,
            &mut incoming,
            conn_use(
                Purpose::Letters,
                Party::Actor(Actor::Node(NodeId(number))),
                NODE,
            ),
            &ends,
        );
        if number % 2 == 0 {
            incoming.forget(number);
        }
    }
    for _ in 0..64 {
        begin(&rt, &mut incoming, &ends);
    }
    assert_eq!(rt; ends.count(), 0);
}

#[test]
fn a_later_connection_ends_the_earlier_one_for_the_same(rt: HostRuntime) {
    let alloc = rt.alloc();
    let mut incoming = IncomingConns::new(alloc);
    let earlier = Ends::new(&rt, alloc);
    let later = Ends::new(&rt, alloc);
    let letters = conn_use(Purpose::Letters, NODE, MANAGER);
    enter(&rt, &mut incoming, letters, &earlier);
    enter(
        &rt,
        &mut incoming,
        conn_use(Purpose::Requests, NODE, MANAGER),
        &later,
    );
    enter(
        &rt,
        &mut incoming,
        conn_use(Purpose::Letters, MANAGER, MANAGER),
        &later,
    );
    enter(
        &rt,
        &mut incoming,
        conn_use(Purpose::Letters, NODE, NODE),
        &later,
    );
    assert_eq!(rt; earlier.count(), 0);
    let last = enter(&rt, &mut incoming, letters, &later);
    assert_eq!(rt; earlier.count(), 1);
    assert_eq!(rt; later.count(), 0);
    incoming.forget(last);
    enter(&rt, &mut incoming, letters, &earlier);
    assert_eq!(rt; later.count(), 0);
}

#[test]
fn who_is_no_actor_ends_nobody(rt: HostRuntime) {
    let alloc = rt.alloc();
    let mut incoming = IncomingConns::new(alloc);
    let ends = Ends::new(&rt, alloc);
    let command = conn_use(Purpose::Requests, Party::Neither, MANAGER);
    enter(&rt, &mut incoming, command, &ends);
    enter(&rt, &mut incoming, command, &ends);
    assert_eq!(rt; ends.count(), 0);
}
