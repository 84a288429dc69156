//! Connections that others made.

use crate::outside::{ASKED, OTHER, Seen, SeenConnection, greeting_of, hello, joined, shared};
use hk_accept::LooseSpawner;
use hk_base::{Actor, NodeId};
use hk_channel::{NodeEntry, start_inside};
use hk_hello::{Party, Purpose};
use hk_hosts::FakeRandom;
use hk_inside::Response;
use hk_link::{Inlet, Outlet, link};
use hk_outside::{Clock, MemoryDoors, Source};
use hk_peer::{Course, Taker, serve_peer};
use hk_shared_state::{Coming, SharedState, rest};
use std::alloc::Global;
use std::collections::VecDeque;
use std::io::Eprint;
use std::mem;
use std::process::Abort;
use std::sync::atomic::{AtomicU64, Ordering};
use std::sync::{Arc, Mutex, Wait};
use std::thread::Threads;

// The letter of manager 1 to manager 0 by which it would acknowledge an update of the key `k`.
const LETTER: [u8; 42] = [
    0, 0, 0, 38, 2, 3, 0, 0, 0, 0, 0, 0, 0, 1, 1, 0, 1, 1, 0, 0, 1, b'k', 0, 0, 0, 0, 0, 0, 0, 2,
    0, 0, 0, 0, 0, 0, 0, 0, 0, 2, 0, 1,
];

// A letter in this epoch, from and to managers.
fn letter(epoch: u8, from: u8, to: u8) -> [u8; 42] {
    let mut bytes = LETTER;
    bytes[13] = epoch;
    bytes[16] = from;
    bytes[19] = to;
    bytes
}

// Lets one connection in to the node, and counts how often what it brought was to be taken.
#[derive(Drop)]
struct Entry<R: Wait + Drop> {
    rt: R,
    alloc: Global,
    outlet: Mutex<Option<Outlet>>,
    takes: Arc<AtomicU64>,
}

#[derive(Drop)]
struct Takes(Arc<AtomicU64>);

impl Taker for Takes {
    fn take(&mut self) {
        self.0.fetch_add(1, Ordering::SeqCst);
    }
}

impl<R: Wait + Drop> Entry<R> {
    fn taken(&self) -> Option<Outlet> {
        let mut guard = self.outlet.lock(&self.rt);
        mem::replace(&mut *guard, None)
    }
}

impl<R: Wait + Abort + Drop> NodeEntry for Entry<R> {
    fn serve<N: Source>(&self, conn: &mut N, course: Course) {
        if let Some(mut outlet) = self.taken() {
            let mut takes = Takes(Arc::try_clone(&self.takes).expect(&self.rt, "memory"));
            serve_peer(&self.rt, self.alloc, conn, course, &mut outlet, &mut takes);
        }
    }
}

// The entry of a node to which this outlet leads, if there is one.
fn new_entry<R: Wait + Abort + Copy + Drop>(
    rt: R,
    alloc: Global,
    outlet: Option<Outlet>,
) -> Arc<Entry<R>> {
    let takes = Arc::new(alloc, AtomicU64::new(0)).expect(&rt, "memory");
    let entry = Entry {
        rt,
        alloc,
        outlet: Mutex::new(outlet),
        takes,
    };
    Arc::new(alloc, entry).expect(&rt, "memory")
}

// Takes one connection, on which this comes.
fn enter<
    R: Wait + Threads + Eprint + Abort + Copy + Send + Sync + Drop + 'static,
    C: Clock + Send + Sync + Drop + 'static,
>(
    rt: R,
    alloc: Global,
    shared: &Arc<SharedState<R, C>>,
    entry: &Arc<Entry<R>>,
    seen: &Arc<Seen>,
    bytes: Vec<u8>,
) {
    let seen = Arc::try_clone(seen).expect(&rt, "memory");
    let mut conns = VecDeque::new(alloc);
    conns
        .push_back(SeenConnection::new(rt, alloc, bytes, seen, 9))
        .expect(&rt, "memory");
    let drawn = ASKED.0.to_vec(alloc).expect(&rt, "memory");
    let doors = MemoryDoors::new(conns, false);
    let mut spawner = LooseSpawner::new(rt);
    let random = FakeRandom::new(drawn);
    start_inside(shared, entry, doors, random, &mut spawner).expect(&rt, "threads");
}

// The epoch of the next letter that is put, if one is within some seconds.
fn next_epoch<R: Wait>(rt: &R, inlet: &mut Inlet) -> Option<u64> {
    for _ in 0..500 {
        if let Some(parcel) = inlet.take(rt) {
            return Some(parcel.letter.epoch);
        }
        rest(rt, 10);
    }
    None
}

#[test]
fn letters_of_who_greeted_alone_are_put(rt: HostRuntime) {
    let alloc = rt.alloc();
    let (outlet, mut inlet) = link(alloc, 8).expect(&rt, "memory");
    let shared = shared(rt, alloc, Some(outlet));
    let seen = Arc::new(alloc, Seen::new(alloc)).expect(&rt, "memory");
    let from = Party::Actor(Actor::Manager(1));
    let to = Party::Actor(Actor::Manager(0));
    let parts = greeting_of(
        &rt,
        alloc,
        hello(&rt, alloc, Purpose::Letters, from, to, OTHER),
    );
    let bytes = joined(
        &rt,
        alloc,
        &[
            &parts.dialled,
            &letter(1, 1, 0),
            &letter(2, 2, 0),
            &letter(3, 1, 1),
            &letter(4, 1, 0),
        ],
    );
    enter(
        rt,
        alloc,
        &shared,
        &new_entry(rt, alloc, None),
        &seen,
        bytes,
    );
    assert_eq!(rt; next_epoch(&rt, &mut inlet), Some(1));
    assert_eq!(rt; next_epoch(&rt, &mut inlet), Some(4));
    assert!(rt;
        seen.is(
            &rt,
            &joined(&rt, alloc, &[&parts.challenge, &parts.welcome])
        )
    );
}

#[test]
fn letters_to_the_node_go_in_by_its_entry(rt: HostRuntime) {
    let alloc = rt.alloc();
    let (outlet, mut inlet) = link(alloc, 8).expect(&rt, "memory");
    let shared = shared(rt, alloc, None);
    let seen = Arc::new(alloc, Seen::new(alloc)).expect(&rt, "memory");
    let from = Party::Actor(Actor::Manager(1));
    let to = Party::Actor(Actor::Node(NodeId(0)));
    let parts = greeting_of(
        &rt,
        alloc,
        hello(&rt, alloc, Purpose::Letters, from, to, OTHER),
    );
    let mut to_node = letter(5, 1, 0);
    to_node[17] = 0;
    let bytes = joined(&rt, alloc, &[&parts.dialled, &to_node]);
    let entry = new_entry(rt, alloc, Some(outlet));
    enter(rt, alloc, &shared, &entry, &seen, bytes);
    assert_eq!(rt; next_epoch(&rt, &mut inlet), Some(5));
    let mut takes = 0;
    for _ in 0..500 {
        takes = entry.takes.load(Ordering::SeqCst);
        if takes > 0 {
            break;
        }
        rest(&rt, 10);
    }
    assert!(rt; takes > 0);
}

// Answers the next request, if one comes within some seconds.
fn answer_next<R: Wait + Drop, C: Drop>(rt: &R, shared: &SharedState<R, C>) -> bool {
    for _ in 0..500 {
        if let Some(Coming::Asked { slot, .. }) = shared.mailbox.take(rt) {
            slot.leave(rt, Response::Yes);
            return true;
        }
        rest(rt, 10);
    }
    false
}

// Whether just this is written within some seconds.
fn is_written<R: Wait>(rt: &R, seen: &Seen, bytes: &[u8]) -> bool {
    for _ in 0..500 {
        if seen.is(rt, bytes) {
            return true;
        }
        rest(rt, 10);
    }
    false
}

#[test]
fn requests_are_answered_by_the_manager(rt: HostRuntime) {
    let alloc = rt.alloc();
    let shared = shared(rt, alloc, None);
    let seen = Arc::new(alloc, Seen::new(alloc)).expect(&rt, "memory");
    let to = Party::Actor(Actor::Manager(0));
    let parts = greeting_of(
        &rt,
        alloc,
        hello(&rt, alloc, Purpose::Requests, Party::Neither, to, OTHER),
    );
    let status = [0, 0, 0, 1, 7];
    let bytes = joined(&rt, alloc, &[&parts.dialled, &status, &status]);
    enter(
        rt,
        alloc,
        &shared,
        &new_entry(rt, alloc, None),
        &seen,
        bytes,
    );
    assert!(rt; answer_next(&rt, &*shared));
    assert!(rt; answer_next(&rt, &*shared));
    let yes = [0, 0, 0, 1, 128];
    let said = joined(&rt, alloc, &[&parts.challenge, &parts.welcome, &yes, &yes]);
    assert!(rt; is_written(&rt, &seen, &said));
}

#[test]
fn who_knows_another_secret_is_told_so_and_nothing_is_taken(rt: HostRuntime) {
    let alloc = rt.alloc();
    let shared = shared(rt, alloc, None);
    let seen = Arc::new(alloc, Seen::new(alloc)).expect(&rt, "memory");
    let to = Party::Actor(Actor::Manager(0));
    let parts = greeting_of(
        &rt,
        alloc,
        hello(&rt, alloc, Purpose::Requests, Party::Neither, to, OTHER),
    );
    let mut bytes = joined(&rt, alloc, &[&parts.dialled, &[0, 0, 0, 1, 7]]);
    // a bit of the proof
    let last = parts.dialled.len().saturating_sub(1);
    *bytes.get_mut(last).expect(&rt, "a byte") ^= 1;
    enter(
        rt,
        alloc,
        &shared,
        &new_entry(rt, alloc, None),
        &seen,
        bytes,
    );
    let said = joined(&rt, alloc, &[&parts.challenge, &[1]]);
    assert!(rt; is_written(&rt, &seen, &said));
    assert!(rt; shared.mailbox.take(&rt).is_none());
}
