//! Who came to a process, and when it is over.

use hk_outside::Dial;
use std::sync::atomic::{AtomicBool, Ordering};
use std::sync::{Mutex, Wait};
use std::thread::Parker;
use std::time::Duration;

// So long whoever could not knock waits before it tries again.
const REST_MILLISECONDS: u64 = 20;

/// Wakes the loop that takes connections, which waits for the next one.
pub(crate) trait Knock {
    /// Lets a connection come. Whether one could be made.
    fn knock(&mut self) -> bool;
}

/// Knocks at a port by a connection that sends nothing.
#[derive(Drop)]
pub(crate) struct Knocker<D: Dial + Drop> {
    pub(crate) dialer: D,
    pub(crate) port: u16,
}

impl<D: Dial + Drop> Knock for Knocker<D> {
    fn knock(&mut self) -> bool {
        self.dialer.dial(self.port).is_ok()
    }
}

// Who came so far.
#[derive(Drop)]
struct Counts {
    clients: u32,
    peers: u32,
    // the clients that are being served
    present: u32,
}

/// The connections of a process, as far as they are counted: each client, and of peers one for each other node. A peer that comes again is not counted, so however
/// often connections between nodes are lost, as many clients are served.
///
/// It is over once so many came as the process serves, and no client is being served.
#[derive(Drop)]
pub(crate) struct ConnLimit<G: Drop> {
    conns: u32,
    others: u32,
    counts: Mutex<Counts>,
    // Nobody waits for connections any more.
    closed: AtomicBool,
    knocker: Mutex<G>,
}

impl<G: Knock + Drop> ConnLimit<G> {
    /// Nobody came yet, of so many that are to come, to one of so many nodes.
    pub(crate) fn new(conns: u32, nodes: u8, knocker: G) -> ConnLimit<G> {
        ConnLimit {
            conns,
            others: u32::from(nodes.saturating_sub(1)),
            counts: Mutex::new(Counts {
                clients: 0,
                peers: 0,
                present: 0,
            }),
            closed: AtomicBool::new(false),
            knocker: Mutex::new(knocker),
        }
    }

    fn have_come(&self, counts: &Counts) -> bool {
        counts.clients.saturating_add(counts.peers) >= self.conns
    }

    /// A client came. Whether it is to be served: one that comes behind all that are, is not.
    pub(crate) fn admit<R: Wait>(&self, rt: &R) -> bool {
        let mut guard = self.counts.lock(rt);
        let counts = &mut *guard;
        if self.have_come(counts) {
            return false;
        }
        counts.clients = counts.clients.saturating_add(1);
        counts.present = counts.present.saturating_add(1);
        true
    }

    /// A client that was admitted has ended.
    pub(crate) fn part<R: Wait>(&self, rt: &R) {
        self.discount(rt);
        self.end_if_over(rt);
    }

    fn discount<R: Wait>(&self, rt: &R) {
        let mut guard = self.counts.lock(rt);
        let counts = &mut *guard;
        counts.present = counts.present.saturating_sub(1);
    }

    /// A peer came.
    pub(crate) fn meet_peer<R: Wait>(&self, rt: &R) {
        self.count_peer(rt);
        self.end_if_over(rt);
    }

    fn count_peer<R: Wait>(&self, rt: &R) {
        let mut guard = self.counts.lock(rt);
        let counts = &mut *guard;
        if counts.peers < self.others {
            counts.peers += 1;
        }
    }

    /// Whether all that are to come have come, and no client is being served.
    pub(crate) fn is_over<R: Wait>(&self, rt: &R) -> bool {
        let mut guard = self.counts.lock(rt);
        let counts = &mut *guard;
        counts.present == 0 && self.have_come(counts)
    }

    /// Nobody waits for connections any more.
    pub(crate) fn close(&self) {
        self.closed.store(true, Ordering::SeqCst);
    }

    // Wakes the loop that takes connections where it is over.
    fn end_if_over<R: Wait>(&self, rt: &R) {
        if self.is_over(rt) {
            self.wake(rt);
        }
    }

    // Knocks until it is heard, or nobody waits any more: where no connection can be made now, one can be later.
    fn wake<R: Wait>(&self, rt: &R) {
        for _ in rt.forever() {
            if self.closed.load(Ordering::SeqCst) {
                return;
            }
            if self.knocker.lock(rt).knock() {
                return;
            }
            Parker::new().park_timeout(rt, Duration::from_millis(REST_MILLISECONDS));
        }
    }
}
