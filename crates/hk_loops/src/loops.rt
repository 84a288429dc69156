//! The event loops of a process, and what their threads do.

ghost use Rattle.std.specs.Prelude.{◌≡◌, ◌<◌, ◌≤◌, length};

use crate::desks::LoopDesks;
use crate::event_loop::EventLoop;
use hk_base::Memory;
use hk_hosts::PromptConnection;
use hk_outside::{Failed, Job};
use std::alloc::Global;
use std::net::Net;
use std::sync::atomic::{AtomicU32, Ordering};
use std::sync::{Arc, Wait};
use std::thread::Parker;
use std::time::Duration;

/// So many threads has each loop: one has the lead or serves, the others wait for other nodes, or for the lead.
pub const THREADS: u8 = 16;

// How much is read at once.
const ROOM: usize = 32_768;

// So long a thread rests that got no desk.
const REST_MILLIS: u64 = 20;

// Behind so long a turn another thread takes the lead.
const TURN_MILLIS: u64 = 5;

/// The event loops of a process. Connections are given to them by turns.
#[derive(Drop)]
pub struct EventLoops<N: Drop, W: Drop> {
    loops: Vec<Arc<EventLoop<N, W>>>,
    // The number of the next connection.
    conns: AtomicU32,
    // The number of the next desk.
    desks: Arc<AtomicU32>,
}

impl<N: PromptConnection + Drop, W: Drop> EventLoops<N, W> {
    /// So many loops, without connections.
    pub fn new(net: &impl Net, alloc: Global, count: u8) -> Result<EventLoops<N, W>, Memory> {
        let mut loops = Vec::new(alloc);
        for _ in 0..count {
            let event_loop = EventLoop::new(net, alloc)?;
            loops.push(Arc::new(alloc, event_loop)?)?;
        }
        Ok(EventLoops {
            loops,
            conns: AtomicU32::new(0),
            desks: Arc::new(alloc, AtomicU32::new(0))?,
        })
    }

    /// Serves the connection from now on. After `Failed` it is closed.
    pub fn add<R: Wait>(&self, rt: &R, conn: N) -> Result<(), Failed> {
        let count = self.loops.len();
        if count == 0 {
            return Err(Failed);
        }
        let number = self.conns.fetch_add(1, Ordering::SeqCst) as usize;
        self.loops[number % count].add(rt, conn)
    }

    /// How many loops there are.
    pub fn count(&self) -> usize {
        self.loops.len()
    }

    /// The job of a thread of the loop of this number.
    pub fn job<R: Copy + Drop, K: LoopDesks<Waits = W> + Drop>(
        &self,
        rt: R,
        alloc: Global,
        number: usize,
        desks: &Arc<K>,
    ) -> Result<LoopJob<R, N, K>, Memory> {
        let Some(event_loop) = self.loops.get(number) else {
            return Err(Memory);
        };
        Ok(LoopJob {
            rt,
            alloc,
            event_loop: Arc::try_clone(event_loop)?,
            desks: Arc::try_clone(desks)?,
            numbers: Arc::try_clone(&self.desks)?,
        })
    }

    /// The job that sees to it that a long turn holds up no other connection.
    pub fn watch<R: Copy + Drop>(&self, rt: R, alloc: Global) -> Result<WatchJob<R, N, W>, Memory> {
        let mut watched = Vec::new(alloc);
        for event_loop in &self.loops {
            watched.push(Watched {
                event_loop: Arc::try_clone(event_loop)?,
                turns: 0,
            })?;
        }
        Ok(WatchJob { rt, watched })
    }
}

/// The job of a thread of a loop: it serves connections that are ready, at a desk of its own.
#[derive(Drop)]
pub struct LoopJob<R: Drop, N: Drop, K: LoopDesks + Drop> {
    rt: R,
    alloc: Global,
    event_loop: Arc<EventLoop<N, K::Waits>>,
    desks: Arc<K>,
    numbers: Arc<AtomicU32>,
}

// Rests so many milliseconds.
fn rest<R: Wait>(rt: &R, millis: u64) {
    Parker::new().park_timeout(rt, Duration::from_millis(millis));
}

// Room to read into, as soon as there is memory for it.
fn room<R: Wait>(rt: &R, alloc: Global) -> Vec<u8>
    ensures { length result.items ≡ ROOM }
{
    for _ in rt.forever() {
        if let Ok(room) = Vec::from_elem(alloc, 0, ROOM) {
            return room;
        }
        rest(rt, REST_MILLIS);
    }
    unreachable!()
}

impl<
    R: Wait + Send + Drop + 'static,
    N: PromptConnection + Send + Drop + 'static,
    K: LoopDesks + Send + Sync + Drop + 'static,
> Job for LoopJob<R, N, K> {
    fn run(self) {
        let LoopJob {
            rt,
            alloc,
            event_loop,
            desks,
            numbers,
        } = self;
        let mut room = room(&rt, alloc);
        for _ in rt.forever() {
            let number = numbers.fetch_add(1, Ordering::SeqCst);
            desks.serve_turns(&rt, &*event_loop, &mut room, number);
            rest(&rt, REST_MILLIS);
        }
        unreachable!()
    }
}

// A loop, and how many turns had ended there.
#[derive(Drop)]
struct Watched<N: Drop, W: Drop> {
    event_loop: Arc<EventLoop<N, W>>,
    turns: u64,
}

/// The job that looks at loops: where a turn lasts, another thread takes the lead.
#[derive(Drop)]
pub struct WatchJob<R: Drop, N: Drop, W: Drop> {
    rt: R,
    watched: Vec<Watched<N, W>>,
}

impl<N: Drop, W: Drop> Watched<N, W> {
    fn look<R: Wait>(&mut self, rt: &R) {
        let turns = self.event_loop.turns();
        if turns == self.turns {
            self.event_loop.lead_on(rt);
        }
        self.turns = turns;
    }
}

impl<R: Wait + Send + Drop + 'static, N: Send + Drop + 'static, W: Send + Drop + 'static> Job
    for WatchJob<R, N, W> {
    fn run(self) {
        let WatchJob { rt, mut watched } = self;
        for _ in rt.forever() {
            rest(&rt, TURN_MILLIS);
            for at in watched.iter_mut() {
                at.look(&rt);
            }
        }
        unreachable!()
    }
}
