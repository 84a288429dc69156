//! The job of a worker.

use crate::completion::Unheard;
use crate::gate::Open;
use crate::journals::{Load, Trimming};
use crate::needs::begin_memory;
use crate::notices::tell_doubt;
use crossbeam_utils::sync::WaitGroup;
use hk_locked::Places;
use hk_outside::{Clock, Job};
use hk_routes::Follower;
use hk_worker::{Post, work};
use std::alloc::Global;
use std::io::Eprint;
use std::sync::{Arc, Wait};

/// A worker makes at most so many turns before it looks at the clock and the journals. Each may bring a mebibyte.
pub(crate) const TURNS: u64 = 16;

/// A worker of a node.
#[derive(Drop)]
pub struct WorkJob<R: Wait + Drop, C: Drop, P: Places> {
    pub(crate) rt: R,
    pub(crate) alloc: Global,
    pub(crate) post: Post<Unheard, P>,
    /// The outlets of its post, as they change.
    pub(crate) routes: Follower,
    /// So many milliseconds at least are between two readings to which it raises the clocks of the shards.
    pub(crate) pause: u64,
    pub(crate) clock: Arc<C>,
    pub(crate) load: Arc<Load>,
    pub(crate) gate: Open,
    /// Left when the job is over.
    pub(crate) jobs: WaitGroup,
}

// Before turns the node's clock rises to the reading, where that is far enough behind the last one. Where it rose a turn is granted for each request for a lease that is
// due then. Where memory is wanting, the shards that were not reached rise later. It gives the reading to which the clock rose last.
fn raise<R: Wait, P: Places>(
    rt: &R,
    post: &mut Post<Unheard, P>,
    gate: &mut Open,
    pause: u64,
    last: u64,
    reading: u64,
) -> u64 {
    if reading.saturating_sub(last) < pause {
        return last;
    }
    let _ = post.tick(rt, reading);
    gate.grant(post.requests_due());
    reading
}

// Its letters go by the outlets as they are now.
fn follow<R: Wait, P: Places>(
    rt: &R,
    alloc: Global,
    post: &mut Post<Unheard, P>,
    routes: &mut Follower,
) {
    if let Some(outlets) = routes.renewed(rt, alloc) {
        post.lead(rt, outlets);
    }
}

/// Behind so many turns journals begin anew, where they are full or much was brought. Where memory is wanting, they do later.
pub(crate) fn tend<R: Wait, P: Places>(
    rt: &R,
    post: &mut Post<Unheard, P>,
    load: &Load,
    trimming: &mut Trimming,
    turns: u64,
) {
    trimming.count(turns);
    load.add(post.take_brought());
    trimming.trim(rt, post, load);
}

// Makes turns until the ending is told: one for each ring, and where the clock rose one for each request for a lease that is due then. It sleeps in between.
fn go_on<R: Wait + Eprint, C: Clock, P: Places>(
    rt: &R,
    alloc: Global,
    post: &mut Post<Unheard, P>,
    routes: &mut Follower,
    pause: u64,
    clock: &C,
    load: &Load,
    gate: &mut Open,
) {
    let mut last = 0;
    let mut trimming = Trimming::new();
    for _ in rt.forever() {
        follow(rt, alloc, post, routes);
        last = raise(rt, post, gate, pause, last, clock.now());
        let turns = work(rt, post, gate, TURNS);
        tend(rt, post, load, &mut trimming, turns);
        if let Some(doubt) = post.next_doubt() {
            tell_doubt(rt, post.shards().node(), doubt);
        }
        if gate.is_over() {
            return;
        }
        gate.wait(rt);
    }
}

impl<
    R: Wait + Eprint + Send + Drop + 'static,
    C: Clock + Send + Sync + Drop + 'static,
    P: Places + Send + Sync + 'static,
> Job for WorkJob<R, C, P> {
    fn run(self) {
        let WorkJob {
            rt,
            alloc,
            mut post,
            mut routes,
            pause,
            clock,
            load,
            mut gate,
            jobs,
        } = self;
        begin_memory(alloc);
        go_on(
            &rt,
            alloc,
            &mut post,
            &mut routes,
            pause,
            &*clock,
            &load,
            &mut gate,
        );
        drop(post);
        drop(jobs);
    }
}
