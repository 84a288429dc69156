//! The job that copies the rows of a shard.

use hk_base::{Memory, NodeId};
use hk_group::Copier;
use hk_locked::Places;
use hk_outside::{Clock, Job};
use hk_shared_state::{SharedState, rest};
use std::sync::{Arc, Wait};

// Behind so many beats in which no rows came another member is asked.
const IDLE_BEATS: u64 = 4;

// Rows are asked for once in so many milliseconds: copying is to leave the processors to the requests of clients, also where it could go faster.
const PACE_MILLIS: u64 = 7;

/// Copies the rows of a shard of this process's node from other members, and ends once it has all.
#[derive(Drop)]
pub(crate) struct CopyJob<R: Wait + Drop, C: Drop, P: Places> {
    pub(crate) shared: Arc<SharedState<R, C>>,
    pub(crate) copier: Copier<P>,
    pub(crate) shard: u8,
}

// Whom is asked: the members that are ready, in turn.
fn giver_of<R: Wait + Drop, C: Drop>(
    shared: &SharedState<R, C>,
    turn: usize,
) -> Result<Option<NodeId>, Memory> {
    let guard = shared.standing.lock(&shared.rt);
    let standing = &*guard;
    let ready = standing
        .boards
        .ready_nodes(shared.alloc, standing.founding)?;
    let count = ready.len();
    if count == 0 {
        return Ok(None);
    }
    Ok(Some(ready[turn % count]))
}

// How a shard is copied so far.
#[derive(Clone, Copy)]
struct Course {
    // How often another member was turned to.
    turn: usize,
    // The reading at which rows came last, or another member was turned to.
    moved: u64,
}

// Asks for rows where that is to be done now. Where none came for long it turns to another member.
fn ask<R: Wait + Drop, C: Clock + Drop, P: Places>(
    shared: &SharedState<R, C>,
    copier: &mut Copier<P>,
    course: &mut Course,
) {
    let now = shared.clock.now();
    let lasts = shared.identity.beat().saturating_mul(IDLE_BEATS);
    let again = lasts <= now.saturating_sub(course.moved);
    if again {
        course.turn = course.turn.wrapping_add(1);
        course.moved = now;
    }
    let Ok(Some(from)) = giver_of(shared, course.turn) else {
        return;
    };
    if copier.ask(&shared.rt, from, again) {
        course.moved = now;
    }
}

impl<
    R: Wait + Copy + Send + Sync + Drop + 'static,
    C: Clock + Send + Sync + Drop + 'static,
    P: Places + Send + Sync + 'static,
> Job for CopyJob<R, C, P> {
    fn run(self) {
        let CopyJob {
            shared,
            mut copier,
            shard,
        } = self;
        let rt = shared.rt;
        // so the shards begin at different members
        let mut course = Course {
            turn: usize::from(shard),
            moved: shared.clock.now(),
        };
        for _ in rt.forever() {
            if copier.is_whole(&rt) || shared.is_out() {
                return;
            }
            if copier.has_view(&rt) {
                ask(&*shared, &mut copier, &mut course);
            }
            rest(&rt, PACE_MILLIS);
        }
    }
}
