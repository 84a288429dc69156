//! The job that gives the beat.

use hk_base::Memory;
use hk_link::Bell;
use hk_outside::Job;
use hk_shared_state::{SharedState, rest};
use hk_snap::LeaseCell;
use std::sync::{Arc, Wait};

/// Rings at each beat for whoever has something to do then: the manager, or the workers of the node, which renew their leases and send again what waits.
#[derive(Drop)]
pub(crate) struct BeatJob<R: Wait + Drop, C: Drop> {
    shared: Arc<SharedState<R, C>>,
    bell: Arc<Bell>,
    // What looks at the leases of the node, of whose workers this is the beat.
    leases: Vec<LeaseCell>,
}

// The end of the lease that ends first, if there is any.
fn first_end<R: Wait>(rt: &R, leases: &mut Vec<LeaseCell>) -> Option<u64> {
    let mut first: Option<u64> = None;
    for place in 0..leases.len() {
        if let Some(lease) = leases.get_mut(place) {
            let end = lease.end(rt);
            first = Some(end.min(first.unwrap_or(end)));
        }
    }
    first
}

// Others of this process learn how long the leases of its node last.
fn show_end<R: Wait + Drop, C: Drop>(shared: &SharedState<R, C>, end: u64) {
    let mut guard = shared.standing.lock(&shared.rt);
    let standing = &mut *guard;
    standing.shards.lease_end = end;
}

impl<R: Wait + Drop, C: Drop> BeatJob<R, C> {
    /// It rings this bell, and looks at these leases.
    pub(crate) fn new(
        shared: &Arc<SharedState<R, C>>,
        bell: &Arc<Bell>,
        leases: Vec<LeaseCell>,
    ) -> Result<BeatJob<R, C>, Memory> {
        Ok(BeatJob {
            shared: Arc::try_clone(shared)?,
            bell: Arc::try_clone(bell)?,
            leases,
        })
    }
}

impl<R: Wait + Send + Sync + Drop + 'static, C: Send + Sync + Drop + 'static> Job
    for BeatJob<R, C> {
    fn run(self) {
        let BeatJob {
            shared,
            bell,
            mut leases,
        } = self;
        let beat = shared.identity.beat();
        for _ in shared.rt.forever() {
            rest(&shared.rt, beat);
            if let Some(end) = first_end(&shared.rt, &mut leases) {
                show_end(&*shared, end);
            }
            bell.ring(&shared.rt, 1);
        }
    }
}
