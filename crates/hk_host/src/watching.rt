//! The job that looks how the node of this process stands.

use hk_base::{Memory, NodeId, Sequence};
use hk_group::NodeWatch;
use hk_hosts::{Address, DialAt};
use hk_inside::{Counts, NodeSeen, NodeState, NodesSeen};
use hk_lanes::Tallies;
use hk_locked::Places;
use hk_outside::{Clock, Job};
use hk_shared_state::{Notice, Presence, SharedState, rest, state_behind};
use std::io::Eprint;
use std::sync::{Arc, Wait};

// Its own port is dialled within so many milliseconds.
const KNOCK_MILLIS: u64 = 100;

/// Looks at each beat how the node's shards stand, what they hold, what its desks told, and which nodes leave its updates
/// unacknowledged, for the reports to the managers, whether its leases run, whether the node is to leave, and whether it
/// was left out. Where it is or was, it knocks at its own port, so that whoever takes connections there learns of it.
#[derive(Drop)]
pub(crate) struct WatchJob<R: Wait + Drop, C: Drop, P: Places, D: DialAt + Drop> {
    pub(crate) shared: Arc<SharedState<R, C>>,
    pub(crate) node: NodeId,
    pub(crate) watch: NodeWatch<P>,
    pub(crate) tallies: Arc<Tallies>,
    pub(crate) dialer: D,
    /// Where clients reach the node.
    pub(crate) clients: Address,
}

// Others learn how the node stands. It gives how that is.
fn stand<R: Wait + Drop, C: Drop>(
    shared: &SharedState<R, C>,
    ready: u8,
    least_epoch: u64,
    counts: Counts,
) -> NodeState {
    let mut guard = shared.standing.lock(&shared.rt);
    let standing = &mut *guard;
    standing.state = state_behind(standing.state, ready, least_epoch);
    standing.shards.ready = ready;
    standing.shards.least_epoch = least_epoch;
    standing.counts = counts;
    standing.state
}

// Which nodes leave an update of the node unacknowledged, and for how many milliseconds. There is a look at each beat.
fn unacknowledged<R: Wait + Drop, C: Drop, P: Places>(
    shared: &SharedState<R, C>,
    watch: &NodeWatch<P>,
) -> Result<NodesSeen, Memory> {
    let beat = shared.identity.beat();
    let mut seen = Sequence::new(shared.alloc);
    for silent in watch.silent(&shared.rt, shared.alloc)?.iter() {
        let millis = silent.looks.saturating_mul(beat);
        seen.push(NodeSeen {
            node: silent.node,
            age_of_ask: None,
            unacknowledged: millis.min(u64::from(u32::MAX)) as u32,
        })?;
    }
    Ok(seen)
}

// Where memory is wanting, others are told what they were told before.
fn tell_unacknowledged<R: Wait + Drop, C: Drop, P: Places>(
    shared: &SharedState<R, C>,
    watch: &NodeWatch<P>,
) {
    if let Ok(seen) = unacknowledged(shared, watch) {
        let mut guard = shared.standing.lock(&shared.rt);
        let standing = &mut *guard;
        standing.unacknowledged = seen;
    }
}

// What the node holds, and what its desks told.
fn counts<R: Wait, P: Places>(rt: &R, watch: &NodeWatch<P>, tallies: &Tallies) -> Counts {
    let held = watch.held(rt);
    let told = tallies.tally();
    Counts {
        keys: held.keys,
        bytes: held.bytes,
        gets: told.gets,
        sets: told.sets,
        busy: told.busy,
        aborted: told.aborted,
        unknown: told.unknown,
    }
}

// Looks once, and gives how the node stands.
fn look<R: Wait + Drop, C: Drop, P: Places>(
    shared: &SharedState<R, C>,
    watch: &NodeWatch<P>,
    tallies: &Tallies,
) -> NodeState {
    let ready = watch.count_whole(&shared.rt);
    let least_epoch = watch.least_epoch(&shared.rt);
    let counts = counts(&shared.rt, watch, tallies);
    tell_unacknowledged(shared, watch);
    stand(shared, ready, least_epoch, counts)
}

// What the operator knows of the node.
#[derive(Clone, Copy)]
struct Known {
    node: NodeId,
    state: NodeState,
    lease: Presence,
    leaves: bool,
}

impl Known {
    // Tells of a joiner how far it has come. That it is ready tells who serves its clients.
    fn tell_state<R: Wait + Eprint + Drop, C: Clock + Drop>(
        &mut self,
        shared: &SharedState<R, C>,
        state: NodeState,
    ) {
        if self.state == state {
            return;
        }
        self.state = state;
        let node = self.node;
        match state {
            NodeState::Seated => shared.tell(&Notice::Seated { node }),
            NodeState::Copying => shared.tell(&Notice::Copying { node }),
            NodeState::Waiting | NodeState::Ready | NodeState::Leaving => {}
        }
    }

    // Tells where its leases are over for a beat, and where they are back. One that leaves wants none.
    fn tell_lease<R: Wait + Eprint + Drop, C: Clock + Drop>(&mut self, shared: &SharedState<R, C>) {
        if self.leaves {
            return;
        }
        let node = self.node;
        let now = shared.clock.now();
        if has_lease(shared, now) {
            if self.lease.shows(now) {
                shared.tell(&Notice::LeaseBack { node });
            }
        } else if self.lease.misses(shared.identity.beat(), now) {
            shared.tell(&Notice::LeaseOver { node });
        }
    }

    // Looks whether the node leaves, and tells it where it begins to.
    fn look_leaving<R: Wait + Eprint + Drop, C: Clock + Drop>(
        &mut self,
        shared: &SharedState<R, C>,
    ) {
        shared.look_leaving(shared.clock.now());
        let leaves = shared.is_leaving();
        if leaves && !self.leaves {
            shared.tell(&Notice::Leaving { node: self.node });
        }
        self.leaves = leaves;
    }
}

// Whether the leases of all shards run at this reading.
fn has_lease<R: Wait + Drop, C: Drop>(shared: &SharedState<R, C>, now: u64) -> bool {
    let guard = shared.standing.lock(&shared.rt);
    let end = guard.shards.lease_end;
    now.saturating_add(u64::from(shared.identity.skew)) <= end
}

impl<
    R: Wait + Eprint + Copy + Send + Sync + Drop + 'static,
    C: Clock + Send + Sync + Drop + 'static,
    P: Places + Send + Sync + 'static,
    D: DialAt + Send + Drop + 'static,
> Job for WatchJob<R, C, P, D> {
    fn run(self) {
        let WatchJob {
            shared,
            node,
            watch,
            tallies,
            mut dialer,
            clients,
        } = self;
        let beat = shared.identity.beat();
        let mut known = Known {
            node,
            state: NodeState::Waiting,
            lease: Presence::Unseen,
            leaves: false,
        };
        for _ in shared.rt.forever() {
            let state = look(&*shared, &watch, &*tallies);
            known.tell_state(&*shared, state);
            known.look_leaving(&*shared);
            known.tell_lease(&*shared);
            if shared.look_out() || known.leaves {
                let _ = dialer.dial(&clients, KNOCK_MILLIS);
            }
            rest(&shared.rt, beat);
        }
    }
}
