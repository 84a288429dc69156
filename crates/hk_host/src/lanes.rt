//! The lanes from an actor of this process to nodes, and what lets the letters of its own node in.

ghost use Rattle.hk_host.specs.Starting.{Starts};

use crate::fault::StartFault;
use crate::sending::Dialers;
use hk_base::{Actor, Memory};
use hk_channel::{Channel, NodeEntry};
use hk_lanes::{Lane, LaneDesks, LaneJob, Lanes};
use hk_link::Bell;
use hk_locked::Places;
use hk_outside::{Clock, Source, Spawner};
use hk_peer::{Course, PromptCarrier};
use hk_shared_state::SharedState;
use hk_worker::DeskClock;
use std::alloc::Global;
use std::io::Eprint;
use std::sync::{Arc, Mutex, Wait};

// So many nodes an actor sends to at once: the members of a view, and some that came or went.
const LANES: usize = 20;

/// Lets letters in to the node of this process, once it has one.
#[derive(Drop)]
pub(crate) struct NodeDoor<R: Wait + Drop, C: Drop, P: Places, X: Drop> {
    rt: R,
    desks: Mutex<Option<Arc<LaneDesks<R, C, P, X>>>>,
}

impl<R: Wait + Drop, C: Drop, P: Places, X: Drop> NodeDoor<R, C, P, X> {
    /// There is no node yet.
    pub(crate) fn new(rt: R) -> NodeDoor<R, C, P, X> {
        NodeDoor {
            rt,
            desks: Mutex::new(None),
        }
    }

    /// Letters come to the node from now on.
    pub(crate) fn open(&self, desks: Arc<LaneDesks<R, C, P, X>>) {
        let mut guard = self.desks.lock(&self.rt);
        *guard = Some(desks);
    }

    // The node, if there is one.
    fn node(&self) -> Option<Arc<LaneDesks<R, C, P, X>>> {
        let guard = self.desks.lock(&self.rt);
        match &*guard {
            Some(desks) => Arc::try_clone(desks).ok(),
            None => None,
        }
    }
}

impl<R: Wait + Copy + Drop, C: DeskClock + Drop, P: Places, X: PromptCarrier + Drop> NodeEntry
    for NodeDoor<R, C, P, X> {
    fn serve<N: Source>(&self, conn: &mut N, course: Course) {
        if let Some(desks) = self.node() {
            desks.take_letters(conn, course);
        }
    }
}

/// The lanes from an actor of this process to nodes, and what is to carry for them.
#[derive(Drop)]
pub(crate) struct LanePool<X: Drop> {
    pub(crate) lanes: Vec<Arc<Lane<X>>>,
    /// One for each lane that leads nowhere.
    pub(crate) spare: Vec<X>,
}

impl<X: PromptCarrier + Drop> LanePool<X> {
    // No lanes yet.
    fn new(alloc: Global) -> LanePool<X> {
        LanePool {
            lanes: Vec::new(alloc),
            spare: Vec::new(alloc),
        }
    }

    // One lane more, which leads nowhere yet, and what is to carry for it. It gives the job of the lane.
    fn add<R: Wait + Copy + Drop>(
        &mut self,
        rt: R,
        alloc: Global,
        carrier: X,
    ) -> Result<LaneJob<R, X>, Memory> {
        self.spare.push(carrier)?;
        let bell = Arc::new(alloc, Bell::new())?;
        let lane = Arc::new(alloc, Lane::free(bell))?;
        self.lanes.push(Arc::try_clone(&lane)?)?;
        Ok(LaneJob { rt, lane })
    }

    /// The same lanes, for whoever sends.
    pub(crate) fn shared(&self, alloc: Global) -> Result<Arc<Lanes<X>>, Memory> {
        let mut lanes = Lanes::new(alloc);
        for lane in &self.lanes {
            lanes.push(Arc::try_clone(lane)?)?;
        }
        Ok(Arc::new(alloc, lanes)?)
    }
}

// What is to carry for a lane from an actor of this process. It leads nowhere before it is aimed.
fn new_carrier<R: Wait + Drop, C: Drop, E: Dialers>(
    shared: &Arc<SharedState<R, C>>,
    dialers: &E,
    from: Actor,
) -> Result<Channel<R, C, E::Dialer>, Memory> {
    let shared = Arc::try_clone(shared)?;
    Ok(Channel::new(shared, dialers.dialer(), from, from))
}

/// Makes the lanes of an actor of this process, and starts their threads.
pub(crate) fn start_lanes<
    R: Wait + Eprint + Copy + Send + Sync + Drop + 'static,
    C: Clock + Send + Sync + Drop + 'static,
    E: Dialers,
    S: Spawner,
>(
    shared: &Arc<SharedState<R, C>>,
    dialers: &E,
    spawner: &mut S,
    from: Actor,
) -> Result<LanePool<Channel<R, C, E::Dialer>>, StartFault>
    ensures { Starts (S.faults spawner.old) (S.faults spawner.new) result }
{
    let mut pool = LanePool::new(shared.alloc);
    for _ in 0..LANES {
        let carrier = new_carrier(shared, dialers, from)?;
        spawner.start_made(pool.add(shared.rt, shared.alloc, carrier))?;
    }
    Ok(pool)
}
