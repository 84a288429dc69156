//! The job that keeps the lanes from an actor to the nodes of its group.

use crate::lanes::LanePool;
use crate::queues::rung_link;
use hk_base::{Actor, Memory, NodeId};
use hk_channel::AimedCarrier;
use hk_lanes::Lane;
use hk_link::Outlet;
use hk_outside::{Clock, Job};
use hk_routes::Routes;
use hk_shared_state::{SharedState, rest};
use std::sync::{Arc, Wait};

// A lane stays open for so many leases behind the last board that told its node: a node that is to be left out is a member of the view before for as long as that lasts.
const LEASES: u64 = 4;

// A lane that leads to a node.
#[derive(Drop)]
struct OpenLane<X: Drop> {
    node: NodeId,
    lane: Arc<Lane<X>>,
    // The reading at which the boards told the node last.
    told: u64,
}

/// Opens a lane to each node whose number has a holder, and ends those to others. It looks at each beat at what the boards tell.
#[derive(Drop)]
pub(crate) struct RouteJob<R: Wait + Drop, C: Drop, X: Drop> {
    shared: Arc<SharedState<R, C>>,
    // The actor that sends, if it is a node.
    own: Option<NodeId>,
    routes: Arc<Routes>,
    pool: LanePool<X>,
    open: Vec<OpenLane<X>>,
}

fn is_node(node: NodeId, other: Option<NodeId>) -> bool {
    match other {
        Some(other) => node.0 == other.0,
        None => false,
    }
}

// The nodes that boards tell.
fn nodes_told<R: Wait + Drop, C: Drop>(shared: &SharedState<R, C>) -> Result<Vec<NodeId>, Memory> {
    let guard = shared.standing.lock(&shared.rt);
    let standing = &*guard;
    standing.boards.nodes(shared.alloc, standing.founding)
}

impl<R: Wait + Drop, C: Clock + Drop, X: AimedCarrier + Drop> RouteJob<R, C, X> {
    /// No lane is open yet. `own` is the node that sends, if it is one.
    pub(crate) fn new(
        shared: &Arc<SharedState<R, C>>,
        own: Option<NodeId>,
        routes: &Arc<Routes>,
        pool: LanePool<X>,
    ) -> Result<RouteJob<R, C, X>, Memory> {
        Ok(RouteJob {
            shared: Arc::try_clone(shared)?,
            own,
            routes: Arc::try_clone(routes)?,
            pool,
            open: Vec::new(shared.alloc),
        })
    }

    // The place of the lane to a node, if one is open.
    fn place_of(&self, node: NodeId) -> Option<usize> {
        self.open.iter().position(|lane| lane.node.0 == node.0)
    }

    // Notes that the boards tell the node, and gives whether a lane to it is open.
    fn is_open(&mut self, node: NodeId, now: u64) -> bool {
        let Some(place) = self.place_of(node) else {
            return false;
        };
        match self.open.get_mut(place) {
            Some(lane) => {
                lane.told = now;
                true
            }
            None => false,
        }
    }

    fn free_lane(&self) -> Option<Arc<Lane<X>>> {
        for lane in &self.pool.lanes {
            if lane.is_free() {
                return Arc::try_clone(lane).ok();
            }
        }
        None
    }

    // A lane leads to the node from now on. It gives what its letters are put into.
    fn begin(&mut self, lane: Arc<Lane<X>>, node: NodeId, now: u64) -> Result<Outlet, Memory> {
        let alloc = self.shared.alloc;
        let (outlet, inlet) = rung_link(alloc, lane.bell())?;
        self.open.reserve(1)?;
        let Some(mut carrier) = self.pool.spare.pop() else {
            return Err(Memory);
        };
        carrier.aim(Actor::Node(node));
        lane.begin(&self.shared.rt, alloc, inlet, carrier);
        self.open.push_reserved(OpenLane {
            node,
            lane,
            told: now,
        });
        Ok(outlet)
    }

    // Opens a lane to a node, where a lane is free and there is memory for it. Else that is tried again at the next beat.
    fn open_lane(&mut self, node: NodeId, now: u64) {
        let Some(lane) = self.free_lane() else {
            return;
        };
        let Ok(outlet) = self.begin(lane, node, now) else {
            return;
        };
        let to = Actor::Node(node);
        if self.routes.add(&self.shared.rt, to, outlet).is_err() {
            self.close(node);
        }
    }

    // Ends the lane at this place, if there is one.
    fn close_at(&mut self, place: usize) {
        if place >= self.open.len() {
            return;
        }
        let open = self.open.swap_remove(place);
        let to = Actor::Node(open.node);
        self.routes.remove(&self.shared.rt, to);
        if let Some(carrier) = open.lane.end(&self.shared.rt) {
            self.keep(carrier, to);
        }
    }

    // Keeps what carried for a lane, for the next one. Its connection is ended.
    fn keep(&mut self, carrier: X, to: Actor) {
        let mut carrier = carrier;
        carrier.aim(to);
        let _ = self.pool.spare.push(carrier);
    }

    // Ends the lane to a node.
    fn close(&mut self, node: NodeId) {
        if let Some(place) = self.place_of(node) {
            self.close_at(place);
        }
    }

    // The place of a lane whose node was not told for long.
    fn outworn(&self, now: u64) -> Option<usize> {
        let lasts = u64::from(self.shared.identity.lease).saturating_mul(LEASES);
        self.open
            .iter()
            .position(|lane| lasts < now.saturating_sub(lane.told))
    }

    // Ends one lane whose node was not told for long. One a beat is enough.
    fn close_outworn(&mut self, now: u64) {
        if let Some(place) = self.outworn(now) {
            self.close_at(place);
        }
    }

    // What is done at a beat.
    fn turn(&mut self) {
        let now = self.shared.clock.now();
        let Ok(nodes) = nodes_told(&*self.shared) else {
            return;
        };
        for node in &nodes {
            let node = *node;
            if !is_node(node, self.own) && !self.is_open(node, now) {
                self.open_lane(node, now);
            }
        }
        self.close_outworn(now);
    }
}

impl<
    R: Wait + Copy + Send + Sync + Drop + 'static,
    C: Clock + Send + Sync + Drop + 'static,
    X: AimedCarrier + Send + Drop + 'static,
> Job for RouteJob<R, C, X> {
    fn run(self) {
        let mut routing = self;
        let rt = routing.shared.rt;
        let beat = routing.shared.identity.beat();
        for _ in rt.forever() {
            routing.turn();
            rest(&rt, beat);
        }
    }
}
