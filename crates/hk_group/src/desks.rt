//! What makes the desks of connections.

ghost use Rattle.std.specs.Prelude.{◌≡◌, length, IfOk};

use crate::completion::Unheard;
use crate::copying::Copier;
use crate::desk::{GroupDesk, Upkeep};
use crate::journals::Load;
use crate::needs::{LeaseTerms, Leases, Reserve};
use crate::reader::Reader;
use crate::standing::NodeWatch;
use hk_accept::{Desks, serve_at};
use hk_base::{Memory, SHARDS};
use hk_link::{Bell, Outlet};
use hk_locked::Places;
use hk_outside::{Clock, Connection};
use hk_overseer::Outlets;
use hk_routes::{Follower, Routes};
use hk_snap::LeaseCell;
use hk_turns::Inlets;
use hk_worker::{DeskClock, Post, Shards};
use std::alloc::Global;
use std::sync::{Arc, Wait};

// The number of posts that ask nothing.
const READERS: u32 = u32::MAX;

/// What all desks share.
#[derive(Drop)]
pub(crate) struct DeskContext<R: Wait + Drop, C: Drop> {
    pub(crate) rt: R,
    pub(crate) alloc: Global,
    pub(crate) clock: Arc<C>,
    pub(crate) load: Arc<Load>,
    pub(crate) terms: LeaseTerms,
    /// The posts of a node below this number are those of its workers.
    pub(crate) workers: u32,
}

/// Makes a desk for each connection, at the nodes in turn.
#[derive(Drop)]
pub struct GroupDesks<R: Wait + Drop, C: Drop, P: Places> {
    pub(crate) context: DeskContext<R, C>,
    /// The shards of the nodes, those of node 0 first.
    pub(crate) nodes: Vec<Arc<Shards<Unheard, P>>>,
    /// To each node and manager. They are split for each desk.
    pub(crate) routes: Arc<Routes>,
}

// What looks at the leases of the node's shards.
fn lease_cells<R: Wait, P: Places>(
    rt: &R,
    alloc: Global,
    shards: &Shards<Unheard, P>,
) -> Result<Vec<LeaseCell>, Memory>
    ensures { IfOk result (λ leases. length leases.items ≡ 8) }
{
    let mut leases = Vec::new(alloc);
    for shard in 0..SHARDS {
        let (_cells, lease) = shards.reader(rt, alloc, shard)?;
        leases.push(lease)?;
    }
    Ok(leases)
}

// The leases of these shards.
fn new_leases<R: Wait + Drop, C: Clock + Drop, P: Places>(
    context: &DeskContext<R, C>,
    shards: &Shards<Unheard, P>,
) -> Result<Leases<C>, Memory> {
    Ok(Leases {
        clock: Arc::try_clone(&context.clock)?,
        terms: context.terms,
        cells: lease_cells(&context.rt, context.alloc, shards)?,
        bell: Arc::try_clone(shards.bell())?,
        out_until: 0,
    })
}

// What wakes the workers of each of these nodes.
fn bells_of<P: Places>(
    alloc: Global,
    nodes: &[Arc<Shards<Unheard, P>>],
) -> Result<Vec<Arc<Bell>>, Memory> {
    let mut bells = Vec::new(alloc);
    for shards in nodes {
        bells.push(Arc::try_clone(shards.bell())?)?;
    }
    Ok(bells)
}

// The post of this connection.
fn new_post<R: Wait + Drop, C: Drop, P: Places>(
    context: &DeskContext<R, C>,
    shards: &Arc<Shards<Unheard, P>>,
    number: u32,
    outlets: Outlets,
) -> Result<Post<Unheard, P>, Memory> {
    Post::new(
        &context.rt,
        context.alloc,
        shards.node().0,
        context.workers.saturating_add(number),
        Arc::try_clone(shards)?,
        Inlets::new(context.alloc),
        outlets,
        Unheard,
    )
}

impl<R: Wait + Copy + Drop, C: DeskClock + Drop, P: Places> GroupDesks<R, C, P> {
    /// What looks at the leases of the first node's shards, shard 0 first.
    pub fn leases(&self) -> Result<Vec<LeaseCell>, Memory>
        ensures { IfOk result (λ leases. length leases.items ≡ 8) }
    {
        match self.nodes.first() {
            Some(shards) => lease_cells(&self.context.rt, self.context.alloc, shards),
            None => Err(Memory),
        }
    }

    fn first(&self) -> Result<&Arc<Shards<Unheard, P>>, Memory> {
        match self.nodes.first() {
            Some(shards) => Ok(shards),
            None => Err(Memory),
        }
    }

    /// What copies the rows of a shard, 0 to 7, to the first node. There is none of another number.
    pub fn copier(&self, shard: u8) -> Result<Copier<P>, Memory> {
        if shard >= SHARDS {
            return Err(Memory);
        }
        let context = &self.context;
        let shards = Arc::try_clone(self.first()?)?;
        let (routes, outlets) = Follower::begin(&context.rt, context.alloc, &self.routes)?;
        Ok(Copier::new(context.alloc, shard, shards, routes, outlets))
    }

    /// What looks how the first node stands.
    pub fn watch(&self) -> Result<NodeWatch<P>, Memory> {
        let shards = Arc::try_clone(self.first()?)?;
        Ok(NodeWatch { shards })
    }

    /// What makes the steps of parcels for the first node, and the outlet that leads to it.
    pub fn reader(&self) -> Result<(Outlet, Reader<R, P>), Memory> {
        let context = &self.context;
        let (routes, outlets) = Follower::begin(&context.rt, context.alloc, &self.routes)?;
        Reader::new(
            context.rt,
            context.alloc,
            self.first()?,
            &context.load,
            READERS,
            routes,
            outlets,
        )
    }

    // What keeps a post at these shards.
    fn upkeep(
        &self,
        shards: &Shards<Unheard, P>,
        routes: Follower,
    ) -> Result<Upkeep<R, C>, Memory> {
        let context = &self.context;
        Ok(Upkeep {
            rt: context.rt,
            alloc: context.alloc,
            routes,
            reserve: Reserve::new(context.alloc),
            leases: new_leases(context, shards)?,
            bells: bells_of(context.alloc, self.nodes.as_slice())?,
            load: Arc::try_clone(&context.load)?,
            updates: 0,
            bytes: 0,
        })
    }

    /// The desk of the connection of this number. Its node is that number modulo the number of nodes.
    pub fn desk(&self, number: u32) -> Result<GroupDesk<C, R, P>, Memory> {
        let count = self.nodes.len();
        if count == 0 {
            return Err(Memory);
        }
        let context = &self.context;
        let shards = &self.nodes[number as usize % count];
        let (routes, outlets) = Follower::begin(&context.rt, context.alloc, &self.routes)?;
        let clock = Arc::try_clone(&context.clock)?;
        let upkeep = self.upkeep(shards, routes)?;
        // The post comes last. Were it let go here, that would take room for a node's shards on the stack, and what the
        // stack of a connection's thread once took it keeps.
        let post = new_post(context, shards, number, outlets)?;
        Ok(GroupDesk {
            clock,
            upkeep,
            post,
        })
    }
}

impl<
    R: Wait + Copy + Send + Sync + Drop + 'static,
    C: DeskClock + Send + Sync + Drop + 'static,
    P: Places + Send + Sync + 'static,
> Desks for GroupDesks<R, C, P> {
    fn serve<N: Connection>(&self, conn: &mut N, number: u32) {
        serve_at(self.context.alloc, conn, self.desk(number));
    }
}
