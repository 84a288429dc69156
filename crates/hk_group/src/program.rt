//! All that a server has before it starts a thread.

ghost use Rattle.hk_worker.specs.Founding.{names_of, AreNamed};
ghost use Rattle.hk_base.specs.View.{IsView, first_view};
ghost use Rattle.hk_locked.specs.Places.{node_names};
ghost use Rattle.hk_group.specs.Founding.{IsGroup};
ghost use Rattle.std.specs.Prelude.{◌≡◌, ◌<◌, ◌+◌, ◌*◌, length, IfOk, OnOk};

use crate::completion::Unheard;
use crate::desks::{DeskContext, GroupDesks};
use crate::gate::{Ending, Open, Rings};
use crate::group::Group;
use crate::journals::Load;
use crate::lines::Lines;
use crate::managing::ManageJob;
use crate::needs::LeaseTerms;
use crate::working::WorkJob;
use crossbeam_utils::sync::WaitGroup;
use hk_base::{Actor, Memory, Sequence, View};
use hk_link::{Bell, Inlet};
use hk_locked::Places;
use hk_outside::Clock;
use hk_overseer::ManagerPost;
use hk_routes::{Follower, Routes};
use hk_worker::{Founded, Post, Shards};
use std::alloc::Global;
use std::collections::VecDeque;
use std::sync::{Arc, Wait};

/// Clocks rise with each reading.
pub(crate) const EACH_READING: u64 = 1;

/// What all loops share.
#[derive(Drop)]
pub(crate) struct Shared<R: Wait + Drop, C: Drop> {
    pub(crate) rt: R,
    pub(crate) alloc: Global,
    pub(crate) clock: Arc<C>,
    pub(crate) load: Arc<Load>,
    pub(crate) ending: Arc<Ending>,
    /// Held by each loop but those of connections, until it has ended.
    pub(crate) jobs: WaitGroup,
}

/// The jobs of a server, what makes the desks of its connections, and what ends it.
#[derive(Drop)]
pub(crate) struct Program<R: Wait + Drop, C: Drop, P: Places> {
    pub(crate) shared: Shared<R, C>,
    pub(crate) lines: Lines,
    pub(crate) workers: Vec<WorkJob<R, C, P>>,
    pub(crate) managers: Vec<ManageJob<R, C>>,
    pub(crate) desks: Arc<GroupDesks<R, C, P>>,
}

/// A node with the end of the link to it, and the rings that tell of what is put there.
#[derive(Drop)]
pub(crate) struct NodeEnds<P: Places> {
    pub(crate) shards: Arc<Shards<Unheard, P>>,
    inlet: Inlet,
    rings: Arc<Rings>,
}

// The end of the link to the managers of a number, and the rings that tell of what is put there.
#[derive(Drop)]
struct ManagerEnds {
    inlet: Inlet,
    rings: Arc<Rings>,
}

// The rings of this bell.
fn rings_of(alloc: Global, bell: &Arc<Bell>) -> Result<Arc<Rings>, Memory> {
    let bell = Arc::try_clone(bell)?;
    Ok(Arc::new(alloc, Rings::new(bell))?)
}

/// Names the cells of a node, and makes the link to it.
pub(crate) fn new_node_ends<P: Places>(
    alloc: Global,
    founded: Founded,
    lines: &mut Lines,
) -> Result<NodeEnds<P>, Memory>
    requires { node_names P.places founded.node ≡ names_of founded }
{
    let shards = Arc::new(alloc, founded.named())?;
    let rings = rings_of(alloc, shards.bell())?;
    let inlet = lines.add(alloc, Actor::Node(shards.node()), shards.bell())?;
    Ok(NodeEnds {
        shards,
        inlet,
        rings,
    })
}

// The same of all nodes.
fn ends_of_nodes<P: Places>(
    alloc: Global,
    founded: Vec<Founded>,
    lines: &mut Lines,
) -> Result<Vec<NodeEnds<P>>, Memory>
    requires { AreNamed P.places founded.items }
    ensures { IfOk result (λ all_ends. length all_ends.items ≡ length founded.items) }
{
    let mut all_ends = Vec::new(alloc);
    for one in founded {
        all_ends.push(new_node_ends(alloc, one, lines)?)?;
    }
    Ok(all_ends)
}

// Makes the link to the managers of this number.
fn new_manager_ends(alloc: Global, number: u8, lines: &mut Lines) -> Result<ManagerEnds, Memory> {
    let bell = Arc::new(alloc, Bell::new())?;
    let rings = rings_of(alloc, &bell)?;
    let inlet = lines.add(alloc, Actor::Manager(number), &bell)?;
    Ok(ManagerEnds { inlet, rings })
}

// Makes the links to the managers, manager 0 first.
fn ends_of_managers(
    alloc: Global,
    managers: u8,
    lines: &mut Lines,
) -> Result<VecDeque<ManagerEnds>, Memory> {
    let mut all_ends = VecDeque::new(alloc);
    for number in 0..managers {
        all_ends.push_back(new_manager_ends(alloc, number, lines)?)?;
    }
    Ok(all_ends)
}

impl<R: Wait + Copy + Send + Sync + Drop + 'static, C: Clock + Send + Sync + Drop + 'static> Shared<
    R,
    C,
> {
    /// What loops with this clock share.
    pub(crate) fn new(rt: R, alloc: Global, clock: Arc<C>) -> Result<Shared<R, C>, Memory> {
        Ok(Shared {
            rt,
            alloc,
            clock,
            load: Arc::new(alloc, Load::new())?,
            ending: Arc::new(alloc, Ending::new())?,
            jobs: WaitGroup::new(alloc)?,
        })
    }

    fn gate(&self, rings: &Arc<Rings>) -> Result<Open, Memory> {
        let ending = Arc::try_clone(&self.ending)?;
        Ok(Open::new(ending, Arc::try_clone(rings)?))
    }

    // The worker of this number at a node.
    fn worker<P: Places>(
        &self,
        ends: &mut NodeEnds<P>,
        number: u8,
        pause: u64,
        routes: &Arc<Routes>,
    ) -> Result<WorkJob<R, C, P>, Memory> {
        let mut inlets = Sequence::new(self.alloc);
        inlets.push(ends.inlet.split()?)?;
        let (routes, outlets) = Follower::begin(&self.rt, self.alloc, routes)?;
        let post = Post::new(
            &self.rt,
            self.alloc,
            ends.shards.node().0,
            u32::from(number),
            Arc::try_clone(&ends.shards)?,
            inlets,
            outlets,
            Unheard,
        )?;
        Ok(WorkJob {
            rt: self.rt,
            alloc: self.alloc,
            post,
            routes,
            pause,
            clock: Arc::try_clone(&self.clock)?,
            load: Arc::try_clone(&self.load)?,
            gate: self.gate(&ends.rings)?,
            jobs: self.jobs.clone()?,
        })
    }

    // So many workers of a node more.
    fn add_workers<P: Places>(
        &self,
        jobs: &mut Vec<WorkJob<R, C, P>>,
        ends: &mut NodeEnds<P>,
        count: u8,
        pause: u64,
        routes: &Arc<Routes>,
    ) -> Result<(), Memory>
        ensures { OnOk result (length jobs.new.items ≡ length jobs.old.items + count) }
    {
        for number in 0..count {
            jobs.push(self.worker(ends, number, pause, routes)?)?;
        }
        Ok(())
    }

    /// So many workers of each node, which raise its clock no sooner than so many milliseconds behind the last time.
    pub(crate) fn workers<P: Places>(
        &self,
        all_ends: &mut Vec<NodeEnds<P>>,
        count: u8,
        pause: u64,
        routes: &Arc<Routes>,
    ) -> Result<Vec<WorkJob<R, C, P>>, Memory>
        ensures { IfOk result (λ jobs. length jobs.items ≡ length all_ends.old.items * count) }
    {
        let mut jobs = Vec::new(self.alloc);
        for place in 0..all_ends.len() {
            self.add_workers(&mut jobs, &mut all_ends[place], count, pause, routes)?;
        }
        Ok(jobs)
    }

    // The loop over the managers of this number.
    fn manager(
        &self,
        ends: ManagerEnds,
        number: u8,
        view: &View,
        group: &Group,
        lines: &mut Lines,
    ) -> Result<ManageJob<R, C>, Memory>
        requires group { IsGroup group.now }
        requires view { IsView view.now }
        requires number { number < group.now.managers }
    {
        let ManagerEnds { inlet, rings } = ends;
        let outlets = lines.split(self.alloc)?;
        let post = ManagerPost::new(
            self.alloc,
            number,
            group.managers,
            view,
            group.lease,
            inlet,
            outlets,
        )?;
        Ok(ManageJob {
            rt: self.rt,
            alloc: self.alloc,
            post,
            clock: Arc::try_clone(&self.clock)?,
            gate: self.gate(&rings)?,
            jobs: self.jobs.clone()?,
        })
    }

    // The loop of each manager number. The ends of each are there.
    fn managers(
        &self,
        mut all_ends: VecDeque<ManagerEnds>,
        view: &View,
        group: &Group,
        lines: &mut Lines,
    ) -> Result<Vec<ManageJob<R, C>>, Memory>
        requires group { IsGroup group.now }
        requires view { IsView view.now }
        ensures { IfOk result (λ jobs. length jobs.items ≡ group.now.managers) }
    {
        let mut jobs = Vec::new(self.alloc);
        for number in 0..group.managers {
            let Some(ends) = all_ends.pop_front() else {
                return Err(Memory);
            };
            jobs.push(self.manager(ends, number, view, group, lines)?)?;
        }
        Ok(jobs)
    }

    /// What makes the desks of connections.
    pub(crate) fn desks<P: Places>(
        &self,
        all_ends: Vec<NodeEnds<P>>,
        group: &Group,
        routes: &Arc<Routes>,
    ) -> Result<GroupDesks<R, C, P>, Memory> {
        let mut nodes = Vec::new(self.alloc);
        for ends in all_ends {
            nodes.push(ends.shards)?;
        }
        Ok(GroupDesks {
            context: DeskContext {
                rt: self.rt,
                alloc: self.alloc,
                clock: Arc::try_clone(&self.clock)?,
                load: Arc::try_clone(&self.load)?,
                terms: LeaseTerms {
                    asked: group.managers > 0,
                    length: group.lease,
                    skew: group.skew,
                },
                workers: u32::from(group.workers),
            },
            nodes,
            routes: Arc::try_clone(routes)?,
        })
    }
}

/// Makes all that a server of these nodes has.
pub(crate) fn prepare<
    P: Places + Send + Sync + 'static,
    R: Wait + Copy + Send + Sync + Drop + 'static,
    C: Clock + Send + Sync + Drop + 'static,
>(
    shared: Shared<R, C>,
    founded: Vec<Founded>,
    view: &View,
    group: &Group,
) -> Result<Program<R, C, P>, Memory>
    requires group { IsGroup group.now }
    requires view { IsView view.now }
    requires named { AreNamed P.places founded.items }
    ensures workers { IfOk result (λ program. length program.workers.items ≡ length founded.items * group.now.workers) }
    ensures managers { IfOk result (λ program. length program.managers.items ≡ group.now.managers) }
{
    let alloc = shared.alloc;
    let mut lines = Lines::new(alloc);
    let mut all_ends = ends_of_nodes::<P>(alloc, founded, &mut lines)?;
    let manager_ends = ends_of_managers(alloc, group.managers, &mut lines)?;
    let routes = lines.routes(alloc)?;
    let workers = shared.workers(&mut all_ends, group.workers, EACH_READING, &routes)?;
    let managers = shared.managers(manager_ends, view, group, &mut lines)?;
    let desks = shared.desks(all_ends, group, &routes)?;
    let desks = Arc::new(alloc, desks)?;
    Ok(Program {
        shared,
        lines,
        workers,
        managers,
        desks,
    })
}
