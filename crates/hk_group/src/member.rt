//! One node of a group whose other nodes run in programs of their own.

ghost use Rattle.std.specs.Prelude.{◌≡◌, ◌≤◌, ◌<◌, ◌+◌, length, IfOk, OnOk};
ghost use Rattle.hk_locked.specs.Places.{node_names};
ghost use Rattle.hk_worker.specs.Founding.{names_of};

use crate::desks::GroupDesks;
use crate::gate::Ending;
use crate::group::Group;
use crate::lines::Lines;
use crate::program::{EACH_READING, NodeEnds, Shared, new_node_ends};
use crate::working::WorkJob;
use crossbeam_utils::sync::WaitGroup;
use hk_base::{Actor, Memory, NodeId};
use hk_link::{Bell, Inlet, Outlet};
use hk_locked::Places;
use hk_outside::Clock;
use hk_routes::Routes;
use hk_worker::{Founded, Waits};
use std::alloc::Global;
use std::sync::{Arc, Wait};

/// The queue of parcels from the node to another one, or to a manager.
#[derive(Drop)]
pub struct SendQueue {
    pub to: Actor,
    pub inlet: Inlet,
    /// What is put rings it.
    pub bell: Arc<Bell>,
}

/// A node of a group whose other nodes run in programs of their own: its workers, what makes the desks of its clients, what comes for it, and what goes to the
/// others.
#[derive(Drop)]
pub struct Member<R: Wait + Drop, C: Drop, P: Places> {
    pub workers: Vec<WorkJob<R, C, P>>,
    pub desks: GroupDesks<R, C, P>,
    /// Leads to the node. Its workers take what is put.
    pub outlet: Outlet,
    /// One to each other node of which it knew as it was made, in the order of their numbers, and then one to each manager.
    pub queues: Vec<SendQueue>,
    /// The outlets from the node, those of its queues at first. Its workers and its desks follow them.
    pub routes: Arc<Routes>,
    pub running: Running,
}

/// What ends the workers of a node.
#[derive(Drop)]
pub struct Running {
    ending: Arc<Ending>,
    lines: Lines,
    workers: WaitGroup,
}

impl Running {
    /// Has the workers end, and returns once they have.
    pub fn end<R: Wait>(self, rt: &R) {
        let Running {
            ending,
            lines,
            workers,
        } = self;
        ending.tell();
        lines.ring_all(rt);
        workers.wait(rt);
    }
}

// The queue to this actor.
fn new_queue(alloc: Global, to: Actor, lines: &mut Lines) -> Result<SendQueue, Memory> {
    let bell = Arc::new(alloc, Bell::new())?;
    let inlet = lines.add(alloc, to, &bell)?;
    Ok(SendQueue { to, inlet, bell })
}

// A queue more to each node from one number on and below another.
fn add_queues(
    alloc: Global,
    queues: &mut Vec<SendQueue>,
    from: u8,
    end: u8,
    lines: &mut Lines,
) -> Result<(), Memory>
    requires { from ≤ end }
    ensures { OnOk result (length queues.new.items + from ≡ length queues.old.items + end) }
{
    for number in from..end {
        queues.push(new_queue(alloc, Actor::Node(NodeId(u16::from(number))), lines)?)?;
    }
    Ok(())
}

// A queue more to each of so many managers.
fn add_manager_queues(
    alloc: Global,
    queues: &mut Vec<SendQueue>,
    managers: u8,
    lines: &mut Lines,
) -> Result<(), Memory>
    ensures { OnOk result (length queues.new.items ≡ length queues.old.items + managers) }
{
    for number in 0..managers {
        queues.push(new_queue(alloc, Actor::Manager(number), lines)?)?;
    }
    Ok(())
}

// A queue to each node of the group but the one of this number, and to each manager.
fn new_queues(
    alloc: Global,
    number: u8,
    group: &Group,
    lines: &mut Lines,
) -> Result<Vec<SendQueue>, Memory>
    requires { number < group.now.nodes }
    ensures { IfOk result (λ queues. length queues.items + 1 ≡ group.now.nodes + group.now.managers) }
{
    let mut queues = Vec::new(alloc);
    add_queues(alloc, &mut queues, 0, number, lines)?;
    add_queues(alloc, &mut queues, number + 1, group.nodes, lines)?;
    add_manager_queues(alloc, &mut queues, group.managers, lines)?;
    Ok(queues)
}

// How long those wait who ask at a node of this group: where managers replace members, two lengths of a lease for a row and eight for an answer, in which the others
// get on without one that is lost.
fn waits_of(group: &Group) -> Waits {
    if group.managers == 0 {
        return Waits::usual();
    }
    Waits {
        settle: group.lease.saturating_mul(2),
        answer: group.lease.saturating_mul(8),
    }
}

// The workers of a node, and what makes its desks.
fn new_staff<
    R: Wait + Copy + Send + Sync + Drop + 'static,
    C: Clock + Send + Sync + Drop + 'static,
    P: Places,
>(
    shared: &Shared<R, C>,
    ends: NodeEnds<P>,
    group: &Group,
    pause: u64,
    routes: &Arc<Routes>,
) -> Result<(Vec<WorkJob<R, C, P>>, GroupDesks<R, C, P>), Memory>
    ensures { IfOk result (λ staff. length staff.0.items ≡ group.now.workers) }
{
    let mut all_ends = Vec::new(shared.alloc);
    all_ends.push(ends)?;
    let workers = shared.workers(&mut all_ends, group.workers, pause, routes)?;
    let desks = shared.desks(all_ends, group, routes)?;
    Ok((workers, desks))
}

// A queue to each manager of the group.
fn queues_to_managers(
    alloc: Global,
    group: &Group,
    lines: &mut Lines,
) -> Result<Vec<SendQueue>, Memory>
    ensures { IfOk result (λ queues. length queues.items ≡ group.now.managers) }
{
    let mut queues = Vec::new(alloc);
    add_manager_queues(alloc, &mut queues, group.managers, lines)?;
    Ok(queues)
}

impl<
    R: Wait + Copy + Send + Sync + Drop + 'static,
    C: Clock + Send + Sync + Drop + 'static,
    P: Places + Send + Sync + 'static,
> Member<R, C, P> {
    /// The node of this number, of which these are the shards. Its group's other nodes and its managers are elsewhere.
    pub fn new(
        rt: R,
        alloc: Global,
        clock: Arc<C>,
        founded: Founded,
        number: u8,
        group: &Group,
    ) -> Result<Member<R, C, P>, Memory>
        requires named { node_names P.places founded.node ≡ names_of founded }
        requires number { number < group.now.nodes }
        ensures workers { IfOk result (λ member. length member.workers.items ≡ group.now.workers) }
        ensures queues { IfOk result (λ member. length member.queues.items + 1 ≡ group.now.nodes + group.now.managers) }
    {
        let mut lines = Lines::new(alloc);
        let founded = founded.with_waits(waits_of(group));
        let ends = new_node_ends::<P>(alloc, founded, &mut lines)?;
        let shared = Shared::new(rt, alloc, clock)?;
        let queues = new_queues(alloc, number, group, &mut lines)?;
        Member::with_queues(shared, ends, queues, lines, EACH_READING, group)
    }

    /// The same, but of the other nodes it does not know yet: queues to them are put into its routes as they come. Its workers raise its clock no sooner than `pause`
    /// milliseconds behind the last time.
    pub fn among_managers(
        rt: R,
        alloc: Global,
        clock: Arc<C>,
        founded: Founded,
        pause: u64,
        group: &Group,
    ) -> Result<Member<R, C, P>, Memory>
        requires named { node_names P.places founded.node ≡ names_of founded }
        ensures workers { IfOk result (λ member. length member.workers.items ≡ group.now.workers) }
        ensures queues { IfOk result (λ member. length member.queues.items ≡ group.now.managers) }
    {
        let mut lines = Lines::new(alloc);
        let founded = founded.with_waits(waits_of(group));
        let ends = new_node_ends::<P>(alloc, founded, &mut lines)?;
        let shared = Shared::new(rt, alloc, clock)?;
        let queues = queues_to_managers(alloc, group, &mut lines)?;
        Member::with_queues(shared, ends, queues, lines, pause, group)
    }

    // The node with these ends, and these queues to others.
    fn with_queues(
        shared: Shared<R, C>,
        ends: NodeEnds<P>,
        queues: Vec<SendQueue>,
        mut lines: Lines,
        pause: u64,
        group: &Group,
    ) -> Result<Member<R, C, P>, Memory>
        ensures workers { IfOk result (λ member. length member.workers.items ≡ group.now.workers) }
        ensures queues { IfOk result (λ member. member.queues ≡ queues) }
    {
        let outlet = lines.split_first()?;
        let routes = lines.routes(shared.alloc)?;
        let (workers, desks) = new_staff(&shared, ends, group, pause, &routes)?;
        let Shared { ending, jobs, .. } = shared;
        Ok(Member {
            workers,
            desks,
            outlet,
            queues,
            routes,
            running: Running {
                ending,
                lines,
                workers: jobs,
            },
        })
    }
}
