//! The node of this process, once its group is open.

ghost use Rattle.std.specs.Prelude.{◌≡◌, ◌<◌, length};
ghost use Rattle.hk_locked.specs.Places.{node_names};
ghost use Rattle.hk_worker.specs.Founding.{names_of};
ghost use Rattle.hk_group.specs.Founding.{IsGroup};
ghost use Rattle.hk_host.specs.Starting.{Starts};

use crate::copying::CopyJob;
use crate::fault::StartFault;
use crate::lanes::start_lanes;
use crate::metronome::BeatJob;
use crate::routing::RouteJob;
use crate::sending::{Dialers, start_queues};
use crate::watching::WatchJob;
use hk_base::{Actor, Memory, NodeId, SHARDS};
use hk_channel::Channel;
use hk_group::{Group, GroupDesks, Member, start_each};
use hk_hosts::{Address, PromptConnection};
use hk_inside::NodeState;
use hk_lanes::{LaneDesks, Lanes, Tallies};
use hk_link::Outlet;
use hk_locked::Places;
use hk_loops::{EventLoops, THREADS};
use hk_outside::Spawner;
use hk_peer::PromptCarrier;
use hk_process::Sending;
use hk_routes::Routes;
use hk_shared_state::{Identity, Part, SharedState, copy_of};
use hk_worker::{DeskClock, Founded, OpenAsk};
use std::alloc::Global;
use std::io::Eprint;
use std::sync::{Arc, Wait};

// The workers of a node raise its clock so often in a beat at most.
const READINGS: u64 = 4;

/// The group as its founders have it. It opens no port of its own.
pub(crate) fn founding_group(identity: &Identity, workers: u8) -> Group
    ensures group { IsGroup result }
    ensures nodes { result.nodes ≡ length identity.now.hosts }
    ensures skew { result.skew ≡ identity.now.skew }
{
    Group {
        nodes: identity.managers(),
        workers,
        managers: identity.managers(),
        lease: u64::from(identity.lease),
        skew: u64::from(identity.skew),
        port: 1,
        conns: u32::MAX,
    }
}

// Others learn of the node.
fn stand<R: Wait + Drop, C: Drop>(shared: &SharedState<R, C>, node: NodeId) {
    let mut guard = shared.standing.lock(&shared.rt);
    let standing = &mut *guard;
    standing.node = Some(node);
    standing.state = NodeState::Seated;
}

/// The member of the group that this process's node is, by this clock.
pub(crate) fn new_member<
    R: Wait + Copy + Send + Sync + Drop + 'static,
    C: DeskClock + Send + Sync + Drop + 'static,
    P: Places + Send + Sync + 'static,
>(
    shared: &SharedState<R, C>,
    clock: Arc<C>,
    founded: Founded,
    group: &Group,
) -> Result<Member<R, C, P>, Memory>
    requires named { node_names P.places founded.node ≡ names_of founded }
{
    let pause = shared.identity.beat() / READINGS;
    Member::<R, C, P>::among_managers(shared.rt, shared.alloc, clock, founded, pause.max(1), group)
}

// Starts what opens lanes to other nodes as they come, and gives these lanes.
fn start_routing<
    R: Wait + Eprint + Copy + Send + Sync + Drop + 'static,
    C: DeskClock + Send + Sync + Drop + 'static,
    E: Dialers,
    S: Spawner,
>(
    shared: &Arc<SharedState<R, C>>,
    dialers: &E,
    spawner: &mut S,
    node: NodeId,
    routes: &Arc<Routes>,
) -> Result<Arc<Lanes<Channel<R, C, E::Dialer>>>, StartFault>
    ensures { Starts (S.faults spawner.old) (S.faults spawner.new) result }
{
    let pool = start_lanes(shared, dialers, spawner, Actor::Node(node))?;
    let lanes = pool.shared(shared.alloc)?;
    spawner.start_made(RouteJob::new(shared, Some(node), routes, pool))?;
    Ok(lanes)
}

// The job that copies the rows of a shard.
fn copy_job<R: Wait + Copy + Drop, C: DeskClock + Drop, P: Places>(
    shared: &Arc<SharedState<R, C>>,
    desks: &GroupDesks<R, C, P>,
    shard: u8,
) -> Result<CopyJob<R, C, P>, Memory> {
    Ok(CopyJob {
        shared: Arc::try_clone(shared)?,
        copier: desks.copier(shard)?,
        shard,
    })
}

// Starts what copies the rows of a joiner's shards.
fn start_copying<
    P: Places + Send + Sync + 'static,
    R: Wait + Eprint + Copy + Send + Sync + Drop + 'static,
    C: DeskClock + Send + Sync + Drop + 'static,
    S: Spawner,
>(
    shared: &Arc<SharedState<R, C>>,
    spawner: &mut S,
    desks: &GroupDesks<R, C, P>,
) -> Result<(), StartFault>
    ensures { Starts (S.faults spawner.old) (S.faults spawner.new) result }
{
    for shard in 0..SHARDS {
        spawner.start_made(copy_job(shared, desks, shard))?;
    }
    Ok(())
}

// The job that looks how the node stands.
fn watch_job<R: Wait + Copy + Drop, C: DeskClock + Drop, P: Places, E: Dialers>(
    shared: &Arc<SharedState<R, C>>,
    node: NodeId,
    dialers: &E,
    desks: &GroupDesks<R, C, P>,
    tallies: &Arc<Tallies>,
    clients: &Address,
) -> Result<WatchJob<R, C, P, E::Dialer>, Memory> {
    let Some(clients) = copy_of(shared.alloc, clients) else {
        return Err(Memory);
    };
    Ok(WatchJob {
        shared: Arc::try_clone(shared)?,
        node,
        watch: desks.watch()?,
        tallies: Arc::try_clone(tallies)?,
        dialer: dialers.dialer(),
        clients,
    })
}

// Starts what looks how the node stands, and whether it was left out.
fn start_watching<
    P: Places + Send + Sync + 'static,
    R: Wait + Eprint + Copy + Send + Sync + Drop + 'static,
    C: DeskClock + Send + Sync + Drop + 'static,
    E: Dialers,
    S: Spawner,
>(
    shared: &Arc<SharedState<R, C>>,
    node: NodeId,
    dialers: &E,
    spawner: &mut S,
    desks: &GroupDesks<R, C, P>,
    tallies: &Arc<Tallies>,
    clients: &Address,
) -> Result<(), StartFault>
    ensures { Starts (S.faults spawner.old) (S.faults spawner.new) result }
{
    spawner.start_made(watch_job(shared, node, dialers, desks, tallies, clients))?;
    Ok(())
}

// Starts what copies the rows, where the node is a joiner. A founder has them all.
fn start_part<
    P: Places + Send + Sync + 'static,
    R: Wait + Eprint + Copy + Send + Sync + Drop + 'static,
    C: DeskClock + Send + Sync + Drop + 'static,
    S: Spawner,
>(
    shared: &Arc<SharedState<R, C>>,
    part: Part,
    spawner: &mut S,
    desks: &GroupDesks<R, C, P>,
) -> Result<(), StartFault>
    ensures { Starts (S.faults spawner.old) (S.faults spawner.new) result }
{
    match part {
        Part::Founder(_) => Ok(()),
        Part::Joiner(_) => start_copying(shared, spawner, desks),
    }
}

// Starts what gives the beat to the workers of the node to which this outlet leads.
fn start_beat<
    P: Places + Send + Sync + 'static,
    R: Wait + Eprint + Copy + Send + Sync + Drop + 'static,
    C: DeskClock + Send + Sync + Drop + 'static,
    S: Spawner,
>(
    shared: &Arc<SharedState<R, C>>,
    spawner: &mut S,
    desks: &GroupDesks<R, C, P>,
    outlet: &Outlet,
) -> Result<(), StartFault>
    ensures { Starts (S.faults spawner.old) (S.faults spawner.new) result }
{
    let Some(bell) = outlet.bell() else {
        return Ok(());
    };
    let leases = desks.leases()?;
    spawner.start_made(BeatJob::new(shared, bell, leases))?;
    Ok(())
}

// Makes the desks shared.
fn shared_desks<R: Wait + Drop, C: Drop, P: Places, X: Drop>(
    alloc: Global,
    desks: LaneDesks<R, C, P, X>,
) -> Result<Arc<LaneDesks<R, C, P, X>>, Memory> {
    Ok(Arc::new(alloc, desks)?)
}

// Starts the threads of the loop of this number.
fn start_threads<
    P: Places + Send + Sync + 'static,
    R: Wait + Eprint + Copy + Send + Sync + Drop + 'static,
    C: DeskClock + Send + Sync + Drop + 'static,
    X: PromptCarrier + Send + Drop + 'static,
    N: PromptConnection + Send + Drop + 'static,
    S: Spawner,
>(
    shared: &SharedState<R, C>,
    spawner: &mut S,
    loops: &EventLoops<N, OpenAsk>,
    number: usize,
    desks: &Arc<LaneDesks<R, C, P, X>>,
) -> Result<(), StartFault>
    ensures { Starts (S.faults spawner.old) (S.faults spawner.new) result }
{
    for _ in 0..THREADS {
        spawner.start_made(loops.job(shared.rt, shared.alloc, number, desks))?;
    }
    Ok(())
}

// Starts the threads of the loops that serve the node's clients at these desks.
fn start_loops<
    P: Places + Send + Sync + 'static,
    R: Wait + Eprint + Copy + Send + Sync + Drop + 'static,
    C: DeskClock + Send + Sync + Drop + 'static,
    X: PromptCarrier + Send + Drop + 'static,
    N: PromptConnection + Send + Drop + 'static,
    S: Spawner,
>(
    shared: &SharedState<R, C>,
    spawner: &mut S,
    loops: &EventLoops<N, OpenAsk>,
    desks: &Arc<LaneDesks<R, C, P, X>>,
) -> Result<(), StartFault>
    ensures { Starts (S.faults spawner.old) (S.faults spawner.new) result }
{
    for number in 0..loops.count() {
        start_threads(shared, spawner, loops, number, desks)?;
    }
    spawner.start_made(loops.watch(shared.rt, shared.alloc))?;
    Ok(())
}

/// Starts what keeps the node going: its workers, a loop for each queue to a manager, what opens lanes to other nodes, the beat, what copies and watches, and the threads
/// of its clients' loops. What is given makes the desks of its clients, and takes its letters.
pub(crate) fn start_node<
    P: Places + Send + Sync + 'static,
    R: Wait + Eprint + Copy + Send + Sync + Drop + 'static,
    C: DeskClock + Send + Sync + Drop + 'static,
    E: Dialers,
    N: PromptConnection + Send + Drop + 'static,
    S: Spawner,
>(
    shared: &Arc<SharedState<R, C>>,
    part: Part,
    dialers: &E,
    sending: &mut Sending,
    spawner: &mut S,
    member: Member<R, C, P>,
    listen: &Address,
    loops: &EventLoops<N, OpenAsk>,
) -> Result<Arc<LaneDesks<R, C, P, Channel<R, C, E::Dialer>>>, StartFault>
    ensures { Starts (S.faults spawner.old) (S.faults spawner.new) result }
{
    let Member {
        workers,
        desks,
        outlet,
        queues,
        routes,
        running: _running,
    } = member;
    let node = part.number();
    start_each(workers, spawner)?;
    start_queues(shared, dialers, sending, spawner, Actor::Node(node), queues)?;
    let lanes = start_routing(shared, dialers, spawner, node, &routes)?;
    start_beat(shared, spawner, &desks, &outlet)?;
    stand(&**shared, node);
    start_part(shared, part, spawner, &desks)?;
    let tallies = Tallies::new(shared.alloc)?;
    start_watching(shared, node, dialers, spawner, &desks, &tallies, listen)?;
    let made = LaneDesks::new(shared.rt, shared.alloc, desks, lanes, tallies);
    let desks = shared_desks(shared.alloc, made)?;
    start_loops(&**shared, spawner, loops, &desks)?;
    Ok(desks)
}
