//! The server of one node.

ghost use Rattle.std.specs.Prelude.{◌≡◌, ◌+◌, length, true, IfOk};
ghost use Rattle.hk_outside.specs.Causes.{Rose};
ghost use Rattle.hk_accept.specs.Serving.{EndsServe};
ghost use Rattle.hk_locked.specs.Places.{node_names};
ghost use Rattle.hk_worker.specs.Founding.{names_of};
ghost use Rattle.hk_process.specs.Process.{IsProcess, process_jobs};
ghost use Rattle.hk_process.specs.Serving.{HasTakenBeside};

use crate::accept::take_conns;
use crate::conn_job::PeerServer;
use crate::conn_limit::{ConnLimit, Knock, Knocker};
use crate::process::Process;
use crate::route::Route;
use crate::sending::{SendJob, Sending};
use hk_accept::Desks;
use hk_base::{Actor, Memory, NodeId, View};
use hk_group::{Member, SendQueue, found_node, start_each};
use hk_link::{Bell, Outlet};
use hk_locked::Places;
use hk_outside::{Doors, Job, Spawner, Status};
use hk_worker::{DeskClock, Founded, Tickets};
use std::alloc::Global;
use std::io::Eprint;
use std::marker::Brand;
use std::sync::{Arc, Mutex, Wait};

// The number of a node. Ways lead to nodes alone here, since the group has no managers.
fn number_of(to: Actor) -> u16 {
    match to {
        Actor::Node(node) => node.0,
        Actor::Manager(number) => u16::from(number),
    }
}

// The loops that send, each with a dialer of its own.
fn send_jobs<R: Wait + Copy + Drop, D: Doors>(
    rt: R,
    alloc: Global,
    doors: &D,
    process: &Process,
    queues: Vec<SendQueue>,
    sending: &mut Sending,
) -> Result<Vec<SendJob<R, Route<D::Dialer>>>, Memory>
    requires { length queues.items + 1 ≡ process.now.nodes }
    ensures { IfOk result (λ jobs. length jobs.items + 1 ≡ process.now.nodes) }
{
    let mut jobs = Vec::new(alloc);
    for queue in queues {
        let port = process.port.saturating_add(number_of(queue.to));
        let route = Route {
            alloc,
            dialer: doors.dialer(),
            port,
            conn: None,
        };
        jobs.push(sending.job(rt, alloc, route, queue)?)?;
    }
    Ok(jobs)
}

// Starts the workers, the loops that send, and then a job for each connection that comes.
#[tactic(auto, using(crate::proofs::Taking::taken_beside))]
fn serve_conns<
    R: Wait + Send + Sync + Drop + 'static,
    W: Job,
    T: Job,
    K: Desks + Send + Sync + Drop + 'static,
    G: Knock + Send + Drop + 'static,
    D: Doors,
    S: Spawner,
>(
    rt: &R,
    alloc: Global,
    workers: Vec<W>,
    senders: Vec<T>,
    server: &Arc<PeerServer<R, K, G>>,
    conns: u32,
    doors: &mut D,
    spawner: &mut S,
) -> Status
    ensures ends { EndsServe result }
    ensures done { result ≡ Status.Done → HasTakenBeside (length workers.items + length senders.items) (D.left doors.old) (D.left doors.new) (S.taken spawner.old) (S.taken spawner.new) (S.faults spawner.old) (S.faults spawner.new) conns }
    ensures closed { result ≡ Status.Done → D.closed doors.new ≡ true }
    ensures door_fault { result ≡ Status.DoorFault → Rose (D.faults doors.old) (D.faults doors.new) }
    ensures spawn_fault { result ≡ Status.SpawnFault → Rose (S.faults spawner.old) (S.faults spawner.new) }
{
    if start_each(workers, spawner).is_err() {
        return Status::SpawnFault;
    }
    if start_each(senders, spawner).is_err() {
        return Status::SpawnFault;
    }
    take_conns(rt, alloc, doors, spawner, server, conns)
}

// Serves the connections, if there was memory for the loops that send and for what the jobs of connections share.
#[tactic(auto, using(crate::proofs::Groups::all_started))]
fn serve_where<
    R: Wait + Send + Sync + Drop + 'static,
    W: Job,
    T: Job,
    K: Desks + Send + Sync + Drop + 'static,
    G: Knock + Send + Drop + 'static,
    D: Doors,
    S: Spawner,
>(
    rt: &R,
    alloc: Global,
    process: &Process,
    workers: Vec<W>,
    senders: Result<Vec<T>, Memory>,
    server: Result<Arc<PeerServer<R, K, G>>, Memory>,
    doors: &mut D,
    spawner: &mut S,
) -> Status
    requires workers { length workers.items ≡ process.now.workers }
    requires senders { IfOk senders (λ jobs. length jobs.items + 1 ≡ process.now.nodes) }
    ensures ends { EndsServe result }
    ensures done { result ≡ Status.Done → HasTakenBeside (process_jobs process.now) (D.left doors.old) (D.left doors.new) (S.taken spawner.old) (S.taken spawner.new) (S.faults spawner.old) (S.faults spawner.new) process.now.conns }
    ensures closed { result ≡ Status.Done → D.closed doors.new ≡ true }
    ensures door_fault { result ≡ Status.DoorFault → Rose (D.faults doors.old) (D.faults doors.new) }
    ensures spawn_fault { result ≡ Status.SpawnFault → Rose (S.faults spawner.old) (S.faults spawner.new) }
{
    let Ok(senders) = senders else {
        return Status::Memory;
    };
    let Ok(server) = server else {
        return Status::Memory;
    };
    serve_conns(
        rt,
        alloc,
        workers,
        senders,
        &server,
        process.conns,
        doors,
        spawner,
    )
}

// What all jobs of connections share.
fn new_server<R: Wait + Drop, K: Drop, G: Drop>(
    rt: R,
    alloc: Global,
    node: NodeId,
    outlet: Outlet,
    desks: K,
    limit: ConnLimit<G>,
) -> Result<Arc<PeerServer<R, K, G>>, Memory> {
    let server = PeerServer {
        rt,
        alloc,
        node,
        outlet: Mutex::new(outlet),
        desks,
        limit,
    };
    Ok(Arc::new(alloc, server)?)
}

// Who comes to the process. Whoever ends last knocks at its own port.
fn new_limit<D: Doors>(doors: &D, process: &Process) -> ConnLimit<Knocker<D::Dialer>> {
    let knocker = Knocker {
        dialer: doors.dialer(),
        port: process.port.saturating_add(u16::from(process.id)),
    };
    ConnLimit::new(process.conns, process.nodes, knocker)
}

// The bell of the node's workers.
fn shared_bell(outlet: &Outlet) -> Option<Arc<Bell>> {
    match outlet.bell() {
        Some(bell) => Arc::try_clone(bell).ok(),
        None => None,
    }
}

// The workers have ended: what a peer sends from now on is not taken.
fn close(bell: Option<Arc<Bell>>) {
    if let Some(bell) = bell {
        bell.close();
    }
}

// Serves the connections at a node with these workers and desks.
fn serve_node<
    R: Wait + Copy + Send + Sync + Drop + 'static,
    W: Job,
    K: Desks + Send + Sync + Drop + 'static,
    D: Doors,
    S: Spawner,
>(
    rt: R,
    alloc: Global,
    workers: Vec<W>,
    desks: K,
    outlet: Outlet,
    queues: Vec<SendQueue>,
    sending: &mut Sending,
    process: &Process,
    doors: &mut D,
    spawner: &mut S,
) -> Status
    requires workers { length workers.items ≡ process.now.workers }
    requires queues { length queues.items + 1 ≡ process.now.nodes }
    ensures ends { EndsServe result }
    ensures done { result ≡ Status.Done → HasTakenBeside (process_jobs process.now) (D.left doors.old) (D.left doors.new) (S.taken spawner.old) (S.taken spawner.new) (S.faults spawner.old) (S.faults spawner.new) process.now.conns }
    ensures closed { result ≡ Status.Done → D.closed doors.new ≡ true }
    ensures door_fault { result ≡ Status.DoorFault → Rose (D.faults doors.old) (D.faults doors.new) }
    ensures spawn_fault { result ≡ Status.SpawnFault → Rose (S.faults spawner.old) (S.faults spawner.new) }
{
    let node = NodeId(u16::from(process.id));
    let limit = new_limit(doors, process);
    let senders = send_jobs(rt, alloc, doors, process, queues, sending);
    let server = new_server(rt, alloc, node, outlet, desks, limit);
    serve_where(
        &rt, alloc, process, workers, senders, server, doors, spawner,
    )
}

// Serves the connections, and ends all other loops then: first the workers, so that what they put is sent still.
fn serve_member<
    P: Places + Send + Sync + 'static,
    R: Wait + Eprint + Copy + Send + Sync + Drop + 'static,
    C: DeskClock + Send + Sync + Drop + 'static,
    D: Doors,
    S: Spawner,
>(
    rt: R,
    alloc: Global,
    member: Member<R, C, P>,
    mut sending: Sending,
    process: &Process,
    doors: &mut D,
    spawner: &mut S,
) -> Status
    requires workers { length member.workers.items ≡ process.now.workers }
    requires queues { length member.queues.items + 1 ≡ process.now.nodes }
    ensures ends { EndsServe result }
    ensures done { result ≡ Status.Done → HasTakenBeside (process_jobs process.now) (D.left doors.old) (D.left doors.new) (S.taken spawner.old) (S.taken spawner.new) (S.faults spawner.old) (S.faults spawner.new) process.now.conns }
    ensures closed { result ≡ Status.Done → D.closed doors.new ≡ true }
    ensures door_fault { result ≡ Status.DoorFault → Rose (D.faults doors.old) (D.faults doors.new) }
    ensures spawn_fault { result ≡ Status.SpawnFault → Rose (S.faults spawner.old) (S.faults spawner.new) }
{
    let Member {
        workers,
        desks,
        outlet,
        queues,
        routes: _routes,
        running,
    } = member;
    let bell = shared_bell(&outlet);
    let status = serve_node(
        rt,
        alloc,
        workers,
        desks,
        outlet,
        queues,
        &mut sending,
        process,
        doors,
        spawner,
    );
    running.end(&rt);
    close(bell);
    sending.end(&rt);
    status
}

// Founds the member of the group, and serves connections there.
#[tactic(auto, using(crate::proofs::Groups::is_below, crate::proofs::Groups::of_group))]
fn run<
    P: Places + Send + Sync + 'static,
    R: Wait + Eprint + Copy + Send + Sync + Drop + 'static,
    C: DeskClock + Send + Sync + Drop + 'static,
    D: Doors,
    S: Spawner,
>(
    rt: R,
    alloc: Global,
    clock: Arc<C>,
    founded: Founded,
    sending: Sending,
    process: &Process,
    doors: &mut D,
    spawner: &mut S,
) -> Status
    requires process { IsProcess process.now }
    requires own { founded.node ≡ record { 0 = process.now.id } }
    requires named { node_names P.places founded.node ≡ names_of founded }
    ensures ends { EndsServe result }
    ensures done { result ≡ Status.Done → HasTakenBeside (process_jobs process.now) (D.left doors.old) (D.left doors.new) (S.taken spawner.old) (S.taken spawner.new) (S.faults spawner.old) (S.faults spawner.new) process.now.conns }
    ensures closed { result ≡ Status.Done → D.closed doors.new ≡ true }
    ensures door_fault { result ≡ Status.DoorFault → Rose (D.faults doors.old) (D.faults doors.new) }
    ensures spawn_fault { result ≡ Status.SpawnFault → Rose (S.faults spawner.old) (S.faults spawner.new) }
{
    let group = process.group();
    match Member::<R, C, P>::new(rt, alloc, clock, founded, process.id, &group) {
        Ok(member) => serve_member(rt, alloc, member, sending, process, doors, spawner),
        Err(_) => Status::Memory,
    }
}

/// Serves connections at one node of a new group, whose other nodes run in processes of their own. It returns when the clients that came have ended, and then the
/// node's workers and the loops that send to others.
///
/// Done: so many connections were taken as the process is to serve, or no more came, and the port was closed behind them. A connection that got no job was closed,
/// and ends nothing. Memory: there was none to make the node. DoorFault: the port could not be opened. SpawnFault: a worker or a loop that sends got no job. That
/// other nodes can't be reached ends nothing.
#[tactic(auto, using(crate::proofs::Groups::is_below))]
pub fn serve_process<
    R: Wait + Eprint + Copy + Send + Sync + Drop + 'static,
    C: DeskClock + Send + Sync + Drop + 'static,
    D: Doors,
    S: Spawner,
>(rt: R, alloc: Global, clock: Arc<C>, process: &Process, doors: &mut D, spawner: &mut S) -> Status
    requires { IsProcess process.now }
    ensures ends { EndsServe result }
    // A process that is done has started each worker and each loop that sends: its spawner took a job for each of them. It took at least the stated number of
    // connections, or all that were left, and for each of these its spawner took a job too, or counts one fault more.
    ensures done { result ≡ Status.Done → HasTakenBeside (process_jobs process.now) (D.left doors.old) (D.left doors.new) (S.taken spawner.old) (S.taken spawner.new) (S.faults spawner.old) (S.faults spawner.new) process.now.conns }
    ensures closed { result ≡ Status.Done → D.closed doors.new ≡ true }
    ensures door_fault { result ≡ Status.DoorFault → Rose (D.faults doors.old) (D.faults doors.new) }
    ensures spawn_fault { result ≡ Status.SpawnFault → Rose (S.faults spawner.old) (S.faults spawner.new) }
{
    let group = process.group();
    let Ok(tickets) = Arc::new(alloc, Tickets::new()) else {
        return Status::Memory;
    };
    let Ok(view) = View::first(alloc, group.nodes) else {
        return Status::Memory;
    };
    let Ok(sending) = Sending::new(alloc) else {
        return Status::Memory;
    };
    if doors.open(group.port).is_err() {
        return Status::DoorFault;
    }
    match found_node(&rt, alloc, &view, &group, process.id, &tickets) {
        Ok(founded) => {
            run::<Brand, R, C, D, S>(rt, alloc, clock, founded, sending, process, doors, spawner)
        }
        Err(_) => Status::Memory,
    }
}
