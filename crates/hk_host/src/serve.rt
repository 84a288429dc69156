//! A process of a group over hosts.

ghost use Rattle.std.specs.Prelude.{◌≡◌, ◌<◌, ◌⊎◌, true, length, Ok, IfOk, IfSome};
ghost use Rattle.std.specs.Arc.{arc_value};
ghost use Rattle.hk_outside.specs.Causes.{Rose};
ghost use Rattle.hk_accept.specs.Serving.{EndsServe};
ghost use Rattle.hk_locked.specs.Places.{node_names};
ghost use Rattle.hk_worker.specs.Founding.{names_of, names_of_cells, AreForAny};
ghost use Rattle.hk_base.specs.View.{first_view};
ghost use Rattle.hk_group.specs.Founding.{IsGroup};
ghost use Rattle.hk_host.specs.Starting.{Starts};

use crate::clients::{ClientDoors, can_open, open_in_time, take_each};
use crate::fault::{ServeFault, StartFault};
use crate::lanes::NodeDoor;
use crate::manager::{HostManager, Inside, start_host};
use crate::node::{founding_group, new_member, start_node};
use crate::sending::Dialers;
use hk_base::{Memory, NodeId, View};
use hk_channel::Channel;
use hk_disk::LogFile;
use hk_group::{Group, Member, found_joiner, found_without_lease};
use hk_hosts::{Address, DoorsAt, PromptConnection, Random};
use hk_inside::NodeState;
use hk_lanes::LaneDesks;
use hk_locked::Places;
use hk_loops::EventLoops;
use hk_outside::{Clock, Spawner, Status};
use hk_peer::PromptCarrier;
use hk_process::Sending;
use hk_shared_state::{Identity, Mailbox, Notice, Part, SharedState, Standing, Telling, rest};
use hk_worker::{DeskClock, Founded, NodeCells, OpenAsk, Tickets};
use std::alloc::Global;
use std::io::Eprint;
use std::marker::Brand;
use std::sync::atomic::AtomicBool;
use std::sync::{Arc, Mutex, Wait};

/// What serves clients at this process.
#[derive(Clone, Copy)]
pub struct Serving<'a> {
    /// Where clients reach it.
    pub listen: &'a Address,
    /// How many workers its node has, 1 to 8.
    pub workers: u8,
    /// The folder of this host's manager, as the operator wrote it.
    pub data: &'a str,
    /// What the operator is told.
    pub telling: Telling,
}

// What the threads share, before anything was heard.
fn new_shared<R: Wait + Drop, C: Drop>(
    rt: R,
    alloc: Global,
    clock: Arc<C>,
    identity: Identity,
    telling: Telling,
) -> Result<Arc<SharedState<R, C>>, Memory>
    ensures { IfOk result (λ shared. (arc_value shared).identity ≡ identity) }
{
    let standing = Standing::new(alloc, identity.managers())?;
    let mailbox = Mailbox::new(alloc)?;
    let shared = SharedState {
        rt,
        alloc,
        clock,
        identity,
        telling,
        standing: Mutex::new(standing),
        manager: Mutex::new(None),
        mailbox,
        is_out: AtomicBool::new(false),
        is_leaving: AtomicBool::new(false),
    };
    Ok(Arc::new(alloc, shared)?)
}

// What the node is, once that is known.
fn part_of<R: Wait + Drop, C: Drop>(shared: &SharedState<R, C>) -> Option<Part> {
    let guard = shared.standing.lock(&shared.rt);
    guard.part(&shared.identity)
}

// Fails where the process is to end: the log of its manager lost records, its node was left out, or its group is no more.
fn go_on<R: Wait + Drop, C: Drop>(shared: &SharedState<R, C>) -> Result<(), ServeFault> {
    let lost = {
        let guard = shared.standing.lock(&shared.rt);
        guard.lost_tail
    };
    if let Some(lost) = lost {
        return Err(ServeFault::LostTail(lost));
    }
    if shared.look_out() {
        return Err(ServeFault::Out);
    }
    Ok(())
}

// Waits until the group is open and the process has a number there.
fn wait_for_part<R: Wait + Drop, C: Drop>(shared: &SharedState<R, C>) -> Result<Part, ServeFault> {
    for _ in shared.rt.forever() {
        go_on(shared)?;
        if let Some(part) = part_of(shared) {
            return Ok(part);
        }
        rest(&shared.rt, shared.identity.beat());
    }
    unreachable!()
}

// Whether the node serves clients.
fn is_ready<R: Wait + Drop, C: Drop>(shared: &SharedState<R, C>) -> bool {
    let guard = shared.standing.lock(&shared.rt);
    let standing = &*guard;
    standing.state == NodeState::Ready
}

// Whether the manager of this host is none of its group: its folder was empty while the group lived.
fn lacks_manager<R: Wait + Drop, C: Drop>(shared: &SharedState<R, C>) -> bool {
    let guard = shared.standing.lock(&shared.rt);
    shared.identity.place.is_some() && guard.manager.is_none()
}

// Tells that the node is ready, and where its host has no manager, that too.
fn tell_standing<R: Wait + Eprint + Drop, C: Clock + Drop>(
    shared: &SharedState<R, C>,
    node: NodeId,
    data: &str,
) {
    if lacks_manager(shared) {
        shared.tell(&Notice::NoManager { folder: data });
    }
    shared.tell(&Notice::Ready { node });
}

// Waits until all shards are ready.
fn wait_until_ready<R: Wait + Drop, C: Drop>(shared: &SharedState<R, C>) -> Result<(), ServeFault> {
    for _ in shared.rt.forever() {
        go_on(shared)?;
        if is_ready(shared) {
            return Ok(());
        }
        rest(&shared.rt, shared.identity.beat());
    }
    unreachable!()
}

// Serves the clients that come through doors that are open, until the process is to end or its node leaves, and closes them.
fn serve_open<
    R: Wait + Eprint + Copy + Send + Sync + Drop + 'static,
    C: DeskClock + Send + Sync + Drop + 'static,
    K: DoorsAt,
>(shared: &SharedState<R, C>, listen: &Address, doors: &mut K, loops: &EventLoops<K::Conn, OpenAsk>)
where
    K::Conn: PromptConnection,
    ensures { K.closed doors.new ≡ true }
{
    let mut at = ClientDoors {
        doors: &mut *doors,
        address: listen,
        shared,
    };
    take_each(&shared.rt, &mut at, loops);
    doors.close();
}

// Waits while the node leaves, and gives whether it stays after all. Then it serves clients again.
fn wait_to_stay<R: Wait + Drop, C: Drop>(shared: &SharedState<R, C>) -> bool {
    for _ in shared.rt.forever() {
        if shared.is_out() {
            return false;
        }
        if !shared.is_leaving() {
            return true;
        }
        rest(&shared.rt, shared.identity.beat());
    }
    unreachable!()
}

// How the process ends that serves no clients any more.
fn end_of<R: Wait + Drop, C: Drop>(shared: &SharedState<R, C>) -> Result<Status, ServeFault>
    ensures { IfOk result (λ status. status ≡ Status.Done) }
{
    if shared.is_out() {
        return Err(ServeFault::Out);
    }
    Ok(Status::Done)
}

// Its node has left: a majority of the managers let views begin without it. It acknowledges for two beats more, for those that have not heard so yet.
fn end_left<R: Wait + Drop, C: Drop>(shared: &SharedState<R, C>) -> Result<Status, ServeFault>
    ensures { result ≡ Ok Status.Done }
{
    rest(&shared.rt, shared.identity.beat().saturating_mul(2));
    Ok(Status::Done)
}

// Serves clients at the node, for as long as the process is to run.
fn serve_clients<
    R: Wait + Eprint + Copy + Send + Sync + Drop + 'static,
    C: DeskClock + Send + Sync + Drop + 'static,
    K: DoorsAt,
>(
    shared: &SharedState<R, C>,
    listen: &Address,
    doors: &mut K,
    loops: &EventLoops<K::Conn, OpenAsk>,
) -> Result<Status, ServeFault>
where
    K::Conn: PromptConnection,
    ensures ends { IfOk result (λ status. status ≡ Status.Done) }
    ensures closed { result ≡ Ok Status.Done → K.closed doors.new ≡ true }
{
    for _ in shared.rt.forever() {
        if !open_in_time(shared, doors, listen) {
            return Err(ServeFault::Out);
        }
        serve_open(shared, listen, doors, loops);
        if !shared.is_leaving() {
            return end_of(shared);
        }
        if !wait_to_stay(shared) {
            return end_left(shared);
        }
    }
    unreachable!()
}

// Takes letters to the node from now on, and serves its clients once it is ready.
#[tactic(auto, using(crate::proofs::Served::served_all))]
fn serve_ready<
    P: Places + Send + Sync + 'static,
    R: Wait + Eprint + Copy + Send + Sync + Drop + 'static,
    C: DeskClock + Send + Sync + Drop + 'static,
    X: PromptCarrier + Send + Drop + 'static,
    K: DoorsAt,
>(
    shared: &SharedState<R, C>,
    entry: &NodeDoor<R, C, P, X>,
    node: NodeId,
    desks: Arc<LaneDesks<R, C, P, X>>,
    serving: Serving<'_>,
    doors: &mut K,
    loops: &EventLoops<K::Conn, OpenAsk>,
) -> Result<Status, ServeFault>
where
    K::Conn: PromptConnection,
    ensures ends { IfOk result (λ status. (status ≡ Status.Done) ⊎ (status ≡ Status.Memory)) }
    ensures closed { result ≡ Ok Status.Done → K.closed doors.new ≡ true }
{
    entry.open(desks);
    wait_until_ready(shared)?;
    tell_standing(shared, node, serving.data);
    serve_clients(shared, serving.listen, doors, loops)
}

// Starts the node that this member is, and serves its clients.
#[tactic(auto, using(crate::proofs::Served::ends_served, crate::proofs::Served::no_door_fault, crate::proofs::Served::no_spawn_fault))]
fn serve_member<
    P: Places + Send + Sync + 'static,
    R: Wait + Eprint + Copy + Send + Sync + Drop + 'static,
    C: DeskClock + Send + Sync + Drop + 'static,
    E: Dialers,
    K: DoorsAt,
    S: Spawner,
>(
    shared: &Arc<SharedState<R, C>>,
    entry: &NodeDoor<R, C, P, Channel<R, C, E::Dialer>>,
    sending: &mut Sending,
    part: Part,
    member: Member<R, C, P>,
    serving: Serving<'_>,
    dialers: &E,
    doors: &mut K,
    loops: &EventLoops<K::Conn, OpenAsk>,
    spawner: &mut S,
) -> Result<Status, ServeFault>
where
    K::Conn: PromptConnection,
    ensures ends { IfOk result EndsServe }
    ensures closed { result ≡ Ok Status.Done → K.closed doors.new ≡ true }
    ensures no_door_fault { result ≡ Ok Status.DoorFault → ⊥ }
    ensures spawn_fault { result ≡ Ok Status.SpawnFault → Rose (S.faults spawner.old) (S.faults spawner.new) }
{
    match start_node(
        shared,
        part,
        dialers,
        sending,
        spawner,
        member,
        serving.listen,
        loops,
    ) {
        Ok(desks) => serve_ready(
            &**shared,
            entry,
            part.number(),
            desks,
            serving,
            doors,
            loops,
        ),
        Err(fault) => Ok(fault.status()),
    }
}

// Starts the node that was made, if it was, and serves its clients.
fn serve_made<
    P: Places + Send + Sync + 'static,
    R: Wait + Eprint + Copy + Send + Sync + Drop + 'static,
    C: DeskClock + Send + Sync + Drop + 'static,
    E: Dialers,
    K: DoorsAt,
    S: Spawner,
>(
    shared: &Arc<SharedState<R, C>>,
    entry: &NodeDoor<R, C, P, Channel<R, C, E::Dialer>>,
    sending: &mut Sending,
    part: Part,
    made: Result<Member<R, C, P>, Memory>,
    serving: Serving<'_>,
    dialers: &E,
    doors: &mut K,
    loops: &EventLoops<K::Conn, OpenAsk>,
    spawner: &mut S,
) -> Result<Status, ServeFault>
where
    K::Conn: PromptConnection,
    ensures ends { IfOk result EndsServe }
    ensures closed { result ≡ Ok Status.Done → K.closed doors.new ≡ true }
    ensures no_door_fault { result ≡ Ok Status.DoorFault → ⊥ }
    ensures spawn_fault { result ≡ Ok Status.SpawnFault → Rose (S.faults spawner.old) (S.faults spawner.new) }
{
    match made {
        Ok(member) => serve_member(
            shared, entry, sending, part, member, serving, dialers, doors, loops, spawner,
        ),
        Err(_) => Ok(Status::Memory),
    }
}

// Makes the node of these shards, and serves its clients.
fn serve_founded<
    P: Places + Send + Sync + 'static,
    R: Wait + Eprint + Copy + Send + Sync + Drop + 'static,
    C: DeskClock + Send + Sync + Drop + 'static,
    E: Dialers,
    K: DoorsAt,
    S: Spawner,
>(
    shared: &Arc<SharedState<R, C>>,
    entry: &NodeDoor<R, C, P, Channel<R, C, E::Dialer>>,
    sending: &mut Sending,
    part: Part,
    group: &Group,
    clock: Arc<C>,
    founded: Founded,
    serving: Serving<'_>,
    dialers: &E,
    doors: &mut K,
    loops: &EventLoops<K::Conn, OpenAsk>,
    spawner: &mut S,
) -> Result<Status, ServeFault>
where
    K::Conn: PromptConnection,
    requires named { node_names P.places founded.node ≡ names_of founded }
    ensures ends { IfOk result EndsServe }
    ensures closed { result ≡ Ok Status.Done → K.closed doors.new ≡ true }
    ensures no_door_fault { result ≡ Ok Status.DoorFault → ⊥ }
    ensures spawn_fault { result ≡ Ok Status.SpawnFault → Rose (S.faults spawner.old) (S.faults spawner.new) }
{
    let made = new_member::<R, C, P>(&**shared, clock, founded, group);
    serve_made(
        shared, entry, sending, part, made, serving, dialers, doors, loops, spawner,
    )
}

// What a node is founded with, beside its cells.
#[derive(Drop)]
struct Seed<C: Drop> {
    view: View,
    tickets: Arc<Tickets>,
    clock: Arc<C>,
}

// What a process has of its own once it is started.
#[derive(Drop)]
struct Started<R: Wait + Drop, C: Drop, P: Places, X: Drop> {
    entry: Arc<NodeDoor<R, C, P, X>>,
    sending: Sending,
    seed: Seed<C>,
}

// The door to a node that is not there yet.
fn new_entry<R: Wait + Copy + Drop, C: Drop, P: Places, X: Drop>(
    shared: &SharedState<R, C>,
) -> Result<Arc<NodeDoor<R, C, P, X>>, Memory> {
    Ok(Arc::new(shared.alloc, NodeDoor::new(shared.rt))?)
}

fn new_tickets(alloc: Global) -> Result<Arc<Tickets>, Memory> {
    Ok(Arc::new(alloc, Tickets::new())?)
}

// The seed of the node, made before there are cells: what may fail while these are in hand lets go of them.
fn new_seed<R: Wait + Drop, C: Drop>(shared: &SharedState<R, C>) -> Result<Seed<C>, Memory>
    ensures { IfOk result (λ seed. seed.view ≡ first_view (length shared.now.identity.hosts)) }
{
    let view = View::first(shared.alloc, shared.identity.managers())?;
    let tickets = new_tickets(shared.alloc)?;
    let clock = Arc::try_clone(&shared.clock)?;
    Ok(Seed {
        view,
        tickets,
        clock,
    })
}

// Starts the process.
fn start_process<
    P: Places + Send + Sync + 'static,
    R: Wait + Eprint + Copy + Send + Sync + Drop + 'static,
    C: DeskClock + Send + Sync + Drop + 'static,
    F: LogFile + Send + Drop + 'static,
    E: Dialers,
    D: DoorsAt + Send + Drop + 'static,
    X: Random + Send + Drop + 'static,
    S: Spawner,
>(
    shared: &Arc<SharedState<R, C>>,
    manager: Option<HostManager<F>>,
    inside: Inside<D, X>,
    dialers: &E,
    spawner: &mut S,
) -> Result<Started<R, C, P, Channel<R, C, E::Dialer>>, StartFault>
    requires { IfSome manager (λ m. m.place < length (arc_value shared.now).identity.hosts) }
    ensures starts { Starts (S.faults spawner.old) (S.faults spawner.new) result }
    ensures seed { IfOk result (λ started. started.seed.view ≡ first_view (length (arc_value shared.now).identity.hosts)) }
{
    let mut sending = Sending::new(shared.alloc)?;
    let entry = new_entry::<R, C, P, Channel<R, C, E::Dialer>>(&**shared)?;
    let seed = new_seed(&**shared)?;
    start_host(
        shared,
        &entry,
        manager,
        inside,
        dialers,
        &mut sending,
        spawner,
    )?;
    Ok(Started {
        entry,
        sending,
        seed,
    })
}

// The shards of a founder over these cells, at which nothing happened yet. They have no lease, so nothing is answered of them before the managers grant one.
#[tactic(auto, using(crate::proofs::Served::is_numbered))]
fn found_first<R: Wait + Drop, C: Drop>(
    shared: &SharedState<R, C>,
    cells: NodeCells,
    view: &View,
    group: &Group,
    place: u8,
    tickets: Arc<Tickets>,
) -> Result<Founded, Memory>
    requires group { IsGroup group.now }
    requires view { view.now ≡ first_view group.now.nodes }
    ensures node { IfOk result (λ founded. founded.node.0 < 65536) }
    ensures cells { IfOk result (λ founded. names_of founded ≡ names_of_cells group.now.skew cells) }
{
    if place >= group.nodes {
        return Err(Memory);
    }
    found_without_lease(&shared.rt, shared.alloc, cells, view, group, place, tickets)
}

// The shards of the node over these cells, at which nothing happened yet.
#[tactic(auto, using(crate::proofs::Served::is_numbered))]
fn found<R: Wait + Drop, C: Drop>(
    shared: &SharedState<R, C>,
    cells: NodeCells,
    view: &View,
    group: &Group,
    part: Part,
    tickets: Arc<Tickets>,
) -> Result<Founded, Memory>
    requires group { IsGroup group.now }
    requires view { view.now ≡ first_view group.now.nodes }
    ensures node { IfOk result (λ founded. founded.node.0 < 65536) }
    ensures cells { IfOk result (λ founded. names_of founded ≡ names_of_cells group.now.skew cells) }
{
    match part {
        Part::Founder(place) => found_first(shared, cells, view, group, place, tickets),
        Part::Joiner(node) => {
            found_joiner(&shared.rt, shared.alloc, cells, group, node, tickets)
        }
    }
}

// Founds the node over these cells, and serves its clients.
fn serve_part<
    P: Places + Send + Sync + 'static,
    R: Wait + Eprint + Copy + Send + Sync + Drop + 'static,
    C: DeskClock + Send + Sync + Drop + 'static,
    E: Dialers,
    K: DoorsAt,
    S: Spawner,
>(
    shared: &Arc<SharedState<R, C>>,
    cells: NodeCells,
    started: Started<R, C, P, Channel<R, C, E::Dialer>>,
    part: Part,
    serving: Serving<'_>,
    dialers: &E,
    doors: &mut K,
    loops: &EventLoops<K::Conn, OpenAsk>,
    spawner: &mut S,
) -> Result<Status, ServeFault>
where
    K::Conn: PromptConnection,
    requires places { AreForAny P.places (names_of_cells (arc_value shared.now).identity.skew cells) }
    requires view { started.seed.view ≡ first_view (length (arc_value shared.now).identity.hosts) }
    ensures ends { IfOk result EndsServe }
    ensures closed { result ≡ Ok Status.Done → K.closed doors.new ≡ true }
    ensures no_door_fault { result ≡ Ok Status.DoorFault → ⊥ }
    ensures spawn_fault { result ≡ Ok Status.SpawnFault → Rose (S.faults spawner.old) (S.faults spawner.new) }
{
    let group = founding_group(&shared.identity, serving.workers);
    let Started {
        entry,
        mut sending,
        seed,
    } = started;
    let Seed {
        view,
        tickets,
        clock,
    } = seed;
    match found(&**shared, cells, &view, &group, part, tickets) {
        Ok(founded) => serve_founded(
            shared,
            &*entry,
            &mut sending,
            part,
            &group,
            clock,
            founded,
            serving,
            dialers,
            doors,
            loops,
            spawner,
        ),
        Err(_) => Ok(Status::Memory),
    }
}

// Starts the process, waits until it has a number in its group, and serves the clients of its node.
fn serve_process<
    P: Places + Send + Sync + 'static,
    R: Wait + Eprint + Copy + Send + Sync + Drop + 'static,
    C: DeskClock + Send + Sync + Drop + 'static,
    F: LogFile + Send + Drop + 'static,
    E: Dialers,
    D: DoorsAt + Send + Drop + 'static,
    X: Random + Send + Drop + 'static,
    K: DoorsAt,
    S: Spawner,
>(
    shared: &Arc<SharedState<R, C>>,
    cells: NodeCells,
    manager: Option<HostManager<F>>,
    inside: Inside<D, X>,
    dialers: &E,
    serving: Serving<'_>,
    doors: &mut K,
    loops: &EventLoops<K::Conn, OpenAsk>,
    spawner: &mut S,
) -> Result<Status, ServeFault>
where
    K::Conn: PromptConnection,
    requires manager { IfSome manager (λ m. m.place < length (arc_value shared.now).identity.hosts) }
    requires places { AreForAny P.places (names_of_cells (arc_value shared.now).identity.skew cells) }
    ensures ends { IfOk result EndsServe }
    ensures closed { result ≡ Ok Status.Done → K.closed doors.new ≡ true }
    ensures no_door_fault { result ≡ Ok Status.DoorFault → ⊥ }
    ensures spawn_fault { result ≡ Ok Status.SpawnFault → Rose (S.faults spawner.old) (S.faults spawner.new) }
{
    let started = match start_process::<P, R, C, F, E, D, X, S>(
        shared, manager, inside, dialers, spawner,
    ) {
        Ok(started) => started,
        Err(fault) => return Ok(fault.status()),
    };
    match wait_for_part(&**shared) {
        Ok(part) => serve_part(
            shared, cells, started, part, serving, dialers, doors, loops, spawner,
        ),
        Err(fault) => Err(fault),
    }
}

/// Runs a process of a group over hosts: this host's manager, if it has one, what connects it to the other processes, and, once its group is open, its node, which serves
/// clients at `doors`. The place of the manager is that of the identity. The node is a founder, where the group was founded with this process; else it asks for a number,
/// joins, and serves clients once it has copied all that the others have.
///
/// It returns where it can't go on, where its node has left the group, as somebody wanted, or where more connections were taken than are counted: Memory, where there was
/// none to make all this; DoorFault, where the clients' address can't be opened as it begins; SpawnFault, where one of its own jobs got no thread. Later on nothing of
/// that ends it: a connection that gets no job is closed, and a port that somebody else took in between is tried again each second. It fails where the log of the manager
/// is told to have lost records, and where the node was left out otherwise, or its group is no more: whoever ran it starts it again.
pub fn serve_host<
    R: Wait + Eprint + Copy + Send + Sync + Drop + 'static,
    C: DeskClock + Send + Sync + Drop + 'static,
    F: LogFile + Send + Drop + 'static,
    E: Dialers,
    D: DoorsAt + Send + Drop + 'static,
    X: Random + Send + Drop + 'static,
    K: DoorsAt,
    S: Spawner,
>(
    rt: R,
    alloc: Global,
    clock: Arc<C>,
    identity: Identity,
    manager: Option<HostManager<F>>,
    inside: Inside<D, X>,
    dialers: &E,
    serving: Serving<'_>,
    doors: &mut K,
    loops: &EventLoops<K::Conn, OpenAsk>,
    spawner: &mut S,
) -> Result<Status, ServeFault>
where
    K::Conn: PromptConnection,
    requires { IfSome manager (λ m. m.place < length identity.hosts) }
    ensures ends { IfOk result EndsServe }
    ensures closed { result ≡ Ok Status.Done → K.closed doors.new ≡ true }
    ensures door_fault { result ≡ Ok Status.DoorFault → Rose (K.faults doors.old) (K.faults doors.new) }
    ensures spawn_fault { result ≡ Ok Status.SpawnFault → Rose (S.faults spawner.old) (S.faults spawner.new) }
{
    let Ok(shared) = new_shared(rt, alloc, clock, identity, serving.telling) else {
        return Ok(Status::Memory);
    };
    if !can_open(doors, serving.listen) {
        return Ok(Status::DoorFault);
    }
    match NodeCells::new(&rt, alloc) {
        Ok(cells) => serve_process::<Brand, R, C, F, E, D, X, K, S>(
            &shared, cells, manager, inside, dialers, serving, doors, loops, spawner,
        ),
        Err(_) => Ok(Status::Memory),
    }
}
