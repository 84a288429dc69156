//! The jobs of this host's manager, and of whoever comes to it.

ghost use Rattle.std.specs.Prelude.{◌<◌, length, IfSome};
ghost use Rattle.std.specs.Arc.{arc_value};
ghost use Rattle.hk_host.specs.Starting.{Starts};

use crate::fault::StartFault;
use crate::lanes::start_lanes;
use crate::metronome::BeatJob;
use crate::queues::{ManagerQueues, rung_link};
use crate::routing::RouteJob;
use crate::sending::{Dialers, start_queues};
use hk_base::{Actor, Memory};
use hk_channel::{Asker, NodeEntry, ReportJob, start_inside};
use hk_disk::LogFile;
use hk_hosts::{DoorsAt, Random};
use hk_link::Inlet;
use hk_managing::{ManagerJob, ManagerStart};
use hk_outside::{Clock, Spawner};
use hk_overseer::Outlets;
use hk_process::Sending;
use hk_routes::Routes;
use hk_shared_state::SharedState;
use std::alloc::Global;
use std::io::Eprint;
use std::sync::{Arc, Wait};

/// Where other processes come in: open doors, and what draws the challenge of each connection.
#[derive(Drop)]
pub struct Inside<D: Drop, X: Drop> {
    pub doors: D,
    pub random: X,
}

// Letters come to the manager from now on; it takes them once it is open.
fn admit_letters<R: Wait + Drop, C: Drop>(shared: &SharedState<R, C>) -> Result<Inlet, Memory> {
    let (outlet, inlet) = rung_link(shared.alloc, &shared.mailbox.bell)?;
    let mut guard = shared.manager.lock(&shared.rt);
    *guard = Some(outlet);
    Ok(inlet)
}

/// The manager of a host, as its process begins.
#[derive(Drop)]
pub struct HostManager<F: LogFile + Drop> {
    /// The place of its host.
    pub place: u8,
    pub start: ManagerStart<F>,
}

// The loop of the manager.
fn manager_job<R: Wait + Eprint + Drop, C: Clock + Drop, F: LogFile + Drop>(
    shared: &Arc<SharedState<R, C>>,
    manager: HostManager<F>,
    routes: &Arc<Routes>,
) -> Result<ManagerJob<R, C, F>, Memory> {
    let HostManager { place, start } = manager;
    let inlet = admit_letters(&**shared)?;
    // a manager sends to each manager, itself too
    if let Some(outlet) = shared.manager_outlet() {
        routes.add(&shared.rt, Actor::Manager(place), outlet)?;
    }
    let clock = Arc::try_clone(&shared.clock)?;
    let shared = Arc::try_clone(shared)?;
    ManagerJob::new(shared, start, inlet, routes, clock)
}

fn new_routes(alloc: Global, outlets: Outlets) -> Result<Arc<Routes>, Memory> {
    Ok(Arc::new(alloc, Routes::new(outlets))?)
}

// Starts what sends for the manager of this place, and what opens lanes to nodes. It gives the outlets from the manager.
fn start_manager_queues<
    R: Wait + Eprint + Copy + Send + Sync + Drop + 'static,
    C: Clock + Send + Sync + Drop + 'static,
    E: Dialers,
    S: Spawner,
>(
    shared: &Arc<SharedState<R, C>>,
    place: u8,
    dialers: &E,
    sending: &mut Sending,
    spawner: &mut S,
) -> Result<Arc<Routes>, StartFault>
    requires { place < length (arc_value shared.now).identity.hosts }
    ensures { Starts (S.faults spawner.old) (S.faults spawner.new) result }
{
    let ManagerQueues { outlets, queues } = ManagerQueues::new(
        shared.alloc,
        place,
        shared.identity.managers(),
    )?;
    let own = Actor::Manager(place);
    let routes = new_routes(shared.alloc, outlets)?;
    start_queues(shared, dialers, sending, spawner, own, queues)?;
    let pool = start_lanes(shared, dialers, spawner, own)?;
    spawner.start_made(RouteJob::new(shared, None, &routes, pool))?;
    Ok(routes)
}

// Starts the loop of this host's manager, what gives it the beat, and what sends for it.
fn start_manager<
    R: Wait + Eprint + Copy + Send + Sync + Drop + 'static,
    C: Clock + Send + Sync + Drop + 'static,
    F: LogFile + Send + Drop + 'static,
    E: Dialers,
    S: Spawner,
>(
    shared: &Arc<SharedState<R, C>>,
    manager: HostManager<F>,
    dialers: &E,
    sending: &mut Sending,
    spawner: &mut S,
) -> Result<(), StartFault>
    requires { manager.place < length (arc_value shared.now).identity.hosts }
    ensures { Starts (S.faults spawner.old) (S.faults spawner.new) result }
{
    let routes = start_manager_queues(shared, manager.place, dialers, sending, spawner)?;
    spawner.start_made(BeatJob::new(shared, &shared.mailbox.bell, Vec::new(shared.alloc)))?;
    spawner.start_made(manager_job(shared, manager, &routes))?;
    Ok(())
}

// The same, if the host has a manager.
fn start_any_manager<
    R: Wait + Eprint + Copy + Send + Sync + Drop + 'static,
    C: Clock + Send + Sync + Drop + 'static,
    F: LogFile + Send + Drop + 'static,
    E: Dialers,
    S: Spawner,
>(
    shared: &Arc<SharedState<R, C>>,
    manager: Option<HostManager<F>>,
    dialers: &E,
    sending: &mut Sending,
    spawner: &mut S,
) -> Result<(), StartFault>
    requires { IfSome manager (λ m. m.place < length (arc_value shared.now).identity.hosts) }
    ensures { Starts (S.faults spawner.old) (S.faults spawner.new) result }
{
    match manager {
        Some(manager) => start_manager(shared, manager, dialers, sending, spawner),
        None => Ok(()),
    }
}

// What reports to the manager of this place.
fn report_job<R: Wait + Drop, C: Drop, E: Dialers>(
    shared: &Arc<SharedState<R, C>>,
    dialers: &E,
    place: u8,
) -> Result<ReportJob<R, C, Asker<R, C, E::Dialer>>, Memory> {
    let asker = Asker::new(Arc::try_clone(shared)?, dialers.dialer(), place);
    Ok(ReportJob {
        shared: Arc::try_clone(shared)?,
        place,
        asker,
    })
}

// Starts the jobs that report to the managers.
fn start_reports<
    R: Wait + Eprint + Copy + Send + Sync + Drop + 'static,
    C: Clock + Send + Sync + Drop + 'static,
    E: Dialers,
    S: Spawner,
>(shared: &Arc<SharedState<R, C>>, dialers: &E, spawner: &mut S) -> Result<(), StartFault>
    ensures { Starts (S.faults spawner.old) (S.faults spawner.new) result }
{
    for place in 0..shared.identity.managers() {
        spawner.start_made(report_job(shared, dialers, place))?;
    }
    Ok(())
}

/// Starts this host's manager, if it has one, what takes the connections of other processes, and the reports to all managers.
pub(crate) fn start_host<
    R: Wait + Eprint + Copy + Send + Sync + Drop + 'static,
    C: Clock + Send + Sync + Drop + 'static,
    F: LogFile + Send + Drop + 'static,
    N: NodeEntry + Send + Sync + Drop + 'static,
    E: Dialers,
    D: DoorsAt + Send + Drop + 'static,
    X: Random + Send + Drop + 'static,
    S: Spawner,
>(
    shared: &Arc<SharedState<R, C>>,
    entry: &Arc<N>,
    manager: Option<HostManager<F>>,
    inside: Inside<D, X>,
    dialers: &E,
    sending: &mut Sending,
    spawner: &mut S,
) -> Result<(), StartFault>
    requires { IfSome manager (λ m. m.place < length (arc_value shared.now).identity.hosts) }
    ensures { Starts (S.faults spawner.old) (S.faults spawner.new) result }
{
    start_any_manager(shared, manager, dialers, sending, spawner)?;
    let Inside { doors, random } = inside;
    start_inside(shared, entry, doors, random, spawner)?;
    start_reports(shared, dialers, spawner)
}
