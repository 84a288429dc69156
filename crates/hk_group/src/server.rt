//! The server.

ghost use Rattle.std.specs.Prelude.{◌≡◌, ◌+◌, length, true, OnOk};
ghost use Rattle.hk_base.specs.View.{IsView};
ghost use Rattle.hk_outside.specs.Causes.{Rose};
ghost use Rattle.hk_accept.specs.Serving.{EndsServe, Taken};
ghost use Rattle.hk_worker.specs.Founding.{AreNamed};
ghost use Rattle.hk_group.specs.Founding.{IsGroup};
ghost use Rattle.hk_group.specs.Jobs.{HasStarted, HasServedBeside, own_jobs};

use crate::desks::GroupDesks;
use crate::founding::found_nodes;
use crate::group::Group;
use crate::managing::ManageJob;
use crate::program::{Program, Shared, prepare};
use crate::working::WorkJob;
use hk_accept::serve_each;
use hk_base::View;
use hk_locked::Places;
use hk_outside::{Doors, Failed, Job, Spawner, Status};
use hk_worker::{DeskClock, Founded};
use std::alloc::Global;
use std::io::Eprint;
use std::marker::Brand;
use std::sync::{Arc, Wait};

/// Starts these jobs, one after the other.
pub fn start_each<J: Job, S: Spawner>(jobs: Vec<J>, spawner: &mut S) -> Result<(), Failed>
    ensures started { HasStarted (S.taken spawner.old) (S.taken spawner.new) (S.faults spawner.old) (S.faults spawner.new) result }
    ensures all { OnOk result (Taken (S.taken spawner.old) (S.taken spawner.new) (length jobs.items)) }
{
    for job in jobs {
        spawner.start(job)?;
    }
    Ok(())
}

// Starts the workers, the managers' loops, and then a job for each connection that comes.
#[tactic(auto, using(crate::proofs::Started::served_beside))]
fn serve_conns<
    P: Places + Send + Sync + 'static,
    R: Wait + Eprint + Copy + Send + Sync + Drop + 'static,
    C: DeskClock + Send + Sync + Drop + 'static,
    D: Doors,
    S: Spawner,
>(
    rt: R,
    alloc: Global,
    workers: Vec<WorkJob<R, C, P>>,
    managers: Vec<ManageJob<R, C>>,
    desks: &Arc<GroupDesks<R, C, P>>,
    conns: u32,
    doors: &mut D,
    spawner: &mut S,
) -> Status
    ensures ends { EndsServe result }
    ensures done { result ≡ Status.Done → HasServedBeside (length workers.items + length managers.items) (D.left doors.old) (D.left doors.new) (S.taken spawner.old) (S.taken spawner.new) (S.faults spawner.old) (S.faults spawner.new) conns }
    ensures closed { result ≡ Status.Done → D.closed doors.new ≡ true }
    ensures door_fault { result ≡ Status.DoorFault → Rose (D.faults doors.old) (D.faults doors.new) }
    ensures spawn_fault { result ≡ Status.SpawnFault → Rose (S.faults spawner.old) (S.faults spawner.new) }
{
    if start_each(workers, spawner).is_err() {
        return Status::SpawnFault;
    }
    if start_each(managers, spawner).is_err() {
        return Status::SpawnFault;
    }
    serve_each(&rt, alloc, doors, spawner, desks, conns)
}

// Serves the connections, and ends all other loops then.
fn run<
    P: Places + Send + Sync + 'static,
    R: Wait + Eprint + Copy + Send + Sync + Drop + 'static,
    C: DeskClock + Send + Sync + Drop + 'static,
    D: Doors,
    S: Spawner,
>(
    shared: Shared<R, C>,
    founded: Vec<Founded>,
    view: &View,
    group: &Group,
    doors: &mut D,
    spawner: &mut S,
) -> Status
    requires group { IsGroup group.now }
    requires view { IsView view.now }
    requires named { AreNamed P.places founded.items }
    requires nodes { length founded.items ≡ group.now.nodes }
    ensures ends { EndsServe result }
    ensures done { result ≡ Status.Done → HasServedBeside (own_jobs group.now) (D.left doors.old) (D.left doors.new) (S.taken spawner.old) (S.taken spawner.new) (S.faults spawner.old) (S.faults spawner.new) group.now.conns }
    ensures closed { result ≡ Status.Done → D.closed doors.new ≡ true }
    ensures door_fault { result ≡ Status.DoorFault → Rose (D.faults doors.old) (D.faults doors.new) }
    ensures spawn_fault { result ≡ Status.SpawnFault → Rose (S.faults spawner.old) (S.faults spawner.new) }
{
    let Ok(program) = prepare::<P, R, C>(shared, founded, view, group) else {
        return Status::Memory;
    };
    let Program {
        shared,
        lines,
        workers,
        managers,
        desks,
    } = program;
    let Shared {
        rt,
        alloc,
        ending,
        jobs,
        ..
    } = shared;
    let status = serve_conns(
        rt,
        alloc,
        workers,
        managers,
        &desks,
        group.conns,
        doors,
        spawner,
    );
    ending.tell();
    lines.ring_all(&rt);
    jobs.wait(&rt);
    status
}

/// Serves connections at the nodes of a new group, in turn. It returns when those that came have ended, and then all loops.
///
/// Done: so many connections were taken as the group says, or no more came, and the port was closed behind them. A connection that got no job was closed, and ends
/// nothing. Memory: there was none to make the group. DoorFault: the port could not be opened. SpawnFault: a worker or a manager's loop got no job.
pub fn serve<
    R: Wait + Eprint + Copy + Send + Sync + Drop + 'static,
    C: DeskClock + Send + Sync + Drop + 'static,
    D: Doors,
    S: Spawner,
>(rt: R, alloc: Global, clock: Arc<C>, group: &Group, doors: &mut D, spawner: &mut S) -> Status
    requires { IsGroup group.now }
    ensures ends { EndsServe result }
    // A server that is done has started each worker and each manager's loop: its spawner took a job for each of them. It took the stated number of connections, or
    // all that were left, and for each of these its spawner took a job too, or counts one fault more.
    ensures done { result ≡ Status.Done → HasServedBeside (own_jobs group.now) (D.left doors.old) (D.left doors.new) (S.taken spawner.old) (S.taken spawner.new) (S.faults spawner.old) (S.faults spawner.new) group.now.conns }
    ensures closed { result ≡ Status.Done → D.closed doors.new ≡ true }
    ensures door_fault { result ≡ Status.DoorFault → Rose (D.faults doors.old) (D.faults doors.new) }
    ensures spawn_fault { result ≡ Status.SpawnFault → Rose (S.faults spawner.old) (S.faults spawner.new) }
{
    let Ok(view) = View::first(alloc, group.nodes) else {
        return Status::Memory;
    };
    let Ok(founded) = found_nodes(&rt, alloc, &view, group) else {
        return Status::Memory;
    };
    let Ok(shared) = Shared::new(rt, alloc, clock) else {
        return Status::Memory;
    };
    if doors.open(group.port).is_err() {
        return Status::DoorFault;
    }
    run::<Brand, R, C, D, S>(shared, founded, &view, group, doors, spawner)
}
