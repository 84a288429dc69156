//! The loop that takes connections.

ghost use Rattle.std.specs.Prelude.{◌≡◌, ◌⊎◌, true, Ok};
ghost use Rattle.hk_outside.specs.Counts.{Accepts};
ghost use Rattle.hk_outside.specs.declared.stream.Failed.{Failed as FailedOf};
ghost use Rattle.hk_accept.specs.Serving.{HasServed};

use crate::conn_job::ConnJobs;
use crate::desks::Desks;
use crate::make_job::MakeJob;
use crossbeam_utils::sync::WaitGroup;
use hk_outside::{Doors, Spawner, Status};
use std::alloc::Global;
use std::sync::{Arc, Wait};
use std::thread::Parker;
use std::time::Duration;

// So long the loop rests where a connection can't be taken, as where too many files are open.
const REST_MILLISECONDS: u64 = 20;

/// The next connection that comes, or none where no more come. Where doors fail it rests and tries again, for as long as they do.
#[tactic(auto, using(crate::proofs::Counting::stays_at_first, crate::proofs::Counting::stays_left, crate::proofs::Counting::comes_then))]
pub fn next_connection<R: Wait, D: Doors>(rt: &R, doors: &mut D) -> Option<D::Conn>
    ensures { Accepts {E = FailedOf} (D.left doors.old) (D.left doors.new) (Ok result) }
{
    for _ in rt.forever() {
        if let Ok(come) = doors.accept() {
            return come;
        }
        Parker::new().park_timeout(rt, Duration::from_millis(REST_MILLISECONDS));
    }
    unreachable!()
}

/// Starts the job of each connection that comes through open doors, at most so many, and returns once so many were taken or no more come. A connection that gets no
/// job, for want of memory or of a thread, is closed, and ends nothing.
#[tactic(auto, using(crate::proofs::Received::received_none, crate::proofs::Received::received_more))]
pub fn take_each<R: Wait, D: Doors, S: Spawner, V: MakeJob<D::Conn>>(
    rt: &R,
    doors: &mut D,
    spawner: &mut S,
    maker: &V,
    conns: u32,
)
    ensures { HasServed (D.left doors.old) (D.left doors.new) (S.taken spawner.old) (S.taken spawner.new) (S.faults spawner.old) (S.faults spawner.new) conns }
{
    for number in 0..conns {
        let Some(conn) = next_connection(rt, doors) else {
            return;
        };
        let _ = spawner.start_made(maker.make_job(conn, number));
    }
}

/// Serves the connections that come through open doors, each by a job of its own at a desk of its own. Behind the last one it closes the doors, and it returns once
/// those jobs have ended.
///
/// Done: so many connections were taken, or no more came. One that got no job was closed, and the spawner counts it as a fault. Memory: there was none to count the
/// jobs, and no connection was taken.
pub fn serve_each<R: Wait, D: Doors, S: Spawner, K: Desks + Send + Sync + Drop + 'static>(
    rt: &R,
    alloc: Global,
    doors: &mut D,
    spawner: &mut S,
    desks: &Arc<K>,
    conns: u32,
) -> Status
    ensures ends { (result ≡ Status.Done) ⊎ (result ≡ Status.Memory) }
    ensures done { result ≡ Status.Done → HasServed (D.left doors.old) (D.left doors.new) (S.taken spawner.old) (S.taken spawner.new) (S.faults spawner.old) (S.faults spawner.new) conns }
    ensures none_taken { result ≡ Status.Memory → (D.left doors.new ≡ D.left doors.old) × (spawner.new ≡ spawner.old) }
    ensures closed { D.closed doors.new ≡ true }
{
    let Ok(group) = WaitGroup::new(alloc) else {
        doors.close();
        return Status::Memory;
    };
    let jobs = ConnJobs {
        desks,
        group: &group,
    };
    take_each(rt, doors, spawner, &jobs, conns);
    doors.close();
    group.wait(rt);
    Status::Done
}
