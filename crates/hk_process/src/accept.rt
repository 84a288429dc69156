//! The loop that takes connections.

ghost use Rattle.std.specs.Prelude.{◌≡◌, ◌⊎◌, true};
ghost use Rattle.hk_process.specs.Serving.{HasTaken};

use crate::conn_job::{PeerConnJobs, PeerServer};
use crate::conn_limit::Knock;
use crossbeam_utils::sync::WaitGroup;
use hk_accept::{Desks, MakeJob, next_connection, take_each};
use hk_outside::{Doors, Spawner, Status};
use std::alloc::Global;
use std::sync::{Arc, Wait};

// Takes connections behind so many others until it is over, and gives whether no more come.
#[tactic(auto, using(crate::proofs::Taking::taken_none, crate::proofs::Taking::taken_end, crate::proofs::Taking::taken_more))]
fn take_on<
    R: Wait + Send + Sync + Drop + 'static,
    D: Doors,
    S: Spawner,
    K: Desks + Send + Sync + Drop + 'static,
    G: Knock + Send + Drop + 'static,
>(rt: &R, doors: &mut D, spawner: &mut S, jobs: &PeerConnJobs<'_, R, K, G>, others: u32) -> bool
    ensures { HasTaken (D.left doors.old) (D.left doors.new) (S.taken spawner.old) (S.taken spawner.new) (S.faults spawner.old) (S.faults spawner.new) 0 }
{
    let mut number = others;
    for _ in rt.forever() {
        if jobs.is_over() {
            return false;
        }
        let Some(conn) = next_connection(rt, doors) else {
            return true;
        };
        let _ = spawner.start_made(jobs.make_job(conn, number));
        number = number.saturating_add(1);
    }
    unreachable!()
}

/// Serves the connections that come through open doors, each by a job of its own, and returns once those of clients have ended. As long as a client is served or may
/// come, peers may come again.
pub(crate) fn take_conns<
    R: Wait + Send + Sync + Drop + 'static,
    D: Doors,
    S: Spawner,
    K: Desks + Send + Sync + Drop + 'static,
    G: Knock + Send + Drop + 'static,
>(
    rt: &R,
    alloc: Global,
    doors: &mut D,
    spawner: &mut S,
    server: &Arc<PeerServer<R, K, G>>,
    conns: u32,
) -> Status
    ensures ends { (result ≡ Status.Done) ⊎ (result ≡ Status.Memory) }
    ensures done { result ≡ Status.Done → HasTaken (D.left doors.old) (D.left doors.new) (S.taken spawner.old) (S.taken spawner.new) (S.faults spawner.old) (S.faults spawner.new) conns }
    ensures closed { D.closed doors.new ≡ true }
{
    let Ok(clients) = WaitGroup::new(alloc) else {
        doors.close();
        return Status::Memory;
    };
    let jobs = PeerConnJobs {
        server,
        clients: &clients,
    };
    take_each(rt, doors, spawner, &jobs, conns);
    let no_more = take_on(rt, doors, spawner, &jobs, conns);
    server.limit.close();
    doors.close();
    // Where it is over no client is served any more.
    if no_more {
        clients.wait(rt);
    }
    Status::Done
}
