//! The threads of a storm.

use crate::caller::Caller;
use crate::crew::Crew;
use crate::worker::StormWorker;
use hk_base::Memory;
use hk_locked::Places;
use hk_merge::Note;
use hk_outside::Clock;
use hk_worker::Tickets;
use std::alloc::Global;
use std::sync::atomic::{AtomicBool, Ordering};
use std::sync::{Arc, Wait};
use std::thread;
use std::thread::{JoinHandle, Threads};

/// The notes of each caller.
pub(crate) type Called = Vec<Result<Vec<Note>, Memory>>;

// Starts a worker in a thread of its own.
fn start_worker<
    R: Threads + Wait + Copy + Send + Sync + 'static,
    P: Places + Send + Sync + 'static,
>(
    rt: R,
    start: u64,
    worker: StormWorker<P>,
    ended: &Arc<AtomicBool>,
) -> Result<JoinHandle<()>, Memory> {
    let ended = Arc::try_clone(ended)?;
    match thread::spawn(&rt, move || worker.work_on(&rt, start, &ended)) {
        Ok(working) => Ok(working),
        Err(_) => Err(Memory),
    }
}

// Starts workers, each in a thread of its own, and puts what joins them. Behind one that finds no thread none is started.
fn start_workers<
    R: Threads + Wait + Copy + Send + Sync + 'static,
    P: Places + Send + Sync + 'static,
>(
    rt: R,
    start: u64,
    workers: Vec<StormWorker<P>>,
    ended: &Arc<AtomicBool>,
    working: &mut Vec<JoinHandle<()>>,
) -> Result<(), Memory> {
    working.reserve(workers.len())?;
    for worker in workers {
        working.push(start_worker(rt, start, worker, ended)?)?;
    }
    Ok(())
}

// Runs all callers to their end. One that finds no thread of its own runs behind another, for which none has to wait.
fn call_to_end<
    R: Threads + Wait + Copy + Send + Sync + Drop + 'static,
    P: Places + Send + Sync,
    C: Clock + Sync,
>(
    rt: &R,
    alloc: Global,
    callers: Vec<Caller<R, P>>,
    clock: &C,
    tickets: &Tickets,
) -> Result<Called, Memory> {
    let called = thread::map_vec(
        rt,
        callers,
        &|mut caller: Caller<R, P>| { caller.make_all(rt, alloc, clock, tickets) },
    )?;
    Ok(called)
}

// Runs all workers, each in a thread of its own, and all callers, to the callers' end.
fn work_and_call<
    R: Threads + Wait + Copy + Send + Sync + Drop + 'static,
    P: Places + Send + Sync + 'static,
    C: Clock + Sync,
>(
    rt: R,
    alloc: Global,
    start: u64,
    crew: Crew<R, P>,
    clock: &C,
    tickets: &Tickets,
    ended: &Arc<AtomicBool>,
    working: &mut Vec<JoinHandle<()>>,
) -> Result<Called, Memory> {
    let Crew { callers, workers } = crew;
    start_workers(rt, start, workers, ended, working)?;
    call_to_end(&rt, alloc, callers, clock, tickets)
}

/// Runs workers and callers until the callers have made all their calls, and gives their notes. Where a worker finds no thread of its own, no call is made: it could
/// begin only behind another one, which ends when the callers have ended, and they wait for it.
pub(crate) fn run<
    R: Threads + Wait + Copy + Send + Sync + Drop + 'static,
    P: Places + Send + Sync + 'static,
    C: Clock + Sync,
>(
    rt: R,
    alloc: Global,
    start: u64,
    crew: Crew<R, P>,
    clock: &C,
    tickets: &Tickets,
) -> Result<Called, Memory> {
    let ended = Arc::new(alloc, AtomicBool::new(false))?;
    let mut working = Vec::new(alloc);
    let called = work_and_call(rt, alloc, start, crew, clock, tickets, &ended, &mut working);
    ended.store(true, Ordering::SeqCst);
    for worker in working {
        worker.join(&rt);
    }
    called
}
