//! Makes a shard of a node that is alone, fills it, and has threads ask it under its lock, or read what it shows without it.
//! `bench/shard` measures it.
//!
//! The first line of the input has five words: what each thread does (`get`, `set` or `local`), how many threads there are, how often
//! each does it, over how many keys, and at how many entries the journal is handed out and dropped (0: never). Contents have 100
//! bytes. The output has how many answers there were. To the standard error go, in nanoseconds, how long the threads took and how
//! long journals were handed out, and how often.
#![tactic(auto)]

mod asks;
mod filled;
mod plan;

use crate::asks::{Spent, work};
use crate::filled::{Filled, fill};
use crate::plan::{Plan, read_plan};
use hk_base::Memory;
use std::alloc::Global;
use std::rt::Clock;
use std::sync::{Arc, Wait};
use std::thread::{JoinHandle, Threads};
use std::time::Instant;
use std::{io, thread};

// Starts a thread of the plan.
fn start<R: Threads + Wait + Clock + Copy + Send + Sync + 'static>(
    rt: R,
    alloc: Global,
    filled: &Arc<Filled>,
    plan: Plan,
    seed: u64,
) -> Result<JoinHandle<Spent>, Memory> {
    let filled = Arc::try_clone(filled)?;
    match thread::spawn(&rt, move || work(&rt, alloc, &filled, plan, seed)) {
        Ok(handle) => Ok(handle),
        Err(_) => Err(Memory),
    }
}

// Has all threads of the plan work, to their end.
fn run<R: Threads + Wait + Clock + Copy + Send + Sync + 'static>(
    rt: R,
    alloc: Global,
    filled: &Arc<Filled>,
    plan: Plan,
) -> Result<Spent, Memory> {
    let mut handles = Vec::new(alloc);
    for number in 0..plan.threads {
        let handle = start(rt, alloc, filled, plan, number)?;
        handles.push(handle)?;
    }
    let mut all = Spent::none();
    for handle in handles {
        all.add(&handle.join(&rt));
    }
    Ok(all)
}

fn main(rt: HostRuntime) -> io::Result<()> {
    let alloc = rt.alloc();
    let plan = read_plan(&rt)?;
    let Ok(filled) = fill(&rt, alloc, plan.keys) else {
        return println!(rt; "no memory");
    };
    let filled = Arc::new(alloc, filled)?;
    let started = Instant::now(&rt)?;
    let Ok(spent) = run(rt, alloc, &filled, plan) else {
        return println!(rt; "no memory");
    };
    let taken = started.elapsed(&rt)?.as_nanos();
    eprintln!(rt; "{taken} {} {}", spent.handing, spent.handed)?;
    println!(rt; "answers {}", spent.answers)
}
