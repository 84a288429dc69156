//! Runs groups over hosts in memory, with drawn faults: each host has the real parts of a process, as its manager with
//! its loop's turns, the log of that, and what the process knows, over clocks, disks and a network that are drawn.
//! Nodes are there as far as views and leases go. It looks for what must not happen ([`judge::Fault`]), and tells on
//! one line whether it did; what was counted is told on standard error.
//!
//! Its words are how many events are to be made, a seed, and maybe a mistake of its own that is to be told.
#![tactic(auto)]

mod arrivals;
mod clock;
mod counts;
mod disk;
mod draws;
mod faults;
mod founding;
mod happening;
mod hosts;
mod identity;
mod judge;
mod let_go;
mod looks;
mod manager;
mod mistake;
mod network;
mod node;
mod phases;
mod process;
mod world;

use crate::counts::Counts;
use crate::judge::Fault;
use crate::let_go::let_go;
use crate::mistake::{Mistake, mistake_of};
use crate::world::World;
use hk_base::Memory;
use std::alloc::Global;
use std::env;
use std::io::{self, Eprint};
use std::process::ExitCode;
use std::sync::Wait;

// What is to be run.
#[derive(Clone, Copy)]
struct Plan {
    events: u64,
    seed: u64,
    mistake: Mistake,
}

// Makes what happens in a group until it is lost, or long enough.
fn make_all<R: Wait + Eprint + Copy + Drop>(
    world: &mut World<R>,
    events: u64,
) -> Result<(), Memory> {
    world.begin()?;
    for _event in 0..u64::MAX {
        if world.is_over || world.judge.fault.is_some() || world.counts.events >= events {
            return Ok(());
        }
        let Some(happening) = world.next() else {
            return Ok(());
        };
        world.make(happening)?;
    }
    Ok(())
}

// Runs a group. It gives its fault, if there was one, and what was counted.
fn run_group<R: Wait + Eprint + Copy + Drop>(
    rt: R,
    alloc: Global,
    plan: Plan,
    counts: Counts,
) -> Result<(Option<Fault>, Counts), Memory> {
    let mut world = World::new(rt, alloc, plan.seed, plan.mistake, counts)?;
    let made = make_all(&mut world, plan.events);
    world.end_all();
    let told = (world.judge.fault, world.counts);
    let_go(world);
    made?;
    Ok(told)
}

// Runs one group after the other.
fn run<R: Wait + Eprint + Copy + Drop>(
    rt: R,
    alloc: Global,
    plan: Plan,
) -> Result<(Option<Fault>, Counts), Memory> {
    let mut counts = Counts::new();
    for _group in 0..u64::MAX {
        let (fault, more) = run_group(rt, alloc, plan, counts)?;
        counts = more;
        if fault.is_some() || counts.events >= plan.events {
            return Ok((fault, counts));
        }
    }
    Ok((None, counts))
}

// What the words ask for, if they are right.
fn plan_of(words: &[String]) -> Option<Plan> {
    let mut plan = Plan {
        events: 100_000,
        seed: 1,
        mistake: Mistake::Nothing,
    };
    if let Some(word) = words.get(0) {
        plan.events = word.as_str().parse().ok()?;
    }
    if let Some(word) = words.get(1) {
        plan.seed = word.as_str().parse().ok()?;
    }
    if let Some(word) = words.get(2) {
        plan.mistake = mistake_of(word.as_str())?;
    }
    if words.len() > 3 { None } else { Some(plan) }
}

fn words_of(rt: &HostRuntime) -> io::Result<Vec<String>> {
    let mut words = Vec::new(rt.alloc());
    for word in env::args(rt)?.skip(1) {
        words.push(word)?;
    }
    Ok(words)
}

fn main(rt: HostRuntime) -> io::Result<ExitCode> {
    let words = words_of(&rt)?;
    let Some(plan) = plan_of(&words) else {
        eprintln!(rt; "usage: faults_group [EVENTS [SEED [MISTAKE]]]")?;
        return Ok(ExitCode::from(2));
    };
    let Ok((fault, counts)) = run(rt, rt.alloc(), plan) else {
        eprintln!(rt; "no memory")?;
        return Ok(ExitCode::from(2));
    };
    counts.tell(&rt)?;
    match fault {
        Some(fault) => {
            println!(rt;
                "fault: {fault:?}, seed {}, event {}",
                plan.seed, counts.events
            )?;
            Ok(ExitCode::from(1))
        }
        None => {
            println!(rt; "0 faults")?;
            Ok(ExitCode::from(0))
        }
    }
}
