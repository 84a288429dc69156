//! What a thread does.

use crate::filled::{Filled, call, content};
use crate::plan::{Kind, Plan};
use hk_base::{Key, Memory, Op};
use hk_journal::Journal;
use hk_outside::HandClock;
use hk_snap::{LeaseCell, Local, SnapReader, read_local};
use std::alloc::Global;
use std::rt::Clock;
use std::sync::Wait;
use std::time::Instant;

/// What was done, and what it took.
#[derive(Clone, Copy, Debug)]
pub struct Spent {
    pub answers: u64,
    /// How many nanoseconds went into handing journals out.
    pub handing: u64,
    /// How often one was handed out.
    pub handed: u64,
}

impl Spent {
    pub fn none() -> Spent {
        Spent {
            answers: 0,
            handing: 0,
            handed: 0,
        }
    }

    pub fn add(&mut self, other: &Spent) {
        self.answers = self.answers.saturating_add(other.answers);
        self.handing = self.handing.saturating_add(other.handing);
        self.handed = self.handed.saturating_add(other.handed);
    }
}

// The next of the drawn numbers.
fn draw(state: u64) -> u64 {
    state
        .wrapping_mul(6_364_136_223_846_793_005)
        .wrapping_add(1_442_695_040_888_963_407)
}

fn nanos<R: Clock>(rt: &R, since: Option<Instant>) -> u64 {
    match since {
        Some(since) => match since.elapsed(rt) {
            Ok(passed) => u64::try_from(passed.as_nanos()).unwrap_or(u64::MAX),
            Err(_) => 0,
        },
        None => 0,
    }
}

// Calls the operation under the lock, and hands the journal out if it has become long.
fn ask<R: Wait + Clock>(
    rt: &R,
    alloc: Global,
    filled: &Filled,
    key: &Key,
    op: &Op,
    entries: u64,
    spent: &mut Spent,
) -> Result<Option<Journal>, Memory> {
    let mut shard = filled.shard.lock(rt);
    if call(rt, alloc, &mut shard, key, op)? {
        spent.answers = spent.answers.saturating_add(1);
    }
    if entries == 0 || (shard.journal().len() as u64) < entries {
        return Ok(None);
    }
    let started = Instant::now(rt).ok();
    let journal = shard.checkpoint(alloc)?;
    spent.handing = spent.handing.saturating_add(nanos(rt, started));
    spent.handed = spent.handed.saturating_add(1);
    Ok(Some(journal))
}

// Reads what the shard shows of the key.
fn read<R: Wait>(
    rt: &R,
    alloc: Global,
    reader: &mut SnapReader,
    lease: &mut LeaseCell,
    key: &Key,
    spent: &mut Spent,
) -> Result<(), Memory> {
    let local = read_local(rt, alloc, reader, lease, &HandClock { at: 1 }, 0, key)?;
    if matches!(local, Local::Found { .. }) {
        spent.answers = spent.answers.saturating_add(1);
    }
    Ok(())
}

// Writes 100 bytes, by a call under the lock.
fn set<R: Wait + Clock>(
    rt: &R,
    alloc: Global,
    filled: &Filled,
    key: &Key,
    entries: u64,
    spent: &mut Spent,
) -> Result<(), Memory> {
    let op = Op::Write(content(alloc)?);
    ask(rt, alloc, filled, key, &op, entries, spent)?;
    Ok(())
}

// What a thread reads by.
#[derive(Drop)]
struct Cells {
    reader: SnapReader,
    lease: LeaseCell,
}

fn cells_of<R: Wait>(rt: &R, alloc: Global, filled: &Filled) -> Result<Cells, Memory> {
    let (reader, lease) = filled.shard.lock(rt).reader(rt, alloc)?;
    Ok(Cells { reader, lease })
}

// Does it once.
fn turn<R: Wait + Clock>(
    rt: &R,
    alloc: Global,
    filled: &Filled,
    plan: Plan,
    key: &Key,
    by: &mut Cells,
    spent: &mut Spent,
) -> Result<(), Memory> {
    match plan.kind {
        Kind::Get => {
            ask(rt, alloc, filled, key, &Op::Read, plan.entries, spent)?;
            Ok(())
        }
        Kind::Set => set(rt, alloc, filled, key, plan.entries, spent),
        Kind::Local => read(rt, alloc, &mut by.reader, &mut by.lease, key, spent),
    }
}

fn work_all<R: Wait + Clock>(
    rt: &R,
    alloc: Global,
    filled: &Filled,
    plan: Plan,
    seed: u64,
    spent: &mut Spent,
) -> Result<(), Memory> {
    let mut by = cells_of(rt, alloc, filled)?;
    let mut state = draw(seed);
    for _turn in 0..plan.count {
        state = draw(state);
        let at = (state >> 33) as usize % filled.keys.len().max(1);
        if let Some(key) = filled.keys.get(at) {
            turn(rt, alloc, filled, plan, key, &mut by, spent)?;
        }
    }
    Ok(())
}

/// Does what the plan says. Where no memory is found, it ends early.
pub fn work<R: Wait + Clock>(
    rt: &R,
    alloc: Global,
    filled: &Filled,
    plan: Plan,
    seed: u64,
) -> Spent {
    let mut spent = Spent::none();
    match work_all(rt, alloc, filled, plan, seed, &mut spent) {
        Ok(()) => spent,
        Err(Memory) => spent,
    }
}
