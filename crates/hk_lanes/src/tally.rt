//! How often desks were asked, and what they told.

use crossbeam_utils::CachePadded;
use hk_base::{Answer, Memory, Op};
use hk_outside::DeskReply;
use std::alloc::Global;
use std::sync::Arc;
use std::sync::atomic::{AtomicU64, Ordering};

// So many counters of each kind, which desks take by turns: those that count at once mostly count by others.
const COUNTERS: usize = 16;

/// What desks told so far, since they were made.
#[derive(Clone, Copy, Debug, PartialEq, Eq)]
pub struct Tally {
    /// How many reads were told something.
    pub gets: u64,
    /// How many updates were told something.
    pub sets: u64,
    /// How many of both were refused for now.
    pub busy: u64,
    /// How many updates were given up for others.
    pub aborted: u64,
    /// Of how many updates the outcome is unknown.
    pub unknown: u64,
}

/// Counts what a desk tells.
#[derive(Drop)]
pub(crate) struct Counters {
    gets: AtomicU64,
    sets: AtomicU64,
    busy: AtomicU64,
    aborted: AtomicU64,
    unknown: AtomicU64,
}

fn count(counter: &AtomicU64) {
    counter.fetch_add(1, Ordering::SeqCst);
}

fn value_of(counter: &AtomicU64) -> u64 {
    counter.load(Ordering::SeqCst)
}

impl Counters {
    fn new() -> Counters {
        Counters {
            gets: AtomicU64::new(0),
            sets: AtomicU64::new(0),
            busy: AtomicU64::new(0),
            aborted: AtomicU64::new(0),
            unknown: AtomicU64::new(0),
        }
    }

    fn count_reply(&self, reply: &DeskReply) {
        match reply {
            DeskReply::Told(Answer::Busy(_)) => count(&self.busy),
            DeskReply::Told(Answer::Aborted(_)) => count(&self.aborted),
            DeskReply::Told(_) => (),
            DeskReply::Unknown { .. } => count(&self.unknown),
            DeskReply::Spent { .. } => (),
        }
    }

    /// An operation was told this.
    pub(crate) fn note(&self, op: &Op, reply: &DeskReply) {
        match op {
            Op::Read => count(&self.gets),
            _ => count(&self.sets),
        }
        self.count_reply(reply);
    }

    /// An update that waited was told this.
    pub(crate) fn note_update(&self, reply: &DeskReply) {
        count(&self.sets);
        self.count_reply(reply);
    }
}

impl Tally {
    fn nothing() -> Tally {
        Tally {
            gets: 0,
            sets: 0,
            busy: 0,
            aborted: 0,
            unknown: 0,
        }
    }

    // With what was counted there too.
    fn with(self, counters: &Counters) -> Tally {
        Tally {
            gets: self.gets.wrapping_add(value_of(&counters.gets)),
            sets: self.sets.wrapping_add(value_of(&counters.sets)),
            busy: self.busy.wrapping_add(value_of(&counters.busy)),
            aborted: self.aborted.wrapping_add(value_of(&counters.aborted)),
            unknown: self.unknown.wrapping_add(value_of(&counters.unknown)),
        }
    }
}

/// Where desks count what they tell.
#[derive(Drop)]
pub struct Tallies {
    counters: Vec<Arc<CachePadded<Counters>>>,
}

impl Tallies {
    /// Nothing was told yet.
    pub fn new(alloc: Global) -> Result<Arc<Tallies>, Memory> {
        let mut counters = Vec::new(alloc);
        for _ in 0..COUNTERS {
            counters.push(Arc::new(alloc, CachePadded::new(Counters::new()))?)?;
        }
        Ok(Arc::new(alloc, Tallies { counters })?)
    }

    /// The counters of the desk of this number.
    pub(crate) fn of(&self, number: u32) -> Result<Arc<CachePadded<Counters>>, Memory> {
        match self.counters.get(number as usize % COUNTERS) {
            Some(counters) => Ok(Arc::try_clone(counters)?),
            None => Err(Memory),
        }
    }

    /// What all desks told so far.
    pub fn tally(&self) -> Tally {
        self.counters
            .iter()
            .fold(Tally::nothing(), |all, counters| all.with(&***counters))
    }
}
