//! Storms, through the top call.

ghost use Rattle.std.specs.Prelude.{⊤, None};

use hk_cli::hermes;
use hk_locked::{Places, ShardReader};
use hk_outside::{
    Clock, HandClock, MemoryDoors, MemorySink, MemorySource, NoSpawner, Status, TcpConnection,
};
use hk_worker::DeskClock;
use std::alloc::Global;
use std::collections::VecDeque;
use std::io::Eprint;
use std::process::Abort;
use std::sync::atomic::{AtomicBool, AtomicU64, Ordering};
use std::sync::{Arc, Wait};
use std::thread;
use std::thread::Threads;

// What the top call did.
#[derive(Drop)]
struct Outcome {
    status: Status,
    text: Vec<u8>,
}

// Makes the top call with the words of a storm that starts at 1, and this clock.
fn storm<
    R: Threads + Wait + Eprint + Abort + Copy + Send + Sync + 'static,
    C: DeskClock + Send + Sync + Drop + 'static,
>(rt: R, alloc: Global, words: &[&str], clock: Arc<C>) -> Outcome {
    let mut owned = Vec::new(alloc);
    for word in ["storm", "--start", "1"] {
        let word = String::from_str(alloc, word).expect(&rt, "memory");
        owned.push(word).expect(&rt, "memory");
    }
    for word in words {
        let word = String::from_str(alloc, word).expect(&rt, "memory");
        owned.push(word).expect(&rt, "memory");
    }
    let mut source = MemorySource::new(Vec::new(alloc), Vec::new(alloc));
    let mut sink = MemorySink::new(alloc, Vec::new(alloc));
    let mut doors: MemoryDoors<TcpConnection> = MemoryDoors::new(VecDeque::new(alloc), false);
    let mut spawner: NoSpawner<R> = NoSpawner::new();
    let status = hermes(
        rt,
        alloc,
        owned.as_slice(),
        &mut source,
        &mut sink,
        clock,
        &mut doors,
        &mut spawner,
    );
    Outcome {
        status,
        text: sink.sink.bytes,
    }
}

#[test]
fn a_lone_worker_answers_all_calls(rt: HostRuntime) {
    let alloc = rt.alloc();
    let clock = Arc::new(alloc, HandClock { at: 1 }).expect(&rt, "memory");
    let words = ["--nodes", "1", "--workers=1", "--calls", "100"];
    let outcome = storm(rt, alloc, words.as_slice(), clock);
    assert_eq!(rt; outcome.status, Status::Done);
    let text = b"storm 1 1 100\nanswered 100 busy 0 aborted 0 open 0 legal\n";
    assert!(rt; outcome.text.as_slice() == text.as_slice());
}

// A clock that always reads 1. Its first reading waits a while for a second one to begin.
#[derive(Drop)]
struct MeetingClock {
    readings: AtomicU64,
    met: AtomicBool,
}

impl MeetingClock {
    fn wait_for_another(&self) {
        for _look in 0..1_000_000 {
            if self.readings.load(Ordering::SeqCst) > 1 {
                self.met.store(true, Ordering::SeqCst);
                return;
            }
            thread::yield_now();
        }
    }
}

impl Clock for MeetingClock {
    ghost reading = { λ clock. None };

    fn now(&self) -> u64 {
        if self.readings.fetch_add(1, Ordering::SeqCst) == 0 {
            self.wait_for_another();
        }
        1
    }
}

impl DeskClock for MeetingClock {
    ghost was_read = { λ clock. λ seen. λ now. ⊤ };

    fn read_behind<P: Places>(&self, _seen: &ShardReader<P>) -> u64 {
        self.now()
    }
}

#[test]
fn storm_meets(rt: HostRuntime) {
    let alloc = rt.alloc();
    let clock = MeetingClock {
        readings: AtomicU64::new(0),
        met: AtomicBool::new(false),
    };
    let clock = Arc::new(alloc, clock).expect(&rt, "memory");
    let shared = Arc::clone(&clock).expect(&rt, "memory");
    let words = ["--nodes", "2", "--workers", "2", "--calls", "400"];
    let outcome = storm(rt, alloc, words.as_slice(), shared);
    assert_eq!(rt; outcome.status, Status::Done);
    assert!(rt; clock.met.load(Ordering::SeqCst));
}
