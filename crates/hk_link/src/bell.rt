//! What wakes a worker.

use std::sync::Wait;
use std::sync::atomic::{AtomicBool, AtomicU64, Ordering};

// The word of a bell counts its rings in steps of this, and below that who sleeps. Its low half, on which they sleep, tells 2^24 rings apart.
const RING: u64 = 256;

// So many are counted as sleepers at most. Whoever comes beside them does not sleep.
const MOST_SLEEPERS: u64 = RING - 1;

/// Lets threads sleep until another one rings. A thread that would sleep notes the rings so far, looks once more for something to do, and waits for a ring behind
/// those that it noted: so it sleeps through no ring. No wait ends by time.
///
/// Rings may be many at once, and wake as many threads, but all who sleep where those are fewer. To ring takes no lock, and where nobody sleeps no call of the
/// system. Once those that waited here have ended for good, `close` tells it to those that ring.
#[derive(Drop)]
pub struct Bell {
    // Rings and sleepers stand in one word: a count of sleepers beside it could be read before a sleeper is in it, and written behind that.
    word: AtomicU64,
    closed: AtomicBool,
}

// How many rings a word tells.
fn rings_in(word: u64) -> u64 {
    word / RING
}

// How many sleep at most, as a word tells.
fn sleepers_in(word: u64) -> u64 {
    word % RING
}

impl Bell {
    /// A bell that was not rung.
    pub fn new() -> Bell {
        Bell {
            word: AtomicU64::new(0),
            closed: AtomicBool::new(false),
        }
    }

    fn now(&self) -> u64 {
        self.word.load(Ordering::SeqCst)
    }

    fn exchange(&self, from: u64, to: u64) -> bool {
        self.word
            .compare_exchange(from, to, Ordering::SeqCst, Ordering::SeqCst)
            .is_ok()
    }

    /// How often it was rung, modulo 2^56.
    pub fn rings(&self) -> u64 {
        rings_in(self.now())
    }

    // Adds so many rings, and counts so many of the sleepers as woken. Gives how many those are.
    fn add<R: Wait>(&self, rt: &R, rings: u64, wakes: u64) -> u64 {
        for _ in rt.forever() {
            let word = self.now();
            let woken = sleepers_in(word).min(wakes);
            let rung = word.wrapping_add(rings.wrapping_mul(RING));
            if self.exchange(word, rung.wrapping_sub(woken)) {
                return woken;
            }
        }
        unreachable!()
    }

    /// Rings so often, and wakes as many threads that wait, or all of them.
    pub fn ring<R: Wait>(&self, rt: &R, times: u64) {
        for _woken in 0..self.add(rt, times, times) {
            self.word.wake_one();
        }
    }

    /// Rings once, and wakes each thread that waits.
    pub fn wake_all<R: Wait>(&self, rt: &R) {
        self.add(rt, 1, MOST_SLEEPERS);
        self.word.wake_all();
    }

    // Counts one more sleeper, unless it was rung since `heard`, or too many sleep. Gives whether it did.
    fn is_counted<R: Wait>(&self, rt: &R, heard: u64) -> bool {
        for _ in rt.forever() {
            let word = self.now();
            if rings_in(word) != heard || sleepers_in(word) == MOST_SLEEPERS {
                return false;
            }
            if self.exchange(word, word.wrapping_add(1)) {
                return true;
            }
        }
        unreachable!()
    }

    /// Waits until it was rung once more than `heard`, what `rings` told before the last look. Where 255 threads wait it returns at once.
    pub fn wait<R: Wait>(&self, rt: &R, heard: u64) {
        if !self.is_counted(rt, heard) {
            return;
        }
        for _ in rt.forever() {
            let word = self.now();
            if rings_in(word) != heard {
                return;
            }
            self.word.park(rt, (word & u64::from(u32::MAX)) as u32);
        }
    }

    /// Nobody takes any more of what is put where this bell rings.
    pub fn close(&self) {
        self.closed.store(true, Ordering::SeqCst);
    }

    /// Whether it was closed.
    pub fn is_closed(&self) -> bool {
        self.closed.load(Ordering::SeqCst)
    }
}
