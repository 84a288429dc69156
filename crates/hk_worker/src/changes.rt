//! What is changed by one thread, and waited for by others.

use std::hint;
use std::sync::Wait;
use std::sync::atomic::{AtomicU64, Ordering};
use std::time::Duration;

// So often a thread looks before it sleeps: for less than two microseconds.
const SPINS: u32 = 40;

// The count's last bit tells that someone sleeps. Both stand in one word: a mark beside the count could be erased by a change that began before it, and the
// sleeper would not be woken.
const SLEEPER: u64 = 1;

/// Counts changes, and lets threads sleep until there is one. It shows none of what changed: whoever was woken looks.
#[derive(Drop)]
pub struct Changes {
    // Twice the number of changes, and 1 more where someone sleeps since the last.
    word: AtomicU64,
}

impl Changes {
    /// Nothing has changed yet.
    pub fn new() -> Changes {
        Changes {
            word: AtomicU64::new(0),
        }
    }

    /// A number that is another one behind each change, until there were 2^63. Whoever is to wait notes it before it looks.
    pub fn seen(&self) -> u64 {
        self.word.load(Ordering::SeqCst) & !SLEEPER
    }

    fn exchange(&self, from: u64, to: u64) -> bool {
        self.word
            .compare_exchange(from, to, Ordering::SeqCst, Ordering::SeqCst)
            .is_ok()
    }

    /// There is one more, and all who sleep are woken. Where nobody sleeps it takes no call of the system.
    pub fn note<R: Wait>(&self, rt: &R) {
        for _ in rt.forever() {
            let before = self.word.load(Ordering::SeqCst);
            if self.exchange(before, (before & !SLEEPER).wrapping_add(2)) {
                if before & SLEEPER != 0 {
                    self.word.wake_all();
                }
                return;
            }
        }
    }

    // Looks for a short while whether there is one.
    fn spin(&self, seen: u64) -> bool {
        for _ in 0..SPINS {
            if self.seen() != seen {
                return true;
            }
            hint::spin_loop();
        }
        false
    }

    // Whether the word tells that someone sleeps, and that nothing has changed since `seen`.
    fn is_marked(&self, seen: u64) -> bool {
        self.exchange(seen, seen | SLEEPER) || self.word.load(Ordering::SeqCst) == seen | SLEEPER
    }

    /// Waits until there was one since `seen`, for so many milliseconds at most, and gives whether there was.
    pub fn wait<R: Wait>(&self, rt: &R, seen: u64, millis: u64) -> bool {
        if self.spin(seen) {
            return true;
        }
        if self.is_marked(seen) {
            let low = (seen | SLEEPER) & u64::from(u32::MAX);
            self.word
                .park_timeout(rt, low as u32, Duration::from_millis(millis));
        }
        self.seen() != seen
    }
}

/// Which of 64 were marked since that was taken.
#[derive(Drop)]
pub(crate) struct Marks {
    bits: AtomicU64,
}

impl Marks {
    /// None is marked.
    pub(crate) fn new() -> Marks {
        Marks {
            bits: AtomicU64::new(0),
        }
    }

    // Marks those whose bits are set.
    fn mark_bits(&self, bits: u64) {
        if self.bits.load(Ordering::SeqCst) & bits != bits {
            self.bits.fetch_or(bits, Ordering::SeqCst);
        }
    }

    /// Marks that of this number, modulo 64.
    pub(crate) fn mark(&self, number: u64) {
        self.mark_bits(1 << (number % 64));
    }

    /// Marks all.
    pub(crate) fn mark_all(&self) {
        self.mark_bits(u64::MAX);
    }

    /// Takes what is marked, as bits; none is marked then.
    pub(crate) fn take(&self) -> u64 {
        if self.bits.load(Ordering::SeqCst) == 0 {
            return 0;
        }
        self.bits.swap(0, Ordering::SeqCst)
    }
}
