//! The clocks of processes. Their rates differ by less than a tenth, and what a clock jumps beside that is less than
//! half of the skew.

ghost use Rattle.std.specs.Prelude.{◌≤◌, None};
ghost use Rattle.hk_base.specs.declared.time.TheConstants.{MAX_TIME};

use crate::draws::Draws;
use hk_base::MAX_TIME;
use hk_outside::Clock;
use std::sync::atomic::{AtomicU64, Ordering};

// In thousandths: 1,050 of the one are less than eleven tenths of 956 of the other.
const SLOWEST: u64 = 956;

const FASTEST: u64 = 1_050;

/// What the parts of a process read as its clock.
#[derive(Drop)]
pub struct HostClock {
    reading: AtomicU64,
}

impl HostClock {
    /// It stands at 1.
    pub fn new() -> HostClock {
        HostClock {
            reading: AtomicU64::new(1),
        }
    }

    /// It rises to this reading, and never falls.
    pub fn rise(&self, reading: u64) -> u64
        ensures { result ≤ MAX_TIME }
    {
        let risen = self.now().max(reading).min(MAX_TIME);
        self.reading.store(risen, Ordering::SeqCst);
        risen
    }
}

impl Clock for HostClock {
    ghost reading = { λ clock. None };

    fn now(&self) -> u64 {
        self.reading.load(Ordering::SeqCst)
    }
}

/// How the clock of a process goes.
#[derive(Drop)]
pub struct Pace {
    /// When the process began.
    pub born: u64,
    rate: u64,
    jump: u64,
}

impl Pace {
    /// That of a process that begins now.
    pub fn new(draws: &mut Draws, now: u64) -> Pace {
        Pace {
            born: now,
            rate: draws.within(SLOWEST, FASTEST),
            jump: 0,
        }
    }

    /// The clock jumps so far ahead of how it goes, less than half of the skew.
    pub fn jump(&mut self, jump: u64) {
        self.jump = jump;
    }

    /// The clock goes so many times too fast from now on, as none may.
    pub fn hurry(&mut self, times: u64) {
        self.rate = self.rate.saturating_mul(times);
    }

    /// What the clock reads now.
    pub fn reading(&self, now: u64) -> u64 {
        let passed = now.saturating_sub(self.born).saturating_mul(self.rate) / 1_000;
        passed.saturating_add(self.jump).saturating_add(1)
    }
}
