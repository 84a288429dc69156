//! Clocks.

ghost use Rattle.std.specs.Prelude.{◌≡◌, ℕ, Option, Some, None, IfSome};

use std::time::Instant;

/// Tells the time in milliseconds. It may tell anything, also a time before the one that it told last.
pub trait Clock {
    /// The reading, where the clock tells it.
    ghost reading: { Self → Option ℕ };

    fn now(&self) -> u64
        ensures { IfSome (reading self.now) (λ time. result ≡ time) };
}

/// A clock that is set by hand.
#[derive(Clone, Copy, Debug)]
pub struct HandClock {
    /// The reading, in milliseconds.
    pub at: u64,
}

impl Clock for HandClock {
    ghost reading = { λ clock. Some clock.at };

    fn now(&self) -> u64 {
        self.at
    }
}

/// The machine's steady clock: milliseconds since it was made, counted from 1. Where the machine tells no time, it
/// stands at 1.
#[derive(Drop)]
pub struct SteadyClock<R: std::rt::Clock + Drop> {
    rt: R,
    start: Option<Instant>,
}

impl<R: std::rt::Clock + Drop> SteadyClock<R> {
    pub fn new(rt: R) -> SteadyClock<R> {
        let start = Instant::now(&rt).ok();
        SteadyClock { rt, start }
    }
}

impl<R: std::rt::Clock + Drop> Clock for SteadyClock<R> {
    ghost reading = { λ clock. None };

    fn now(&self) -> u64 {
        match self.start {
            Some(start) => match start.elapsed(&self.rt) {
                Ok(passed) => u64::try_from(passed.as_millis())
                    .unwrap_or(u64::MAX)
                    .saturating_add(1),
                Err(_) => 1,
            },
            None => 1,
        }
    }
}
