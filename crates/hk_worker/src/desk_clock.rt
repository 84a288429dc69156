//! Clocks by which desks answer.

ghost use Rattle.std.specs.Prelude.{◌≡◌, ⊤, ℕ};
ghost use Rattle.hk_locked.specs.Locked.{ReaderState};

use hk_locked::{Places, ShardReader};
use hk_outside::{Clock, HandClock, SteadyClock};

/// A clock that can be read behind what was seen of a shard: an answer that holds only by a lease is given by such a reading.
pub trait DeskClock: Clock {
    /// This was read at a moment at which a reader had seen so much. Only a call here tells it.
    ghost was_read: { Self → ReaderState → ℕ → Type 0 };

    /// Reads the clock, in milliseconds. Who calls it has the reader in hand, with all that it has loaded.
    fn read_behind<P: Places>(&self, seen: &ShardReader<P>) -> u64
        ensures { was_read self.now seen.now result };
}

impl DeskClock for HandClock {
    ghost was_read = { λ clock. λ seen. λ now. now ≡ clock.at };

    fn read_behind<P: Places>(&self, _seen: &ShardReader<P>) -> u64 {
        self.now()
    }
}

impl<R: std::rt::Clock + Drop> DeskClock for SteadyClock<R> {
    ghost was_read = { λ clock. λ seen. λ now. ⊤ };

    fn read_behind<P: Places>(&self, _seen: &ShardReader<P>) -> u64 {
        self.now()
    }
}
