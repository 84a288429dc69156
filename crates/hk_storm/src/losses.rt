//! Which parcels a storm's workers lose.

ghost use Rattle.std.specs.Prelude.{◌≡◌};
ghost use Rattle.hk_storm.specs.Losses.{worker_numbers, kept_drawn};

use rand_core::utils::NextWord;
use rand_pcg::Pcg32;
use std::marker::Model;

// By and large one of so many parcels is lost.
const LOSS: u32 = 16;

// The workers have the streams from this one on; the calls are drawn from the one before.
const STREAM: u64 = 55;

/// Draws which parcels a worker of a storm loses, about one of 16. Contracts see what draws the next numbers.
#[derive(Drop)]
pub struct Losses {
    numbers: Pcg32,
}

impl Model for Losses {
    ghost use Rattle.rand_pcg.specs.Lcg.{Lcg};

    ghost Value = { Lcg };

    ghost view = { λ l. l.numbers };
}

impl Losses {
    /// The losses of the worker of this number, counted from 0 over all workers, in the storm with this start.
    pub fn new(start: u64, worker: u8) -> Losses
        ensures { result ≡ worker_numbers start worker }
    {
        Losses {
            numbers: Pcg32::new(start, STREAM + u64::from(worker)),
        }
    }

    /// Whether the next parcel is kept.
    pub fn keeps(&mut self) -> bool
        ensures { (result, self.new) ≡ kept_drawn self.old }
    {
        self.numbers.next_word() % LOSS != 0
    }
}
