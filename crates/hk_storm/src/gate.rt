//! What lets a storm's worker go on, and loses parcels.

ghost use Rattle.std.specs.Prelude.{◌≡◌, false};
ghost use Rattle.hk_storm.specs.Gate.{GateState};
ghost use Rattle.hk_storm.specs.Losses.{worker_numbers, kept_drawn};

use crate::losses::Losses;
use hk_overseer::Gate;
use std::marker::Model;
use std::sync::atomic::{AtomicBool, Ordering};

/// The gate of a storm's worker: it closes once all callers have ended, and drops the parcels that the worker loses. Contracts see whether it is closed, and what
/// draws the losses.
#[derive(Drop)]
pub struct StormGate<'a> {
    ended: &'a AtomicBool,
    closed: bool,
    losses: Losses,
}

impl<'a> Model for StormGate<'a> {
    ghost Value = { GateState };

    ghost view = { λ g. record { closed = g.closed; losses = g.losses } };
}

impl<'a> StormGate<'a> {
    /// The gate of the worker of this number, in a storm with this start. It is open until `ended`.
    pub fn new(start: u64, worker: u8, ended: &'a AtomicBool) -> StormGate<'a>
        ensures { result ≡ record { closed = false; losses = worker_numbers start worker } }
    {
        StormGate {
            ended,
            closed: false,
            losses: Losses::new(start, worker),
        }
    }
}

impl<'a> Gate for StormGate<'a> {
    ghost closed = { λ g. g.closed };

    ghost answers = { λ before kept after. (kept, after.losses) ≡ kept_drawn before.losses };

    fn pass(&mut self, _turn: u64) -> bool {
        self.closed = self.ended.load(Ordering::SeqCst);
        !self.closed
    }

    fn keeps(&mut self) -> bool {
        self.losses.keeps()
    }
}
