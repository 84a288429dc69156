//! Gates of workers.

ghost use Rattle.std.specs.Prelude.{◌≡◌, false, not};

use hk_overseer::Gate;
use std::sync::Arc;
use std::sync::atomic::{AtomicBool, Ordering};
use std::thread;

/// Lets every turn pass. It keeps all parcels, or none.
#[derive(Drop)]
pub struct Open {
    pub keeps: bool,
}

impl Gate for Open {
    ghost closed = { λ gate. false };

    ghost answers = { λ before kept after. kept ≡ before.keeps };

    fn pass(&mut self, _turn: u64) -> bool {
        true
    }

    fn keeps(&mut self) -> bool {
        self.keeps
    }
}

/// Lets its second turn pass only after the other gate let its first one pass. After 1,000,000 looks for that it closes.
#[derive(Drop)]
pub struct Meeting {
    pub first: Arc<AtomicBool>,
    pub other: Arc<AtomicBool>,
    pub open: bool,
}

// Whether the other gate is seen to have let its first turn pass.
fn meets(other: &AtomicBool) -> bool {
    for _look in 0..1_000_000 {
        if other.load(Ordering::SeqCst) {
            return true;
        }
        thread::yield_now();
    }
    false
}

impl Gate for Meeting {
    ghost closed = { λ gate. not gate.open };

    fn pass(&mut self, turn: u64) -> bool {
        if turn == 0 {
            self.first.store(true, Ordering::SeqCst);
        }
        self.open = turn != 1 || meets(&self.other);
        self.open
    }

    fn keeps(&mut self) -> bool {
        true
    }
}
