//! What lets a loop go on.

ghost use Rattle.std.specs.Prelude.{◌≡◌, ⊤, Bool, not};

use std::thread;

/// Asked by a loop before each turn, and before it puts a parcel.
pub trait Gate {
    /// Whether the last `pass` was answered false.
    ghost closed: { Self → Bool };

    /// What `keeps` answers of a gate, and what becomes of that, where the gate tells it.
    ghost answers: { Self → Bool → Self → Type 0 } = { λ before kept after. ⊤ };

    /// Whether the turn of this number, counted from 0, may be made. False closes the loop.
    fn pass(&mut self, turn: u64) -> bool
        ensures { result ≡ not (closed self.new) };

    /// Whether a parcel is put. Where it is not, it is lost.
    fn keeps(&mut self) -> bool
        ensures same { closed self.new ≡ closed self.old }
        ensures told { answers self.old result self.new };

    /// A turn found nothing to do. Other threads go first, unless the loop sleeps then anyway.
    fn rest(&self) {
        thread::yield_now();
    }
}
