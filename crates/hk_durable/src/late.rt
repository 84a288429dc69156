//! Clocks that are read behind something.

ghost use Rattle.std.specs.Prelude.{◌≡◌, ℕ, List, IfSome};
ghost use Rattle.hk_link.specs.declared.parcel.Parcel.{Parcel as IsParcel};

use hk_link::Parcel;
use hk_outside::Clock;

/// Tells the time in milliseconds, once some parcels were taken.
pub trait LateClock {
    /// This was read at a moment at which these parcels had been taken. Only a call here tells it.
    ghost was_read: { Self → List IsParcel → ℕ → Type 0 };

    /// Reads the clock. Who calls it has the parcels in hand.
    fn read_behind(&self, taken: &[Parcel]) -> u64
        ensures { was_read self.now taken.now result };
}

/// A clock, read behind what was taken.
#[derive(Drop)]
pub struct Late<C: Clock + Drop>(pub C);

impl<C: Clock + Drop> LateClock for Late<C> {
    ghost was_read = { λ late. λ taken. λ now. IfSome (C.reading late.0) (λ time. now ≡ time) };

    fn read_behind(&self, _taken: &[Parcel]) -> u64 {
        self.0.now()
    }
}
