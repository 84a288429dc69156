//! What was taken off a connection, which clauses alone can read.

ghost use Rattle.std.specs.Prelude.{◌≡◌, ℕ, List, [], ◌∷◌, ◌++◌};
ghost use Rattle.std.specs.Borrow.{ftrue};

use std::marker::{Model, PhantomData};

/// The pieces that were taken so far, from when it was made. It takes no memory, and its calls do nothing at run time.
#[derive(Drop)]
pub struct Taken {
    marker: PhantomData<u8>,
    pub ghost pieces: { List (List ℕ) },
}

impl Model for Taken {
    ghost also_owns = { λ _. ftrue };
}

// It owns nothing.
unsafe impl Send for Taken {}

impl Taken {
    /// Nothing was taken.
    pub fn new() -> Taken
        ensures { result.pieces ≡ [] }
    {
        Taken {
            marker: PhantomData,
        }
    }

    /// The piece was taken behind all others.
    pub fn note(&mut self, _piece: &[u8])
        ensures { self.new.pieces ≡ self.old.pieces ++ _piece.now ∷ [] }
    {}
}
