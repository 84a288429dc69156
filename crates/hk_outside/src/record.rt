//! Records of bytes, which clauses alone can read.

ghost use Rattle.std.specs.Prelude.{◌≡◌, ℕ, List, [], ◌∷◌, ◌++◌};
ghost use Rattle.std.specs.Borrow.{ftrue};

use std::marker::{Model, PhantomData};

/// The pieces that an adapter noted so far, from when it was made. It takes no memory, and its calls do nothing at run time.
#[derive(Drop)]
pub struct Record {
    marker: PhantomData<u8>,
    pub ghost pieces: { List (List ℕ) },
}

impl Model for Record {
    ghost also_owns = { λ _. ftrue };
}

// It owns nothing.
unsafe impl Send for Record {}

impl Record {
    /// A record of nothing.
    pub(crate) fn new() -> Record
        ensures { result.pieces ≡ [] }
    {
        Record {
            marker: PhantomData,
        }
    }

    /// Notes the piece behind all others.
    pub(crate) fn note(&mut self, _piece: &[u8])
        ensures { self.new.pieces ≡ self.old.pieces ++ _piece.now ∷ [] }
    {}
}
