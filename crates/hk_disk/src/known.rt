//! What is known of a file by its calls, which clauses alone can read.

ghost use Rattle.std.specs.Prelude.{◌≡◌, ℕ, List, Option, None};
ghost use Rattle.std.specs.Borrow.{ftrue};
ghost use Rattle.hk_disk.specs.Calls.{bytes_behind, sure_behind};

use crate::call::FileCall;
use std::marker::{Model, PhantomData};

/// The bytes that a file has by the calls since it was opened, and those of them that are sure. It takes no memory, and
/// its calls do nothing at run time.
#[derive(Drop)]
pub struct Known {
    marker: PhantomData<u8>,
    pub ghost bytes: { Option (List ℕ) },
    pub ghost sure: { Option (List ℕ) },
}

impl Model for Known {
    ghost also_owns = { λ _. ftrue };
}

// It owns nothing.
unsafe impl Send for Known {}

impl Known {
    /// Nothing is known.
    pub(crate) fn new() -> Known
        ensures { (result.bytes ≡ None) × (result.sure ≡ None) }
    {
        Known {
            marker: PhantomData,
        }
    }

    /// Notes a call, and the bytes that it read or appended.
    pub(crate) fn note(&mut self, _call: &FileCall, _bytes: &[u8])
        ensures { (self.new.bytes ≡ bytes_behind _call.now _bytes.now self.old.bytes) × (self.new.sure ≡ sure_behind _call.now self.old.bytes self.old.sure) }
    {}
}
