//! Files of logs.

ghost use Rattle.std.specs.Prelude.{◌++◌, ◌≤◌, List, ℕ, take, length, IfOk, OnOk};
ghost use Rattle.hk_outside.specs.Causes.{HasCause};

use hk_outside::Failed;
use std::alloc::Global;

/// A file that is open, and locked for this process for as long as it lives.
///
/// After `Failed` nothing is known of its bytes but that each that was sure is there: a part of what was appended may
/// be, and what was written before the last sync may be lost at any later moment, also where a later sync answers.
pub trait LogFile {
    /// The file has these bytes, as far as it tells.
    ghost holds: { Self → List ℕ → Type 0 };

    /// These bytes outlast a stop of the machine: they are a front of what is read afterwards.
    ghost is_sure: { Self → List ℕ → Type 0 };

    /// How often it failed.
    ghost faults: { Self → ℕ };

    /// All bytes of the file.
    fn read(&mut self, alloc: Global) -> Result<Vec<u8>, Failed>
        ensures bytes { IfOk result (λ bytes. holds self.new bytes.items) }
        ensures cause { HasCause (faults self.old) (faults self.new) result };

    /// Cuts off what stands behind so many bytes.
    fn cut(&mut self, len: usize) -> Result<(), Failed>
        ensures bytes { OnOk result ((bytes : List ℕ) → holds self.old bytes → holds self.new (take len bytes)) }
        ensures cause { HasCause (faults self.old) (faults self.new) result };

    /// Appends bytes.
    fn append(&mut self, piece: &[u8]) -> Result<(), Failed>
        ensures bytes { OnOk result ((bytes : List ℕ) → holds self.old bytes → holds self.new (bytes ++ piece.now)) }
        ensures cause { HasCause (faults self.old) (faults self.new) result };

    /// Makes sure of all bytes that it has.
    fn sync(&mut self) -> Result<(), Failed>
        ensures bytes { OnOk result ((bytes : List ℕ) → holds self.old bytes → holds self.new bytes) }
        ensures sure { OnOk result ((bytes : List ℕ) → holds self.old bytes → is_sure self.new bytes) }
        ensures cause { HasCause (faults self.old) (faults self.new) result };
}
