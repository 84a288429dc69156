//! Why a log gives nothing to begin with.

ghost use Rattle.std.specs.Prelude.{◌≡◌};

use hk_base::Memory;
use thiserror::Error;

/// Why a log gives nothing to begin with.
#[derive(Clone, Copy, Debug, PartialEq, Eq, Error)]
pub enum RestoreFault {
    /// An allocation was refused.
    #[error("no memory")]
    Memory,
    /// The record that begins at this byte of the file has an entry that is none of this log: one before any founding, a
    /// second opening, a step before the opening, or one that its manager refuses.
    #[error("does not replay at byte {at}")]
    DoesNotReplay { at: usize },
    /// It was founded at another place, or among another number of hosts.
    #[error("is of host {host} of {of}")]
    OfHost { host: u8, of: usize },
    /// It was founded with another lease or another skew, in milliseconds.
    #[error("has lease {lease} skew {skew}")]
    OtherTerms { lease: u32, skew: u32 },
}

impl From<Memory> for RestoreFault {
    ghost use Rattle.hk_restore.specs.declared.fault.RestoreFault.TheVariants.{Memory as Wanting};

    ghost from_gives = { λ memory result. result ≡ Wanting };

    fn from(_memory: Memory) -> RestoreFault
        ensures from_gives { result ≡ Wanting }
    {
        RestoreFault::Memory
    }
}
