//! Why a greeting is not read.

ghost use Rattle.std.specs.Prelude.{◌≡◌};

use hk_base::Memory;
use thiserror::Error;

/// Why a greeting is not read.
#[derive(Clone, Copy, Debug, PartialEq, Eq, Error)]
pub enum HelloFault {
    /// An allocation was refused.
    #[error("no memory")]
    Memory,
    /// The bytes end before the greeting does.
    #[error("more bytes are needed")]
    NeedMore,
    /// No greeting of this kind begins the bytes, whatever follows.
    #[error("malformed")]
    Malformed,
}

impl From<Memory> for HelloFault {
    ghost use Rattle.hk_hello.specs.declared.fault.HelloFault.TheVariants as faults;

    fn from(_memory: Memory) -> HelloFault
        ensures { result ≡ faults.Memory }
    {
        HelloFault::Memory
    }
}
