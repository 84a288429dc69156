//! Why a field is not read.

ghost use Rattle.std.specs.Prelude.{◌≡◌};

use hk_base::Memory;
use thiserror::Error;

/// Why a field is not read.
#[derive(Clone, Copy, Debug, PartialEq, Eq, Error)]
pub enum FieldFault {
    /// An allocation was refused.
    #[error("no memory")]
    Memory,
    /// The bytes end within the field, or its value is out of range.
    #[error("malformed")]
    Malformed,
}

impl From<Memory> for FieldFault {
    ghost use Rattle.hk_fields.specs.declared.fault.FieldFault.TheVariants as faults;

    fn from(_memory: Memory) -> FieldFault
        ensures { result ≡ faults.Memory }
    {
        FieldFault::Memory
    }
}
