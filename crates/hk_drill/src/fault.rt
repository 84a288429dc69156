//! Why a drill could not go on.

ghost use Rattle.std.specs.Prelude.{◌≡◌};

use hk_base::Memory;
use hk_outside::Status;

/// Why a script was not followed to its end or its stop.
#[derive(Clone, Copy, Debug, PartialEq, Eq)]
pub(crate) enum Fault {
    /// Memory was wanting.
    Memory,
    /// The source failed.
    Read,
    /// The sink failed.
    Write,
}

impl Fault {
    ghost use Rattle.hk_drill.specs.Drilled.{fault_status};

    /// The status of a drill that ended so.
    pub(crate) fn status(self) -> Status
        ensures { result ≡ fault_status self }
    {
        match self {
            Fault::Memory => Status::Memory,
            Fault::Read => Status::ReadFault,
            Fault::Write => Status::WriteFault,
        }
    }
}

impl From<Memory> for Fault {
    ghost use Rattle.hk_drill.specs.declared.fault.Fault.TheVariants.{Memory as Wanting};

    ghost from_gives = { λ memory result. result ≡ Wanting };

    fn from(_error: Memory) -> Fault
        ensures from_gives { result ≡ Wanting }
    {
        Fault::Memory
    }
}
