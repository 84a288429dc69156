//! Why a step is not made.

ghost use Rattle.std.specs.Prelude.{◌≡◌};

use hk_base::{Memory, NodeId};
use thiserror::Error;

/// Why a step is not made. The manager is as it was.
#[derive(Clone, Copy, Debug, PartialEq, Eq, Error)]
pub enum ManagerFault {
    /// An allocation was refused.
    #[error("no memory")]
    Memory,
    /// The manager holds a view of another epoch, namely `held`.
    #[error("the manager holds epoch {held}")]
    Behind { held: u64 },
    /// The node that is to leave is no member.
    #[error("the node is no member")]
    NoSuchMember,
    /// It is the only member.
    #[error("it is the only member")]
    LastMember,
    /// The view has 16 members.
    #[error("the view has 16 members")]
    Full,
    /// All numbers of nodes were given.
    #[error("all numbers of nodes were given")]
    NoNumbers,
    /// A lease of a node outside the view may still run: the manager's clock is not past `end`, the until that it noted for it.
    #[error("a lease of node {} may run to {end}", .node.0)]
    NotPast { node: NodeId, end: u64 },
}

impl From<Memory> for ManagerFault {
    ghost use Rattle.hk_manager.specs.declared.fault.ManagerFault.TheVariants.{Memory as Wanting};

    ghost from_gives = { λ memory result. result ≡ Wanting };

    fn from(_error: Memory) -> ManagerFault
        ensures from_gives { result ≡ Wanting }
    {
        ManagerFault::Memory
    }
}
