//! What the processes of a group ask of managers.

use crate::report::Report;
use hk_base::NodeId;
use hk_fields::{FoundingHosts, Ticket};

/// Who is to leave.
#[derive(Clone, Copy, Debug, PartialEq, Eq)]
pub enum Leaver {
    Node(NodeId),
    /// The node of the host of this place, 0 to 8.
    Host(u8),
}

/// What a process asks of a manager.
#[derive(Drop)]
pub enum Inquiry {
    /// It tells how it stands, and asks for a board.
    Report(Report),
    /// The process with this ticket asks for a number for its node.
    Seat(Ticket),
    /// It claims the number that it was given.
    Claim { node: NodeId, ticket: Ticket },
    /// How does the manager stand? It is to be reserved for this founding, which is not 0.
    Look { founding: u64 },
    /// It is to found the group with this number, which is not 0.
    Found { founding: u64, hosts: FoundingHosts },
    /// A node is to leave.
    Leave(Leaver),
    /// How does the group stand?
    Status,
}
