//! What managers answer.

use crate::board::{Board, Stage};
use hk_base::{NodeId, Sequence};
use hk_fields::HostTickets;

/// How a manager stands, as one who looks is told.
#[derive(Clone, Copy, Debug, PartialEq, Eq)]
pub struct ManagerState {
    /// The number of its founding.
    pub founding: u64,
    pub stage: Stage,
    /// The place of its host, 0 to 8.
    pub place: u8,
    /// The tickets of its host.
    pub tickets: HostTickets,
    /// The length of a lease in milliseconds.
    pub lease: u32,
    /// How far clocks may jump, in milliseconds.
    pub skew: u32,
}

/// What a manager answers.
#[derive(Drop)]
pub enum Response {
    /// The answer to a report.
    Board(Board),
    /// The number of the node, to be claimed.
    Seated(NodeId),
    /// The answer to one who looks.
    State(ManagerState),
    /// How the group stands, in lines, whatever bytes they are.
    Status(Sequence<u8>),
    Yes,
    /// It refuses: the code of why, 1 to 12, and its text, whatever bytes they are.
    No { code: u8, text: Sequence<u8> },
}
