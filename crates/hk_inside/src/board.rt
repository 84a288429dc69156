//! What a manager tells those who report to it.

use crate::report::Text;
use hk_base::{NodeId, Sequence};
use hk_fields::Ticket;

/// How far a manager has come with the founding of its group.
#[derive(Clone, Copy, Debug, PartialEq, Eq)]
pub enum Stage {
    /// Stage 0: it was founded with nothing.
    Empty,
    /// Stage 1: it was founded.
    Founded,
    /// Stage 2: it opened the group, for good.
    Open,
}

/// Who has a line on a board.
#[derive(Clone, Copy, Debug, PartialEq, Eq)]
pub enum Party {
    Node(NodeId),
    /// The manager of this place, 0 to 8.
    Manager(u8),
    /// A process that has no number yet.
    Neither,
}

/// How a party stands with the manager.
#[derive(Clone, Copy, Debug, PartialEq, Eq)]
pub enum Mark {
    /// Its number is bound to its ticket.
    Bound,
    /// It is a member of a view.
    Member,
    /// It is to leave.
    ToLeave,
    /// It was left out.
    Out,
}

/// A line of a board.
#[derive(Drop)]
pub struct BoardLine {
    pub party: Party,
    pub ticket: Ticket,
    pub mark: Mark,
    pub ready: bool,
    /// The address at which other processes reach it.
    pub inside: Text,
}

/// The lines of a board, 255 at most.
pub type BoardLines = Sequence<BoardLine>;

/// What a manager tells who reports to it.
#[derive(Drop)]
pub struct Board {
    /// The number of its founding.
    pub founding: u64,
    pub stage: Stage,
    /// The most records that the asker's manager told it.
    pub records: u64,
    /// Which managers are up: the bit of a place is set, the lowest one being that of place 0.
    pub managers_up: u16,
    /// Managers, members, those who joined and are bound, and the asker.
    pub lines: BoardLines,
}
