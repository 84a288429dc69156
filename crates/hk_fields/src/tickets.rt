//! Tickets, by which a process is told from all others.

/// How many bytes a ticket has.
pub const TICKET_LEN: usize = 16;

/// What tells a process from all others: 16 bytes, drawn at random when it starts, which it keeps for as long as it
/// runs.
#[derive(Clone, Copy, Debug, PartialEq, Eq)]
pub struct Ticket(pub [u8; 16]);
