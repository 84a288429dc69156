//! What binds a number to a process.

use hk_base::Actor;
use hk_fields::Ticket;

/// An actor's number is that of the process with this ticket. It is an entry of a manager's log.
#[derive(Clone, Copy, Debug, PartialEq, Eq)]
pub struct Binding {
    pub actor: Actor,
    pub ticket: Ticket,
}

/// The processes with which a host of the list is founded.
#[derive(Clone, Copy, Debug, PartialEq, Eq)]
pub struct Founder {
    /// The ticket of its manager.
    pub manager: Ticket,
    /// The ticket of its node, if one waited for the founding.
    pub node: Option<Ticket>,
}
