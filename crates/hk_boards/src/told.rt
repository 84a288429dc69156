//! What all managers' boards tell of one number.

ghost use Rattle.std.specs.Prelude.{◌≡◌, ◌<◌, ◌++◌, ◌∷◌, [], length};

use hk_fields::Ticket;
use std::marker::Model;

/// To which ticket each manager binds one number, by the managers' places: nothing where no board came. Contracts see
/// the list of them, 9 at most.
#[derive(Drop)]
pub struct TicketsTold {
    tickets: [Option<Ticket>; 9],
    managers: usize,
}

impl Model for TicketsTold {
    ghost use Rattle.std.specs.Prelude.{◌≤◌, List, Option, take};
    ghost use Rattle.hk_fields.specs.declared.tickets.Ticket.{Ticket};

    ghost Value = { List (Option Ticket) };

    ghost view = { λ told. take told.managers told.tickets };

    ghost invariant = { λ told. told.managers ≤ 9 };
}

impl TicketsTold {
    pub(crate) fn none() -> TicketsTold
        ensures { result ≡ [] }
    {
        TicketsTold {
            tickets: [None; 9],
            managers: 0,
        }
    }

    pub(crate) fn push(&mut self, ticket: Option<Ticket>)
        requires { length self.old < 9 }
        ensures { self.new ≡ self.old ++ ticket ∷ [] }
    {
        self.tickets[self.managers] = ticket;
        self.managers += 1;
    }

    /// What the managers told, by their places.
    pub fn as_slice(&self) -> &[Option<Ticket>]
        ensures { result.now ≡ self.now }
    {
        &self.tickets[..self.managers]
    }
}
