//! What the managers' boards tell of one number.

ghost use Rattle.std.specs.Prelude.{◌≡◌};
ghost use Rattle.std.specs.List.{count_by, find};
ghost use Rattle.std.specs.Option.{option_copied};
ghost use Rattle.hk_roll.specs.Boards.{same_ticket, names, is_by_most, named};

use hk_fields::Ticket;

pub(crate) fn same_ticket(one: Ticket, other: Ticket) -> bool
    ensures { result ≡ same_ticket one other }
{
    one == other
}

// Whether just this ticket is named.
pub(crate) fn names(ticket: Ticket, told: Option<Ticket>) -> bool
    ensures { result ≡ names ticket told }
{
    match told {
        Some(other) => same_ticket(ticket, other),
        None => false,
    }
}

fn count_naming(told: &[Option<Ticket>], ticket: Ticket) -> usize
    ensures { result ≡ count_by (names ticket) told.now }
{
    told.iter().filter(|other| names(ticket, **other)).count()
}

fn is_by_most(told: &[Option<Ticket>], named: Option<Ticket>) -> bool
    ensures { result ≡ is_by_most told.now named }
{
    match named {
        Some(ticket) => told.len() / 2 < count_naming(told, ticket),
        None => false,
    }
}

// What is named by most managers, if anything is.
fn find_by_most(told: &[Option<Ticket>]) -> Option<&Option<Ticket>>
    ensures { option_copied result ≡ find (is_by_most told.now) told.now }
{
    told.iter().find(|named| is_by_most(told, **named))
}

/// The ticket to which a majority binds a number, if there is one. It is given what the last board of each manager told, by their places: the ticket to which it
/// binds the number, or nothing, also where no board came. A hello of a node is admitted where this names its ticket.
pub fn named(told: &[Option<Ticket>]) -> Option<Ticket>
    ensures { result ≡ named told.now }
{
    match find_by_most(told) {
        Some(found) => *found,
        None => None,
    }
}
