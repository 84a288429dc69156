//! What others of a process learn of its manager.

ghost use Rattle.std.specs.Prelude.{◌≡◌};
ghost use Rattle.hk_base.specs.declared.letter.Actor.TheVariants.{Manager};
ghost use Rattle.hk_roll.specs.Boards.{names};
ghost use Rattle.hk_roll.specs.Rolls.{bound};
ghost use Rattle.hk_shared_state.specs.Seeking.{by_places};
ghost use Rattle.hk_managing.specs.Standing.{manager_of, is_founder, stands_open, stands};

use hk_base::{Actor, NodeId};
use hk_fields::Ticket;
use hk_office::Office;
use hk_roll::Roll;
use hk_shared_state::Standing;

// Whether just this ticket is named.
fn names(ticket: Ticket, named: Option<Ticket>) -> bool
    ensures { result ≡ names ticket named }
{
    match named {
        Some(other) => ticket == other,
        None => false,
    }
}

fn manager_of(roll: &Roll, place: Option<u8>) -> Option<Ticket>
    ensures { result ≡ manager_of roll.now place }
{
    match place {
        Some(place) => roll.bound(Actor::Manager(place)),
        None => None,
    }
}

// Whether the number of a place is bound to the process of this ticket.
fn is_founder(roll: &Roll, place: Option<u8>, ticket: Ticket) -> bool
    ensures { result ≡ is_founder roll.now place ticket }
{
    match place {
        Some(place) => names(ticket, roll.bound(Actor::Node(NodeId(u16::from(place))))),
        None => false,
    }
}

fn managers_of(roll: &Roll) -> [Option<Ticket>; 9]
    ensures { result ≡ by_places (λ at. bound (Manager at) roll.now) }
{
    [
        roll.bound(Actor::Manager(0)),
        roll.bound(Actor::Manager(1)),
        roll.bound(Actor::Manager(2)),
        roll.bound(Actor::Manager(3)),
        roll.bound(Actor::Manager(4)),
        roll.bound(Actor::Manager(5)),
        roll.bound(Actor::Manager(6)),
        roll.bound(Actor::Manager(7)),
        roll.bound(Actor::Manager(8)),
    ]
}

fn stand_open(standing: &mut Standing, office: &Office, place: Option<u8>, ticket: Ticket)
    ensures { standing.new ≡ stands_open office.now place ticket standing.old }
{
    let roll = office.roll();
    standing.founding = office.founding();
    standing.managers = managers_of(roll);
    standing.manager = manager_of(roll, place);
    standing.is_founder = is_founder(roll, place, ticket);
}

// Others of this process, which has this ticket, learn how its manager stands. Before its group is open nothing is told of that.
pub(crate) fn stand(
    standing: &mut Standing,
    office: &Office,
    place: Option<u8>,
    ticket: Ticket,
    records: u64,
)
    ensures { standing.new ≡ stands office.now place ticket records standing.old }
{
    standing.records = records;
    if office.takes_letters() {
        stand_open(standing, office, place, ticket);
    }
}
