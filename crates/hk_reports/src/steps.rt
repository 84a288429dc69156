//! What each call makes of the lists that are kept.

ghost use Rattle.std.specs.Prelude.{◌≡◌, ◌<◌, ◌≤◌, ◌∷◌, length, vec_len, vec_capacity, take};
ghost use Rattle.std.specs.List.{find};
ghost use Rattle.std.specs.Option.{option_copied};
ghost use Rattle.hk_reports.specs.declared.reports.TheConstants.{MOST_PROCESSES};
ghost use Rattle.hk_reports.specs.Reports.{is_of, is_number, is_at, is_ready_state, other_reports, other_numbers, other_seats, with_report, AreOneEach, IsFew, with_number, with_seat, is_lost_to, still_theirs, still_in_vain, last_ready, most_told, number_of, proposed_again, lately_at};

use crate::hearing::age;
use crate::kept::{Came, NumberKept, Proposed, SeatGiven};
use crate::reports::{IN_VAIN_FOR, MANAGERS, MOST_PROCESSES};
use hk_base::NodeId;
use hk_fields::Ticket;
use hk_inside::{NodeState, Report};

// Puts an item in front. There is room for it, and it pushes out what then stands too far behind.
fn put_first<T: Drop>(items: &mut Vec<T>, item: T)
    requires { vec_len items.old < vec_capacity items.old }
    ensures items { items.new.items ≡ take MOST_PROCESSES (item ∷ items.old.items) }
    ensures few { IsFew items.new.items }
{
    let Ok(()) = items.insert(0, item) else {
        unreachable!()
    };
    items.truncate(MOST_PROCESSES);
}

pub(crate) fn is_of(ticket: Ticket, came: &Came) -> bool
    ensures { result ≡ is_of ticket came.now }
{
    came.report.ticket == ticket
}

fn forget_report(came: &mut Vec<Came>, ticket: Ticket)
    ensures items { came.new.items ≡ other_reports ticket came.old.items }
    ensures few { vec_len came.new ≤ vec_len came.old }
    ensures capacity { vec_capacity came.new ≡ vec_capacity came.old }
{
    came.retain(|other| !is_of(ticket, other));
}

// Keeps a report in place of the last one of its ticket. There is room for it.
pub(crate) fn put_report(came: &mut Vec<Came>, last: Came)
    requires room { vec_len came.old < vec_capacity came.old }
    requires each { AreOneEach came.old.items }
    ensures items { came.new.items ≡ with_report last came.old.items }
    ensures few { IsFew came.new.items }
    ensures each { AreOneEach came.new.items }
{
    forget_report(came, last.report.ticket);
    put_first(came, last);
}

fn forget_number(numbers: &mut Vec<NumberKept>, node: NodeId)
    ensures items { numbers.new.items ≡ other_numbers node numbers.old.items }
    ensures few { vec_len numbers.new ≤ vec_len numbers.old }
    ensures capacity { vec_capacity numbers.new ≡ vec_capacity numbers.old }
{
    numbers.retain(|other| other.node.0 != node.0);
}

// Keeps what is known of a number in place of what was. There is room for it.
pub(crate) fn put_number(numbers: &mut Vec<NumberKept>, number: NumberKept)
    requires { vec_len numbers.old < vec_capacity numbers.old }
    ensures items { numbers.new.items ≡ with_number number numbers.old.items }
    ensures few { IsFew numbers.new.items }
{
    forget_number(numbers, number.node);
    put_first(numbers, number);
}

fn is_at(inside: &[u8], seat: &SeatGiven) -> bool
    ensures { result ≡ is_at inside.now seat.now }
{
    seat.inside.as_slice() == inside
}

fn forget_seats(seats: &mut Vec<SeatGiven>, inside: &[u8])
    ensures items { seats.new.items ≡ other_seats inside.now seats.old.items }
    ensures few { vec_len seats.new ≤ vec_len seats.old }
    ensures capacity { vec_capacity seats.new ≡ vec_capacity seats.old }
{
    seats.retain(|other| !is_at(inside, other));
}

// Keeps that a number was given, in place of the last one at that address. There is room for it.
pub(crate) fn put_seat(seats: &mut Vec<SeatGiven>, seat: SeatGiven)
    requires { vec_len seats.old < vec_capacity seats.old }
    ensures items { seats.new.items ≡ with_seat seat seats.old.items }
    ensures few { IsFew seats.new.items }
{
    forget_seats(seats, seat.inside.as_slice());
    put_first(seats, seat);
}

// Whether the number that was given so is another process's.
fn is_lost_to(node: NodeId, ticket: Ticket, seat: &SeatGiven) -> bool
    ensures { result ≡ is_lost_to node ticket seat.now }
{
    seat.node.0 == node.0 && seat.ticket != ticket
}

// Of those to whom a number was given that is another process's it is forgotten.
pub(crate) fn forget_lost(seats: &mut Vec<SeatGiven>, node: NodeId, ticket: Ticket)
    ensures items { seats.new.items ≡ still_theirs node ticket seats.old.items }
    ensures few { length seats.new.items ≤ length seats.old.items }
{
    seats.retain(|seat| !is_lost_to(node, ticket, seat));
}

// Whether a number was given there in the last ten minutes, to another process.
pub(crate) fn lately_at(now: u64, inside: &[u8], ticket: Ticket, seat: &SeatGiven) -> bool
    ensures { result ≡ lately_at now inside.now ticket seat.now }
{
    is_at(inside, seat) && seat.ticket != ticket && age(now, seat.at) < IN_VAIN_FOR
}

fn is_ready_state(state: NodeState) -> bool
    ensures { result ≡ is_ready_state state }
{
    matches!(state, NodeState::Ready)
}

// Of a process that became ready it is forgotten that it was given a number.
pub(crate) fn forget_if_ready(seats: &mut Vec<SeatGiven>, report: &Report)
    ensures items { seats.new.items ≡ still_in_vain report.now seats.old.items }
    ensures few { length seats.new.items ≤ length seats.old.items }
{
    if is_ready_state(report.state) {
        forget_seats(seats, report.inside.as_slice());
    }
}

// When a process told last that its node is ready.
pub(crate) fn last_ready(now: u64, report: &Report, before: u64) -> u64
    ensures { result ≡ last_ready now report.now before }
{
    let is_ready = is_ready_state(report.state);
    if is_ready { now } else { before }
}

// The most records that each manager told.
pub(crate) fn most_told(most: [u64; 9], report: &Report) -> [u64; 9]
    ensures { result ≡ most_told report.now.manager report.now.records most }
{
    let Some(place) = report.manager else {
        return most;
    };
    let place = usize::from(place);
    if MANAGERS <= place {
        return most;
    }
    let mut told = most;
    told[place] = most[place].max(report.records);
    told
}

fn find_number(numbers: &[NumberKept], node: NodeId) -> Option<&NumberKept>
    ensures { option_copied result ≡ find (is_number node) numbers.now }
{
    numbers.iter().find(|number| number.node.0 == node.0)
}

// What is kept of a number.
pub(crate) fn number_of(numbers: &[NumberKept], node: NodeId) -> NumberKept
    ensures { result ≡ number_of node numbers.now }
{
    match find_number(numbers, node) {
        Some(number) => *number,
        None => NumberKept {
            node,
            bound: None,
            asks: [None; 8],
        },
    }
}

impl Proposed {
    // One proposal more.
    pub(crate) fn again(&self, now: u64, epoch: u64) -> Proposed
        ensures { result ≡ proposed_again now epoch self.now }
    {
        let count = if self.epoch == epoch {
            self.count.saturating_add(1)
        } else {
            1
        };
        Proposed {
            epoch,
            count,
            at: now,
        }
    }
}
