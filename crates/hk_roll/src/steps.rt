//! What SEAT and CLAIM come to.

ghost use Rattle.std.specs.Prelude.{◌≡◌};
ghost use Rattle.hk_roll.specs.Steps.{answered, refused, binds, holder, names_another, unbindable, claimed, may_seat, seat_at, seated};

use crate::answer::{RollAnswer, RollRefusal, RollStep};
use crate::binding::Binding;
use crate::boards::{named, names};
use crate::numbers::{have_room, is_over, is_past, may_bind, next_number};
use crate::roll::Roll;
use hk_base::{Actor, NodeId, View};
use hk_fields::Ticket;

/// What else stands for or against a newcomer, as the manager knows it.
#[derive(Clone, Copy, Debug, PartialEq, Eq)]
pub struct Seating {
    /// A majority of the managers is up.
    pub majority_up: bool,
    /// A member is ready, from which a newcomer can copy.
    pub member_ready: bool,
    /// In the last ten minutes a process at the asker's address was given a number and never became ready.
    pub lately_in_vain: bool,
}

fn answered(answer: RollAnswer) -> RollStep
    ensures { result ≡ answered answer }
{
    RollStep {
        answer,
        logged: None,
    }
}

fn refused(refusal: RollRefusal) -> RollStep
    ensures { result ≡ refused refusal }
{
    answered(RollAnswer::No(refusal))
}

fn binds(answer: RollAnswer, node: NodeId, ticket: Ticket) -> RollStep
    ensures { result ≡ binds answer node ticket }
{
    RollStep {
        answer,
        logged: Some(Binding {
            actor: Actor::Node(node),
            ticket,
        }),
    }
}

// Who holds a number, as a manager knows it by its roll and by a majority's boards.
fn holder(own: Option<Ticket>, named: Option<Ticket>) -> Option<Ticket>
    ensures { result ≡ holder own named }
{
    match named {
        Some(ticket) => Some(ticket),
        None => own,
    }
}

fn names_another(ticket: Ticket, told: Option<Ticket>) -> bool
    ensures { result ≡ names_another ticket told }
{
    told.is_some() && !names(ticket, told)
}

// Why a number that nobody else holds is not bound.
fn unbindable(views: &[View], node: NodeId) -> RollRefusal
    ensures { result ≡ unbindable views.now node }
{
    if is_past(views, node) {
        RollRefusal::Taken(node.0)
    } else {
        RollRefusal::Wait
    }
}

impl Seating {
    fn may_seat(self, views: &[View]) -> bool
        ensures { result ≡ may_seat self views.now }
    {
        self.majority_up && self.member_ready && have_room(views)
    }
}

impl Roll {
    fn seat_at(&self, node: NodeId, seating: Seating, ticket: Ticket) -> RollStep
        ensures { result ≡ seat_at self.now node seating ticket }
    {
        match self.bound(Actor::Node(node)) {
            Some(other) => {
                if names(ticket, Some(other)) {
                    answered(RollAnswer::Seated(node))
                } else {
                    refused(RollRefusal::Wait)
                }
            }
            None => {
                if seating.lately_in_vain {
                    refused(RollRefusal::Wait)
                } else {
                    binds(RollAnswer::Seated(node), node, ticket)
                }
            }
        }
    }

    /// SEAT: a process that has no number wants one. `views` are those of the eight shards that this manager holds.
    ///
    /// It is seated with the number that all shards give next, where that is unbound or its own, a majority is up, a member is ready and there is room; else it
    /// has to wait.
    pub fn seat(&self, views: &[View], seating: Seating, ticket: Ticket) -> RollStep
        ensures { result ≡ seated self.now views.now seating ticket }
    {
        if !seating.may_seat(views) {
            return refused(RollRefusal::Wait);
        }
        match next_number(views) {
            Some(node) => self.seat_at(node, seating, ticket),
            None => refused(RollRefusal::Wait),
        }
    }

    /// CLAIM: a process tells that this number is its own. `views` are those of the eight shards that this manager holds, and `told` is what the last board of
    /// each manager told of the number, by their places: the ticket to which it is bound there, or nothing, also where no board came.
    ///
    /// It is taken, whoever asks, where the views of all shards are past it and none has its node. Else YES comes where the number is bound to the process
    /// already, and where nobody else holds it and it may be bound. It is taken where a majority's boards name another ticket, where this manager has bound it to
    /// another one and no majority names the asker's, and where its node is out of a view; else, while some shards alone have given it, the process has to wait.
    pub fn claim(
        &self,
        views: &[View],
        told: &[Option<Ticket>],
        node: NodeId,
        ticket: Ticket,
    ) -> RollStep
        ensures { result ≡ claimed self.now views.now told.now node ticket }
    {
        if is_over(views, node) {
            return refused(RollRefusal::Taken(node.0));
        }
        let own = self.bound(Actor::Node(node));
        if names(ticket, own) {
            return answered(RollAnswer::Yes);
        }
        if names_another(ticket, holder(own, named(told))) {
            return refused(RollRefusal::Taken(node.0));
        }
        if may_bind(views, node) {
            binds(RollAnswer::Yes, node, ticket)
        } else {
            refused(unbindable(views, node))
        }
    }
}
