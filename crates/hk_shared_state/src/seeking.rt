//! How a process comes to a number of its node, and when it is to end.

ghost use Rattle.std.specs.Prelude.{◌≡◌, true, slice_set, IfSome};
ghost use Rattle.std.specs.List.{count_by};
ghost use Rattle.hk_inside.specs.Messages.{IsInquiryInRange};
ghost use Rattle.hk_roll.specs.Boards.{names};
ghost use Rattle.hk_boards.specs.Managers.{manager};
ghost use Rattle.hk_shared_state.specs.Seeking.{by_places, founding_by, managers_noted, founding_noted, boards_noted, is_empty, has_manager, is_newcomer, ticket_at, claim, seat, asked_by_newcomer, asks_of, given_noted, is_given, is_refused, refusal_noted, is_holder, held, is_node_out, is_left_out};

use crate::identity::Identity;
use crate::standing::{Standing, is_place};
use hk_base::NodeId;
use hk_boards::Boards;
use hk_fields::Ticket;
use hk_inside::{Inquiry, Stage};

fn is_empty(stage: Stage) -> bool
    ensures { result ≡ is_empty stage }
{
    match stage {
        Stage::Empty => true,
        Stage::Founded => false,
        Stage::Open => false,
    }
}

// Whether just this ticket is named.
fn names(ticket: Ticket, named: Option<Ticket>) -> bool
    ensures { result ≡ names ticket named }
{
    match named {
        Some(other) => ticket == other,
        None => false,
    }
}

// Whether the manager of this place, if the process has one, is open or may come to be.
fn has_manager(place: Option<u8>, boards: &Boards) -> bool
    ensures { result ≡ has_manager place boards.now }
{
    match place {
        Some(place) => match boards.of(place) {
            Some(heard) => !is_empty(heard.board.stage),
            None => true,
        },
        None => false,
    }
}

// The managers that a majority's boards tell, by their places.
fn managers_of(boards: &Boards, founding: u64) -> [Option<Ticket>; 9]
    ensures { result ≡ by_places (λ place. manager founding place boards.now) }
{
    [
        boards.manager(founding, 0),
        boards.manager(founding, 1),
        boards.manager(founding, 2),
        boards.manager(founding, 3),
        boards.manager(founding, 4),
        boards.manager(founding, 5),
        boards.manager(founding, 6),
        boards.manager(founding, 7),
        boards.manager(founding, 8),
    ]
}

fn count_refused(refusals: &[bool; 9]) -> usize
    ensures { result ≡ count_by (λ refused. refused) refusals.now }
{
    refusals.iter().filter(|refused| **refused).count()
}

// The manager of this place refused too.
fn note_refused(refusals: &mut [bool; 9], place: u8)
    ensures { refusals.new ≡ slice_set refusals.old place true }
{
    let at = usize::from(place);
    if at < refusals.len() {
        refusals[at] = true;
    }
}

fn is_given(given: Option<NodeId>, node: NodeId) -> bool
    ensures { result ≡ is_given node given }
{
    match given {
        Some(given) => given == node,
        None => false,
    }
}

// Whether the managers that did not refuse are no majority of so many.
fn is_refused(managers: usize, refusals: &[bool; 9]) -> bool
    ensures { result ≡ is_refused managers refusals.now }
{
    managers.saturating_sub(count_refused(refusals)) <= managers / 2
}

fn founding_by(known: u64, told: u64) -> u64
    ensures { result ≡ founding_by known told }
{
    if known == 0 { told } else { known }
}

impl Standing {
    fn note_managers(&mut self, founding: u64)
        ensures { self.new ≡ managers_noted founding self.old }
    {
        self.founding = founding;
        self.managers = managers_of(&self.boards, founding);
    }

    // The founding with which a majority is open, if there is one.
    fn note_founding(&mut self, told: Option<u64>)
        ensures { self.new ≡ founding_noted told self.old }
    {
        match told {
            Some(founding) => self.note_managers(founding_by(self.founding, founding)),
            None => {}
        }
    }

    /// What its boards tell of the group, where its manager is not open: with which founding a majority is, and to whom it binds managers.
    pub fn note_boards(&mut self)
        ensures { self.new ≡ boards_noted self.old }
    {
        if self.manager.is_some() {
            return;
        }
        let told = self.boards.open_founding();
        self.note_founding(told);
    }

    /// Whether it is to ask for a number: its group is open, and it is no founder of it.
    pub fn is_newcomer(&self, identity: &Identity) -> bool
        ensures { result ≡ is_newcomer self.now identity.now }
    {
        self.founding != 0
            && !self.is_founder
            && self.node.is_none()
            && (self.manager.is_some() || !has_manager(identity.place, &self.boards))
    }

    // The ticket to which the manager of a place binds a number, by its last board.
    fn ticket_at(&self, place: u8, node: NodeId) -> Option<Ticket>
        ensures { result ≡ ticket_at self.now place node }
    {
        let told = self.boards.told_of(self.founding, node);
        match told.as_slice().get(usize::from(place)) {
            Some(ticket) => *ticket,
            None => None,
        }
    }

    // A claim at the manager of this place, where that does not bind the number to this process.
    fn claim(&self, identity: &Identity, place: u8, node: NodeId) -> Option<Inquiry>
        ensures exact { result ≡ claim self.now identity.now place node }
        ensures range { IfSome result IsInquiryInRange }
    {
        if names(identity.ticket, self.ticket_at(place, node)) {
            None
        } else {
            Some(Inquiry::Claim {
                node,
                ticket: identity.ticket,
            })
        }
    }

    // A number is asked for at the first manager that answers.
    fn seat(&self, identity: &Identity, place: u8, now: u64) -> Option<Inquiry>
        ensures exact { result ≡ seat self.now identity.now place now }
        ensures range { IfSome result IsInquiryInRange }
    {
        let asked = self.boards.least_heard(now, u64::from(identity.lease));
        if is_place(place, asked) {
            Some(Inquiry::Seat(identity.ticket))
        } else {
            None
        }
    }

    fn asks_as_newcomer(&self, identity: &Identity, place: u8, now: u64) -> Option<Inquiry>
        ensures exact { result ≡ asked_by_newcomer self.now.given self.now identity.now place now }
        ensures range { IfSome result IsInquiryInRange }
    {
        match self.given {
            Some(given) => self.claim(identity, place, given),
            None => self.seat(identity, place, now),
        }
    }

    /// What it asks the manager of a place beside its report, at this reading: for a number, of the first manager that answers, or to have bound the one that it was
    /// given, or that its node has.
    pub fn asks_of(&self, identity: &Identity, place: u8, now: u64) -> Option<Inquiry>
        ensures exact { result ≡ asks_of self.now identity.now place now }
        ensures range { IfSome result IsInquiryInRange }
    {
        match self.node {
            Some(node) => self.claim(identity, place, node),
            None => {
                if self.is_newcomer(identity) {
                    self.asks_as_newcomer(identity, place, now)
                } else {
                    None
                }
            }
        }
    }

    /// A manager gave it this number. It is passed over where it claims another one already.
    pub fn take_given(&mut self, node: NodeId)
        ensures { self.new ≡ given_noted node self.old }
    {
        if self.given.is_none() {
            self.given = Some(node);
            self.refusals = [false; 9];
        }
    }

    /// The manager of this place refused its claim of this number. Where the others are no majority it asks for a number anew. A late refusal, of a number that it
    /// claims no more, is passed over.
    pub fn note_refusal(&mut self, place: u8, node: NodeId)
        ensures { self.new ≡ refusal_noted node place self.old }
    {
        if self.node.is_some() || !is_given(self.given, node) {
            return;
        }
        let mut refusals = self.refusals;
        note_refused(&mut refusals, place);
        if is_refused(self.boards.managers(), &refusals) {
            self.given = None;
            self.refusals = [false; 9];
        } else {
            self.refusals = refusals;
        }
    }

    // Whether the boards of a majority bind the number to this process.
    pub(crate) fn is_holder(&self, identity: &Identity, node: NodeId) -> bool
        ensures { result ≡ is_holder self.now identity.now node }
    {
        names(identity.ticket, self.boards.holder(self.founding, node))
    }

    /// The number that it was given and holds: the boards of a majority bind it to this process.
    pub fn held(&self, identity: &Identity) -> Option<NodeId>
        ensures { result ≡ held self.now identity.now }
    {
        match self.given {
            Some(given) => {
                if self.is_holder(identity, given) {
                    Some(given)
                } else {
                    None
                }
            }
            None => None,
        }
    }

    fn is_node_out(&self, identity: &Identity) -> bool
        ensures { result ≡ is_node_out self.now.node self.now identity.now }
    {
        match self.node {
            Some(node) => self.boards.is_out(self.founding, node, identity.ticket),
            None => false,
        }
    }

    /// Whether the process is to end: a majority left its node out, or is open with another founding.
    pub fn is_left_out(&self, identity: &Identity) -> bool
        ensures { result ≡ is_left_out self.now identity.now }
    {
        self.founding != 0
            && (self.boards.has_another_founding(self.founding) || self.is_node_out(identity))
    }
}
