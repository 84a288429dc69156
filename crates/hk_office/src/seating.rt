//! Who gets which number.

ghost use Rattle.std.specs.Prelude.{◌≡◌, ◌<◌, ◌≤◌, length, IfOk, OnOk, OnErr};
ghost use Rattle.std.specs.List.{filter};
ghost use Rattle.hk_reports.specs.Reports.{asked};
ghost use Rattle.hk_office.specs.Seating.{is_bound, heard_of, in_vain, seating_of, roll_answer, binding_logged, bound_noted, binding_taken, seat_noted, binding_noted, given_noted, seat_given, number_claimed};

use crate::answer::{OfficeAnswer, OfficeStep, answered};
use crate::numbers::numbers;
use crate::office::Office;
use crate::refusal::OfficeRefusal;
use hk_base::{Actor, Memory, NodeId, Sequence, View};
use hk_fields::Ticket;
use hk_keeper::Heard;
use hk_log::{Entry, Record};
use hk_reports::Came;
use hk_roll::{Binding, RollAnswer, RollRefusal, RollStep, Seating};
use std::alloc::Global;

fn roll_answer(answer: RollAnswer) -> OfficeAnswer
    ensures { result ≡ roll_answer answer }
{
    match answer {
        RollAnswer::Seated(node) => OfficeAnswer::Seated(node),
        RollAnswer::Yes => OfficeAnswer::Yes,
        RollAnswer::No(RollRefusal::Taken(number)) => {
            OfficeAnswer::No(OfficeRefusal::Taken(number))
        }
        RollAnswer::No(RollRefusal::Wait) => OfficeAnswer::No(OfficeRefusal::Wait),
    }
}

fn binding_logged(alloc: Global, binding: Binding) -> Result<Record, Memory>
    ensures { IfOk result (λ logged. logged ≡ binding_logged binding) }
{
    let mut logged = Sequence::new(alloc);
    logged.push(Entry::Bound {
        actor: binding.actor,
        ticket: binding.ticket,
    })?;
    Ok(logged)
}

impl Office {
    fn is_bound(&self, node: NodeId) -> bool
        ensures { result ≡ is_bound self.now node }
    {
        self.roll.bound(Actor::Node(node)).is_some()
    }

    fn keep_bound(&self, nodes: &mut Vec<NodeId>)
        ensures { nodes.new.items ≡ filter (is_bound self.now) nodes.old.items }
    {
        nodes.retain(|node| self.is_bound(*node));
    }

    // What a keeper makes its wishes of.
    #[tactic(auto, unfolding(crate::specs::Seating::heard_of))]
    pub(crate) fn heard(&self, alloc: Global, now: u64, views: &[View]) -> Result<Heard, Memory>
        ensures exact { IfOk result (λ heard. heard ≡ heard_of self.now now views.now) }
        ensures few { IfOk result (λ heard. length heard.managers ≤ 9) }
    {
        let mut bound = numbers(alloc, views)?;
        self.keep_bound(&mut bound);
        let terms = &self.terms;
        self.reports.heard(
            alloc,
            now,
            terms.place,
            terms.managers,
            terms.lease,
            views,
            &bound,
        )
    }

    // Whether a number was given in vain to who was reached before where the process is. A process that told nothing yet has to
    // report first.
    fn in_vain(&self, now: u64, ticket: Ticket) -> bool
        ensures { result ≡ in_vain self.now now ticket }
    {
        match self.reports.last(ticket) {
            Some(came) => self
                .reports
                .was_lately_in_vain(now, came.report.inside.as_slice(), ticket),
            None => true,
        }
    }

    fn seating(
        &self,
        alloc: Global,
        now: u64,
        views: &[View],
        ticket: Ticket,
    ) -> Result<Seating, Memory>
        ensures { IfOk result (λ seating. seating ≡ seating_of self.now now views.now ticket) }
    {
        let heard = self.heard(alloc, now, views)?;
        Ok(Seating {
            majority_up: heard.majority_up(),
            member_ready: heard.each_has_ready(),
            lately_in_vain: self.in_vain(now, ticket),
        })
    }

    /// A node asked a core of this manager for a lease, of the view of this epoch.
    pub fn note_ask(&mut self, now: u64, shard: u8, node: NodeId, epoch: u64) -> Result<(), Memory>
        requires { shard < 8 }
        ensures ok { OnOk result (self.new ≡ record self.old { reports = asked now shard node epoch self.old.reports }) }
        ensures err { OnErr result (self.new ≡ self.old) }
    {
        self.reports.note_ask(now, shard, node, epoch)
    }

    fn note_bound(&mut self, now: u64, binding: Binding) -> Result<(), Memory>
        ensures ok { OnOk result (self.new ≡ record self.old { reports = bound_noted now binding.actor binding.ticket self.old.reports }) }
        ensures err { OnErr result (self.new ≡ self.old) }
    {
        match binding.actor {
            Actor::Node(node) => self.reports.note_bound(now, node, binding.ticket),
            Actor::Manager(_) => Ok(()),
        }
    }

    // Takes the binding of a step, if there is one.
    fn take_binding(
        &mut self,
        alloc: Global,
        now: u64,
        step: RollStep,
    ) -> Result<OfficeStep, Memory>
        ensures ok { IfOk result (λ made. (made, self.new) ≡ binding_taken self.old now step) }
        ensures err { OnErr result (self.new ≡ record self.old { reports = self.new.reports }) }
    {
        let answer = roll_answer(step.answer);
        match step.logged {
            Some(binding) => {
                let logged = binding_logged(alloc, binding)?;
                self.note_bound(now, binding)?;
                self.roll.bind(binding)?;
                Ok(OfficeStep { answer, logged })
            }
            None => Ok(answered(alloc, answer)),
        }
    }

    // Notes that the process was given this number.
    fn note_seat(
        &mut self,
        alloc: Global,
        now: u64,
        node: NodeId,
        ticket: Ticket,
    ) -> Result<(), Memory>
        ensures ok { OnOk result (self.new ≡ seat_noted self.old now node ticket) }
        ensures err { OnErr result (self.new ≡ self.old) }
    {
        match self.reports.last(ticket) {
            Some(came) => {
                let inside = came.report.inside.as_slice().to_vec(alloc)?;
                self.reports.note_seated(alloc, now, node, ticket, &inside)
            }
            None => Ok(()),
        }
    }

    // Notes to whom a number is given that is bound so.
    fn note_seated(&mut self, alloc: Global, now: u64, binding: Binding) -> Result<(), Memory>
        ensures ok { OnOk result (self.new ≡ binding_noted self.old now binding.actor binding.ticket) }
        ensures err { OnErr result (self.new ≡ self.old) }
    {
        match binding.actor {
            Actor::Node(node) => self.note_seat(alloc, now, node, binding.ticket),
            Actor::Manager(_) => Ok(()),
        }
    }

    // Notes to whom the number is given that a step binds.
    fn note_given(&mut self, alloc: Global, now: u64, given: Option<Binding>) -> Result<(), Memory>
        ensures ok { OnOk result (self.new ≡ given_noted given self.old now) }
        ensures err { OnErr result (self.new ≡ self.old) }
    {
        match given {
            Some(binding) => self.note_seated(alloc, now, binding),
            None => Ok(()),
        }
    }

    // SEAT.
    pub(crate) fn seat(
        &mut self,
        alloc: Global,
        now: u64,
        views: &[View],
        ticket: Ticket,
    ) -> Result<OfficeStep, Memory>
        ensures ok { IfOk result (λ made. (made, self.new) ≡ seat_given self.old now views.now ticket) }
        ensures err { OnErr result (self.new ≡ record self.old { reports = self.new.reports }) }
    {
        let seating = self.seating(alloc, now, views, ticket)?;
        let step = self.roll.seat(views, seating, ticket);
        self.note_given(alloc, now, step.logged)?;
        self.take_binding(alloc, now, step)
    }

    // CLAIM.
    pub(crate) fn claim(
        &mut self,
        alloc: Global,
        now: u64,
        views: &[View],
        told: &[Option<Ticket>],
        node: NodeId,
        ticket: Ticket,
    ) -> Result<OfficeStep, Memory>
        ensures ok { IfOk result (λ made. (made, self.new) ≡ number_claimed self.old now views.now told.now node ticket) }
        ensures err { OnErr result (self.new ≡ record self.old { reports = self.new.reports }) }
    {
        let step = self.roll.claim(views, told, node, ticket);
        self.take_binding(alloc, now, step)
    }
}
