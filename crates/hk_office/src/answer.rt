//! What a manager answers.

ghost use Rattle.std.specs.Prelude.{◌≡◌, ◌≤◌, true, IfOk, OnErr};
ghost use Rattle.hk_base.specs.declared.time.TheConstants.{MAX_TIME};
ghost use Rattle.hk_office.specs.Ranges.{HasFoundingInRange};
ghost use Rattle.hk_office.specs.Answers.{answered, refused};
ghost use Rattle.hk_office.specs.Steps.{reported, if_open, inquired};
ghost use Rattle.hk_office.specs.Seating.{seat_given, number_claimed};
ghost use Rattle.hk_office.specs.Leaving.{left};

use crate::board::asker_of;
use crate::office::Office;
use crate::refusal::OfficeRefusal;
use hk_base::{Memory, NodeId, Sequence, View};
use hk_fields::Ticket;
use hk_inside::{Board, Inquiry, Leaver, ManagerState, Report};
use hk_log::Record;
use std::alloc::Global;

/// What a manager answers.
#[derive(Drop)]
pub enum OfficeAnswer {
    Board(Board),
    Seated(NodeId),
    State(ManagerState),
    /// It is to be told how the group stands.
    Status,
    Yes,
    No(OfficeRefusal),
}

/// What an inquiry comes to.
#[derive(Drop)]
pub struct OfficeStep {
    pub answer: OfficeAnswer,
    /// What has to be sure before the answer goes.
    pub logged: Record,
}

/// Nothing but an answer.
pub fn answered(alloc: Global, answer: OfficeAnswer) -> OfficeStep
    ensures { result ≡ answered answer }
{
    OfficeStep {
        answer,
        logged: Sequence::new(alloc),
    }
}

/// It refuses.
pub fn refused(alloc: Global, refusal: OfficeRefusal) -> OfficeStep
    ensures { result ≡ refused refusal }
{
    answered(alloc, OfficeAnswer::No(refusal))
}

/// Whether a founding that the inquiry asks for is not 0 and has 9 hosts at most, as every one that was read.
pub fn has_founding_in_range(inquiry: &Inquiry) -> bool
    ensures { result ≡ true → HasFoundingInRange inquiry.now }
{
    match inquiry {
        Inquiry::Found { founding, hosts } => 0 < *founding && hosts.as_slice().len() <= 9,
        _ => true,
    }
}

impl Office {
    // REPORT.
    fn take_report(
        &mut self,
        alloc: Global,
        now: u64,
        views: &[View],
        report: Report,
    ) -> Result<OfficeStep, Memory>
        ensures ok { IfOk result (λ made. (made, self.new) ≡ reported self.old now views.now report) }
        ensures err { OnErr result (self.new ≡ record self.old { reports = self.new.reports }) }
    {
        let asker = asker_of(&report);
        self.reports.take(now, report)?;
        let board = self.board(alloc, now, views, asker)?;
        Ok(answered(alloc, OfficeAnswer::Board(board)))
    }

    /// An inquiry came, at this reading of the clock. `views` are those of the eight shards that the cores of this
    /// manager hold, and none while it is not open. For CLAIM `told` is what the last boards of all managers, this
    /// one's too, told of the number, by places.
    ///
    /// What it gives to be logged has to be sure before the answer goes, and before anything else is told of this
    /// office. Where the log does not take it, nothing is told any more.
    pub fn answer(
        &mut self,
        alloc: Global,
        now: u64,
        views: &[View],
        told: &[Option<Ticket>],
        inquiry: Inquiry,
    ) -> Result<OfficeStep, Memory>
        requires inquiry { HasFoundingInRange inquiry }
        requires time { now ≤ MAX_TIME }
        ensures ok { IfOk result (λ made. (made, self.new) ≡ inquired self.old now views.now told.now inquiry) }
        ensures err { OnErr result (self.new ≡ record self.old { reports = self.new.reports }) }
    {
        match inquiry {
            Inquiry::Report(report) => self.take_report(alloc, now, views, report),
            Inquiry::Look { founding } => self.look(alloc, now, founding),
            Inquiry::Found { founding, hosts } => self.found(
                alloc,
                now,
                founding,
                hosts.as_slice(),
            ),
            Inquiry::Status => Ok(answered(alloc, OfficeAnswer::Status)),
            Inquiry::Seat(ticket) => self.seat_if_open(alloc, now, views, ticket),
            Inquiry::Claim { node, ticket } => {
                self.claim_if_open(alloc, now, views, told, node, ticket)
            }
            Inquiry::Leave(leaver) => self.leave_if_open(alloc, now, views, leaver),
        }
    }

    fn seat_if_open(
        &mut self,
        alloc: Global,
        now: u64,
        views: &[View],
        ticket: Ticket,
    ) -> Result<OfficeStep, Memory>
        ensures ok { IfOk result (λ made. (made, self.new) ≡ if_open self.old (seat_given self.old now views.now ticket)) }
        ensures err { OnErr result (self.new ≡ record self.old { reports = self.new.reports }) }
    {
        if self.takes_letters() {
            self.seat(alloc, now, views, ticket)
        } else {
            Ok(refused(alloc, OfficeRefusal::Wait))
        }
    }

    fn claim_if_open(
        &mut self,
        alloc: Global,
        now: u64,
        views: &[View],
        told: &[Option<Ticket>],
        node: NodeId,
        ticket: Ticket,
    ) -> Result<OfficeStep, Memory>
        ensures ok { IfOk result (λ made. (made, self.new) ≡ if_open self.old (number_claimed self.old now views.now told.now node ticket)) }
        ensures err { OnErr result (self.new ≡ record self.old { reports = self.new.reports }) }
    {
        if self.takes_letters() {
            self.claim(alloc, now, views, told, node, ticket)
        } else {
            Ok(refused(alloc, OfficeRefusal::Wait))
        }
    }

    fn leave_if_open(
        &mut self,
        alloc: Global,
        now: u64,
        views: &[View],
        leaver: Leaver,
    ) -> Result<OfficeStep, Memory>
        requires { now ≤ MAX_TIME }
        ensures ok { IfOk result (λ made. (made, self.new) ≡ if_open self.old (left self.old now views.now leaver)) }
        ensures err { OnErr result (self.new ≡ self.old) }
    {
        if self.takes_letters() {
            self.leave(alloc, now, views, leaver)
        } else {
            Ok(refused(alloc, OfficeRefusal::Wait))
        }
    }
}
