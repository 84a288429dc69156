//! How a manager is founded and opens.

ghost use Rattle.std.specs.Prelude.{◌≡◌, ◌≤◌, [], ◌++◌, map, length, IfOk, OnErr};
ghost use Rattle.std.specs.Option.{option_copied};
ghost use Rattle.hk_base.specs.declared.time.TheConstants.{MAX_TIME};
ghost use Rattle.hk_stage.specs.declared.event.StageEvent.TheVariants as event;
ghost use Rattle.hk_stage.specs.Opening.{stepped};
ghost use Rattle.hk_office.specs.Founding.{founder_of, fits, refusal_of, still_waits, tickets_shown, state_of, stage_answer, founding_logged, opening_logged, settled};
ghost use Rattle.hk_office.specs.Steps.{moved, founded, found_step, looked, found, passed, board_heard, ticked};

use crate::answer::{OfficeAnswer, OfficeStep, refused};
use crate::office::Office;
use crate::refusal::OfficeRefusal;
use crate::stages::{number_of, stage_heard, stage_told};
use hk_base::{Memory, Sequence};
use hk_fields::{FoundingHosts, TICKET_LEN, Ticket};
use hk_inside::{Board, HostTickets, ManagerState, NodeState};
use hk_log::{Entry, Founding, Record};
use hk_reports::{Came, Reports};
use hk_roll::{Founder, Roll};
use hk_stage::{OpeningStep, Stage, StageAnswer, StageEvent, StageRefusal};
use std::alloc::Global;

// The ticket of no process.
const NO_TICKET: Ticket = Ticket([0; TICKET_LEN]);

fn founder_of(host: HostTickets) -> Founder
    ensures { result ≡ founder_of host }
{
    let node = if host.node == NO_TICKET {
        None
    } else {
        Some(host.node)
    };
    Founder {
        manager: host.manager,
        node,
    }
}

/// With whom a roll is founded.
pub fn founders_of(alloc: Global, hosts: &[HostTickets]) -> Result<Vec<Founder>, Memory>
    ensures { IfOk result (λ founders. founders.items ≡ map founder_of hosts.now) }
{
    let mut founders = Vec::new(alloc);
    for host in hosts {
        founders.push(founder_of(*host))?;
    }
    Ok(founders)
}

fn hosts_logged(alloc: Global, hosts: &[HostTickets]) -> Result<FoundingHosts, Memory>
    ensures { IfOk result (λ logged. logged ≡ hosts.now) }
{
    let hosts = hosts.to_vec(alloc)?;
    Ok(Sequence::from_vec(hosts))
}

fn refusal_of(refusal: StageRefusal) -> OfficeRefusal
    ensures { result ≡ refusal_of refusal }
{
    match refusal {
        StageRefusal::Lives(founding) => OfficeRefusal::Lives(founding),
        StageRefusal::Wait => OfficeRefusal::Wait,
        StageRefusal::AnotherInit => OfficeRefusal::AnotherInit,
    }
}

// Whether the node of the process that reported so has no number yet. Before its first report it has none.
fn still_waits(came: Option<&Came>) -> bool
    ensures { result ≡ still_waits (option_copied came.entry) }
{
    match came {
        Some(came) => matches!(came.report.state, NodeState::Waiting),
        None => true,
    }
}

// That the group was opened, if it was.
fn opening_logged(alloc: Global, opened: bool) -> Result<Record, Memory>
    ensures { IfOk result (λ logged. logged ≡ opening_logged opened) }
{
    let mut logged = Sequence::new(alloc);
    if opened {
        logged.push(Entry::Open)?;
    }
    Ok(logged)
}

impl Office {
    // The tickets of its host as one who looks is told.
    fn tickets_shown(&self) -> HostTickets
        ensures { result ≡ tickets_shown self.now }
    {
        let node = if still_waits(self.reports.last(self.tickets.node)) {
            self.tickets.node
        } else {
            NO_TICKET
        };
        HostTickets {
            manager: self.tickets.manager,
            node,
        }
    }

    fn state_of(&self, stage: Stage) -> ManagerState
        ensures { result ≡ state_of self.now stage }
    {
        ManagerState {
            founding: number_of(stage),
            stage: stage_told(stage),
            place: self.terms.place,
            tickets: self.tickets_shown(),
            lease: self.terms.lease,
            skew: self.terms.skew,
        }
    }

    // What `init` is answered.
    fn stage_answer(&self, answer: Option<StageAnswer>) -> OfficeAnswer
        ensures { result ≡ stage_answer self.now answer }
    {
        match answer {
            Some(StageAnswer::State(stage)) => OfficeAnswer::State(self.state_of(stage)),
            Some(StageAnswer::Yes) => OfficeAnswer::Yes,
            Some(StageAnswer::No(refusal)) => OfficeAnswer::No(refusal_of(refusal)),
            None => OfficeAnswer::No(OfficeRefusal::Wait),
        }
    }

    // It stands as the step has it. Where it opens, what it hears counts from now.
    fn settle(&mut self, alloc: Global, now: u64, step: &OpeningStep)
        ensures { self.new ≡ settled self.old now step.now }
    {
        self.opening = step.opening;
        if step.logged.opened {
            self.reports = Reports::new(alloc, now);
        }
    }

    // A step that founds nothing.
    fn take_step(
        &mut self,
        alloc: Global,
        now: u64,
        step: &OpeningStep,
    ) -> Result<OfficeStep, Memory>
        ensures ok { IfOk result (λ made. (made, self.new) ≡ moved self.old now step.now) }
        ensures err { OnErr result (self.new ≡ self.old) }
    {
        let answer = self.stage_answer(step.answer);
        let logged = opening_logged(alloc, step.logged.opened)?;
        self.settle(alloc, now, step);
        Ok(OfficeStep { answer, logged })
    }

    fn founding_logged(&self, number: u64, hosts: FoundingHosts) -> Entry
        ensures { result ≡ founding_logged self.now number hosts }
    {
        Entry::Founded(Founding {
            number,
            place: self.terms.place,
            lease: self.terms.lease,
            skew: self.terms.skew,
            hosts,
        })
    }

    // A step by which it is founded with these hosts.
    fn take_founding(
        &mut self,
        alloc: Global,
        now: u64,
        number: u64,
        hosts: &[HostTickets],
        step: &OpeningStep,
    ) -> Result<OfficeStep, Memory>
        requires { length hosts.now ≤ 9 }
        ensures ok { IfOk result (λ made. (made, self.new) ≡ founded self.old now number hosts.now step.now) }
        ensures err { OnErr result (self.new ≡ self.old) }
    {
        let answer = self.stage_answer(step.answer);
        let hosts = hosts_logged(alloc, hosts)?;
        let founders = founders_of(alloc, hosts.as_slice())?;
        let roll = Roll::found(alloc, &founders)?;
        let mut logged = Sequence::new(alloc);
        logged.push(self.founding_logged(number, hosts))?;
        if step.logged.opened {
            logged.push(Entry::Open)?;
        }
        self.roll = roll;
        self.settle(alloc, now, step);
        Ok(OfficeStep { answer, logged })
    }

    // Whether these are as many hosts as there are managers, and name this process as the manager of its place.
    fn fits(&self, hosts: &[HostTickets]) -> bool
        ensures { result ≡ fits self.now hosts.now }
    {
        match hosts.get(usize::from(self.terms.place)) {
            Some(host) => {
                hosts.len() == usize::from(self.terms.managers)
                    && host.manager == self.tickets.manager
            }
            None => false,
        }
    }

    // LOOK.
    pub(crate) fn look(
        &mut self,
        alloc: Global,
        now: u64,
        founding: u64,
    ) -> Result<OfficeStep, Memory>
        requires time { now ≤ MAX_TIME }
        ensures ok { IfOk result (λ made. (made, self.new) ≡ looked self.old now founding) }
        ensures err { OnErr result (self.new ≡ self.old) }
    {
        let step = self.opening.step(now, StageEvent::Look(founding));
        self.take_step(alloc, now, &step)
    }

    // FOUND.
    pub(crate) fn found(
        &mut self,
        alloc: Global,
        now: u64,
        founding: u64,
        hosts: &[HostTickets],
    ) -> Result<OfficeStep, Memory>
        requires time { now ≤ MAX_TIME }
        requires few { length hosts.now ≤ 9 }
        ensures ok { IfOk result (λ made. (made, self.new) ≡ found self.old now founding hosts.now) }
        ensures err { OnErr result (self.new ≡ self.old) }
    {
        if !self.fits(hosts) {
            return Ok(refused(alloc, OfficeRefusal::Wait));
        }
        let step = self.opening.step(now, StageEvent::Found(founding));
        match step.logged.founded {
            Some(number) => self.take_founding(alloc, now, number, hosts, &step),
            None => self.take_step(alloc, now, &step),
        }
    }

    fn take_event(&mut self, alloc: Global, now: u64, event: StageEvent) -> Result<Record, Memory>
        requires time { now ≤ MAX_TIME }
        ensures ok { IfOk result (λ logged. (logged, self.new) ≡ passed self.old now event) }
        ensures err { OnErr result (self.new ≡ self.old) }
    {
        let step = self.opening.step(now, event);
        let logged = opening_logged(alloc, step.logged.opened)?;
        self.settle(alloc, now, &step);
        Ok(logged)
    }

    /// The board of the manager of another place came, which was asked for at the reading `asked`. What is given has
    /// to be sure in the log before anything else is told.
    pub fn hear_board(
        &mut self,
        alloc: Global,
        now: u64,
        place: u8,
        asked: u64,
        board: &Board,
    ) -> Result<Record, Memory>
        requires time { now ≤ MAX_TIME }
        ensures ok { IfOk result (λ logged. (logged, self.new) ≡ board_heard self.old now place asked board.now) }
        ensures err { OnErr result (self.new ≡ self.old) }
    {
        let board = hk_stage::Board {
            from: place,
            stage: stage_heard(board),
            asked,
        };
        self.take_event(alloc, now, StageEvent::Told(board))
    }

    /// Time goes by. So a group of one host opens.
    pub fn tick(&mut self, alloc: Global, now: u64) -> Result<Record, Memory>
        requires time { now ≤ MAX_TIME }
        ensures ok { IfOk result (λ logged. (logged, self.new) ≡ ticked self.old now) }
        ensures err { OnErr result (self.new ≡ self.old) }
    {
        self.take_event(alloc, now, StageEvent::Tick)
    }
}
