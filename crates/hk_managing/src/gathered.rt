//! What a turn of a manager gathers: what has to be logged, and the answers that wait for that.

ghost use Rattle.std.specs.Prelude.{◌≡◌, ◌++◌, ◌≤◌, [], List, OnOk};
ghost use Rattle.hk_base.specs.declared.time.TheConstants.{MAX_TIME};
ghost use Rattle.hk_office.specs.Ranges.{HasFoundingInRange};
ghost use Rattle.hk_managing.specs.Turns.{StayTold};

use crate::cores::{Cores, Unlogged};
use hk_base::{Memory, Sequence, View};
use hk_boards::HeardBoard;
use hk_disk::LogFile;
use hk_durable::{Intent, LateClock};
use hk_fields::Ticket;
use hk_inside::{Inquiry, Response};
use hk_log::{Entry, Record};
use hk_office::{Acting, Office, OfficeAnswer, OfficeStep, offices_are_made_again};
use hk_shared_state::Slot;
use hk_status::print_status;
use std::alloc::Global;
use std::sync::{Arc, Wait};

/// An answer, and where it is to be left.
#[derive(Drop)]
struct Reply {
    slot: Arc<Slot>,
    response: Response,
}

/// Answers that rest on nothing that is not in the log. They come of [`Gathered::sure`] alone.
#[derive(Drop)]
pub struct Replies {
    replies: Vec<Reply>,
    // How many records the log took for that.
    records: u64,
}

/// What a turn has gathered: what has to be logged, and the answers that wait for that.
#[derive(Drop)]
pub struct Gathered {
    notes: Vec<Entry>,
    replies: Vec<Reply>,
}

/// What an office is asked by.
#[derive(Clone, Copy)]
pub struct Seen<'name, 'views, 'told> {
    /// The reading of the clock.
    pub now: u64,
    /// The name of the group.
    pub name: &'name [u8],
    /// The views that the cores hold.
    pub views: &'views [View],
    /// What boards told of the number that is claimed, by the places of managers.
    pub told: &'told [Option<Ticket>],
    /// Since when the manager acts.
    pub acting: Acting,
}

// How the group stands, as lines.
fn status_of(alloc: Global, office: &Office, seen: &Seen<'_, '_, '_>) -> Result<Response, Memory> {
    let status = office.status(alloc, seen.now, seen.name, seen.views, seen.acting)?;
    let text = print_status(alloc, &status)?;
    Ok(Response::Status(Sequence::from_vec(text)))
}

// The response that tells the answer.
fn response_of(
    alloc: Global,
    office: &Office,
    seen: &Seen<'_, '_, '_>,
    answer: OfficeAnswer,
) -> Result<Response, Memory> {
    match answer.into_response(alloc)? {
        Some(response) => Ok(response),
        None => status_of(alloc, office, seen),
    }
}

impl Gathered {
    /// Nothing is gathered yet.
    pub fn new(alloc: Global) -> Gathered
        ensures { result.notes.items ≡ [] }
    {
        Gathered {
            notes: Vec::new(alloc),
            replies: Vec::new(alloc),
        }
    }

    /// Whether there is anything to be logged.
    pub fn has_notes(&self) -> bool {
        !self.notes.is_empty()
    }

    // What a step of the office logs stands behind what was noted.
    fn note(&mut self, logged: Record) -> Result<(), Unlogged>
        ensures { OnOk result (self.new.notes.items ≡ self.old.notes.items ++ logged) }
    {
        let mut logged = logged.into_vec();
        match self.notes.append(&mut logged) {
            Ok(()) => Ok(()),
            Err(_) => Err(Unlogged),
        }
    }

    // Where memory is wanting, who asked is not answered.
    fn reply(&mut self, slot: Arc<Slot>, response: Result<Response, Memory>)
        ensures { self.new.notes.items ≡ self.old.notes.items }
    {
        if let Ok(response) = response {
            let _ = self.replies.push(Reply { slot, response });
        }
    }

    /// An inquiry came. What the office logs is noted, and its answer waits for that.
    pub fn ask(
        &mut self,
        alloc: Global,
        office: &mut Office,
        seen: &Seen<'_, '_, '_>,
        inquiry: Inquiry,
        slot: Arc<Slot>,
    ) -> Result<(), Unlogged>
        requires inquiry { HasFoundingInRange inquiry }
        requires time { seen.now.now ≤ MAX_TIME }
        ensures { OnOk result (StayTold office.old self.old.notes.items office.new self.new.notes.items) }
    {
        offices_are_made_again();
        let Ok(step) = office.answer(alloc, seen.now, seen.views, seen.told, inquiry) else {
            return Ok(());
        };
        let OfficeStep { answer, logged } = step;
        self.note(logged)?;
        self.reply(slot, response_of(alloc, office, seen, answer));
        Ok(())
    }

    /// The board of the manager of a place came.
    pub fn hear(
        &mut self,
        alloc: Global,
        office: &mut Office,
        now: u64,
        place: u8,
        heard: &HeardBoard,
    ) -> Result<(), Unlogged>
        requires { now ≤ MAX_TIME }
        ensures { OnOk result (StayTold office.old self.old.notes.items office.new self.new.notes.items) }
    {
        offices_are_made_again();
        let Ok(logged) = office.hear_board(alloc, now, place, heard.asked, &heard.board) else {
            return Ok(());
        };
        self.note(logged)
    }

    /// Time goes by.
    pub fn tick(&mut self, alloc: Global, office: &mut Office, now: u64) -> Result<(), Unlogged>
        requires { now ≤ MAX_TIME }
        ensures { OnOk result (StayTold office.old self.old.notes.items office.new self.new.notes.items) }
    {
        offices_are_made_again();
        let Ok(logged) = office.tick(alloc, now) else {
            return Ok(());
        };
        self.note(logged)
    }

    /// The log takes what was noted, and the cores make a turn behind that, with what is intended. Only where it is sure are there answers to leave.
    pub fn sure<F: LogFile + Drop, C: LateClock, R: Wait>(
        self,
        rt: &R,
        alloc: Global,
        clock: &C,
        cores: &mut Cores<F>,
        intents: &[Intent; 8],
    ) -> Result<Replies, Unlogged> {
        let Gathered { notes, replies } = self;
        let records = cores.log(rt, alloc, clock, notes, intents)?;
        Ok(Replies { replies, records })
    }
}

impl Replies {
    /// How many records the log took, 0 or 1.
    pub fn records(&self) -> u64 {
        self.records
    }

    /// Leaves each where it is waited for.
    pub fn leave<R: Wait>(self, rt: &R) {
        let Replies { replies, .. } = self;
        for Reply { slot, response } in replies {
            slot.leave(rt, response);
        }
    }
}
