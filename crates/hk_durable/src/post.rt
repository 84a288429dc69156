//! Managers with their links and their log.

ghost use Rattle.std.specs.Prelude.{◌≡◌, ◌≤◌, ◌++◌, ◌∷◌, ℕ, List, [], length, OnOk, OnErr};
ghost use Rattle.std.specs.List.{AllByRecursion};
ghost use Rattle.hk_log.specs.declared.entry.Entry.{Entry};
ghost use Rattle.hk_log.specs.Entries.{IsEntryInRange};
ghost use Rattle.hk_disk.specs.Writing.{IsSureLog};
ghost use Rattle.hk_durable.specs.Batches.{IsNote, IsUnsaid, at_rest};
ghost use Rattle.hk_durable.specs.Turns.{PostState, AreTaken, AllAreSent, recorded, records_behind, IsGathered, IsTurn, IsHeldUp};

use crate::batch::{Batch, Intent};
use crate::late::LateClock;
use crate::managers::Managers;
use hk_base::{Actor, Letters, MAX_TIME, Memory};
use hk_disk::{AppendFault, LogFile, LogWriter};
use hk_link::{Inlet, Outlet, Parcel};
use hk_log::Entry;
use hk_overseer::{Outlets, ring_all, send_all};
use std::alloc::Global;
use std::sync::Wait;

/// So many parcels are taken at most in one turn.
pub const MOST_PARCELS: usize = 64;

/// The managers of one number, the inlet from which their letters come, the outlets by which theirs go, and the writer of their log.
#[derive(Drop)]
pub struct DurablePost<F: LogFile + Drop> {
    batch: Batch,
    inlet: Inlet,
    outlets: Vec<(Actor, Outlet)>,
    writer: LogWriter<F>,
    // How many records it has appended.
    records: u64,
}

// All parcels that are there, 64 at most. Where memory is wanting, fewer are taken.
fn take_parcels<R: Wait>(rt: &R, alloc: Global, inlet: &mut Inlet) -> Vec<Parcel>
    ensures taken { AreTaken result.items inlet.old inlet.new }
    ensures most { length result.items ≤ MOST_PARCELS }
{
    let mut parcels = Vec::new(alloc);
    for _taken in 0..MOST_PARCELS {
        if parcels.reserve(1).is_err() {
            break;
        }
        let Some(parcel) = inlet.take(rt) else {
            break;
        };
        parcels.push_reserved(parcel);
    }
    parcels
}

// Sends the letters of all these steps.
fn send_unsaid<R: Wait>(rt: &R, outlets: &mut Vec<(Actor, Outlet)>, unsaid: Vec<(u8, Letters)>)
    requires { AllByRecursion IsUnsaid unsaid.items }
    ensures { AllAreSent unsaid.items outlets.old.items outlets.new.items }
{
    for (shard, letters) in unsaid {
        send_all(rt, outlets, shard, letters);
    }
    ring_all(rt, outlets.as_slice());
}

impl<F: LogFile + Drop> DurablePost<F> {
    /// The post of these managers, at whose log nothing waits.
    pub fn new(
        alloc: Global,
        managers: Managers,
        inlet: Inlet,
        outlets: Outlets,
        writer: LogWriter<F>,
    ) -> DurablePost<F>
        ensures batch { result.batch ≡ at_rest managers }
        ensures inlet { result.inlet ≡ inlet }
        ensures outlets { result.outlets.items ≡ outlets }
        ensures writer { result.writer ≡ writer }
    {
        DurablePost {
            batch: Batch::new(alloc, managers),
            inlet,
            outlets: outlets.into_vec(),
            writer,
            records: 0,
        }
    }

    /// The managers, as they are behind all steps that were made.
    pub fn managers(&self) -> &Managers
        ensures { result.now ≡ self.now.batch.managers }
    {
        self.batch.managers()
    }

    /// How many records this post has appended to its log.
    pub fn records(&self) -> u64
        ensures { result ≡ self.now.records }
    {
        self.records
    }

    /// From now on its letters go by these outlets. What earlier turns sent was rung for.
    pub fn lead(&mut self, outlets: Outlets)
        ensures outlets { self.new.outlets.items ≡ outlets }
        ensures batch { self.new.batch ≡ self.old.batch }
        ensures inlet { self.new.inlet ≡ self.old.inlet }
        ensures writer { self.new.writer ≡ self.old.writer }
        ensures records { self.new.records ≡ self.old.records }
    {
        self.outlets = outlets.into_vec();
    }

    /// Notes what the next turn logs beside its steps: that the group was founded, or opened, or that a number was bound. Once a turn answers it is sure, and it
    /// stands before the steps of that turn: those that still wait for their record alone stand before it. Who notes a founding owes managers that made no
    /// step yet, since what stands before it is of an earlier group. After `Memory` nothing is noted.
    pub fn note(&mut self, note: Entry) -> Result<(), Memory>
        requires range { IsEntryInRange note }
        requires note { IsNote note }
        ensures noted { OnOk result (self.new.batch ≡ record self.old.batch { entries = self.old.batch.entries ++ note ∷ [] }) }
        ensures kept { OnErr result (self.new.batch ≡ self.old.batch) }
        ensures inlet { self.new.inlet ≡ self.old.inlet }
        ensures outlets { self.new.outlets ≡ self.old.outlets }
        ensures writer { self.new.writer ≡ self.old.writer }
    {
        self.batch.note(note)
    }

    // Takes parcels, reads the clock behind that, and makes their steps, and what is intended. Where steps wait, nothing is taken.
    fn gather<C: LateClock, R: Wait>(
        &mut self,
        rt: &R,
        alloc: Global,
        clock: &C,
        intents: &[Intent; 8],
    )
        ensures gathered { IsGathered (C.was_read clock.now) intents.now self.old.batch self.old.inlet self.new.batch self.new.inlet }
        ensures outlets { self.new.outlets ≡ self.old.outlets }
        ensures writer { self.new.writer ≡ self.old.writer }
    {
        if self.batch.has_steps() {
            return;
        }
        let parcels = take_parcels(rt, alloc, &mut self.inlet);
        let now = clock.read_behind(&parcels);
        self.batch.tick(alloc, now.min(MAX_TIME));
        self.batch.take_all(alloc, parcels);
        self.batch.fulfil_all(alloc, intents);
    }

    // Logs what of the batch is to be logged, if anything is.
    fn log(&mut self, alloc: Global) -> Result<(), AppendFault>
        ensures sure { OnOk result ((records : List (List Entry)) → IsSureLog F.holds F.is_sure self.old.writer.file self.old.writer.check.0 records → IsSureLog F.holds F.is_sure self.new.writer.file self.new.writer.check.0 (recorded self.old.batch.entries records)) }
        ensures forgot { OnOk result (self.new.batch ≡ record self.old.batch { entries = [] }) }
        ensures counts { OnOk result (self.new.records ≡ records_behind self.old.batch.entries self.old.records) }
        ensures inlet { self.new.inlet ≡ self.old.inlet }
        ensures outlets { self.new.outlets ≡ self.old.outlets }
        ensures waits { OnErr result (self.new.batch ≡ self.old.batch) }
    {
        if self.batch.entries().is_empty() {
            return Ok(());
        }
        self.writer.append(alloc, self.batch.entries())?;
        self.records = self.records.saturating_add(1);
        self.batch.forget_entries();
        Ok(())
    }

    // Sends the letters of the batch, of which all is logged.
    fn tell<R: Wait>(&mut self, rt: &R, alloc: Global)
        requires { self.old.batch.entries ≡ [] }
        ensures told { AllAreSent self.old.batch.unsaid self.old.outlets.items self.new.outlets.items }
        ensures batch { self.new.batch ≡ record self.old.batch { unsaid = [] } }
        ensures inlet { self.new.inlet ≡ self.old.inlet }
        ensures writer { self.new.writer ≡ self.old.writer }
    {
        let unsaid = self.batch.take_unsaid(alloc);
        send_unsaid(rt, &mut self.outlets, unsaid);
    }

    /// Makes a turn: takes what came, 64 parcels at most, reads the clock behind that, makes the steps of the parcels and what is intended, logs them behind what was
    /// noted, and tells the letters. Once it answers, all that is sure. An intent that its manager refuses is let go of. After `Memory` steps and notes wait, and the
    /// next turn takes the steps up before anything else; after every other fault they wait for good, and nobody hears of this manager any more.
    pub fn turn<C: LateClock, R: Wait>(
        &mut self,
        rt: &R,
        alloc: Global,
        clock: &C,
        intents: &[Intent; 8],
    ) -> Result<(), AppendFault>
        ensures made { OnOk result (IsTurn (C.was_read clock.now) F.holds F.is_sure intents.now (record { batch = self.old.batch; inlet = self.old.inlet; outlets = self.old.outlets.items; file = self.old.writer.file; check = self.old.writer.check.0 }) (record { batch = self.new.batch; inlet = self.new.inlet; outlets = self.new.outlets.items; file = self.new.writer.file; check = self.new.writer.check.0 })) }
        ensures held_up { OnErr result (IsHeldUp (C.was_read clock.now) intents.now (record { batch = self.old.batch; inlet = self.old.inlet; outlets = self.old.outlets.items; file = self.old.writer.file; check = self.old.writer.check.0 }) (record { batch = self.new.batch; inlet = self.new.inlet; outlets = self.new.outlets.items; file = self.new.writer.file; check = self.new.writer.check.0 })) }
    {
        self.gather(rt, alloc, clock, intents);
        self.log(alloc)?;
        self.tell(rt, alloc);
        Ok(())
    }
}
