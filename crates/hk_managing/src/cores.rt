//! The cores of a manager, and its log.

ghost use Rattle.std.specs.Prelude.{◌≡◌, ◌<◌, ◌∷◌, ◌++◌, [], List, OnOk, IfOk, IfSome};
ghost use Rattle.std.specs.List.{slice_get};
ghost use Rattle.hk_log.specs.declared.entry.Entry.{Entry};
ghost use Rattle.hk_disk.specs.Writing.{IsSureLog};
ghost use Rattle.hk_durable.specs.Turns.{PostState, recorded, IsTurn};
ghost use Rattle.hk_manager.specs.Steps.{activates};
ghost use Rattle.hk_managing.specs.Turns.{all_noted, views_held};
ghost use Rattle.hk_managing.specs.Intending.{is_made, lets_begin, is_to_begin, begun_of, begun_in, begun_below};

use crate::notes::{are_notes, is_note};
use hk_base::{Memory, View};
use hk_disk::{LogFile, LogWriter};
use hk_durable::{DurablePost, Intent, LateClock, Managers};
use hk_link::Inlet;
use hk_log::Entry;
use hk_manager::{Manager, ManagerFault};
use hk_overseer::Outlets;
use std::alloc::Global;
use std::mem;
use std::sync::Wait;
use thiserror::Error;

/// The log did not take what the manager did, so nothing of it may be told: it is stopped for good.
#[derive(Clone, Copy, Debug, PartialEq, Eq, Error)]
#[error("the log can't be written")]
pub struct Unlogged;

/// The cores of a manager, and its log.
#[derive(Drop)]
pub enum Cores<F: LogFile + Drop> {
    /// The manager does not act yet. Its group is not open, where the cores hold the first view and made no step; or no majority of the managers has answered it
    /// since its process began. They take and send no letter.
    Shut {
        managers: Managers,
        inlet: Inlet,
        outlets: Outlets,
        writer: LogWriter<F>,
    },
    /// It acts.
    Open(DurablePost<F>),
    /// The manager is stopped for good: its log can't be written.
    Ended,
}

/// Nothing is intended in any shard.
pub const NOTHING: [Intent; 8] = [Intent::Nothing; 8];

// The log of a manager that does not act takes a record of these entries, if there are any. Gives how many records that makes.
fn log<F: LogFile + Drop>(
    alloc: Global,
    writer: &mut LogWriter<F>,
    notes: &[Entry],
) -> Result<u64, Unlogged>
    ensures { OnOk result ((records : List (List Entry)) → IsSureLog F.holds F.is_sure writer.old.file writer.old.check.0 records → IsSureLog F.holds F.is_sure writer.new.file writer.new.check.0 (recorded notes.now records)) }
{
    if notes.is_empty() {
        return Ok(0);
    }
    if !are_notes(notes) {
        return Err(Unlogged);
    }
    match writer.append(alloc, notes) {
        Ok(()) => Ok(1),
        Err(_) => Err(Unlogged),
    }
}

// One entry more waits for the next record of the cores.
fn note<F: LogFile + Drop>(post: &mut DurablePost<F>, entry: Entry) -> Result<(), Unlogged>
    ensures noted { OnOk result (post.new.batch ≡ all_noted post.old.batch (entry ∷ [])) }
    ensures inlet { post.new.inlet ≡ post.old.inlet }
    ensures outlets { post.new.outlets ≡ post.old.outlets }
    ensures writer { post.new.writer ≡ post.old.writer }
{
    if !is_note(&entry) {
        return Err(Unlogged);
    }
    match post.note(entry) {
        Ok(()) => Ok(()),
        Err(_) => Err(Unlogged),
    }
}

fn note_all<F: LogFile + Drop>(post: &mut DurablePost<F>, notes: Vec<Entry>) -> Result<(), Unlogged>
    ensures noted { OnOk result (post.new.batch ≡ all_noted post.old.batch notes.items) }
    ensures inlet { post.new.inlet ≡ post.old.inlet }
    ensures outlets { post.new.outlets ≡ post.old.outlets }
    ensures writer { post.new.writer ≡ post.old.writer }
{
    for entry in notes {
        note(post, entry)?;
    }
    Ok(())
}

// The cores take what came for them, and the log takes these entries in front of the steps that they make. Only then are their letters sent. Gives how
// many records that makes.
fn turn<F: LogFile + Drop, C: LateClock, R: Wait>(
    rt: &R,
    alloc: Global,
    clock: &C,
    post: &mut DurablePost<F>,
    notes: Vec<Entry>,
    intents: &[Intent; 8],
) -> Result<u64, Unlogged>
    ensures { OnOk result (IsTurn (C.was_read clock.now) F.holds F.is_sure intents.now (record { batch = all_noted post.old.batch notes.items; inlet = post.old.inlet; outlets = post.old.outlets.items; file = post.old.writer.file; check = post.old.writer.check.0 }) (record { batch = post.new.batch; inlet = post.new.inlet; outlets = post.new.outlets.items; file = post.new.writer.file; check = post.new.writer.check.0 })) }
{
    let before = post.records();
    note_all(post, notes)?;
    match post.turn(rt, alloc, clock, intents) {
        Ok(()) => Ok(post.records().saturating_sub(before)),
        Err(_) => Err(Unlogged),
    }
}

// The views that these cores hold, by their shards.
fn views_of(alloc: Global, managers: &Managers) -> Result<Vec<View>, Memory>
    ensures { IfOk result (λ views. views.items ≡ views_held managers.now) }
{
    let mut views = Vec::new(alloc);
    for shard in 0..8 {
        let view = managers.of(shard).held().copy(alloc)?;
        views.push(view)?;
    }
    Ok(views)
}

// Whether no lease may run that the manager granted outside the view that it holds.
fn is_free(alloc: Global, manager: &Manager) -> Result<bool, Memory>
    ensures { IfOk result (λ free. free ≡ is_made (activates manager.now)) }
{
    match manager.activate(alloc) {
        Ok(_) => Ok(true),
        Err(ManagerFault::Memory) => Err(Memory),
        Err(_) => Ok(false),
    }
}

// Whether the manager of a shard lets the view begin that it holds.
fn lets_begin(alloc: Global, managers: &Managers, shard: u8) -> Result<bool, Memory>
    requires { shard < 8 }
    ensures { IfOk result (λ begins. IfSome (slice_get managers.now shard) (λ manager. begins ≡ lets_begin manager)) }
{
    if managers.may_begin(shard) {
        is_free(alloc, managers.of(shard))
    } else {
        Ok(false)
    }
}

// Puts the view of a shard, if its manager lets it begin.
fn put_begun(
    alloc: Global,
    begun: &mut Vec<(u8, View)>,
    managers: &Managers,
    shard: u8,
) -> Result<(), Memory>
    requires { shard < 8 }
    ensures { OnOk result (begun.new.items ≡ begun.old.items ++ begun_of shard (slice_get managers.now shard)) }
{
    if lets_begin(alloc, managers, shard)? {
        let view = managers.of(shard).held().copy(alloc)?;
        begun.push((shard, view))?;
    }
    Ok(())
}

fn is_to_begin(intent: Intent) -> bool
    ensures { result ≡ is_to_begin (Some intent) }
{
    match intent {
        Intent::Nothing => false,
        Intent::Propose { .. } => false,
        Intent::Activate => true,
    }
}

// The view of a shard, if it is intended that it begins.
fn put_intended(
    alloc: Global,
    begun: &mut Vec<(u8, View)>,
    managers: &Managers,
    intents: &[Intent; 8],
    shard: u8,
) -> Result<(), Memory>
    requires { shard < 8 }
    ensures { OnOk result (begun.new.items ≡ begun.old.items ++ begun_in intents.now managers.now shard) }
{
    if is_to_begin(intents[usize::from(shard)]) {
        put_begun(alloc, begun, managers, shard)
    } else {
        Ok(())
    }
}

// The views that are let begin where that is intended.
fn begun_of(
    alloc: Global,
    managers: &Managers,
    intents: &[Intent; 8],
) -> Result<Vec<(u8, View)>, Memory>
    ensures { IfOk result (λ begun. begun.items ≡ begun_below intents.now managers.now 8) }
{
    let mut begun = Vec::new(alloc);
    for shard in 0..8 {
        put_intended(alloc, &mut begun, managers, intents, shard)?;
    }
    Ok(begun)
}

impl<F: LogFile + Drop> Cores<F> {
    /// The cores as the process begins. No letter was taken or sent yet.
    pub fn new(
        managers: Managers,
        inlet: Inlet,
        outlets: Outlets,
        writer: LogWriter<F>,
    ) -> Cores<F> {
        Cores::Shut {
            managers,
            inlet,
            outlets,
            writer,
        }
    }

    /// Whether the manager does not act yet.
    pub fn is_shut(&self) -> bool {
        matches!(self, Cores::Shut { .. })
    }

    /// The manager acts: from now on they take letters and send them.
    pub fn open(&mut self, alloc: Global) {
        *self = match mem::replace(self, Cores::Ended) {
            Cores::Shut {
                managers,
                inlet,
                outlets,
                writer,
            } => Cores::Open(DurablePost::new(alloc, managers, inlet, outlets, writer)),
            Cores::Open(post) => Cores::Open(post),
            Cores::Ended => Cores::Ended,
        };
    }

    /// The views that they hold, by their shards.
    pub fn views(&self, alloc: Global) -> Result<Vec<View>, Memory> {
        match self {
            Cores::Shut { managers, .. } => views_of(alloc, managers),
            Cores::Open(post) => views_of(alloc, post.managers()),
            Cores::Ended => Ok(Vec::new(alloc)),
        }
    }

    /// From now on the letters of a manager that acts go by these outlets.
    pub fn lead(&mut self, outlets: Outlets) {
        if let Cores::Open(post) = self {
            post.lead(outlets);
        }
    }

    /// The views of shards whose managers let them begin where that is intended, as they stand behind the turn in which it was.
    pub fn begun(&self, alloc: Global, intents: &[Intent; 8]) -> Result<Vec<(u8, View)>, Memory> {
        match self {
            Cores::Open(post) => begun_of(alloc, post.managers(), intents),
            Cores::Shut { .. } => Ok(Vec::new(alloc)),
            Cores::Ended => Ok(Vec::new(alloc)),
        }
    }

    /// The log takes these entries, and they are sure. Those of a manager that acts stand in front of the steps that its cores make in the same turn, of letters that
    /// came and of what is intended, whose letters are sent behind that. Gives how many records that makes, 0 or 1. After an error nothing of this manager may be told
    /// any more.
    pub fn log<C: LateClock, R: Wait>(
        &mut self,
        rt: &R,
        alloc: Global,
        clock: &C,
        notes: Vec<Entry>,
        intents: &[Intent; 8],
    ) -> Result<u64, Unlogged> {
        let taken = match self {
            Cores::Shut { writer, .. } => log(alloc, writer, &notes),
            Cores::Open(post) => turn(rt, alloc, clock, post, notes, intents),
            Cores::Ended => Err(Unlogged),
        };
        if taken.is_err() {
            *self = Cores::Ended;
        }
        taken
    }
}
