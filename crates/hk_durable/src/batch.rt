//! A batch of steps, of which nobody has heard yet.

ghost use Rattle.std.specs.Prelude.{◌≡◌, ◌≢◌, ◌<◌, ◌≤◌, ◌++◌, ◌∷◌, [], true, false, All, IfSome, OnOk, OnErr, vec_len, vec_capacity};
ghost use Rattle.std.specs.List.{AllByRecursion, slice_get};
ghost use Rattle.hk_base.specs.declared.time.TheConstants.{MAX_TIME};
ghost use Rattle.hk_log.specs.Entries.{IsEntryInRange, is_of_paxos};
ghost use Rattle.hk_manager.specs.declared.event.ManagerEvent.TheVariants.{Receive};
ghost use Rattle.hk_durable.specs.Batches.{IsNote, IsUnsaid, IsGivenEvent, list_of, entries_of, may_begin, event_of, with_clocks, at_rest, IsMadeOrNot, TakeAll, IsFulfilled, FulfilFrom};

use crate::managers::Managers;
use hk_base::{Change, Letters, Memory, SHARDS};
use hk_link::Parcel;
use hk_log::{Entry, is_of_paxos};
use hk_manager::ManagerEvent;
use std::alloc::Global;
use std::marker::Model;
use std::mem;

/// What a manager is to do of itself.
#[derive(Clone, Copy, Debug, PartialEq, Eq)]
pub enum Intent {
    Nothing,
    /// To propose a change of the view of the epoch `base`. It is refused where the manager holds another view by then.
    Propose { base: u64, change: Change },
    /// To let the view begin that it holds. It is let go of up to 1 and the wait on the manager's clock, and refused where a lease may run that it granted outside.
    Activate,
}

/// The managers of one number, behind the steps that they made last; what is to be logged, notes and what of those steps; and the letters that wait for that, each
/// list with its shard. Contracts see these.
#[derive(Drop)]
pub struct Batch {
    managers: Managers,
    entries: Vec<Entry>,
    unsaid: Vec<(u8, Letters)>,
}

impl Model for Batch {
    ghost use Rattle.std.specs.Prelude.{All};
    ghost use Rattle.hk_log.specs.Entries.{IsEntryInRange};
    ghost use Rattle.hk_durable.specs.Batches.{BatchState, AreNotesAlone, IsUnsaid};

    ghost Value = { BatchState };

    ghost view = { λ b. record { managers = b.managers; entries = b.entries.items; unsaid = b.unsaid.items } };

    ghost invariant = { λ b. All IsEntryInRange b.entries.items × All IsUnsaid b.unsaid.items × AreNotesAlone b.entries.items b.unsaid.items };
}

// What of a step is to be logged.
fn entry_of(shard: u8, event: ManagerEvent) -> Option<Entry>
    requires shard { shard < 8 }
    requires event { IsGivenEvent event }
    ensures entries { list_of result ≡ entries_of shard event }
    ensures range { IfSome result IsEntryInRange }
{
    match event {
        ManagerEvent::Propose { base, change } => Some(Entry::Propose {
            shard,
            base,
            change,
        }),
        ManagerEvent::Receive(letter) => {
            if !is_of_paxos(&letter.body) {
                return None;
            }
            Some(Entry::Receive { shard, letter })
        }
        ManagerEvent::Activate | ManagerEvent::Tick { .. } => None,
    }
}

// Pushes what of a step is to be logged. There is room for it.
fn push_entry(entries: &mut Vec<Entry>, entry: Option<Entry>)
    requires room { vec_len entries.old < vec_capacity entries.old }
    ensures { entries.new.items ≡ entries.old.items ++ list_of entry }
{
    if let Some(entry) = entry {
        entries.push_reserved(entry);
    }
}

// The event of an intent, if it is to do anything.
fn event_of(may_begin: bool, intent: Intent) -> Option<ManagerEvent>
    ensures event { result ≡ event_of may_begin intent }
    ensures given { IfSome result IsGivenEvent }
{
    match intent {
        Intent::Nothing => None,
        Intent::Propose { base, change } => Some(ManagerEvent::Propose { base, change }),
        Intent::Activate => {
            if may_begin {
                return Some(ManagerEvent::Activate);
            }
            None
        }
    }
}

impl Batch {
    /// No step was made yet. It takes no memory.
    pub fn new(alloc: Global, managers: Managers) -> Batch
        ensures { result ≡ at_rest managers }
    {
        Batch {
            managers,
            entries: Vec::new(alloc),
            unsaid: Vec::new(alloc),
        }
    }

    /// The managers.
    pub fn managers(&self) -> &Managers
        ensures { result.now ≡ self.now.managers }
    {
        &self.managers
    }

    /// Whether steps wait to be logged or told. Where none do, notes alone wait.
    pub fn has_steps(&self) -> bool
        ensures yes { result ≡ true → self.now.unsaid ≢ [] }
        ensures no { result ≡ false → (self.now.unsaid ≡ []) × AllByRecursion IsNote self.now.entries }
    {
        !self.unsaid.is_empty()
    }

    /// Notes what is to be logged with the next steps, before them: that the group was founded, or opened, or that a number was bound. After `Memory` nothing is
    /// noted.
    pub fn note(&mut self, note: Entry) -> Result<(), Memory>
        requires range { IsEntryInRange note }
        requires note { IsNote note }
        ensures noted { OnOk result (self.new ≡ record self.old { entries = self.old.entries ++ note ∷ [] }) }
        ensures kept { OnErr result (self.new ≡ self.old) }
    {
        self.entries.push(note)?;
        Ok(())
    }

    /// What waits to be logged.
    pub fn entries(&self) -> &[Entry]
        ensures entries { result.now ≡ self.now.entries }
        ensures range { All IsEntryInRange result.now }
    {
        self.entries.as_slice()
    }

    /// It was logged.
    pub(crate) fn forget_entries(&mut self)
        ensures { self.new ≡ record self.old { entries = [] } }
    {
        self.entries.clear();
    }

    /// The letters that waited for that.
    pub(crate) fn take_unsaid(&mut self, alloc: Global) -> Vec<(u8, Letters)>
        requires { self.old.entries ≡ [] }
        ensures unsaid { result.items ≡ self.old.unsaid }
        ensures range { AllByRecursion IsUnsaid result.items }
        ensures rest { self.new ≡ record self.old { unsaid = [] } }
    {
        mem::replace(&mut self.unsaid, Vec::new(alloc))
    }

    /// The clocks rise to `now`. It takes no memory.
    pub fn tick(&mut self, alloc: Global, now: u64)
        requires { now ≤ MAX_TIME }
        ensures { self.new ≡ with_clocks now self.old }
    {
        self.managers.tick(alloc, now);
    }

    // Makes the step of an event, unless it is refused or memory is wanting.
    fn make(&mut self, alloc: Global, shard: u8, event: ManagerEvent)
        requires shard { shard < 8 }
        requires event { IsGivenEvent event }
        ensures { IsMadeOrNot shard event self.old self.new }
    {
        // What is pushed behind the step finds room, so that no step stays that is not logged.
        if self.entries.reserve(1).is_err() || self.unsaid.reserve(1).is_err() {
            return;
        }
        let Ok(letters) = self.managers.step(alloc, shard, &event) else {
            return;
        };
        push_entry(&mut self.entries, entry_of(shard, event));
        self.unsaid.push_reserved((shard, letters));
    }

    // The manager of the parcel's shard takes its letter.
    fn take(&mut self, alloc: Global, parcel: Parcel)
        ensures { IsMadeOrNot parcel.shard (Receive parcel.letter) self.old self.new }
    {
        let Parcel { shard, letter, .. } = parcel;
        self.make(alloc, shard, ManagerEvent::Receive(letter));
    }

    // The manager of the shard does what it is to do.
    fn fulfil(&mut self, alloc: Global, shard: u8, intent: Intent)
        requires { shard < 8 }
        ensures { IsFulfilled shard (event_of (may_begin (slice_get self.old.managers shard)) intent) self.old self.new }
    {
        let may_begin = self.managers.may_begin(shard);
        if let Some(event) = event_of(may_begin, intent) {
            self.make(alloc, shard, event);
        }
    }

    /// The managers of the parcels' shards take their letters, one after the other.
    pub fn take_all(&mut self, alloc: Global, parcels: Vec<Parcel>)
        ensures { TakeAll parcels.items self.old self.new }
    {
        for parcel in parcels {
            self.take(alloc, parcel);
        }
    }

    /// The managers do what they are to do, shard by shard.
    pub fn fulfil_all(&mut self, alloc: Global, intents: &[Intent; 8])
        ensures { FulfilFrom 0 intents.now self.old self.new }
    {
        for shard in 0..SHARDS {
            self.fulfil(alloc, shard, intents[usize::from(shard)]);
        }
    }
}
