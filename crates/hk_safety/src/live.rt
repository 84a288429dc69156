//! A run whose events are not kept.

ghost use Rattle.std.specs.Prelude.{◌≡◌, [], ◌∷◌, ◌++◌, IfOk};
ghost use Rattle.std.specs.Map.{keys_of};

use crate::kept::{Kept, StepError};
use crate::key_run::KeyRun;
use crate::laws::runs_are_legal;
use crate::marked::Mark;
use crate::past::Past;
use crate::placed::PlacedEntries;
use hk_base::{Key, MAX_VERSION, Memory, Sequence, Stamp};
use hk_effects::runs_keep_parts;
use hk_event::{Event, Header};
use hk_history::Entries;
use hk_world::{Shown, World, WorldFault};
use std::alloc::Global;
use std::collections::BTreeMap;
use std::marker::Model;

/// Keys, in the order of their bytes.
pub type Keys = Sequence<Key>;

/// A run whose events are told to clauses alone: its memory grows with the calls, the letters and the stamps of the run, and not with its
/// events. A run that found no memory to keep what an event showed is as it was before, and answers `Memory` from then on.
#[derive(Drop)]
pub struct LiveRun {
    header: Header,
    past: Past,
    count: u64,
    kept: Option<Kept>,
}

impl Model for LiveRun {
    ghost use Rattle.std.specs.Prelude.{◌≡◌, length, IfSome};
    ghost use Rattle.hk_safety.specs.Run.{RunState, IsRun};
    ghost use Rattle.hk_safety.specs.Kept.{IsKeptOf};

    ghost Value = { RunState };

    ghost view = { λ r. record { header = r.header; events = r.past.events } };

    ghost invariant = { λ r. IsRun (record { header = r.header; events = r.past.events }) × (r.count ≡ length r.past.events) × IfSome r.kept (λ k. IsKeptOf k (record { header = r.header; events = r.past.events })) };
}

// The keys of a map, which share their bytes.
fn share_keys(alloc: Global, map: &BTreeMap<Key, KeyRun>) -> Result<Keys, Memory>
    ensures { IfOk result (λ keys. keys ≡ keys_of map.now.entries) }
{
    let mut keys = Keys::new(alloc);
    for (key, _run) in map.iter() {
        let key = key.share()?;
        keys.push(key)?;
    }
    Ok(keys)
}

impl LiveRun {
    ghost use Rattle.std.specs.Prelude.{length, map};
    ghost use Rattle.hk_safety.specs.Marks.{mark_of};
    ghost use Rattle.hk_safety.specs.Kept.{IsKeptOf};
    ghost use Rattle.hk_history.specs.Legal.{Legal};
    ghost use Rattle.hk_world.specs.Sound.{IsHeader, IsEvent};
    ghost use Rattle.hk_safety.specs.Run.{IsRun, world_of, history, printed, named};
    ghost use Rattle.hk_safety.specs.Push.{IsPushed};
    ghost use Rattle.hk_base.specs.Stamp.{tag_of};
    ghost use Rattle.hk_safety.specs.Placed.{placed};
    ghost use Rattle.hk_safety.specs.Moment.{moment_of, IsToldOf};

    /// The run of no event.
    pub fn new(alloc: Global, header: Header) -> Result<LiveRun, Memory>
        requires { IsHeader header }
        ensures { IfOk result (λ run. run ≡ record { header = header; events = [] }) }
    {
        let world = World::new(alloc, header)?;
        Ok(LiveRun {
            header,
            past: Past::new(),
            count: 0,
            kept: Some(Kept {
                world,
                keys: BTreeMap::new(alloc),
                calls: Vec::new(alloc),
            }),
        })
    }

    /// Makes an event, or tells why it is refused. After a refusal, and after want of memory, the run is as it was.
    pub fn push(&mut self, alloc: Global, event: &Event) -> Result<Shown, WorldFault>
        requires { IsEvent event.now }
        ensures { IsPushed result self.old self.new event.now }
    {
        runs_keep_parts();
        let Some(kept) = &mut self.kept else {
            return Err(WorldFault::Memory);
        };
        let Some(number) = self.count.checked_add(1) else {
            return Err(WorldFault::Memory);
        };
        match kept.make(alloc, number, event) {
            Ok(shown) => {
                self.past.note(event);
                self.count = number;
                Ok(shown)
            }
            Err(StepError::Memory) => Err(WorldFault::Memory),
            Err(StepError::Refused(refused)) => Err(WorldFault::Refused(refused)),
            Err(StepError::Lost) => {
                self.kept = None;
                Err(WorldFault::Memory)
            }
        }
    }

    // What is kept, unless memory was wanting.
    fn kept(&self) -> Result<&Kept, Memory>
        ensures kept { IfOk result (λ kept. IsKeptOf kept.now self.now) }
        ensures run { IsRun self.now }
    {
        match &self.kept {
            Some(kept) => Ok(kept),
            None => Err(Memory),
        }
    }

    /// That it is a run. It does nothing at run time.
    pub fn sound(&self)
        ensures { IsRun self.now }
    {
        let _header = &self.header;
    }

    /// The header. It takes no memory.
    pub fn header(&self) -> &Header
        ensures { result.now ≡ self.now.header }
    {
        &self.header
    }

    /// The present world.
    pub fn world(&self) -> Result<&World, Memory>
        ensures { IfOk result (λ world. world.now ≡ world_of self.now) }
    {
        let kept = self.kept()?;
        Ok(&kept.world)
    }

    /// The keys that calls named.
    pub fn keys(&self, alloc: Global) -> Result<Keys, Memory>
        ensures { IfOk result (λ keys. keys ≡ named self.now) }
    {
        let kept = self.kept()?;
        share_keys(alloc, &kept.keys)
    }

    /// How many events there are. It takes no memory.
    pub fn len(&self) -> u64
        ensures { result ≡ length self.now.events }
    {
        self.count
    }

    // The same key, which shares the bytes of the one that a call named, if one did.
    fn known(&self, key: Key) -> Result<Key, Memory>
        ensures { IfOk result (λ same. same ≡ key) }
    {
        let kept = self.kept()?;
        match kept.keys.get_key_value(&key) {
            Some((name, _run)) => name.share(),
            None => Ok(key),
        }
    }

    /// The same event, whose key shares the bytes of the one that a call named, if one did. So a run that is made of such events holds the bytes of each
    /// key once.
    pub fn shared(&self, event: Event) -> Result<Event, Memory>
        ensures { IfOk result (λ same. same ≡ event) }
    {
        match event {
            Event::Call { node, key, op } => {
                let key = self.known(key)?;
                Ok(Event::Call { node, key, op })
            }
            Event::Resend { node, key } => {
                let key = self.known(key)?;
                Ok(Event::Resend { node, key })
            }
            Event::Replay { node, key } => {
                let key = self.known(key)?;
                Ok(Event::Replay { node, key })
            }
            event => Ok(event),
        }
    }

    /// A mark of each of the calls on the key and their replies, where they are kept. It takes no memory.
    pub fn marks(&self, key: &Key) -> Result<&[Mark], Memory>
        ensures { IfOk result (λ marks. marks.now ≡ map mark_of (history self.now key.now)) }
    {
        let kept = self.kept()?;
        match kept.keys.get(key) {
            Some(run) => Ok(run.marks()),
            None => Ok(&[]),
        }
    }

    /// The order of the key, as [`crate::order_of`] has it.
    pub fn order(&self, alloc: Global, key: &Key) -> Result<Entries, Memory>
        ensures exact { IfOk result (λ order. order ≡ printed self.now key.now) }
        ensures legal { Legal (history self.now key.now) (printed self.now key.now) }
    {
        runs_are_legal();
        runs_keep_parts();
        let kept = self.kept()?;
        match kept.keys.get(key) {
            Some(key_run) => key_run.order(alloc),
            None => Ok(Entries::new(alloc)),
        }
    }

    /// The order of the key, each entry with its event: a change stands at the first event after which it or a later change of the key is complete, any other
    /// call at the event that replied to it.
    pub fn placed(&self, alloc: Global, key: &Key) -> Result<PlacedEntries, Memory>
        ensures { IfOk result (λ entries. entries ≡ placed self.now key.now) }
    {
        runs_keep_parts();
        let last = self.len();
        let kept = self.kept()?;
        match kept.keys.get(key) {
            Some(key_run) => key_run.placed(alloc, last),
            None => Ok(PlacedEntries::new(alloc)),
        }
    }

    /// The moment of a stamp of the key: the number of the first event after which an update of the key with a stamp of at least this one is complete. None
    /// exactly where the update of this very stamp is not complete. It takes no memory.
    pub fn moment(&self, key: &Key, stamp: Stamp) -> Result<Option<u64>, Memory>
        ensures exact { IfOk result (λ told. told ≡ moment_of self.now key.now (tag_of stamp)) }
        ensures meant { IfOk result (λ told. IsToldOf self.now key.now (tag_of stamp) told) }
    {
        runs_keep_parts();
        let kept = self.kept()?;
        // No update has a version past the last one.
        if stamp.version > MAX_VERSION {
            return Ok(None);
        }
        match kept.keys.get(key) {
            Some(key_run) => Ok(key_run.moment(stamp.tag())),
            None => Ok(None),
        }
    }
}
