//! A run and its events.

ghost use Rattle.std.specs.Prelude.{◌≡◌, [], ◌∷◌, ◌++◌, length, IfOk, OnOk, OnErr};
ghost use Rattle.std.specs.Option.{option_copied};

use crate::again::again;
use crate::laws::histories_are_histories;
use crate::live::{Keys, LiveRun};
use hk_base::{Key, Memory, Stamp};
use hk_event::{Event, Header};
use hk_history::Items;
use hk_world::{Shown, World, WorldFault};
use std::alloc::Global;
use std::marker::Model;

/// A header and the events that its world accepted. A run that found no memory to keep what an event showed is as it was before, and
/// answers `Memory` from then on.
#[derive(Drop)]
pub struct Run {
    events: Vec<Event>,
    live: LiveRun,
}

impl Model for Run {
    ghost use Rattle.std.specs.Prelude.{◌≡◌};
    ghost use Rattle.hk_safety.specs.Run.{RunState};

    ghost Value = { RunState };

    ghost view = { λ r. r.live };

    ghost invariant = { λ r. r.events.items ≡ r.live.events };
}

impl Run {
    ghost use Rattle.hk_world.specs.World.{numbered};
    ghost use Rattle.hk_world.specs.Sound.{IsHeader, IsEvent};
    ghost use Rattle.hk_safety.specs.Run.{RunState, IsRun, world_of, history, named};
    ghost use Rattle.hk_safety.specs.Push.{IsPushed};
    ghost use Rattle.hk_base.specs.Stamp.{tag_of};
    ghost use Rattle.hk_safety.specs.Moment.{moment_of, IsToldOf};

    /// The run of no event.
    pub fn new(alloc: Global, header: Header) -> Result<Run, Memory>
        requires { IsHeader header }
        ensures { IfOk result (λ run. run ≡ record { header = header; events = [] }) }
    {
        let live = LiveRun::new(alloc, header)?;
        Ok(Run {
            events: Vec::new(alloc),
            live,
        })
    }

    /// Makes an event, or tells why it is refused. After a refusal, and after want of memory, the run is as it was.
    pub fn push(&mut self, alloc: Global, event: Event) -> Result<Shown, WorldFault>
        requires { IsEvent event }
        ensures { IsPushed result self.old self.new event }
    {
        if self.events.reserve(1).is_err() {
            return Err(WorldFault::Memory);
        }
        match self.live.push(alloc, &event) {
            Ok(shown) => {
                self.events.push_reserved(event);
                Ok(shown)
            }
            Err(fault) => Err(fault),
        }
    }

    /// The run without its events.
    pub fn live(&self) -> &LiveRun
        ensures { result.now ≡ self.now }
    {
        &self.live
    }

    /// The header. It takes no memory.
    pub fn header(&self) -> &Header
        ensures { result.now ≡ self.now.header }
    {
        self.live.header()
    }

    /// How many events there are. It takes no memory.
    pub fn len(&self) -> u64
        ensures { result ≡ length self.now.events }
    {
        self.events.len() as u64
    }

    /// The event of this number. Events are numbered from 1. None exactly where no event has that number. It takes no memory.
    pub fn event(&self, number: u64) -> Option<&Event>
        ensures { option_copied result ≡ numbered number self.now.events }
    {
        if number == 0 {
            return None;
        }
        self.events.get((number - 1) as usize)
    }

    /// The present world.
    pub fn world(&self) -> Result<&World, Memory>
        ensures { IfOk result (λ world. world.now ≡ world_of self.now) }
    {
        self.live.world()
    }

    /// The keys that calls named.
    pub fn keys(&self, alloc: Global) -> Result<Keys, Memory>
        ensures { IfOk result (λ keys. keys ≡ named self.now) }
    {
        self.live.keys(alloc)
    }

    /// The calls on the key and their replies. The run is made again for them: of what was said it keeps the numbers alone.
    pub fn history(&self, alloc: Global, key: &Key) -> Result<Items, Memory>
        ensures { IfOk result (λ items. items ≡ history self.now key.now) }
    {
        histories_are_histories();
        self.live.sound();
        again(alloc, *self.live.header(), self.events.as_slice(), key)
    }

    /// The moment of a stamp of the key: the number of the first event after which an update of the key with a stamp of at least this one is complete. None
    /// exactly where the update of this very stamp is not complete. It takes no memory.
    pub fn moment(&self, key: &Key, stamp: Stamp) -> Result<Option<u64>, Memory>
        ensures exact { IfOk result (λ told. told ≡ moment_of self.now key.now (tag_of stamp)) }
        ensures meant { IfOk result (λ told. IsToldOf self.now key.now (tag_of stamp) told) }
    {
        self.live.moment(key, stamp)
    }
}
