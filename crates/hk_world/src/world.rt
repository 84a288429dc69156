//! A world and its steps.

ghost use Rattle.std.specs.Prelude.{◌≡◌, ◌≤◌, ◌+◌, IfOk, OnOk, OnErr, Ok, Some, length};
ghost use Rattle.std.specs.Option.{option_copied};
ghost use Rattle.hk_base.specs.declared.time.TheConstants.{MAX_TIME};

mod act;
mod allowed;
mod clocks;
mod crash;
mod events;
mod founders;
mod learn;
mod manage;
mod numbers;
mod post;
mod scan;
mod start;
mod views;

use crate::fault::WorldFault;
use crate::laws::worlds_stay_sound;
use crate::process::{ManagerProcess, Process};
use crate::shown::Shown;
use founders::{founders, founding_clocks, founding_managers};
use hk_base::{Letter, Memory, NodeId, View};
use hk_clocks::Clocks;
use hk_event::{Event, Header};
use hk_node::Node;
use numbers::numbered;
use std::alloc::Global;
use std::collections::BTreeMap;
use std::marker::Model;

/// A group of nodes, and of managers if it has any, with their clocks, every letter ever sent and the views that were agreed.
#[derive(Drop)]
pub struct World {
    skew: u64,
    lease: u64,
    processes: BTreeMap<NodeId, Process>,
    managers: Vec<ManagerProcess>,
    clocks: Clocks,
    letters: Vec<Letter>,
    views: Vec<View>,
    calls: u64,
}

impl Model for World {
    ghost use Rattle.std.specs.Prelude.{◌≡◌};
    ghost use Rattle.hk_world.specs.World.{WorldState};
    ghost use Rattle.hk_world.specs.Sound.{IsWorld};

    ghost Value = { WorldState };

    ghost view = { λ w. record { skew = w.skew; lease = w.lease; processes = w.processes.entries; managers = w.managers.items; paces = w.clocks.paces; letters = w.letters.items; views = w.views.items; calls = w.calls } };

    ghost invariant = { λ w. (w.clocks.skew ≡ w.skew) × IsWorld (record { skew = w.skew; lease = w.lease; processes = w.processes.entries; managers = w.managers.items; paces = w.clocks.paces; letters = w.letters.items; views = w.views.items; calls = w.calls }) };
}

impl World {
    ghost use Rattle.hk_world.specs.World.{WorldState, node_of, process_at, numbered};
    ghost use Rattle.hk_world.specs.Steps.{world_step};
    ghost use Rattle.hk_world.specs.Start.{start};
    ghost use Rattle.hk_world.specs.Sound.{IsHeader, IsEvent, IsStepOf};

    /// The world of founders: they are in the first view, each with a lease, and managers hold it. All clocks read 1.
    pub fn new(alloc: Global, header: Header) -> Result<World, Memory>
        requires { IsHeader header }
        ensures { IfOk result (λ world. world ≡ start header) }
    {
        worlds_stay_sound();
        let view = View::first(alloc, header.nodes)?;
        let processes = founders(alloc, header, &view)?;
        let managers = founding_managers(alloc, header, &view)?;
        let clocks = founding_clocks(alloc, header)?;
        let mut views = Vec::new(alloc);
        views.push(view)?;
        Ok(World {
            skew: header.skew,
            lease: header.lease,
            processes,
            managers,
            clocks,
            letters: Vec::new(alloc),
            views,
            calls: 0,
        })
    }

    /// Makes an event, or refuses it. After a refusal, and after want of memory, the world is as it was.
    pub fn step(&mut self, alloc: Global, event: &Event) -> Result<Shown, WorldFault>
        requires { IsEvent event.now }
        ensures { IsStepOf result self.old self.new event.now }
    {
        match event {
            Event::Call { node, key, op } => self.call(alloc, *node, key, op),
            Event::Take { letter } => self.take(alloc, *letter),
            Event::Tick { actor, to } => self.tick(alloc, *actor, *to),
            Event::TickAll { to } => self.tick_all(alloc, *to),
            Event::Crash { actor } => self.crash(alloc, *actor),
            Event::Resend { node, key } => self.resend(alloc, *node, key),
            Event::Replay { node, key } => self.replay(alloc, *node, key),
            Event::Copy { node, from, room } => self.ask_copy(alloc, *node, *from, *room),
            Event::Start { node } => self.start(alloc, *node),
            Event::Agree { change } => self.agree(alloc, *change),
            Event::Install { node, epoch } => self.install(alloc, *node, *epoch),
            Event::Lease { node, end } => self.lease(alloc, *node, *end),
            Event::AskLease { node, manager } => self.ask_lease(alloc, *node, *manager),
            Event::Propose {
                manager,
                base,
                change,
            } => self.propose(alloc, *manager, *base, *change),
            Event::Activate { manager } => self.activate(alloc, *manager),
        }
    }

    /// How many letters were sent.
    pub fn letters(&self) -> u64
        ensures { result ≡ length self.now.letters }
    {
        self.letters.len() as u64
    }

    /// The letter of this number. Letters are numbered from 1.
    pub fn letter(&self, number: u64) -> Option<&Letter>
        ensures { option_copied result ≡ numbered number self.now.letters }
    {
        numbered(number, &self.letters)
    }

    /// The view of this epoch. None exactly where none was agreed, or no manager has learned it yet.
    pub fn view(&self, epoch: u64) -> Option<&View>
        ensures { option_copied result ≡ numbered epoch self.now.views }
    {
        numbered(epoch, &self.views)
    }

    /// How many calls were made.
    pub fn calls(&self) -> u64
        ensures { result ≡ self.now.calls }
    {
        self.calls
    }

    /// The node of this number, also where it has crashed. None exactly where there is none.
    pub fn node(&self, id: NodeId) -> Option<&Node>
        ensures { option_copied result ≡ node_of (process_at id self.now.processes) }
    {
        match self.processes.get(&id) {
            Some(process) => Some(&process.node),
            None => None,
        }
    }
}
