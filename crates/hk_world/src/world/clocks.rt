//! Clocks that rise.

ghost use Rattle.std.specs.Prelude.{◌≡◌, ◌≤◌};
ghost use Rattle.hk_base.specs.declared.letter.Actor.TheVariants.{Node as OfNode, Manager as OfManager};
ghost use Rattle.hk_base.specs.declared.time.TheConstants.{MAX_TIME};
ghost use Rattle.hk_node.specs.Steps.{ticks};
ghost use Rattle.hk_node.specs.Report.{report};
ghost use Rattle.hk_event.specs.declared.event.Event.TheVariants.{Tick, TickAll};
ghost use Rattle.hk_world.specs.Posted.{rested};
ghost use Rattle.hk_world.specs.Sound.{IsStepOf};

use super::World;
use super::post::nothing;
use super::scan::{tick_live, tick_managers};
use crate::fault::WorldFault;
use crate::shown::{Acted, Shown};
use hk_base::{Actor, Letters, NodeId};
use hk_event::Refused;
use hk_manager::steps_keep_managers;
use hk_node::{Node, NodeEvent, Report, StepReplies, steps_keep_nodes};
use std::alloc::Global;

// The clock of a node rises. It takes no memory.
fn raise(alloc: Global, node: &mut Node, to: u64) -> Report
    requires { to ≤ MAX_TIME }
    ensures node { node.new ≡ (ticks node.old to).node }
    ensures report { result ≡ report node.old node.new }
{
    let Ok(out) = node.step(alloc, &NodeEvent::Tick { now: to }) else {
        unreachable!()
    };
    out.report
}

// The node acted, and sent nothing.
fn rested(alloc: Global, node: NodeId, report: Report) -> Shown
    ensures { result ≡ rested node report }
{
    Shown {
        call: None,
        view: None,
        chosen: None,
        installed: None,
        first_letter: 0,
        letters: Letters::new(alloc),
        replies: StepReplies::nothing(),
        acted: Some(Acted { node, report }),
    }
}

impl World {
    // The clock of a node rises.
    fn tick_node(&mut self, alloc: Global, id: NodeId, to: u64) -> Result<Shown, WorldFault>
        requires { to ≤ MAX_TIME }
        ensures { IsStepOf result self.old self.new (Tick (OfNode id) to) }
    {
        steps_keep_nodes();
        let Some(process) = self.processes.get_mut(&id) else {
            return Err(WorldFault::Refused(Refused::NoActor));
        };
        if process.crashed {
            return Err(WorldFault::Refused(Refused::Crashed));
        }
        self.clocks.tick(alloc, Actor::Node(id), to)?;
        let report = raise(alloc, &mut process.node, to);
        Ok(rested(alloc, id, report))
    }

    // The clock of a manager rises.
    fn tick_manager(&mut self, alloc: Global, manager: u8, to: u64) -> Result<Shown, WorldFault>
        requires { to ≤ MAX_TIME }
        ensures { IsStepOf result self.old self.new (Tick (OfManager manager) to) }
    {
        steps_keep_managers();
        let Some(process) = self.managers.get_mut(usize::from(manager)) else {
            return Err(WorldFault::Refused(Refused::NoActor));
        };
        if process.crashed {
            return Err(WorldFault::Refused(Refused::Crashed));
        }
        self.clocks.tick(alloc, Actor::Manager(manager), to)?;
        process.manager.tick(alloc, to);
        Ok(nothing(alloc))
    }

    /// The clock of an actor rises.
    pub(super) fn tick(&mut self, alloc: Global, actor: Actor, to: u64) -> Result<Shown, WorldFault>
        requires { to ≤ MAX_TIME }
        ensures { IsStepOf result self.old self.new (Tick actor to) }
    {
        match actor {
            Actor::Node(id) => self.tick_node(alloc, id, to),
            Actor::Manager(manager) => self.tick_manager(alloc, manager, to),
        }
    }

    /// The clocks of all live actors rise.
    pub(super) fn tick_all(&mut self, alloc: Global, to: u64) -> Result<Shown, WorldFault>
        requires { to ≤ MAX_TIME }
        ensures { IsStepOf result self.old self.new (TickAll to) }
    {
        steps_keep_nodes();
        steps_keep_managers();
        self.clocks.tick_all(alloc, to)?;
        tick_live(&mut self.processes, alloc, to);
        tick_managers(&mut self.managers, alloc, to);
        Ok(nothing(alloc))
    }
}
