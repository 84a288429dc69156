//! Crashes.

ghost use Rattle.std.specs.Prelude.{◌≡◌};
ghost use Rattle.hk_base.specs.declared.letter.Actor.TheVariants.{Node as OfNode, Manager as OfManager};
ghost use Rattle.hk_event.specs.declared.event.Event.TheVariants.{Crash};
ghost use Rattle.hk_world.specs.Sound.{IsStepOf};

use super::World;
use super::post::nothing;
use crate::fault::WorldFault;
use crate::shown::Shown;
use hk_base::{Actor, NodeId};
use hk_event::Refused;
use std::alloc::Global;

impl World {
    // A node stops for good.
    fn crash_node(&mut self, alloc: Global, id: NodeId) -> Result<Shown, WorldFault>
        ensures { IsStepOf result self.old self.new (Crash (OfNode id)) }
    {
        let Some(process) = self.processes.get_mut(&id) else {
            return Err(WorldFault::Refused(Refused::NoActor));
        };
        if process.crashed {
            return Err(WorldFault::Refused(Refused::Crashed));
        }
        self.clocks.stop(Actor::Node(id))?;
        process.crashed = true;
        Ok(nothing(alloc))
    }

    // A manager stops for good.
    fn crash_manager(&mut self, alloc: Global, manager: u8) -> Result<Shown, WorldFault>
        ensures { IsStepOf result self.old self.new (Crash (OfManager manager)) }
    {
        let Some(process) = self.managers.get_mut(usize::from(manager)) else {
            return Err(WorldFault::Refused(Refused::NoActor));
        };
        if process.crashed {
            return Err(WorldFault::Refused(Refused::Crashed));
        }
        self.clocks.stop(Actor::Manager(manager))?;
        process.crashed = true;
        Ok(nothing(alloc))
    }

    /// An actor stops for good, and its clock with it.
    pub(super) fn crash(&mut self, alloc: Global, actor: Actor) -> Result<Shown, WorldFault>
        ensures { IsStepOf result self.old self.new (Crash actor) }
    {
        match actor {
            Actor::Node(id) => self.crash_node(alloc, id),
            Actor::Manager(manager) => self.crash_manager(alloc, manager),
        }
    }
}
