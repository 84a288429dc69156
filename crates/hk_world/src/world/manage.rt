//! The step of one live manager.

ghost use Rattle.std.specs.Prelude.{◌≡◌};
ghost use Rattle.hk_world.specs.Acting.{IsManagerAct};
ghost use Rattle.hk_world.specs.Steps.{manages};
ghost use Rattle.hk_world.specs.Sound.{IsAnswerOf};

use super::World;
use super::learn::post_of_manager;
use crate::fault::WorldFault;
use crate::shown::Shown;
use hk_event::Refused;
use hk_manager::{ManagerEvent, steps_keep_managers};
use std::alloc::Global;

impl World {
    /// A live manager makes its step of the event, and its letters are sent. A view that it now holds is learned.
    pub(super) fn manage(
        &mut self,
        alloc: Global,
        manager: u8,
        event: &ManagerEvent,
    ) -> Result<Shown, WorldFault>
        requires { IsManagerAct event.now }
        ensures { IsAnswerOf result self.old self.new (manages self.old manager event.now) }
    {
        steps_keep_managers();
        let Some(process) = self.managers.get_mut(usize::from(manager)) else {
            return Err(WorldFault::Refused(Refused::NoActor));
        };
        if process.crashed {
            return Err(WorldFault::Refused(Refused::Crashed));
        }
        let out = process.manager.step(alloc, event)?;
        let shown = post_of_manager(
            alloc,
            manager,
            &mut process.manager,
            &mut self.letters,
            &mut self.views,
            out,
        )?;
        Ok(shown)
    }
}
