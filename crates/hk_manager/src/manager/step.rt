//! The step of any event.

ghost use Rattle.std.specs.Prelude.{◌≡◌, ◌≤◌};
ghost use Rattle.hk_base.specs.declared.time.TheConstants.{MAX_TIME};
ghost use Rattle.hk_manager.specs.Steps.{manager_ticks, manager_step};
ghost use Rattle.hk_manager.specs.Sound.{IsManagerEvent};
ghost use Rattle.hk_manager.specs.Undone.{HasReplaced, TellsReplaced};
ghost use Rattle.hk_manager.specs.Outs.{made, IsStepOf};

use super::Manager;
use crate::event::ManagerEvent;
use crate::fault::ManagerFault;
use crate::out::{ManagerOut, Replaced};
use hk_base::Letters;
use std::alloc::Global;

impl Manager {
    /// The clock reads `now`, in milliseconds: it keeps the greater reading. It takes no memory.
    pub fn tick(&mut self, alloc: Global, now: u64) -> ManagerOut
        requires { now ≤ MAX_TIME }
        ensures made { made self.new result ≡ manager_ticks self.old now }
        ensures replaced { HasReplaced result.replaced self.old self.new }
    {
        let prior = self.clock;
        self.clock = self.clock.max(now);
        ManagerOut {
            letters: Letters::new(alloc),
            chosen: None,
            replaced: Replaced::Clock(prior),
        }
    }

    /// Makes the step of an event, or refuses it. After a refusal, and after want of memory, the manager is as it was. A step that
    /// was made can be undone by what it replaced.
    pub fn step(&mut self, alloc: Global, event: &ManagerEvent) -> Result<ManagerOut, ManagerFault>
        requires { IsManagerEvent event.now }
        ensures made { IsStepOf result self.old self.new (manager_step self.old event.now) }
        ensures replaced { TellsReplaced result self.old self.new }
    {
        match event {
            ManagerEvent::Propose { base, change } => self.propose(alloc, *base, *change),
            ManagerEvent::Receive(letter) => {
                let out = self.receive(alloc, letter)?;
                Ok(out)
            }
            ManagerEvent::Activate => self.activate(alloc),
            ManagerEvent::Tick { now } => Ok(self.tick(alloc, *now)),
        }
    }
}
