//! A step that is undone.

ghost use Rattle.std.specs.Prelude.{◌≡◌, IsSome};
ghost use Rattle.hk_manager.specs.Sound.{IsManager};
ghost use Rattle.hk_manager.specs.Undone.{known_of, instance_rolled_back, rolled_back, IsThere};

use super::Manager;
use crate::instance::Instance;
use crate::out::Replaced;
use std::collections::BTreeMap;

// Gives back what was known of an instance before, of which something is known now.
fn give_instance_back(instances: &mut BTreeMap<u64, Instance>, epoch: u64, prior: Option<Instance>)
    requires { IsSome (known_of epoch instances.old.entries) }
    ensures { instances.new.entries ≡ instance_rolled_back epoch prior instances.old.entries }
{
    match prior {
        Some(prior) => match instances.get_mut(&epoch) {
            Some(instance) => *instance = prior,
            None => unreachable!(),
        },
        None => {
            instances.remove(&epoch);
        }
    }
}

impl Manager {
    /// Undoes a step, by what it replaced: behind that step this makes the manager as it was before. It takes no memory.
    pub fn undo(&mut self, replaced: Replaced)
        requires there { IsThere replaced self.old }
        requires manager { IsManager (rolled_back replaced self.old) }
        ensures { self.new ≡ rolled_back replaced self.old }
    {
        match replaced {
            Replaced::Nothing => {}
            Replaced::Clock(clock) => self.clock = clock,
            Replaced::Until { node, until } => self.untils.roll_back(node, until),
            Replaced::Instance { epoch, instance } => {
                give_instance_back(&mut self.instances, epoch, instance);
            }
            Replaced::Begun {
                epoch,
                instance,
                proposal,
            } => {
                give_instance_back(&mut self.instances, epoch, instance);
                self.proposal = proposal;
            }
            Replaced::Proposal { proposal, held } => {
                self.proposal = proposal;
                if let Some(held) = held {
                    self.held = held;
                }
            }
            Replaced::Held(held) => self.held = held,
        }
    }
}
