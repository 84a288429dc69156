//! The parts of a manager that a step changes, each by itself.

ghost use Rattle.std.specs.Prelude.{◌≡◌, Some, None, IsSome, IfOk, OnOk, OnErr, nat_lt, if◌then◌else◌};
ghost use Rattle.hk_base.specs.View.{IsView};
ghost use Rattle.hk_manager.specs.Manager.{instance_at, with_instance};
ghost use Rattle.hk_manager.specs.Sound.{IsInstance, IsProposal};
ghost use Rattle.hk_manager.specs.Undone.{known_of, instance_rolled_back};

use super::Manager;
use crate::instance::Instance;
use hk_base::{Memory, View};
use hk_paxos::Proposer;
use std::alloc::Global;
use std::mem;

impl Manager {
    /// A copy of what it knows of an instance.
    pub(super) fn instance(&self, alloc: Global, epoch: u64) -> Result<Instance, Memory>
        ensures same { IfOk result (λ instance. instance ≡ instance_at epoch self.now.instances) }
        ensures sound { IfOk result IsInstance }
    {
        match self.instances.get(&epoch) {
            Some(instance) => instance.copy(alloc),
            None => Ok(Instance::new()),
        }
    }

    /// Puts what it now knows of an instance. It gives what it knew before, if anything.
    pub(super) fn put_instance(
        &mut self,
        epoch: u64,
        instance: Instance,
    ) -> Result<Option<Instance>, Memory>
        requires { IsInstance instance }
        ensures ok { OnOk result (self.new ≡ with_instance self.old epoch instance) }
        ensures there { OnOk result (IsSome (known_of epoch self.new.instances)) }
        ensures prior { IfOk result (λ prior. instance_rolled_back epoch prior self.new.instances ≡ self.old.instances) }
        ensures err { OnErr result (self.new ≡ self.old) }
    {
        let prior = self.instances.insert(epoch, instance)?;
        Ok(prior)
    }

    /// Puts its latest proposal. It gives the one before, if there was one.
    pub(super) fn put_proposal(&mut self, proposer: Proposer) -> Option<Proposer>
        requires { IsProposal self.old.id self.old.managers proposer }
        ensures put { self.new ≡ record self.old { proposal = Some proposer } }
        ensures prior { result ≡ self.old.proposal }
    {
        self.proposal.replace(proposer)
    }

    /// Holds the view, where its epoch is greater. It gives the view that it held before, exactly then.
    pub(super) fn learn(&mut self, view: View) -> Option<View>
        requires { IsView view }
        ensures held { self.new ≡ record self.old { held = (if nat_lt self.old.held.epoch view.epoch then view else self.old.held) } }
        ensures prior { result ≡ (if nat_lt self.old.held.epoch view.epoch then Some self.old.held else None) }
    {
        if view.epoch <= self.held.epoch {
            return None;
        }
        Some(mem::replace(&mut self.held, view))
    }
}
