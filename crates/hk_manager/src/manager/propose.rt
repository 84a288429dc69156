//! Proposals.

ghost use Rattle.std.specs.Prelude.{◌≡◌, ◌<◌, ◌+◌, None, Some, IfOk, OnOk, OnErr};
ghost use Rattle.hk_manager.specs.declared.instance.TheConstants.{MAX_EPOCH, MAX_ROUND};
ghost use Rattle.hk_paxos.specs.Paxos.{proposer_new};
ghost use Rattle.hk_manager.specs.Manager.{instance_at, with_instance};
ghost use Rattle.hk_manager.specs.Changes.{changed, change_fault};
ghost use Rattle.hk_manager.specs.Steps.{begins, proposes};
ghost use Rattle.hk_manager.specs.Sound.{IsInstance, IsProposal};
ghost use Rattle.hk_manager.specs.Undone.{HasReplaced, TellsReplaced};
ghost use Rattle.hk_manager.specs.Outs.{IsMadeOf, IsStepOf};

use super::Manager;
use super::post::idle;
use crate::change::{changed, check_change};
use crate::fault::ManagerFault;
use crate::instance::{Instance, MAX_EPOCH, MAX_ROUND};
use crate::out::{ManagerOut, Replaced};
use hk_base::{Ballot, Body, Change, Memory};
use hk_paxos::Proposer;
use std::alloc::Global;

impl Manager {
    // A proposal of the changed view.
    fn proposal_of(
        &self,
        alloc: Global,
        epoch: u64,
        ballot: Ballot,
        change: Change,
    ) -> Result<Proposer, Memory>
        requires late { self.now.held.epoch < MAX_EPOCH }
        requires possible { change_fault self.now.held change ≡ None }
        ensures { IfOk result (λ proposer. proposer ≡ proposer_new epoch ballot (changed self.now.held change) self.now.managers) }
    {
        let view = changed(alloc, &self.held, change)?;
        Proposer::new(alloc, epoch, ballot, view, self.managers)
    }

    // Puts what it knows of an instance in which it proposes, and the proposal. It gives what the step replaced.
    fn put_begun(
        &mut self,
        epoch: u64,
        instance: Instance,
        proposer: Proposer,
    ) -> Result<Replaced, Memory>
        requires instance { IsInstance instance }
        requires proposer { IsProposal self.old.id self.old.managers proposer }
        ensures ok { OnOk result (self.new ≡ record (with_instance self.old epoch instance) { proposal = Some proposer }) }
        ensures replaced { IfOk result (λ replaced. HasReplaced replaced self.old self.new) }
        ensures err { OnErr result (self.new ≡ self.old) }
    {
        let instance = self.put_instance(epoch, instance)?;
        let proposal = self.put_proposal(proposer);
        Ok(Replaced::Begun {
            epoch,
            instance,
            proposal,
        })
    }

    // Proposes at the ballot, whose round is the next one of the instance.
    fn begin_in(
        &mut self,
        alloc: Global,
        epoch: u64,
        ballot: Ballot,
        instance: Instance,
        change: Change,
    ) -> Result<ManagerOut, Memory>
        requires epoch { epoch ≡ self.old.held.epoch + 1 }
        requires known { instance ≡ instance_at epoch self.old.instances }
        requires own { ballot ≡ record { round = instance.round + 1; manager = self.old.id } }
        requires late { self.old.held.epoch < MAX_EPOCH }
        requires round { instance.round < MAX_ROUND }
        requires possible { change_fault self.old.held change ≡ None }
        ensures made { IsMadeOf result self.old self.new (begins self.old change) }
        ensures replaced { TellsReplaced result self.old self.new }
    {
        let _ = &self.id;
        let proposer = self.proposal_of(alloc, epoch, ballot, change)?;
        let letters = self.post_all(alloc, epoch, &Body::Prepare(ballot))?;
        let instance = Instance {
            acceptor: instance.acceptor,
            round: ballot.round,
        };
        let replaced = self.put_begun(epoch, instance, proposer)?;
        Ok(ManagerOut {
            letters,
            chosen: None,
            replaced,
        })
    }

    // Proposes a change that may be, where there is a round for it.
    fn begin_at(&mut self, alloc: Global, epoch: u64, change: Change) -> Result<ManagerOut, Memory>
        requires epoch { epoch ≡ self.old.held.epoch + 1 }
        requires late { self.old.held.epoch < MAX_EPOCH }
        requires possible { change_fault self.old.held change ≡ None }
        ensures made { IsMadeOf result self.old self.new (begins self.old change) }
        ensures replaced { TellsReplaced result self.old self.new }
    {
        let instance = self.instance(alloc, epoch)?;
        if instance.round >= MAX_ROUND {
            return Ok(idle(alloc));
        }
        let ballot = Ballot {
            round: instance.round + 1,
            manager: self.id,
        };
        self.begin_in(alloc, epoch, ballot, instance, change)
    }

    // Proposes a change that may be, where there is an epoch for it.
    fn begin(&mut self, alloc: Global, change: Change) -> Result<ManagerOut, Memory>
        requires { change_fault self.old.held change ≡ None }
        ensures made { IsMadeOf result self.old self.new (begins self.old change) }
        ensures replaced { TellsReplaced result self.old self.new }
    {
        if self.held.epoch >= MAX_EPOCH {
            return Ok(idle(alloc));
        }
        self.begin_at(alloc, self.held.epoch + 1, change)
    }

    /// Proposes a change of the view of the epoch `base`, which it must hold.
    pub fn propose(
        &mut self,
        alloc: Global,
        base: u64,
        change: Change,
    ) -> Result<ManagerOut, ManagerFault>
        ensures made { IsStepOf result self.old self.new (proposes self.old base change) }
        ensures replaced { TellsReplaced result self.old self.new }
    {
        if self.held.epoch != base {
            return Err(ManagerFault::Behind {
                held: self.held.epoch,
            });
        }
        check_change(&self.held, change)?;
        let out = self.begin(alloc, change)?;
        Ok(out)
    }
}
