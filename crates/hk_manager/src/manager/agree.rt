//! Letters of Paxos.

ghost use Rattle.std.specs.Prelude.{◌≡◌, ◌==◌, if◌then◌else◌, Some, IfSome, IfOk};
ghost use Rattle.std.specs.Option.{option_map};
ghost use Rattle.hk_base.specs.declared.letter.Body.TheVariants.{Accept, Accepted};
ghost use Rattle.hk_base.specs.Range.{IsBallot, IsVote};
ghost use Rattle.hk_base.specs.View.{IsView};
ghost use Rattle.hk_paxos.specs.declared.acceptor.Promise.{Promise};
ghost use Rattle.hk_manager.specs.Steps.{sends, idle, is_too_late, promise_body, prepares, accepts, proposal_in, at_proposal, counts_promise, reports, counts_acceptance};
ghost use Rattle.hk_manager.specs.Sound.{IsInstance, IsProposal};
ghost use Rattle.hk_manager.specs.Manager.{with_instance};
ghost use Rattle.hk_manager.specs.Undone.{HasReplaced, TellsReplaced};
ghost use Rattle.hk_manager.specs.Outs.{made, IsMadeOf};

use super::Manager;
use super::post::idle;
use crate::instance::{Instance, MAX_ROUND};
use crate::out::{ManagerOut, Replaced};
use hk_base::{Ballot, Body, Letters, Memory, View, Voted};
use hk_paxos::{Promise, Proposer};
use std::alloc::Global;

// What is said of a promise.
fn promise_body(promise: Option<Promise>) -> Option<Body>
    ensures { result ≡ option_map promise_body promise }
{
    match promise {
        Some(promise) => Some(Body::Promise {
            ballot: promise.ballot,
            accepted: promise.accepted,
        }),
        None => None,
    }
}

// What is said of an acceptance.
fn accepted_body(accepted: Option<Ballot>) -> Option<Body>
    ensures { result ≡ option_map (λ at. Accepted at) accepted }
{
    match accepted {
        Some(ballot) => Some(Body::Accepted(ballot)),
        None => None,
    }
}

// What is said of a view to propose.
fn accept_body(ballot: Ballot, view: Option<View>) -> Option<Body>
    ensures { result ≡ option_map (λ view. Accept ballot view) view }
{
    match view {
        Some(view) => Some(Body::Accept { ballot, view }),
        None => None,
    }
}

// Whether the round is above the greatest.
fn is_too_late(ballot: Ballot) -> bool
    ensures { result ≡ is_too_late ballot }
{
    ballot.round > MAX_ROUND
}

// Whether the proposal is of the instance.
fn is_of(proposer: &Proposer, epoch: u64) -> bool
    ensures { result ≡ (proposer.now.epoch == epoch) }
{
    proposer.epoch() == epoch
}

// The epoch of a view that is held in place of another one.
fn epoch_learned(prior: &Option<View>, epoch: u64) -> Option<u64>
    ensures { result ≡ option_map (λ _view. epoch) prior.now }
{
    match prior {
        Some(_) => Some(epoch),
        None => None,
    }
}

impl Manager {
    // Puts what it now knows of an instance, with what it says of it.
    fn put_known(
        &mut self,
        epoch: u64,
        instance: Instance,
        letters: Letters,
    ) -> Result<ManagerOut, Memory>
        requires { IsInstance instance }
        ensures made { IsMadeOf result self.old self.new (sends (with_instance self.old epoch instance) letters) }
        ensures replaced { TellsReplaced result self.old self.new }
    {
        let prior = self.put_instance(epoch, instance)?;
        Ok(ManagerOut {
            letters,
            chosen: None,
            replaced: Replaced::Instance {
                epoch,
                instance: prior,
            },
        })
    }

    // Puts its latest proposal, with what it says of it.
    fn put_counted(&mut self, proposer: Proposer, letters: Letters) -> ManagerOut
        requires { IsProposal self.old.id self.old.managers proposer }
        ensures made { made self.new result ≡ sends (record self.old { proposal = Some proposer }) letters }
        ensures replaced { HasReplaced result.replaced self.old self.new }
    {
        let proposal = self.put_proposal(proposer);
        ManagerOut {
            letters,
            chosen: None,
            replaced: Replaced::Proposal {
                proposal,
                held: None,
            },
        }
    }

    /// Takes a Prepare.
    pub(super) fn take_prepare(
        &mut self,
        alloc: Global,
        epoch: u64,
        ballot: Ballot,
    ) -> Result<ManagerOut, Memory>
        ensures made { IsMadeOf result self.old self.new (if is_too_late ballot then idle self.old else prepares self.old epoch ballot) }
        ensures replaced { TellsReplaced result self.old self.new }
    {
        if is_too_late(ballot) {
            return Ok(idle(alloc));
        }
        let mut instance = self.instance(alloc, epoch)?;
        let promise = instance.prepare(alloc, ballot)?;
        let body = promise_body(promise);
        let letters = self.tell_all(alloc, epoch, &body)?;
        self.put_known(epoch, instance, letters)
    }

    /// Takes an Accept.
    pub(super) fn take_accept(
        &mut self,
        alloc: Global,
        epoch: u64,
        ballot: Ballot,
        view: &View,
    ) -> Result<ManagerOut, Memory>
        requires ballot { IsBallot ballot }
        requires view { IsView view.now }
        ensures made { IsMadeOf result self.old self.new (if is_too_late ballot then idle self.old else accepts self.old epoch ballot view.now) }
        ensures replaced { TellsReplaced result self.old self.new }
    {
        if is_too_late(ballot) {
            return Ok(idle(alloc));
        }
        let mut instance = self.instance(alloc, epoch)?;
        let view = view.copy(alloc)?;
        let accepted = instance.accept(ballot, view);
        let body = accepted_body(accepted);
        let letters = self.tell_all(alloc, epoch, &body)?;
        self.put_known(epoch, instance, letters)
    }

    // A copy of the latest proposal, where it is of this instance.
    fn proposal_in(&self, alloc: Global, epoch: u64) -> Result<Option<Proposer>, Memory>
        ensures same { IfOk result (λ proposal. proposal ≡ proposal_in self.now.proposal epoch) }
        ensures sound { IfOk result (λ proposal. IfSome proposal (IsProposal self.now.id self.now.managers)) }
    {
        match &self.proposal {
            Some(proposer) => {
                if !is_of(proposer, epoch) {
                    return Ok(None);
                }
                let copy = proposer.copy(alloc)?;
                Ok(Some(copy))
            }
            None => Ok(None),
        }
    }

    // Counts a promise at a copy of the latest proposal, which it puts.
    fn count_promise(
        &mut self,
        alloc: Global,
        proposer: Proposer,
        from: u8,
        promise: Promise,
    ) -> Result<ManagerOut, Memory>
        requires sound { IsProposal self.old.id self.old.managers proposer }
        requires vote { IfSome promise.accepted IsVote }
        ensures made { IsMadeOf result self.old self.new (counts_promise proposer self.old from promise) }
        ensures replaced { TellsReplaced result self.old self.new }
    {
        let epoch = proposer.epoch();
        let ballot = proposer.ballot();
        let mut proposer = proposer;
        let view = proposer.on_promise(alloc, from, promise)?;
        let body = accept_body(ballot, view);
        let letters = self.tell_all(alloc, epoch, &body)?;
        Ok(self.put_counted(proposer, letters))
    }

    /// Takes a Promise.
    pub(super) fn take_promise(
        &mut self,
        alloc: Global,
        epoch: u64,
        from: u8,
        ballot: Ballot,
        accepted: &Option<Voted>,
    ) -> Result<ManagerOut, Memory>
        requires { IfSome accepted.now IsVote }
        ensures made { IsMadeOf result self.old self.new (at_proposal (proposal_in self.old.proposal epoch) self.old (λ proposer. counts_promise proposer self.old from (record { ballot = ballot; accepted = accepted.now }))) }
        ensures replaced { TellsReplaced result self.old self.new }
    {
        match self.proposal_in(alloc, epoch)? {
            Some(proposer) => {
                let promise = Promise::telling(alloc, ballot, accepted)?;
                self.count_promise(alloc, proposer, from, promise)
            }
            None => Ok(idle(alloc)),
        }
    }

    // Reports a chosen view to the other managers, and holds it.
    fn report(
        &mut self,
        alloc: Global,
        proposer: Proposer,
        view: View,
    ) -> Result<ManagerOut, Memory>
        requires sound { IsProposal self.old.id self.old.managers proposer }
        requires view { IsView view }
        ensures made { IsMadeOf result self.old self.new (reports (record self.old { proposal = Some proposer }) (Some view)) }
        ensures replaced { TellsReplaced result self.old self.new }
    {
        let epoch = view.epoch;
        let body = Body::Chosen(view.copy(alloc)?);
        let letters = self.post_others(alloc, epoch, &body)?;
        let proposal = self.put_proposal(proposer);
        let held = self.learn(view);
        Ok(ManagerOut {
            letters,
            chosen: epoch_learned(&held, epoch),
            replaced: Replaced::Proposal { proposal, held },
        })
    }

    // Counts an acceptance at a copy of the latest proposal, which it puts.
    fn count_acceptance(
        &mut self,
        alloc: Global,
        proposer: Proposer,
        from: u8,
        ballot: Ballot,
    ) -> Result<ManagerOut, Memory>
        requires { IsProposal self.old.id self.old.managers proposer }
        ensures made { IsMadeOf result self.old self.new (counts_acceptance proposer self.old from ballot) }
        ensures replaced { TellsReplaced result self.old self.new }
    {
        let mut proposer = proposer;
        match proposer.on_accepted(alloc, from, ballot)? {
            Some(view) => self.report(alloc, proposer, view),
            None => {
                let none = Letters::new(alloc);
                Ok(self.put_counted(proposer, none))
            }
        }
    }

    /// Takes an Accepted.
    pub(super) fn take_accepted(
        &mut self,
        alloc: Global,
        epoch: u64,
        from: u8,
        ballot: Ballot,
    ) -> Result<ManagerOut, Memory>
        ensures made { IsMadeOf result self.old self.new (at_proposal (proposal_in self.old.proposal epoch) self.old (λ proposer. counts_acceptance proposer self.old from ballot)) }
        ensures replaced { TellsReplaced result self.old self.new }
    {
        match self.proposal_in(alloc, epoch)? {
            Some(proposer) => self.count_acceptance(alloc, proposer, from, ballot),
            None => Ok(idle(alloc)),
        }
    }
}
