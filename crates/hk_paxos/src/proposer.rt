//! Proposers, which choose what to propose and learn what was chosen: phase 2a of Paxos, and what follows phase 2b.

ghost use Rattle.std.specs.Prelude.{◌≡◌, ◌+◌, length, Some, None, if◌then◌else◌, IfOk, OnOk, OnErr};
ghost use Rattle.hk_paxos.specs.Paxos.{is_majority, is_higher, value_or, value_of, counts_promise, counts_acceptance, proposer_new, proposer_on_promise, proposer_on_accepted};

use crate::acceptor::{Promise, copy_of_vote};
use hk_base::{Ballot, Memory, Sequence, View, Voted};
use std::alloc::Global;

/// One proposal of a manager: its ballot, and the answers that came so far.
#[derive(Drop)]
pub struct Proposer {
    epoch: u64,
    ballot: Ballot,
    // what it proposes where nothing was accepted yet
    own: View,
    // how many managers there are
    managers: u8,
    // who promised, up to a majority
    promised: Sequence<u8>,
    // of what they accepted, that of the highest ballot
    highest: Option<Voted>,
    // who accepted, up to a majority
    accepted: Sequence<u8>,
}

// Whether so many are more than half of the managers.
fn is_majority(managers: u8, count: usize) -> bool
    ensures { result ≡ is_majority managers count }
{
    count > usize::from(managers) / 2
}

// Whether what was told was accepted at a higher ballot than what is known.
fn is_higher(told: &Option<Voted>, known: &Option<Voted>) -> bool
    ensures { result ≡ is_higher told.now known.now }
{
    match (told, known) {
        (None, _) => false,
        (Some(_), None) => true,
        (Some(told), Some(known)) => known.ballot < told.ballot,
    }
}

// The view of the highest vote, or the proposer's own where there is none.
fn value_or<'a>(highest: &'a Option<Voted>, own: &'a View) -> &'a View
    ensures { result.now ≡ value_or highest.now own.now }
{
    match highest {
        None => own,
        Some(voted) => &voted.view,
    }
}

impl Proposer {
    /// A proposal of the view in the instance of the epoch, at a ballot that is the manager's own and was never used
    /// before, among so many managers. Room for their answers is taken here.
    pub fn new(
        alloc: Global,
        epoch: u64,
        ballot: Ballot,
        view: View,
        managers: u8,
    ) -> Result<Proposer, Memory>
        ensures { IfOk result (λ proposer. proposer ≡ proposer_new epoch ballot view managers) }
    {
        let promised = Vec::with_capacity(alloc, usize::from(managers))?;
        let accepted = Vec::with_capacity(alloc, usize::from(managers))?;
        Ok(Proposer {
            epoch,
            ballot,
            own: view,
            managers,
            promised: Sequence::from_vec(promised),
            highest: None,
            accepted: Sequence::from_vec(accepted),
        })
    }

    /// An equal proposer.
    pub fn copy(&self, alloc: Global) -> Result<Proposer, Memory>
        ensures { IfOk result (λ copy. copy ≡ self.now) }
    {
        let own = self.own.copy(alloc)?;
        let highest = copy_of_vote(alloc, &self.highest)?;
        let promised = self.promised.as_slice().to_vec(alloc)?;
        let accepted = self.accepted.as_slice().to_vec(alloc)?;
        Ok(Proposer {
            epoch: self.epoch,
            ballot: self.ballot,
            own,
            managers: self.managers,
            promised: Sequence::from_vec(promised),
            highest,
            accepted: Sequence::from_vec(accepted),
        })
    }

    /// The epoch of the view that is agreed on.
    pub fn epoch(&self) -> u64
        ensures { result ≡ self.now.epoch }
    {
        self.epoch
    }

    pub fn ballot(&self) -> Ballot
        ensures { result ≡ self.now.ballot }
    {
        self.ballot
    }

    // Whether a promise of the manager counts.
    fn counts_promise(&self, from: u8, ballot: Ballot) -> bool
        ensures { result ≡ counts_promise self.now from ballot }
    {
        ballot == self.ballot
            && !is_majority(self.managers, self.promised.len())
            && !self.promised.as_slice().contains(&from)
    }

    // Whether an acceptance of the manager counts.
    fn counts_acceptance(&self, from: u8, ballot: Ballot) -> bool
        ensures { result ≡ counts_acceptance self.now from ballot }
    {
        self.ballot == ballot
            && is_majority(self.managers, self.promised.len())
            && !is_majority(self.managers, self.accepted.len())
            && !self.accepted.as_slice().contains(&from)
    }

    // The view to propose where one more promise, which tells this, makes a majority.
    fn view_to_propose(&self, alloc: Global, told: &Option<Voted>) -> Result<Option<View>, Memory>
        ensures { IfOk result (λ view. view ≡ (if is_majority self.now.managers (length self.now.promised + 1)
            then Some (value_or (if is_higher told.now self.now.highest then told.now else self.now.highest) self.now.own) else None)) }
    {
        if !is_majority(self.managers, self.promised.as_slice().len() + 1) {
            return Ok(None);
        }
        let highest = if is_higher(told, &self.highest) {
            told
        } else {
            &self.highest
        };
        let view = value_or(highest, &self.own).copy(alloc)?;
        Ok(Some(view))
    }

    // The chosen view where one more acceptance makes a majority.
    fn view_chosen(&self, alloc: Global) -> Result<Option<View>, Memory>
        ensures { IfOk result (λ view. view ≡ (if is_majority self.now.managers (length self.now.accepted + 1) then Some (value_of self.now) else None)) }
    {
        if !is_majority(self.managers, self.accepted.as_slice().len() + 1) {
            return Ok(None);
        }
        let view = value_or(&self.highest, &self.own).copy(alloc)?;
        Ok(Some(view))
    }

    /// Phase 2a: notes a manager's promise. It gives the view to propose exactly at the promise that makes the majority:
    /// of what those managers accepted, that of the highest ballot, or its own where they accepted nothing. A promise
    /// of another ballot, a repeated one, and one after the majority give None and change nothing. After `Memory`
    /// nothing has changed.
    pub fn on_promise(
        &mut self,
        alloc: Global,
        from: u8,
        promise: Promise,
    ) -> Result<Option<View>, Memory>
        ensures answer { IfOk result (λ answer. answer ≡ (proposer_on_promise self.old from promise).answer) }
        ensures after { OnOk result (self.new ≡ (proposer_on_promise self.old from promise).after) }
        ensures err { OnErr result (self.new ≡ self.old) }
    {
        let Promise { ballot, accepted } = promise;
        if !self.counts_promise(from, ballot) {
            return Ok(None);
        }
        let view = self.view_to_propose(alloc, &accepted)?;
        self.promised.push(from)?;
        if is_higher(&accepted, &self.highest) {
            self.highest = accepted;
        }
        Ok(view)
    }

    /// After phase 2b: notes a manager's acceptance. It gives the view, which is chosen, exactly at the acceptance that
    /// makes the majority. An acceptance at another ballot, a repeated one, one before the view to propose was given,
    /// and one after the majority give None and change nothing. After `Memory` nothing has changed.
    pub fn on_accepted(
        &mut self,
        alloc: Global,
        from: u8,
        ballot: Ballot,
    ) -> Result<Option<View>, Memory>
        ensures answer { IfOk result (λ answer. answer ≡ (proposer_on_accepted self.old from ballot).answer) }
        ensures after { OnOk result (self.new ≡ (proposer_on_accepted self.old from ballot).after) }
        ensures err { OnErr result (self.new ≡ self.old) }
    {
        if !self.counts_acceptance(from, ballot) {
            return Ok(None);
        }
        let view = self.view_chosen(alloc)?;
        self.accepted.push(from)?;
        Ok(view)
    }
}
