//! The letters that a step sends.

ghost use Rattle.std.specs.Prelude.{◌≡◌, ◌++◌, ◌∷◌, [], Option, IfOk, OnOk};
ghost use Rattle.hk_base.specs.declared.letter.Actor.TheVariants.{Manager as ManagerOf};
ghost use Rattle.hk_manager.specs.Manager.{ManagerState};
ghost use Rattle.hk_manager.specs.Sends.{letter_to, to_all, to_others, to_members, told_all};
ghost use Rattle.hk_manager.specs.Steps.{idle};
ghost use Rattle.hk_manager.specs.Outs.{made};
ghost use Rattle.hk_manager.specs.Undone.{HasReplaced};

use super::Manager;
use crate::out::{ManagerOut, Replaced};
use hk_base::{Actor, Body, Letter, Letters, Memory};
use std::alloc::Global;

/// Nothing happens. It takes no memory.
pub(super) fn idle(alloc: Global) -> ManagerOut
    ensures made { (m : ManagerState) → made m result ≡ idle m }
    ensures replaced { (m : ManagerState) → HasReplaced result.replaced m m }
{
    ManagerOut {
        letters: Letters::new(alloc),
        chosen: None,
        replaced: Replaced::Nothing,
    }
}

impl Manager {
    /// Adds a letter to one actor.
    pub(super) fn post(
        &self,
        letters: &mut Letters,
        epoch: u64,
        body: Body,
        to: Actor,
    ) -> Result<(), Memory>
        ensures { OnOk result (letters.new ≡ letters.old ++ letter_to self.now epoch body to ∷ []) }
    {
        letters.push(Letter {
            epoch,
            from: Actor::Manager(self.id),
            to,
            body,
        })
    }

    /// A letter to every manager, itself too.
    pub(super) fn post_all(&self, alloc: Global, epoch: u64, body: &Body) -> Result<Letters, Memory>
        ensures { IfOk result (λ letters. letters ≡ to_all self.now epoch body.now) }
    {
        let mut letters = Letters::new(alloc);
        for to in 0..self.managers {
            let body = body.share(alloc)?;
            self.post(&mut letters, epoch, body, Actor::Manager(to))?;
        }
        Ok(letters)
    }

    /// A letter to every other manager.
    pub(super) fn post_others(
        &self,
        alloc: Global,
        epoch: u64,
        body: &Body,
    ) -> Result<Letters, Memory>
        ensures { IfOk result (λ letters. letters ≡ to_others self.now epoch body.now) }
    {
        let mut letters = Letters::new(alloc);
        for to in 0..self.managers {
            if to != self.id {
                let body = body.share(alloc)?;
                self.post(&mut letters, epoch, body, Actor::Manager(to))?;
            }
        }
        Ok(letters)
    }

    /// A letter to every member of the view that it holds.
    pub(super) fn post_members(
        &self,
        alloc: Global,
        epoch: u64,
        body: &Body,
    ) -> Result<Letters, Memory>
        ensures { IfOk result (λ letters. letters ≡ to_members self.now epoch body.now) }
    {
        let mut letters = Letters::new(alloc);
        for member in self.held.members.as_slice() {
            let body = body.share(alloc)?;
            self.post(&mut letters, epoch, body, Actor::Node(*member))?;
        }
        Ok(letters)
    }

    /// A letter to every manager, if there is something to say.
    pub(super) fn tell_all(
        &self,
        alloc: Global,
        epoch: u64,
        body: &Option<Body>,
    ) -> Result<Letters, Memory>
        ensures { IfOk result (λ letters. letters ≡ told_all self.now epoch body.now) }
    {
        match body {
            Some(body) => self.post_all(alloc, epoch, body),
            None => Ok(Letters::new(alloc)),
        }
    }
}
