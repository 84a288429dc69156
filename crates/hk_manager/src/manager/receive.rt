//! Which letters are taken, and what becomes of them.

ghost use Rattle.std.specs.Prelude.{◌≡◌, ◌&&◌, [], nat_le, nat_lt};
ghost use Rattle.hk_base.specs.Range.{IsBody, IsLetter};
ghost use Rattle.hk_base.specs.View.{IsView};
ghost use Rattle.hk_manager.specs.Steps.{is_addressed, from_node, from_manager, learns, receives_from, receives};
ghost use Rattle.hk_manager.specs.declared.instance.TheConstants.{MAX_EPOCH};
ghost use Rattle.hk_manager.specs.Undone.{TellsReplaced};
ghost use Rattle.hk_manager.specs.Outs.{IsMadeOf};

use super::Manager;
use super::post::idle;
use crate::instance::MAX_EPOCH;
use crate::out::{ManagerOut, Replaced};
use hk_base::{Actor, Body, Letter, Letters, Memory, NodeId, View};
use std::alloc::Global;

impl Manager {
    // Takes a letter of a node.
    fn take_from_node(
        &mut self,
        alloc: Global,
        from: NodeId,
        body: &Body,
    ) -> Result<ManagerOut, Memory>
        requires { IsBody body.now }
        ensures made { IsMadeOf result self.old self.new (from_node body.now self.old from) }
        ensures replaced { TellsReplaced result self.old self.new }
    {
        match body {
            Body::LeaseAsk { asked } => self.take_ask(alloc, from, *asked),
            _ => Ok(idle(alloc)),
        }
    }

    // Takes a Chosen.
    fn take_chosen(&mut self, alloc: Global, view: &View) -> Result<ManagerOut, Memory>
        requires { IsView view.now }
        ensures made { IsMadeOf result self.old self.new (learns self.old view.now []) }
        ensures replaced { TellsReplaced result self.old self.new }
    {
        let view = view.copy(alloc)?;
        let epoch = view.epoch;
        match self.learn(view) {
            Some(prior) => Ok(ManagerOut {
                letters: Letters::new(alloc),
                chosen: Some(epoch),
                replaced: Replaced::Held(prior),
            }),
            None => Ok(idle(alloc)),
        }
    }

    // Takes a letter of one of the managers.
    fn take_from_manager(
        &mut self,
        alloc: Global,
        epoch: u64,
        from: u8,
        body: &Body,
    ) -> Result<ManagerOut, Memory>
        requires { IsBody body.now }
        ensures made { IsMadeOf result self.old self.new (from_manager body.now self.old epoch from) }
        ensures replaced { TellsReplaced result self.old self.new }
    {
        match body {
            Body::Prepare(ballot) => self.take_prepare(alloc, epoch, *ballot),
            Body::Promise { ballot, accepted } => {
                self.take_promise(alloc, epoch, from, *ballot, accepted)
            }
            Body::Accept { ballot, view } => self.take_accept(alloc, epoch, *ballot, view),
            Body::Accepted(ballot) => self.take_accepted(alloc, epoch, from, *ballot),
            Body::Chosen(view) => self.take_chosen(alloc, view),
            _ => Ok(idle(alloc)),
        }
    }

    // Whether it is the manager itself that is addressed.
    fn is_addressed(&self, to: Actor) -> bool
        ensures { result ≡ is_addressed self.now to }
    {
        match to {
            Actor::Node(_) => false,
            Actor::Manager(to) => to == self.id,
        }
    }

    // Whether a letter is for the manager, and of an instance that there is.
    fn admits(&self, letter: &Letter) -> bool
        ensures { result ≡ (is_addressed self.now letter.now.to && nat_le letter.now.epoch MAX_EPOCH) }
    {
        self.is_addressed(letter.to) && letter.epoch <= MAX_EPOCH
    }

    // Whether there is a manager of this number.
    fn has_manager(&self, from: u8) -> bool
        ensures { result ≡ nat_lt from self.now.managers }
    {
        from < self.managers
    }

    // Takes a letter that is admitted.
    fn take(&mut self, alloc: Global, letter: &Letter) -> Result<ManagerOut, Memory>
        requires { IsBody letter.now.body }
        ensures made { IsMadeOf result self.old self.new (receives_from letter.now.from self.old letter.now) }
        ensures replaced { TellsReplaced result self.old self.new }
    {
        match letter.from {
            Actor::Node(from) => self.take_from_node(alloc, from, &letter.body),
            Actor::Manager(from) => {
                if !self.has_manager(from) {
                    return Ok(idle(alloc));
                }
                self.take_from_manager(alloc, letter.epoch, from, &letter.body)
            }
        }
    }

    /// Takes a letter. One that is not addressed to the manager, whose epoch is above the greatest, or that a manager takes from no
    /// such sender, is dropped and changes nothing.
    pub fn receive(&mut self, alloc: Global, letter: &Letter) -> Result<ManagerOut, Memory>
        requires { IsLetter letter.now }
        ensures made { IsMadeOf result self.old self.new (receives self.old letter.now) }
        ensures replaced { TellsReplaced result self.old self.new }
    {
        if !self.admits(letter) {
            return Ok(idle(alloc));
        }
        self.take(alloc, letter)
    }
}
