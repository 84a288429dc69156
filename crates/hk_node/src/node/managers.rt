//! What a node hears from managers, and what it asks of them.

ghost use Rattle.std.specs.Prelude.{◌≡◌, ◌<◌, ◌≤◌, ◌&&◌, nat_lt, max, length, IfOk, OnOk, OnErr};
ghost use Rattle.hk_base.specs.declared.letter.Actor.TheVariants.{Node as NodeActor, Manager};
ghost use Rattle.hk_base.specs.declared.letter.Body.TheVariants.{LeaseAsk};
ghost use Rattle.hk_lease.specs.Ends.{granted_end};
ghost use Rattle.hk_node.specs.Node.{epoch_of};
ghost use Rattle.hk_base.specs.declared.time.TheConstants.{MAX_TIME};
ghost use Rattle.hk_base.specs.View.{IsView};
ghost use Rattle.hk_base.specs.Range.{IsBody, IsLetter};
ghost use Rattle.hk_node.specs.Stepped.{idle};
ghost use Rattle.hk_node.specs.Steps.{is_addressed, granted_by, activated_by, heard, asks_lease, receives};
ghost use Rattle.hk_node.specs.Outs.{IsOutOf};

use super::Node;
use crate::heard::{has_majority, is_greatest, raised};
use crate::out::{NodeOut, StepReplies};
use crate::report::Undo;
use hk_base::{Actor, Body, Letter, Letters, Memory, Sequence, View};
use hk_lease::node_end;
use std::alloc::Global;
use std::mem;

impl Node {
    // Whether the group has a manager of this number.
    fn has_manager(&self, manager: u8) -> bool
        ensures { result ≡ nat_lt manager self.now.managers }
    {
        manager < self.managers
    }

    // The greatest end that was granted, if these are the ends of the managers.
    fn end_by(&self, ends: &Sequence<u64>) -> u64
        requires each { length ends.now ≡ self.now.managers }
        requires some { 1 ≤ self.now.managers }
        ensures { result ≡ max self.now.granted (granted_end ends.now) }
    {
        self.granted.max(node_end(ends.as_slice(), self.managers))
    }

    // A manager granted an end.
    fn take_lease(&mut self, alloc: Global, manager: u8, end: u64) -> Result<NodeOut, Memory>
        requires end { end ≤ MAX_TIME }
        requires there { manager < self.old.managers }
        ensures node { OnOk result (self.new ≡ (granted_by self.old manager end).node) }
        ensures out { IfOk result (λ out. IsOutOf out self.old (granted_by self.old manager end)) }
        ensures err { OnErr result (self.new ≡ self.old) }
    {
        let ends = raised(alloc, &self.ends, manager, end)?;
        let granted = self.end_by(&ends);
        let granted_before = mem::replace(&mut self.granted, granted);
        let ends_before = mem::replace(&mut self.ends, ends);
        let undo = Undo::Granted {
            granted: granted_before,
            ends: ends_before,
        };
        Ok(self.replaces(alloc, undo))
    }

    // So far no more than the ACTIVATEs change.
    fn note_activated(&mut self, alloc: Global, activated: Sequence<u64>) -> NodeOut
        requires { length activated ≡ self.old.managers }
        ensures node { self.new ≡ record self.old { activated = activated } }
        ensures out { IsOutOf result self.old (idle (record self.old { activated = activated })) }
    {
        let before = mem::replace(&mut self.activated, activated);
        self.replaces(alloc, Undo::Activated(before))
    }

    // A manager activated a view.
    fn take_activate(&mut self, alloc: Global, manager: u8, view: &View) -> Result<NodeOut, Memory>
        requires view { IsView view.now }
        requires there { manager < self.old.managers }
        ensures node { OnOk result (self.new ≡ (activated_by self.old manager view.now).node) }
        ensures out { IfOk result (λ out. IsOutOf out self.old (activated_by self.old manager view.now)) }
        ensures err { OnErr result (self.new ≡ self.old) }
    {
        if !is_greatest(view.epoch, &self.activated) {
            return Ok(self.idle(alloc));
        }
        let activated = raised(alloc, &self.activated, manager, view.epoch)?;
        if !has_majority(view.epoch, &activated) {
            return Ok(self.note_activated(alloc, activated));
        }
        if !self.installs(view) {
            return Ok(self.note_activated(alloc, activated));
        }
        self.install_view(alloc, view, activated)
    }

    // Takes what a manager that is there says.
    fn hear(&mut self, alloc: Global, from: u8, body: &Body) -> Result<NodeOut, Memory>
        requires body { IsBody body.now }
        requires there { from < self.old.managers }
        ensures node { OnOk result (self.new ≡ (heard body.now self.old from).node) }
        ensures out { IfOk result (λ out. IsOutOf out self.old (heard body.now self.old from)) }
        ensures err { OnErr result (self.new ≡ self.old) }
    {
        match body {
            Body::LeaseGive { end } => self.take_lease(alloc, from, *end),
            Body::Activate(view) => self.take_activate(alloc, from, view),
            Body::Inv { .. } => Ok(self.idle(alloc)),
            Body::Ack { .. } => Ok(self.idle(alloc)),
            Body::Val { .. } => Ok(self.idle(alloc)),
            Body::CopyAsk { .. } => Ok(self.idle(alloc)),
            Body::CopyGive { .. } => Ok(self.idle(alloc)),
            Body::LeaseAsk { .. } => Ok(self.idle(alloc)),
            Body::Prepare(_) => Ok(self.idle(alloc)),
            Body::Promise { .. } => Ok(self.idle(alloc)),
            Body::Accept { .. } => Ok(self.idle(alloc)),
            Body::Accepted(_) => Ok(self.idle(alloc)),
            Body::Chosen(_) => Ok(self.idle(alloc)),
        }
    }

    // Whether a letter of this manager is taken.
    fn hears(&self, from: u8, letter: &Letter) -> bool
        ensures { result ≡ (is_addressed self.now letter.now.to && nat_lt from self.now.managers) }
    {
        self.is_addressed(letter.to) && self.has_manager(from)
    }

    /// Takes a letter of a manager. One that is not addressed to the node, comes from a manager that is not there, or is neither a
    /// lease nor an ACTIVATE, is dropped and changes nothing.
    #[inline(never)]
    pub(super) fn receive_from_manager(
        &mut self,
        alloc: Global,
        from: u8,
        letter: &Letter,
    ) -> Result<NodeOut, Memory>
        requires letter { IsLetter letter.now }
        requires from { letter.now.from ≡ Manager from }
        ensures node { OnOk result (self.new ≡ (receives self.old letter.now).node) }
        ensures out { IfOk result (λ out. IsOutOf out self.old (receives self.old letter.now)) }
        ensures err { OnErr result (self.new ≡ self.old) }
    {
        if self.hears(from, letter) {
            self.hear(alloc, from, &letter.body)
        } else {
            Ok(self.idle(alloc))
        }
    }

    // What a manager is asked.
    fn lease_ask(&self, manager: u8) -> Letter
        ensures { result ≡ record { epoch = epoch_of self.now; from = NodeActor self.now.id; to = Manager manager; body = LeaseAsk self.now.clock } }
    {
        Letter {
            epoch: self.epoch(),
            from: Actor::Node(self.id),
            to: Actor::Manager(manager),
            body: Body::LeaseAsk { asked: self.clock },
        }
    }

    /// Asks a manager for a lease. One that is not there is not asked.
    #[inline(never)]
    pub(super) fn ask_lease(&mut self, alloc: Global, manager: u8) -> Result<NodeOut, Memory>
        ensures node { OnOk result (self.new ≡ (asks_lease self.old manager).node) }
        ensures out { IfOk result (λ out. IsOutOf out self.old (asks_lease self.old manager)) }
        ensures err { OnErr result (self.new ≡ self.old) }
    {
        if !self.has_manager(manager) {
            return Ok(self.idle(alloc));
        }
        let mut letters = Letters::new(alloc);
        letters.push(self.lease_ask(manager))?;
        Ok(self.tells(alloc, letters, StepReplies::nothing(), Undo::Nothing))
    }
}
