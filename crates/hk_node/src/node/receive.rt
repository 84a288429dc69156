//! Letters that are taken.

ghost use Rattle.std.specs.Prelude.{◌≡◌, true, None, Some, IfOk, OnOk, OnErr, ◌&&◌, ◌==◌, not};
ghost use Rattle.hk_base.specs.Range.{IsWithin, Leaves, IsLetter, IsRoom, IsBatch};
ghost use Rattle.hk_base.specs.declared.letter.Body.TheVariants.{Inv, Ack, Val, CopyAsk, CopyGive};
ghost use Rattle.hk_node.specs.Node.{epoch_of, is_other};
ghost use Rattle.hk_node.specs.Rows.{find_row, row_at};
ghost use Rattle.hk_node.specs.Steps.{is_addressed, received, receives};
ghost use Rattle.hk_node.specs.Sound.{IsNode};
ghost use Rattle.hk_node.specs.Outs.{IsOutOf};

use super::Node;
use super::finish::put_stepped;
use crate::out::NodeOut;
use hk_base::{Actor, Body, Content, Key, Kind, Letter, Memory, NodeId, Stamp, share_content};
use hk_key::{Out, Row};
use std::alloc::Global;

impl Node {
    /// Whether it is another member of the node's view.
    pub(super) fn is_other(&self, from: NodeId) -> bool
        ensures { result ≡ is_other self.now from }
    {
        match &self.view {
            Some(view) => view.has_member(from) && from.0 != self.id.0,
            None => false,
        }
    }

    /// Whether it is the node itself that is addressed.
    pub(super) fn is_addressed(&self, to: Actor) -> bool
        ensures { result ≡ is_addressed self.now to }
    {
        match to {
            Actor::Node(to) => to.0 == self.id.0,
            Actor::Manager(_) => false,
        }
    }

    /// Whether a letter of this sender is taken.
    pub(super) fn admits(&self, from: NodeId, letter: &Letter) -> bool
        ensures { result ≡ (is_addressed self.now letter.now.to && ((letter.now.epoch == epoch_of self.now) && is_other self.now from)) }
    {
        self.is_addressed(letter.to) && letter.epoch == self.epoch() && self.is_other(from)
    }

    // Takes an INV of a key that has no row.
    fn first_inv(
        &mut self,
        alloc: Global,
        from: NodeId,
        key: &Key,
        stamp: Stamp,
        kind: Kind,
        content: Option<Content>,
    ) -> Result<NodeOut, Memory>
        requires within { IsWithin stamp }
        requires leaves { Leaves kind content }
        requires other { is_other self.old from ≡ true }
        requires none { find_row key.now self.old.rows ≡ None }
        requires node { IsNode self.old }
        ensures node { OnOk result (self.new ≡ (received (Inv key.now stamp kind content) self.old from).node) }
        ensures out { IfOk result (λ out. IsOutOf out self.old (received (Inv key.now stamp kind content) self.old from)) }
        ensures err { OnErr result (self.new ≡ self.old) }
    {
        let mut row = Row::first();
        let out = row.on_inv(from, stamp, kind, content);
        self.finish(alloc, key, row, out)
    }

    /// Takes an INV.
    pub(super) fn take_inv(
        &mut self,
        alloc: Global,
        from: NodeId,
        key: &Key,
        stamp: Stamp,
        kind: Kind,
        content: &Option<Content>,
    ) -> Result<NodeOut, Memory>
        requires within { IsWithin stamp }
        requires leaves { Leaves kind content.now }
        requires other { is_other self.old from ≡ true }
        ensures node { OnOk result (self.new ≡ (received (Inv key.now stamp kind content.now) self.old from).node) }
        ensures out { IfOk result (λ out. IsOutOf out self.old (received (Inv key.now stamp kind content.now) self.old from)) }
        ensures err { OnErr result (self.new ≡ self.old) }
    {
        let content = share_content(content)?;
        let Some(view) = &self.view else {
            unreachable!()
        };
        let Some(place) = self.rows.get_mut(key) else {
            return self.first_inv(alloc, from, key, stamp, kind, content);
        };
        let mut row = place.get().copy(alloc)?;
        let out = row.on_inv(from, stamp, kind, content);
        let told = put_stepped(place, &mut self.index, alloc, self.id, view, key, row, out)?;
        Ok(told)
    }

    /// Takes an ACK.
    pub(super) fn take_ack(
        &mut self,
        alloc: Global,
        from: NodeId,
        key: &Key,
        stamp: Stamp,
        top: Stamp,
    ) -> Result<NodeOut, Memory>
        requires within { IsWithin stamp }
        requires top { IsWithin top }
        requires other { is_other self.old from ≡ true }
        ensures node { OnOk result (self.new ≡ (received (Ack key.now stamp top) self.old from).node) }
        ensures out { IfOk result (λ out. IsOutOf out self.old (received (Ack key.now stamp top) self.old from)) }
        ensures err { OnErr result (self.new ≡ self.old) }
    {
        let Some(view) = &self.view else {
            unreachable!()
        };
        let Some(place) = self.rows.get_mut(key) else {
            return Ok(self.idle(alloc));
        };
        let mut row = place.get().copy(alloc)?;
        let out = row.on_ack(self.id, view, from, stamp, top);
        let told = put_stepped(place, &mut self.index, alloc, self.id, view, key, row, out)?;
        Ok(told)
    }

    /// Takes a VAL.
    pub(super) fn take_val(
        &mut self,
        alloc: Global,
        from: NodeId,
        key: &Key,
        stamp: Stamp,
    ) -> Result<NodeOut, Memory>
        requires within { IsWithin stamp }
        requires other { is_other self.old from ≡ true }
        ensures node { OnOk result (self.new ≡ (received (Val key.now stamp) self.old from).node) }
        ensures out { IfOk result (λ out. IsOutOf out self.old (received (Val key.now stamp) self.old from)) }
        ensures err { OnErr result (self.new ≡ self.old) }
    {
        let Some(view) = &self.view else {
            unreachable!()
        };
        let Some(place) = self.rows.get_mut(key) else {
            return Ok(self.idle(alloc));
        };
        let mut row = place.get().copy(alloc)?;
        row.on_val(stamp);
        let out = Out {
            send: None,
            reply: None,
        };
        let told = put_stepped(place, &mut self.index, alloc, self.id, view, key, row, out)?;
        Ok(told)
    }
}
