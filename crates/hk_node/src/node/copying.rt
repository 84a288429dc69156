//! A joiner asks for copies of rows, and a ready node gives them.

ghost use Rattle.std.specs.Prelude.{◌≡◌, true, IfOk, OnOk, OnErr};
ghost use Rattle.hk_base.specs.Range.{IsRoom};
ghost use Rattle.hk_node.specs.Node.{is_other};
ghost use Rattle.hk_node.specs.Copies.{told, asks_copy, gives_copy};
ghost use Rattle.hk_node.specs.Outs.{IsOutOf};

use super::Node;
use crate::out::{NodeOut, StepReplies, post};
use crate::report::Undo;
use hk_base::{Body, Key, Letters, Memory, NodeId, share_key};
use hk_copy::batch;
use std::alloc::Global;

impl Node {
    // One letter is sent to another member, and nothing changes.
    fn tell(&self, alloc: Global, to: NodeId, body: Body) -> Result<NodeOut, Memory>
        requires other { is_other self.now to ≡ true }
        ensures out { IfOk result (λ out. IsOutOf out self.now (told self.now body to)) }
    {
        let Some(view) = &self.view else {
            unreachable!()
        };
        let mut letters = Letters::new(alloc);
        post(&mut letters, self.id, view, to, body)?;
        Ok(self.tells(alloc, letters, StepReplies::nothing(), Undo::Nothing))
    }

    /// Asks another member for the rows behind the last one that was copied. A ready node does not.
    #[inline(never)]
    pub(super) fn ask_copy(
        &mut self,
        alloc: Global,
        from: NodeId,
        room: u8,
    ) -> Result<NodeOut, Memory>
        requires { IsRoom room }
        ensures node { OnOk result (self.new ≡ (asks_copy self.old from room).node) }
        ensures out { IfOk result (λ out. IsOutOf out self.old (asks_copy self.old from room)) }
        ensures err { OnErr result (self.new ≡ self.old) }
    {
        if self.ready {
            return Ok(self.idle(alloc));
        }
        if !self.is_other(from) {
            return Ok(self.idle(alloc));
        }
        let after = share_key(&self.cursor)?;
        self.tell(alloc, from, Body::CopyAsk { after, room })
    }

    /// Gives another member the next batch.
    pub(super) fn give_copy(
        &mut self,
        alloc: Global,
        to: NodeId,
        after: &Option<Key>,
        room: u8,
    ) -> Result<NodeOut, Memory>
        requires room { IsRoom room }
        requires other { is_other self.old to ≡ true }
        ensures node { OnOk result (self.new ≡ (gives_copy self.old to after.now room).node) }
        ensures out { IfOk result (λ out. IsOutOf out self.old (gives_copy self.old to after.now room)) }
        ensures err { OnErr result (self.new ≡ self.old) }
    {
        if !self.ready {
            return Ok(self.idle(alloc));
        }
        let batch = batch(alloc, self, after.as_ref(), room)?;
        let after = share_key(after)?;
        self.tell(
            alloc,
            to,
            Body::CopyGive {
                after,
                done: batch.done,
                items: batch.items,
            },
        )
    }
}
