//! Which letters are taken, and what becomes of them.

ghost use Rattle.std.specs.Prelude.{◌≡◌, true, IfOk, OnOk, OnErr};
ghost use Rattle.hk_base.specs.Range.{IsBody, IsLetter};
ghost use Rattle.hk_node.specs.Node.{is_other};
ghost use Rattle.hk_node.specs.Steps.{received, receives};
ghost use Rattle.hk_node.specs.Outs.{IsOutOf};

use super::Node;
use crate::out::NodeOut;
use hk_base::{Actor, Body, Letter, Memory, NodeId};
use std::alloc::Global;

impl Node {
    // Takes a letter that is admitted, by its body.
    fn take(&mut self, alloc: Global, from: NodeId, body: &Body) -> Result<NodeOut, Memory>
        requires body { IsBody body.now }
        requires other { is_other self.old from ≡ true }
        ensures node { OnOk result (self.new ≡ (received body.now self.old from).node) }
        ensures out { IfOk result (λ out. IsOutOf out self.old (received body.now self.old from)) }
        ensures err { OnErr result (self.new ≡ self.old) }
    {
        match body {
            Body::Inv {
                key,
                stamp,
                kind,
                content,
            } => self.take_inv(alloc, from, key, *stamp, *kind, content),
            Body::Ack { key, stamp, top } => self.take_ack(alloc, from, key, *stamp, *top),
            Body::Val { key, stamp } => self.take_val(alloc, from, key, *stamp),
            Body::CopyAsk { after, room } => self.give_copy(alloc, from, after, *room),
            Body::CopyGive { after, done, items } => {
                self.take_copy(alloc, from, after, *done, items)
            }
            Body::LeaseAsk { .. } => Ok(self.idle(alloc)),
            Body::LeaseGive { .. } => Ok(self.idle(alloc)),
            Body::Prepare(_) => Ok(self.idle(alloc)),
            Body::Promise { .. } => Ok(self.idle(alloc)),
            Body::Accept { .. } => Ok(self.idle(alloc)),
            Body::Accepted(_) => Ok(self.idle(alloc)),
            Body::Chosen(_) => Ok(self.idle(alloc)),
            Body::Activate(_) => Ok(self.idle(alloc)),
        }
    }

    /// Takes a letter. One that is not addressed to the node, comes from nobody whom it takes letters of, is of an update or a copy
    /// and of another epoch, or is of no kind that a node takes from its sender, is dropped and changes nothing.
    #[inline(never)]
    pub(super) fn receive(&mut self, alloc: Global, letter: &Letter) -> Result<NodeOut, Memory>
        requires { IsLetter letter.now }
        ensures node { OnOk result (self.new ≡ (receives self.old letter.now).node) }
        ensures out { IfOk result (λ out. IsOutOf out self.old (receives self.old letter.now)) }
        ensures err { OnErr result (self.new ≡ self.old) }
    {
        match letter.from {
            Actor::Node(from) => {
                if self.admits(from, letter) {
                    self.take(alloc, from, &letter.body)
                } else {
                    Ok(self.idle(alloc))
                }
            }
            Actor::Manager(from) => self.receive_from_manager(alloc, from, letter),
        }
    }
}
