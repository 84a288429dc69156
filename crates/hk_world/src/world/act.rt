//! The step of one live node.

ghost use Rattle.std.specs.Prelude.{◌≡◌, IfOk, IfErr, Ok, Err, Some, None};
ghost use Rattle.hk_world.specs.World.{WorldState, process_at};
ghost use Rattle.hk_world.specs.Steps.{live, calls_at};
ghost use Rattle.hk_world.specs.Sound.{IsWorld, IsAnswerOf};
ghost use Rattle.hk_world.specs.Acting.{IsAct, made_by, allowed, counting, running};

use super::World;
use super::post::post;
use crate::fault::WorldFault;
use crate::shown::Shown;
use hk_base::{CallNo, Key, Memory, NodeId, Op};
use hk_event::Refused;
use hk_node::{Node, NodeEvent, steps_keep_nodes};
use std::alloc::Global;

impl World {
    /// The node of this number, if it is there and has not crashed.
    pub(super) fn live(&self, id: NodeId) -> Result<&Node, Refused>
        ensures ok { IfOk result (λ node. running (process_at id self.now.processes) ≡ Ok node.now) }
        ensures err { IfErr result (λ refused. running (process_at id self.now.processes) ≡ Err refused) }
        ensures world { IsWorld self.now }
    {
        let Some(process) = self.processes.get(&id) else {
            return Err(Refused::NoActor);
        };
        if !process.is_live() {
            return Err(Refused::Crashed);
        }
        Ok(&process.node)
    }

    /// A live node makes its step of the event, and its letters are sent.
    pub(super) fn act(
        &mut self,
        alloc: Global,
        id: NodeId,
        call: Option<CallNo>,
        event: &NodeEvent,
    ) -> Result<Shown, WorldFault>
        requires { IsAct event.now }
        ensures { IsAnswerOf result self.old self.new (made_by self.old id call event.now) }
    {
        steps_keep_nodes();
        let Some(process) = self.processes.get_mut(&id) else {
            return Err(WorldFault::Refused(Refused::NoActor));
        };
        if !process.is_live() {
            return Err(WorldFault::Refused(Refused::Crashed));
        }
        let out = process.node.step(alloc, event)?;
        let shown = post(alloc, id, call, &mut process.node, &mut self.letters, out)?;
        Ok(shown)
    }

    /// The same of the node that the event lets act, or the refusal.
    pub(super) fn act_by(
        &mut self,
        alloc: Global,
        leave: Result<NodeId, Refused>,
        event: &NodeEvent,
    ) -> Result<Shown, WorldFault>
        requires { IsAct event.now }
        ensures { IsAnswerOf result self.old self.new (allowed leave self.old event.now) }
    {
        match leave {
            Ok(id) => self.act(alloc, id, None, event),
            Err(refused) => Err(WorldFault::Refused(refused)),
        }
    }

    // The node makes the event of a call, which is counted.
    fn count(
        &mut self,
        alloc: Global,
        id: NodeId,
        next: u64,
        event: &NodeEvent,
    ) -> Result<Shown, WorldFault>
        requires { IsAct event.now }
        ensures { IsAnswerOf result self.old self.new (counting next (made_by self.old id (Some (record { 0 = next })) event.now)) }
    {
        match self.act(alloc, id, Some(CallNo(next)), event) {
            Ok(shown) => {
                self.calls = next;
                Ok(shown)
            }
            Err(fault) => Err(fault),
        }
    }

    /// A client calls an operation at the node. A count of calls that is full is as want of memory.
    pub(super) fn call(
        &mut self,
        alloc: Global,
        id: NodeId,
        key: &Key,
        op: &Op,
    ) -> Result<Shown, WorldFault>
        ensures { IsAnswerOf result self.old self.new (live self.old id (calls_at self.old id key.now op.now)) }
    {
        let Some(next) = self.calls.checked_add(1) else {
            return Err(WorldFault::Memory);
        };
        let event = NodeEvent::of_call(CallNo(next), key, op)?;
        self.count(alloc, id, next, &event)
    }
}
