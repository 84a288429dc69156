//! The step of any event; calls, what becomes of them at their rows, and updates that are sent again.

ghost use Rattle.std.specs.Prelude.{◌≡◌, ◌<◌, ◌≤◌, ℕ, List, true, false, None, Some, IsOk, IfOk, OnOk, OnErr};
ghost use Rattle.hk_base.specs.Range.{IsWithin, Leaves};
ghost use Rattle.hk_base.specs.Register.{act};
ghost use Rattle.hk_base.specs.declared.call.CallNo.{CallNo};
ghost use Rattle.hk_base.specs.declared.time.TheConstants.{MAX_TIME};
ghost use Rattle.hk_key.specs.Table.{begin};
ghost use Rattle.hk_node.specs.Node.{NodeState, members_of};
ghost use Rattle.hk_node.specs.Rows.{find_row, row_at};
ghost use Rattle.hk_node.specs.Stepped.{row_step};
ghost use Rattle.hk_node.specs.Calls.{called, at_lease, at_state, at_turn, kind_of, lease_end, next_stamp, register_in};
ghost use Rattle.hk_node.specs.Decided.{decided, IsFit, is_invalid, Turns};
ghost use Rattle.hk_node.specs.Steps.{node_step, ticks, grants, resent, replayed};
ghost use Rattle.hk_node.specs.Sound.{IsNodeEvent, takes_memory};
ghost use Rattle.hk_node.specs.Outs.{IsOutOf};

use super::Node;
use super::finish::put_stepped;
use crate::event::NodeEvent;
use crate::out::{NodeOut, StepReplies, post_sent};
use crate::report::Undo;
use hk_base::{
    Answer, CallNo, Content, Key, Kind, Letters, Memory, NodeId, Op, Reply, Stamp, State, Why,
};
use hk_key::Row;
use hk_rmw::{Turn, turn};
use std::alloc::Global;

// What becomes of a call.
#[derive(Drop)]
enum Decision {
    /// It is answered at once.
    Now(Answer),
    /// Its update begins, and when that completes it will be answered so.
    Begin {
        stamp: Stamp,
        kind: Kind,
        content: Option<Content>,
        answer: Answer,
    },
}

fn kind_of(op: &Op) -> Kind
    ensures { result ≡ kind_of op.now }
{
    match op {
        Op::Write(_) => Kind::Write,
        Op::Read | Op::Cas { .. } | Op::Incr(_) | Op::Decr(_) => Kind::Rmw,
        Op::Add(_) | Op::Replace(_) | Op::Delete => Kind::Rmw,
    }
}

fn next_stamp(kind: Kind, stamp: Stamp, node: NodeId) -> Option<Stamp>
    ensures { result ≡ next_stamp kind stamp node }
{
    match kind {
        Kind::Write => stamp.after_write(node),
        Kind::Rmw => stamp.after_rmw(node),
    }
}

// What the operation does to the register that the row is.
fn turn_row(alloc: Global, op: &Op, row: &Row) -> Result<Turn, Memory>
    requires { IsWithin row.now.stamp }
    ensures { IfOk result (λ turn. Turns turn op.now row.now) }
{
    match &row.content {
        Some(content) => turn(alloc, op, Some((content, row.stamp.tag()))),
        None => turn(alloc, op, None),
    }
}

// The row is Valid.
fn decide_valid(alloc: Global, id: NodeId, op: &Op, row: &Row) -> Result<Decision, Memory>
    requires { IsWithin row.now.stamp }
    ensures step { IfOk result (λ decision. (node : NodeState) (call : CallNo) (key : List ℕ) → node.id ≡ id →
        decided decision node call key ≡ at_turn (act op.now (register_in row.now) 0).changed node call key op.now row.now) }
    ensures fit { IfOk result (IsFit row.now) }
{
    match turn_row(alloc, op, row)? {
        Turn::Stay(answer) => Ok(Decision::Now(answer)),
        Turn::Change { content, answer } => {
            let kind = kind_of(op);
            match next_stamp(kind, row.stamp, id) {
                Some(stamp) => Ok(Decision::Begin {
                    stamp,
                    kind,
                    content,
                    answer,
                }),
                None => Ok(Decision::Now(Answer::Exhausted(row.stamp))),
            }
        }
    }
}

// What becomes of a call of the operation at the row, at a node that has a lease.
fn decide(alloc: Global, id: NodeId, op: &Op, row: &Row) -> Result<Decision, Memory>
    requires { IsWithin row.now.stamp }
    ensures step { IfOk result (λ decision. (node : NodeState) (call : CallNo) (key : List ℕ) → node.id ≡ id →
        decided decision node call key ≡ at_state row.now.state node call key op.now row.now) }
    ensures fit { IfOk result (IsFit row.now) }
{
    match row.state {
        State::Valid => decide_valid(alloc, id, op, row),
        state => Ok(Decision::Now(Answer::Busy(Why::Row {
            state,
            stamp: row.stamp,
        }))),
    }
}

fn is_invalid(state: State) -> bool
    ensures { result ≡ is_invalid state }
{
    state == State::Invalid
}

impl Node {
    /// The end of the lease that it has: a node that is not ready has none, 0.
    pub fn lease_end(&self) -> u64
        ensures { result ≡ lease_end self.now }
    {
        if self.ready { self.granted } else { 0 }
    }

    // An update begins at a key that has no row.
    fn begin_first(
        &mut self,
        alloc: Global,
        key: &Key,
        reply: Reply,
        stamp: Stamp,
        kind: Kind,
        content: Option<Content>,
    ) -> Result<NodeOut, Memory>
        requires ready { self.old.ready ≡ true }
        requires within { IsWithin stamp }
        requires later { (row_at key.now self.old.rows).stamp.version < stamp.version }
        requires leaves { Leaves kind content }
        requires none { find_row key.now self.old.rows ≡ None }
        ensures node { OnOk result (self.new ≡ (row_step self.old key.now (begin self.old.id (members_of self.old) reply stamp kind content)).node) }
        ensures out { IfOk result (λ out. IsOutOf out self.old (row_step self.old key.now (begin self.old.id (members_of self.old) reply stamp kind content))) }
        ensures err { OnErr result (self.new ≡ self.old) }
    {
        let Some(view) = &self.view else {
            unreachable!()
        };
        let mut row = Row::first();
        let out = row.begin(alloc, self.id, view, reply, stamp, kind, content)?;
        self.finish(alloc, key, row, out)
    }

    // Serves a call of a key that has no row, or begins it.
    fn first_call(
        &mut self,
        alloc: Global,
        call: CallNo,
        key: &Key,
        op: &Op,
    ) -> Result<NodeOut, Memory>
        requires ready { self.old.ready ≡ true }
        requires none { find_row key.now self.old.rows ≡ None }
        ensures node { OnOk result (self.new ≡ (at_lease false self.old call key.now op.now).node) }
        ensures out { IfOk result (λ out. IsOutOf out self.old (at_lease false self.old call key.now op.now)) }
        ensures err { OnErr result (self.new ≡ self.old) }
    {
        match decide(alloc, self.id, op, &Row::first())? {
            Decision::Now(answer) => Ok(self.answers(alloc, key, call, answer)),
            Decision::Begin {
                stamp,
                kind,
                content,
                answer,
            } => self.begin_first(alloc, key, Reply { call, answer }, stamp, kind, content),
        }
    }

    /// Serves a call, or begins it. The lease is looked at before the row, the row before what the operation does, that
    /// before the limit of versions, and all before memory is taken.
    pub(super) fn call(
        &mut self,
        alloc: Global,
        call: CallNo,
        key: &Key,
        op: &Op,
    ) -> Result<NodeOut, Memory>
        ensures node { OnOk result (self.new ≡ (called self.old call key.now op.now).node) }
        ensures out { IfOk result (λ out. IsOutOf out self.old (called self.old call key.now op.now)) }
        ensures err { OnErr result (self.new ≡ self.old) }
    {
        let end = self.lease_end();
        let now = self.clock;
        if end < now + self.skew {
            let busy = Answer::Busy(Why::Lease { end, now });
            return Ok(self.answers(alloc, key, call, busy));
        }
        let Some(view) = &self.view else {
            unreachable!()
        };
        let Some(place) = self.rows.get_mut(key) else {
            return self.first_call(alloc, call, key, op);
        };
        match decide(alloc, self.id, op, place.get())? {
            Decision::Now(answer) => Ok(self.answers(alloc, key, call, answer)),
            Decision::Begin {
                stamp,
                kind,
                content,
                answer,
            } => {
                let reply = Reply { call, answer };
                let mut row = Row::first();
                let out = row.begin(alloc, self.id, view, reply, stamp, kind, content)?;
                let told = put_stepped(
                    place,
                    &mut self.index,
                    alloc,
                    self.id,
                    view,
                    key,
                    row,
                    out,
                )?;
                Ok(told)
            }
        }
    }

    /// Sends INV of the key's pending update again, to those that have not acknowledged it.
    pub(super) fn resend(&mut self, alloc: Global, key: &Key) -> Result<NodeOut, Memory>
        ensures node { OnOk result (self.new ≡ (resent self.old key.now).node) }
        ensures out { IfOk result (λ out. IsOutOf out self.old (resent self.old key.now)) }
        ensures err { OnErr result (self.new ≡ self.old) }
    {
        let Some(view) = &self.view else {
            return Ok(self.idle(alloc));
        };
        let Some(row) = self.rows.get(key) else {
            return Ok(self.idle(alloc));
        };
        let row = row.get();
        let mut letters = Letters::new(alloc);
        let out = row.resend();
        post_sent(&mut letters, self.id, view, key, row, &out.send)?;
        Ok(self.tells(alloc, letters, StepReplies::nothing(), Undo::Nothing))
    }

    /// Sends the update of an Invalid row again, as its coordinator did. Only a ready node does.
    pub(super) fn replay(&mut self, alloc: Global, key: &Key) -> Result<NodeOut, Memory>
        ensures node { OnOk result (self.new ≡ (replayed self.old key.now).node) }
        ensures out { IfOk result (λ out. IsOutOf out self.old (replayed self.old key.now)) }
        ensures err { OnErr result (self.new ≡ self.old) }
    {
        if !self.ready {
            return Ok(self.idle(alloc));
        }
        let Some(view) = &self.view else {
            unreachable!()
        };
        let Some(place) = self.rows.get_mut(key) else {
            return Ok(self.idle(alloc));
        };
        if !is_invalid(place.get().state) {
            return Ok(self.idle(alloc));
        }
        let mut row = place.get().copy(alloc)?;
        let out = row.replay(alloc, self.id, view)?;
        let told = put_stepped(place, &mut self.index, alloc, self.id, view, key, row, out)?;
        Ok(told)
    }

    // The clock reads `now`, in milliseconds: it keeps the greater reading. It takes no memory.
    fn tick(&mut self, alloc: Global, now: u64) -> NodeOut
        requires { now ≤ MAX_TIME }
        ensures node { self.new ≡ (ticks self.old now).node }
        ensures out { IsOutOf result self.old (ticks self.old now) }
    {
        let out = self.replaces(alloc, Undo::Clock(self.clock));
        self.clock = self.clock.max(now);
        out
    }

    // A lease is granted that ends at `end`, in milliseconds: the greater end is kept. It takes no memory.
    fn grant(&mut self, alloc: Global, end: u64) -> NodeOut
        requires { end ≤ MAX_TIME }
        ensures node { self.new ≡ (grants self.old end).node }
        ensures out { IsOutOf result self.old (grants self.old end) }
    {
        let out = self.replaces(alloc, Undo::Lease(self.granted));
        self.granted = self.granted.max(end);
        out
    }

    /// Makes the step of an event. The steps of a clock and of a lease take no memory.
    pub fn step(&mut self, alloc: Global, event: &NodeEvent) -> Result<NodeOut, Memory>
        requires { IsNodeEvent event.now }
        ensures node { OnOk result (self.new ≡ (node_step self.old event.now).node) }
        ensures out { IfOk result (λ out. IsOutOf out self.old (node_step self.old event.now)) }
        ensures err { OnErr result (self.new ≡ self.old) }
        ensures sure { takes_memory event.now ≡ false → IsOk result }
    {
        match event {
            NodeEvent::Call { call, key, op } => self.call(alloc, *call, key, op),
            NodeEvent::Receive(letter) => self.receive(alloc, letter),
            NodeEvent::Resend(key) => self.resend(alloc, key),
            NodeEvent::Replay(key) => self.replay(alloc, key),
            NodeEvent::AskLease { manager } => self.ask_lease(alloc, *manager),
            NodeEvent::AskCopy { from, room } => self.ask_copy(alloc, *from, *room),
            NodeEvent::Tick { now } => Ok(self.tick(alloc, *now)),
            NodeEvent::Grant { end } => Ok(self.grant(alloc, *end)),
            NodeEvent::Install(view) => self.install(alloc, view),
        }
    }
}
