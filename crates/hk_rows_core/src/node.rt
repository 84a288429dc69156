//! Steps of one node.

ghost use Rattle.hk_base.specs.Range.{IsBody, IsLetter};
ghost use Rattle.hk_node.specs.Sound.{IsNodeEvent};

use crate::values::{content, key};
use hk_base::{
    Actor, Answer, Body, CallNo, Content, Kind, Letter, Members, NodeId, Op, Stamp, View, Why,
};
use hk_node::{Node, NodeEvent, NodeOut};
use hk_rows_shared::let_go;
use std::alloc::Global;
use std::process::Abort;

const LAST_WRITE: Stamp = Stamp {
    version: 281_474_976_710_654,
    node: 1,
};

fn letter(epoch: u64, body: Body) -> Letter
    requires { IsBody body }
    ensures { IsLetter result }
{
    Letter {
        epoch,
        from: Actor::Node(NodeId(1)),
        to: Actor::Node(NodeId(0)),
        body,
    }
}

fn founder(rt: &impl Abort, alloc: Global) -> Node {
    let mut members = Members::new(alloc);
    members.push(NodeId(0)).expect(rt, "memory");
    members.push(NodeId(1)).expect(rt, "memory");
    let view = View {
        epoch: 1,
        members,
        next: 2,
    };
    Node::founder(alloc, NodeId(0), view, 1000, 10, 0).expect(rt, "memory")
}

// Makes the step of an event.
fn step(rt: &impl Abort, alloc: Global, node: &mut Node, event: NodeEvent) -> NodeOut
    requires { IsNodeEvent event }
{
    let out = node.step(alloc, &event).expect(rt, "memory");
    let_go(event);
    out
}

fn call(rt: &impl Abort, alloc: Global, node: &mut Node, op: Op) -> NodeOut {
    let event = NodeEvent::Call {
        call: CallNo(1),
        key: key(rt, alloc, b"k"),
        op,
    };
    step(rt, alloc, node, event)
}

// What is answered first.
fn is_first_answer(out: &NodeOut, answer: &Answer) -> bool {
    out.replies.get(0).map(|reply| &reply.answer) == Some(answer)
}

// How many letters are sent, calls answered, and rows changed.
fn counts(out: &NodeOut) -> (usize, usize, usize) {
    (out.letters.len(), out.replies.len(), out.report.rows.len())
}

// The node takes an update of its key, which leaves this.
fn take_update(rt: &impl Abort, alloc: Global, node: &mut Node, content: Content) {
    let inv = Body::Inv {
        key: key(rt, alloc, b"k"),
        stamp: LAST_WRITE,
        kind: Kind::Write,
        content: Some(content),
    };
    let_go(step(rt, alloc, node, NodeEvent::Receive(letter(1, inv))));
}

// The node takes word that the update is complete.
fn take_end(rt: &impl Abort, alloc: Global, node: &mut Node) {
    let val = Body::Val {
        key: key(rt, alloc, b"k"),
        stamp: LAST_WRITE,
    };
    let_go(step(rt, alloc, node, NodeEvent::Receive(letter(1, val))));
}

// A founder whose key has the last stamp from which nothing can be written.
fn at_the_limit(rt: &impl Abort, alloc: Global) -> Node {
    let mut node = founder(rt, alloc);
    take_update(rt, alloc, &mut node, content(rt, alloc, b"5"));
    take_end(rt, alloc, &mut node);
    node
}

#[test]
fn writes_end_at_the_version_limit(rt: HostRuntime) {
    let alloc = rt.alloc();
    let mut node = at_the_limit(&rt, alloc);
    let op = Op::Write(content(&rt, alloc, b"6"));
    let out = call(&rt, alloc, &mut node, op);
    assert!(rt; is_first_answer(&out, &Answer::Exhausted(LAST_WRITE)));
    assert_eq!(rt; counts(&out), (0, 1, 0));
    let_go(out);
}

#[test]
fn increments_go_one_further(rt: HostRuntime) {
    let alloc = rt.alloc();
    let mut node = at_the_limit(&rt, alloc);
    let out = call(&rt, alloc, &mut node, Op::Incr(1));
    assert_eq!(rt; counts(&out), (1, 0, 1));
    let_go(out);
    let last = Stamp {
        version: 281_474_976_710_655,
        node: 0,
    };
    let stamp = node.row(&key(&rt, alloc, b"k")).map(|row| row.stamp);
    assert_eq!(rt; stamp, Some(last));
}

// What a read-modify-write of the other member leaves at a founder, whose key it makes Invalid: how many letters are sent.
fn invalidate(rt: &impl Abort, alloc: Global, node: &mut Node, epoch: u64) -> usize {
    let inv = Body::Inv {
        key: key(rt, alloc, b"k"),
        stamp: LAST_WRITE,
        kind: Kind::Rmw,
        content: None,
    };
    let out = step(rt, alloc, node, NodeEvent::Receive(letter(epoch, inv)));
    let count = out.letters.len();
    let_go(out);
    count
}

#[test]
fn drops_letters_of_old_epochs(rt: HostRuntime) {
    let alloc = rt.alloc();
    let mut node = founder(&rt, alloc);
    assert_eq!(rt; invalidate(&rt, alloc, &mut node, 0), 0);
    assert!(rt; node.row(&key(&rt, alloc, b"k")).is_none());
}

#[test]
fn a_shadow_has_no_lease(rt: HostRuntime) {
    let alloc = rt.alloc();
    let mut node = Node::joiner(alloc, NodeId(2), 10, 0).expect(&rt, "memory");
    let_go(step(&rt, alloc, &mut node, NodeEvent::Grant { end: 1000 }));
    let out = call(&rt, alloc, &mut node, Op::Read);
    let busy = Answer::Busy(Why::Lease { end: 0, now: 1 });
    assert!(rt; is_first_answer(&out, &busy));
    let_go(busy);
    let_go(out);
}

// How many letters an event sends.
fn sends(rt: &impl Abort, alloc: Global, node: &mut Node, event: NodeEvent) -> usize
    requires { IsNodeEvent event }
{
    let out = step(rt, alloc, node, event);
    let count = out.letters.len();
    let_go(out);
    count
}

#[test]
fn replays_and_sends_again(rt: HostRuntime) {
    let alloc = rt.alloc();
    let mut node = founder(&rt, alloc);
    invalidate(&rt, alloc, &mut node, 1);
    let replay = NodeEvent::Replay(key(&rt, alloc, b"k"));
    assert_eq!(rt; sends(&rt, alloc, &mut node, replay), 1);
    assert!(rt; node.open(None) == Some(&key(&rt, alloc, b"k")));
    let resend = NodeEvent::Resend(key(&rt, alloc, b"k"));
    assert_eq!(rt; sends(&rt, alloc, &mut node, resend), 1);
}

#[test]
fn steps_and_is_copied(rt: HostRuntime) {
    let alloc = rt.alloc();
    let mut node = founder(&rt, alloc);
    let_go(step(&rt, alloc, &mut node, NodeEvent::Grant { end: 2000 }));
    let same = node.copy(alloc).expect(&rt, "memory");
    assert_eq!(rt; same.granted(), 2000);
}
