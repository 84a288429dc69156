//! Letters to a node from outside its group, and of an epoch that is not its own.

ghost use Rattle.hk_base.specs.Range.{IsBody, IsLetter};
ghost use Rattle.hk_node.specs.Sound.{IsNodeEvent};

use hk_base::{Actor, Body, CallNo, Content, Data, Key, Letter, Members, NodeId, Op, Stamp, View};
use hk_node::{Node, NodeEvent};
use std::alloc::Global;
use std::process::Abort;

const FIRST_WRITE: Stamp = Stamp {
    version: 2,
    node: 0,
};

fn key(rt: &impl Abort, alloc: Global) -> Key {
    Key::read(alloc, b"k").expect(rt, "memory")
}

// A founder of a group of nodes 0 and 1.
fn founder(rt: &impl Abort, alloc: Global) -> Node {
    let mut members = Members::new(alloc);
    members.push(NodeId(0)).expect(rt, "memory");
    members.push(NodeId(1)).expect(rt, "memory");
    let view = View {
        epoch: 1,
        members,
        next: 2,
    };
    Node::founder(alloc, NodeId(0), view, 1000, 10, 0).expect(rt, "memory")
}

// How many letters an event makes the node send, how many calls it answers and how many rows it changes.
fn counts(
    rt: &impl Abort,
    alloc: Global,
    node: &mut Node,
    event: NodeEvent,
) -> (usize, usize, usize)
    requires { IsNodeEvent event }
{
    let out = node.step(alloc, &event).expect(rt, "memory");
    (out.letters.len(), out.replies.len(), out.report.rows.len())
}

// The same of a write, which waits for node 1.
fn begin(rt: &impl Abort, alloc: Global, node: &mut Node) -> (usize, usize, usize) {
    let bytes = Data::read(alloc, b"a").expect(rt, "memory");
    let event = NodeEvent::Call {
        call: CallNo(1),
        key: key(rt, alloc),
        op: Op::Write(Content { flags: 0, bytes }),
    };
    counts(rt, alloc, node, event)
}

// The same of a letter.
fn take(rt: &impl Abort, alloc: Global, node: &mut Node, letter: Letter) -> (usize, usize, usize)
    requires { IsLetter letter }
{
    counts(rt, alloc, node, NodeEvent::Receive(letter))
}

fn letter(from: u16, epoch: u64, body: Body) -> Letter
    requires { IsBody body }
    ensures { IsLetter result }
{
    Letter {
        epoch,
        from: Actor::Node(NodeId(from)),
        to: Actor::Node(NodeId(0)),
        body,
    }
}

// Node 5, which is no member, acknowledges the write.
fn strangers_ack(rt: &impl Abort, alloc: Global) -> Letter
    ensures { IsLetter result }
{
    let ack = Body::Ack {
        key: key(rt, alloc),
        stamp: FIRST_WRITE,
        top: FIRST_WRITE,
    };
    letter(5, 1, ack)
}

// Node 1 tells in epoch 9 that the write is complete.
fn later_val(rt: &impl Abort, alloc: Global) -> Letter
    ensures { IsLetter result }
{
    let val = Body::Val {
        key: key(rt, alloc),
        stamp: FIRST_WRITE,
    };
    letter(1, 9, val)
}

#[test]
fn letters_from_outside_the_group_change_nothing(rt: HostRuntime) {
    let alloc = rt.alloc();
    let mut node = founder(&rt, alloc);
    let ack = strangers_ack(&rt, alloc);
    assert_eq!(rt; take(&rt, alloc, &mut node, ack), (0, 0, 0));
    let val = later_val(&rt, alloc);
    assert_eq!(rt; take(&rt, alloc, &mut node, val), (0, 0, 0));
    assert!(rt; node.row(&key(&rt, alloc)).is_none());
}

#[test]
fn letters_from_outside_the_group_answer_nothing(rt: HostRuntime) {
    let alloc = rt.alloc();
    let mut node = founder(&rt, alloc);
    assert_eq!(rt; begin(&rt, alloc, &mut node), (1, 0, 1));
    let ack = strangers_ack(&rt, alloc);
    assert_eq!(rt; take(&rt, alloc, &mut node, ack), (0, 0, 0));
    let val = later_val(&rt, alloc);
    assert_eq!(rt; take(&rt, alloc, &mut node, val), (0, 0, 0));
    assert!(rt; node.open(None) == Some(&key(&rt, alloc)));
}
