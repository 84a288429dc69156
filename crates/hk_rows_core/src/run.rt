//! The moments at which the changes of a run are complete, and the joint order that they make.

ghost use Rattle.hk_world.specs.Sound.{IsEvent};

use crate::values::{content, key};
use hk_base::{CallNo, MAX_VERSION, NodeId, Op, Stamp};
use hk_event::{Event, Header};
use hk_history::Entry;
use hk_joint::joint_order;
use hk_safety::Run;
use std::alloc::Global;
use std::process::Abort;

// The run of no event, of two nodes without managers.
fn begun(rt: &impl Abort, alloc: Global) -> Run {
    let header = Header {
        nodes: 2,
        managers: 0,
        lease: 1000,
        skew: 0,
    };
    Run::new(alloc, header).expect(rt, "memory")
}

fn set(rt: &impl Abort, alloc: Global, node: u16, name: &[u8], data: &[u8]) -> Event
    ensures { IsEvent result }
{
    Event::Call {
        node: NodeId(node),
        key: key(rt, alloc, name),
        op: Op::Write(content(rt, alloc, data)),
    }
}

fn make(rt: &impl Abort, alloc: Global, run: &mut Run, event: Event)
    requires { IsEvent event }
{
    run.push(alloc, event).expect(rt, "an event");
}

fn take(rt: &impl Abort, alloc: Global, run: &mut Run, letter: u64) {
    make(rt, alloc, run, Event::Take { letter });
}

// What is told of the key's stamp of this version and node.
fn moment(
    rt: &impl Abort,
    alloc: Global,
    run: &Run,
    name: &[u8],
    version: u64,
    node: u16,
) -> Option<u64> {
    let key = key(rt, alloc, name);
    run.moment(&key, Stamp { version, node })
        .expect(rt, "memory")
}

#[test]
fn of_two_keys_the_later_call_is_complete_first(rt: HostRuntime) {
    let alloc = rt.alloc();
    let mut run = begun(&rt, alloc);
    make(&rt, alloc, &mut run, set(&rt, alloc, 0, b"a", b"x"));
    make(&rt, alloc, &mut run, set(&rt, alloc, 0, b"b", b"y"));
    take(&rt, alloc, &mut run, 2);
    assert_eq!(rt; moment(&rt, alloc, &run, b"a", 2, 0), None);
    take(&rt, alloc, &mut run, 1);
    assert_eq!(rt; moment(&rt, alloc, &run, b"a", 2, 0), Some(4));
    assert_eq!(rt; moment(&rt, alloc, &run, b"b", 2, 0), Some(3));
}

#[test]
fn a_stamp_that_no_update_has_is_told_none(rt: HostRuntime) {
    let alloc = rt.alloc();
    let mut run = begun(&rt, alloc);
    make(&rt, alloc, &mut run, set(&rt, alloc, 0, b"a", b"x"));
    take(&rt, alloc, &mut run, 1);
    assert_eq!(rt; moment(&rt, alloc, &run, b"a", 2, 0), Some(2));
    assert_eq!(rt; moment(&rt, alloc, &run, b"a", 0, 0), None);
    assert_eq!(rt; moment(&rt, alloc, &run, b"a", 1, 0), None);
    assert_eq!(rt; moment(&rt, alloc, &run, b"a", MAX_VERSION + 1, 0), None);
    assert_eq!(rt; moment(&rt, alloc, &run, b"b", 2, 0), None);
}

// Two nodes write one key at once. The write with the later stamp is complete at event 3, the other one at event 4.
#[test]
fn a_later_stamp_that_is_complete_first_is_the_moment_of_both(rt: HostRuntime) {
    let alloc = rt.alloc();
    let mut run = begun(&rt, alloc);
    make(&rt, alloc, &mut run, set(&rt, alloc, 0, b"k", b"x"));
    make(&rt, alloc, &mut run, set(&rt, alloc, 1, b"k", b"y"));
    take(&rt, alloc, &mut run, 2);
    assert_eq!(rt; moment(&rt, alloc, &run, b"k", 2, 0), None);
    assert_eq!(rt; moment(&rt, alloc, &run, b"k", 2, 1), Some(3));
    take(&rt, alloc, &mut run, 1);
    assert_eq!(rt; moment(&rt, alloc, &run, b"k", 2, 0), Some(3));
}

// A call that left a state of the tag of version 2 at node 0.
fn entry(call: u64) -> Entry {
    let stamp = Stamp {
        version: 2,
        node: 0,
    };
    Entry {
        call: CallNo(call),
        tag: Some(stamp.tag()),
    }
}

// Node 0 writes two keys, and the second write is complete first: the joint order has it first.
#[test]
fn a_joint_order_has_calls_by_the_events_at_which_they_stand(rt: HostRuntime) {
    let alloc = rt.alloc();
    let mut run = begun(&rt, alloc);
    make(&rt, alloc, &mut run, set(&rt, alloc, 0, b"a", b"x"));
    make(&rt, alloc, &mut run, set(&rt, alloc, 0, b"b", b"y"));
    take(&rt, alloc, &mut run, 2);
    take(&rt, alloc, &mut run, 1);
    let order = joint_order(alloc, &run).expect(&rt, "memory");
    assert_eq!(rt; order.as_slice(), [entry(2), entry(1)].as_slice());
}
