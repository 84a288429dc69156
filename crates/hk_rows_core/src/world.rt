//! An update that goes round a group.

ghost use Rattle.std.specs.Prelude.{◌≤◌};
ghost use Rattle.hk_world.specs.Sound.{IsEvent};

use crate::values::{content, key};
use hk_base::{Answer, NodeId, Op};
use hk_event::{Event, Header};
use hk_rows_shared::let_go;
use hk_world::{Shown, World};
use std::alloc::Global;
use std::process::Abort;

// A group without managers.
fn group(rt: &impl Abort, alloc: Global, nodes: u8) -> World
    requires some { 1 ≤ nodes }
    requires few { nodes ≤ 16 }
{
    let header = Header {
        nodes,
        managers: 0,
        lease: 1000,
        skew: 10,
    };
    World::new(alloc, header).expect(rt, "a world")
}

fn call(rt: &impl Abort, alloc: Global, node: u16, op: Op) -> Event
    ensures { IsEvent result }
{
    Event::Call {
        node: NodeId(node),
        key: key(rt, alloc, b"k"),
        op,
    }
}

fn write(rt: &impl Abort, alloc: Global, node: u16) -> Event
    ensures { IsEvent result }
{
    call(rt, alloc, node, Op::Write(content(rt, alloc, b"5")))
}

fn finds(shown: &Shown) -> bool {
    match shown.replies.get(0) {
        Some(reply) => matches!(reply.answer, Answer::Found { .. }),
        None => false,
    }
}

fn stored(shown: &Shown) -> bool {
    match shown.replies.get(0) {
        Some(reply) => reply.answer == Answer::Stored,
        None => false,
    }
}

fn step(rt: &impl Abort, alloc: Global, world: &mut World, event: Event) -> Shown
    requires { IsEvent event }
{
    let shown = world.step(alloc, &event).expect(rt, "a step");
    let_go(event);
    shown
}

fn take(rt: &impl Abort, alloc: Global, world: &mut World, letter: u64) -> Shown {
    step(rt, alloc, world, Event::Take { letter })
}

#[test]
fn an_update_goes_round(rt: HostRuntime) {
    let alloc = rt.alloc();
    let mut world = group(&rt, alloc, 2);
    // INV is letter 1, ACK letter 2, VAL letter 3
    let_go(step(&rt, alloc, &mut world, write(&rt, alloc, 0)));
    let_go(take(&rt, alloc, &mut world, 1));
    let shown = take(&rt, alloc, &mut world, 2);
    assert_eq!(rt; (stored(&shown), shown.first_letter), (true, 3));
    let_go(shown);
    let_go(take(&rt, alloc, &mut world, 3));
    let shown = step(&rt, alloc, &mut world, call(&rt, alloc, 1, Op::Read));
    assert!(rt; finds(&shown));
    let_go(shown);
}
