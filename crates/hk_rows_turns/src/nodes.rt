//! Two nodes in one program. Each has a worker, by whose turns letters come to its shards, and a desk.

ghost use Rattle.std.specs.Prelude.{◌≡◌, ◌∷◌, [], true};
ghost use Rattle.hk_base.specs.View.{IsView, is_member};
ghost use Rattle.hk_locked.specs.Places.{node_names};
ghost use Rattle.hk_worker.specs.Founding.{names_of};

use crate::gates::Open;
use crate::quiet::Quiet;
use hk_base::{Actor, Answer, Content, Data, Key, MAX_TIME, Members, NodeId, Op, Sequence, View};
use hk_link::{Inlet, Outlet, link};
use hk_locked::Places;
use hk_outside::{Desk, DeskReply};
use hk_rows_shared::let_go;
use hk_worker::{Founded, NodeDesk, Post, Shards, Tickets, work};
use std::alloc::Global;
use std::marker::Brand;
use std::process::Abort;
use std::sync::atomic::{AtomicBool, Ordering};
use std::sync::{Arc, Wait};
use std::thread;
use std::thread::Threads;

// The first view: nodes 0 and 1.
fn view(rt: &impl Abort, alloc: Global) -> View
    ensures view { IsView result }
    ensures members { result.members ≡ record { 0 = 0 } ∷ record { 0 = 1 } ∷ [] }
{
    let mut members = Members::new(alloc);
    members.push(NodeId(0)).expect(rt, "memory");
    members.push(NodeId(1)).expect(rt, "memory");
    View {
        epoch: 1,
        members,
        next: 2,
    }
}

// The shards of a node, with leases that do not end.
fn found<R: Wait + Abort>(rt: &R, alloc: Global, node: NodeId, tickets: &Arc<Tickets>) -> Founded
    requires { is_member node (record { 0 = 0 } ∷ record { 0 = 1 } ∷ []) ≡ true }
    ensures { result.node ≡ node }
{
    let tickets = Arc::try_clone(tickets).expect(rt, "memory");
    let view = view(rt, alloc);
    Shards::<Quiet, Brand>::founders(
        rt, alloc, node, &view, MAX_TIME, MAX_TIME, 0, 0, tickets,
    ).expect(rt, "memory")
}

// A post of the node with these shards, whose letters go to the other node by this outlet.
fn post<R: Wait + Abort, P: Places>(
    rt: &R,
    alloc: Global,
    shards: &Arc<Shards<Quiet, P>>,
    number: u32,
    inlet: Option<Inlet>,
    to_other: Outlet,
) -> Post<Quiet, P> {
    let node = shards.node().0;
    let shards = Arc::try_clone(shards).expect(rt, "memory");
    let mut inlets = Sequence::new(alloc);
    if let Some(inlet) = inlet {
        inlets.push(inlet).expect(rt, "memory");
    }
    let other = Actor::Node(NodeId(1 - node.min(1)));
    let mut outlets = Sequence::new(alloc);
    outlets.push((other, to_other)).expect(rt, "memory");
    let tell = Quiet { number: 0 };
    Post::new(rt, alloc, node, number, shards, inlets, outlets, tell).expect(rt, "memory")
}

// The nodes' workers make turns until the asks are done.
fn carry<R: Wait, P: Places>(
    rt: &R,
    one: &mut Post<Quiet, P>,
    two: &mut Post<Quiet, P>,
    done: &AtomicBool,
) {
    let mut gate = Open { keeps: true };
    for _round in 0..10_000_000 {
        if done.load(Ordering::SeqCst) {
            return;
        }
        work(rt, one, &mut gate, 16);
        work(rt, two, &mut gate, 16);
    }
}

// Whether what one desk was told to be stored the other desk finds.
fn found_by_the_other<R: Abort, D: Desk, E: Desk>(
    rt: &R,
    alloc: Global,
    one: &mut D,
    two: &mut E,
    done: &AtomicBool,
) -> bool {
    let key = Key::read(alloc, b"k").expect(rt, "a key");
    let bytes = Data::read(alloc, b"6").expect(rt, "data");
    let write = Op::Write(Content { flags: 0, bytes });
    let stored = one.ask(&key, &write).expect(rt, "memory");
    let found = two.ask(&key, &Op::Read).expect(rt, "memory");
    done.store(true, Ordering::SeqCst);
    let is_found = is_stored(&stored) && is_six(&found);
    let_go(write);
    let_go(stored);
    let_go(found);
    is_found
}

fn is_stored(reply: &DeskReply) -> bool {
    matches!(reply, DeskReply::Told(Answer::Stored))
}

// Whether `6` was found.
fn is_six(reply: &DeskReply) -> bool {
    match reply {
        DeskReply::Told(Answer::Found { content, .. }) => {
            content.bytes.bytes() == b"6".as_slice()
        }
        _ => false,
    }
}

// What a desk of one node is told to be stored a desk of the other node finds.
fn nodes_meet<
    R: Threads + Wait + Sync + Abort + Copy + Send + Drop,
    P: Places + Send + Sync + 'static,
>(rt: R, alloc: Global, first: Founded, second: Founded)
    requires first { node_names P.places first.node ≡ names_of first }
    requires second { node_names P.places second.node ≡ names_of second }
{
    let one: Arc<Shards<Quiet, P>> = Arc::new(alloc, first.named()).expect(&rt, "memory");
    let two: Arc<Shards<Quiet, P>> = Arc::new(alloc, second.named()).expect(&rt, "memory");
    let (mut to_one, at_one) = link(alloc, 64).expect(&rt, "memory");
    let (mut to_two, at_two) = link(alloc, 64).expect(&rt, "memory");
    let asks_one = to_one.split().expect(&rt, "memory");
    let asks_two = to_two.split().expect(&rt, "memory");
    let mut at_first = post(&rt, alloc, &one, 1, Some(at_one), to_two);
    let mut at_second = post(&rt, alloc, &two, 1, Some(at_two), to_one);
    let mut desk_one = NodeDesk::new(rt, post(&rt, alloc, &one, 2, None, asks_two));
    let mut desk_two = NodeDesk::new(rt, post(&rt, alloc, &two, 2, None, asks_one));
    let done = AtomicBool::new(false);
    let (found, ()) = thread::join(
        &rt,
        || found_by_the_other(&rt, alloc, &mut desk_one, &mut desk_two, &done),
        || carry(&rt, &mut at_first, &mut at_second, &done),
    );
    assert!(rt; found);
}

#[test]
fn what_one_node_stores_another_finds(rt: HostRuntime) {
    let alloc = rt.alloc();
    let tickets = Arc::new(alloc, Tickets::new()).expect(&rt, "memory");
    let first = found(&rt, alloc, NodeId(0), &tickets);
    let second = found(&rt, alloc, NodeId(1), &tickets);
    nodes_meet::<HostRuntime, Brand>(rt, alloc, first, second);
}
