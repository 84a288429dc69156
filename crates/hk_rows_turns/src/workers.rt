//! Workers at the shards of node 0, which has node 1 and manager 0 beside it.

ghost use Rattle.std.specs.Prelude.{◌≡◌, true};
ghost use Rattle.hk_base.specs.View.{IsView, is_member};
ghost use Rattle.hk_locked.specs.Places.{node_names};
ghost use Rattle.hk_worker.specs.Founding.{names_of};

use crate::gates::{Meeting, Open};
use crate::quiet::Quiet;
use hk_base::{
    Actor, Body, CallNo, Content, Data, Key, Letter, Members, NodeId, Op, Sequence, Stamp, View,
};
use hk_link::{Inlet, Outlet, Parcel, link};
use hk_locked::Places;
use hk_rows_shared::let_go;
use hk_worker::{Founded, Post, Shards, Tickets, work};
use std::alloc::Global;
use std::marker::Brand;
use std::process::Abort;
use std::sync::atomic::AtomicBool;
use std::sync::{Arc, Wait};
use std::thread;
use std::thread::Threads;

fn key(rt: &impl Abort, alloc: Global) -> Key {
    Key::read(alloc, b"k").expect(rt, "a key")
}

fn write(rt: &impl Abort, alloc: Global) -> Op {
    Op::Write(Content {
        flags: 0,
        bytes: Data::read(alloc, b"1").expect(rt, "data"),
    })
}

// The first view: nodes 0 and 1.
fn view(rt: &impl Abort, alloc: Global) -> View
    ensures view { IsView result }
    ensures member { is_member (record { 0 = 0 }) result.members ≡ true }
{
    let mut members = Members::new(alloc);
    members.push(NodeId(0)).expect(rt, "memory");
    members.push(NodeId(1)).expect(rt, "memory");
    View {
        epoch: 1,
        members,
        next: 2,
    }
}

// The shards of node 0, whose leases are 1,000 long and end at 1,000.
fn found<R: Wait + Abort>(rt: &R, alloc: Global) -> Founded
    ensures { result.node ≡ record { 0 = 0 } }
{
    let tickets = Arc::new(alloc, Tickets::new()).expect(rt, "memory");
    let view = view(rt, alloc);
    Shards::<Quiet, Brand>::founders(
        rt,
        alloc,
        NodeId(0),
        &view,
        1_000,
        1_000,
        0,
        1,
        tickets,
    ).expect(rt, "memory")
}

// The post of a worker, with the outlet that leads to it, and what it sends to node 1 and to the manager.
#[derive(Drop)]
struct Seat<P: Places> {
    post: Post<Quiet, P>,
    to_it: Outlet,
    at_node: Inlet,
    at_manager: Inlet,
}

fn seated<R: Wait + Abort, P: Places>(
    rt: &R,
    alloc: Global,
    shards: &Arc<Shards<Quiet, P>>,
    number: u32,
) -> Seat<P> {
    let shards = Arc::try_clone(shards).expect(rt, "memory");
    let (to_it, inlet) = link(alloc, 64).expect(rt, "memory");
    let (to_node, at_node) = link(alloc, 64).expect(rt, "memory");
    let (to_manager, at_manager) = link(alloc, 64).expect(rt, "memory");
    let mut inlets = Sequence::new(alloc);
    inlets.push(inlet).expect(rt, "memory");
    let mut outlets = Sequence::new(alloc);
    outlets
        .push((Actor::Node(NodeId(1)), to_node))
        .expect(rt, "memory");
    outlets
        .push((Actor::Manager(0), to_manager))
        .expect(rt, "memory");
    let tell = Quiet { number: 0 };
    let post = Post::new(rt, alloc, 0, number, shards, inlets, outlets, tell).expect(rt, "memory");
    Seat {
        post,
        to_it,
        at_node,
        at_manager,
    }
}

// Begins an update of the key, which waits for node 1. Its letters are lost.
fn begin<R: Wait + Abort, P: Places>(rt: &R, alloc: Global, shards: &Shards<Quiet, P>) {
    let key = key(rt, alloc);
    let mut held = shards.lock_of(3).lock(rt);
    let mut reader = held.reader(rt, alloc).expect(rt, "memory");
    let ticket = shards.tickets().draw_above(rt, held.last_ticket());
    let tell = Quiet { number: 0 };
    let op = write(rt, alloc);
    let started = held.start(rt, alloc, &mut reader, ticket, CallNo(1), &key, &op, tell);
    let_go(started.expect(rt, "memory"));
    let_go(op);
}

// What a worker sends.
#[derive(Clone, Copy, Drop)]
enum Sent {
    Update,
    LeaseAsk,
}

fn is_such(parcel: &Parcel, sent: Sent) -> bool {
    match sent {
        Sent::Update => matches!(&parcel.letter.body, Body::Inv { .. }),
        Sent::LeaseAsk => matches!(&parcel.letter.body, Body::LeaseAsk { .. }),
    }
}

// How many parcels come, all with such letters. 64 where another one is among them.
fn taken<R: Wait>(rt: &R, inlet: &mut Inlet, sent: Sent) -> u64 {
    for count in 0..64 {
        match inlet.take(rt) {
            Some(parcel) => {
                let is_other = !is_such(&parcel, sent);
                let_go(parcel);
                if is_other {
                    return 64;
                }
            }
            None => return count,
        }
    }
    64
}

// How many entries the journal of shard 3 has.
fn entries<R: Wait + Abort, P: Places>(rt: &R, alloc: Global, shards: &Shards<Quiet, P>) -> usize {
    shards.journal(rt, alloc, 3).expect(rt, "memory").len()
}

// A VAL from node 1 to shard 3 of a node.
#[tactic(auto, unfolding(hk_base::specs::Lengths::body_length))]
fn val_to(rt: &impl Abort, alloc: Global, node: u16) -> Parcel {
    let key = key(rt, alloc);
    let letter = Letter {
        epoch: 1,
        from: Actor::Node(NodeId(1)),
        to: Actor::Node(NodeId(node)),
        body: Body::Val {
            key,
            stamp: Stamp {
                version: 2,
                node: 1,
            },
        },
    };
    Parcel { shard: 3, letter }
}

fn put<R: Wait + Abort>(rt: &R, outlet: &mut Outlet, parcel: Parcel) {
    let put = outlet.put(rt, parcel);
    assert!(rt; put.is_ok());
    let_go(put);
}

// Work with an open gate gives so many turns.
fn works<R: Wait, P: Places>(rt: &R, post: &mut Post<Quiet, P>, turns: u64) -> bool {
    let mut gate = Open { keeps: true };
    work(rt, post, &mut gate, turns) == turns
}

// What waits is sent again at the second call, and once a call.
fn sent_again<R: Wait + Abort, P: Places>(rt: &R, alloc: Global, founded: Founded)
    requires { node_names P.places founded.node ≡ names_of founded }
{
    let shards: Arc<Shards<Quiet, P>> = Arc::new(alloc, founded.named()).expect(rt, "memory");
    let mut seat = seated(rt, alloc, &shards, 1);
    begin(rt, alloc, &shards);
    assert!(rt; works(rt, &mut seat.post, 16));
    assert_eq!(rt; taken(rt, &mut seat.at_node, Sent::Update), 0);
    assert!(rt; works(rt, &mut seat.post, 16));
    assert_eq!(rt; taken(rt, &mut seat.at_node, Sent::Update), 1);
    assert!(rt; works(rt, &mut seat.post, 16));
    assert_eq!(rt; taken(rt, &mut seat.at_node, Sent::Update), 1);
    assert!(rt; !seat.post.rests(rt));
}

#[test]
fn what_waits_is_sent_again_at_the_second_call(rt: HostRuntime) {
    let alloc = rt.alloc();
    let founded = found(&rt, alloc);
    sent_again::<HostRuntime, Brand>(&rt, alloc, founded);
}

// For how many looks node 1 is told to be silent. None where it is not, or another node is.
fn silent_for<R: Wait + Abort, P: Places>(
    rt: &R,
    alloc: Global,
    shards: &Shards<Quiet, P>,
) -> Option<u64> {
    let silent = shards.silent(rt, alloc).expect(rt, "memory");
    match silent.as_slice() {
        [one] => {
            if one.node == NodeId(1) {
                Some(one.looks)
            } else {
                None
            }
        }
        _ => None,
    }
}

// Node 1 is told to be silent once an update was sent there again behind two looks, and no more once it was not behind three.
fn told_to_be_silent<R: Wait + Abort, P: Places>(rt: &R, alloc: Global, founded: Founded)
    requires { node_names P.places founded.node ≡ names_of founded }
{
    let shards: Arc<Shards<Quiet, P>> = Arc::new(alloc, founded.named()).expect(rt, "memory");
    let mut seat = seated(rt, alloc, &shards, 1);
    begin(rt, alloc, &shards);
    for told in [None, None, Some(1), Some(2)] {
        assert!(rt; works(rt, &mut seat.post, 16));
        assert_eq!(rt; silent_for(rt, alloc, &shards), told);
    }
    for told in [Some(2), None, None] {
        assert_eq!(rt; silent_for(rt, alloc, &shards), told);
    }
}

#[test]
fn who_acknowledges_nothing_is_silent(rt: HostRuntime) {
    let alloc = rt.alloc();
    let founded = found(&rt, alloc);
    told_to_be_silent::<HostRuntime, Brand>(&rt, alloc, founded);
}

// What a gate does not keep is lost.
fn lost_at_a_gate<R: Wait + Abort, P: Places>(rt: &R, alloc: Global, founded: Founded)
    requires { node_names P.places founded.node ≡ names_of founded }
{
    let shards: Arc<Shards<Quiet, P>> = Arc::new(alloc, founded.named()).expect(rt, "memory");
    let mut seat = seated(rt, alloc, &shards, 1);
    begin(rt, alloc, &shards);
    assert!(rt; works(rt, &mut seat.post, 1));
    let mut gate = Open { keeps: false };
    assert_eq!(rt; work(rt, &mut seat.post, &mut gate, 16), 16);
    assert_eq!(rt; entries(rt, alloc, &shards), 2);
    assert_eq!(rt; taken(rt, &mut seat.at_node, Sent::Update), 0);
}

#[test]
fn what_a_gate_does_not_keep_is_lost(rt: HostRuntime) {
    let alloc = rt.alloc();
    let founded = found(&rt, alloc);
    lost_at_a_gate::<HostRuntime, Brand>(&rt, alloc, founded);
}

// A parcel to the node is one entry of its shard's journal; one to another node is none.
fn applied_or_passed_over<R: Wait + Abort, P: Places>(rt: &R, alloc: Global, founded: Founded)
    requires { node_names P.places founded.node ≡ names_of founded }
{
    let shards: Arc<Shards<Quiet, P>> = Arc::new(alloc, founded.named()).expect(rt, "memory");
    let mut seat = seated(rt, alloc, &shards, 1);
    put(rt, &mut seat.to_it, val_to(rt, alloc, 1));
    put(rt, &mut seat.to_it, val_to(rt, alloc, 0));
    assert!(rt; works(rt, &mut seat.post, 1));
    assert_eq!(rt; entries(rt, alloc, &shards), 0);
    assert!(rt; works(rt, &mut seat.post, 1));
    assert_eq!(rt; entries(rt, alloc, &shards), 1);
    assert!(rt; works(rt, &mut seat.post, 16));
    assert_eq!(rt; entries(rt, alloc, &shards), 1);
    assert!(rt; seat.post.rests(rt));
}

#[test]
fn a_parcel_to_another_node_is_passed_over(rt: HostRuntime) {
    let alloc = rt.alloc();
    let founded = found(&rt, alloc);
    applied_or_passed_over::<HostRuntime, Brand>(&rt, alloc, founded);
}

// How many requests for leases are made once the post ticked to a reading.
fn requests_at<R: Wait + Abort, P: Places>(rt: &R, seat: &mut Seat<P>, now: u64) -> u64 {
    seat.post.tick(rt, now).expect(rt, "memory");
    let mut gate = Open { keeps: true };
    work(rt, &mut seat.post, &mut gate, 16);
    taken(rt, &mut seat.at_manager, Sent::LeaseAsk)
}

// Each shard asks the manager once a tick that raises the clock, where less than half of its lease is left.
fn leases_asked_for<R: Wait + Abort, P: Places>(rt: &R, alloc: Global, founded: Founded)
    requires { node_names P.places founded.node ≡ names_of founded }
{
    let shards: Arc<Shards<Quiet, P>> = Arc::new(alloc, founded.named()).expect(rt, "memory");
    let mut seat = seated(rt, alloc, &shards, 1);
    assert_eq!(rt; requests_at(rt, &mut seat, 500), 0);
    assert_eq!(rt; requests_at(rt, &mut seat, 501), 8);
    assert_eq!(rt; requests_at(rt, &mut seat, 501), 0);
    assert_eq!(rt; requests_at(rt, &mut seat, 2_000), 8);
}

#[test]
fn a_lease_is_asked_for_once_a_tick(rt: HostRuntime) {
    let alloc = rt.alloc();
    let founded = found(&rt, alloc);
    leases_asked_for::<HostRuntime, Brand>(&rt, alloc, founded);
}

// A gate that waits for the other one.
fn meeting(rt: &impl Abort, first: &Arc<AtomicBool>, other: &Arc<AtomicBool>) -> Meeting {
    Meeting {
        first: Arc::try_clone(first).expect(rt, "memory"),
        other: Arc::try_clone(other).expect(rt, "memory"),
        open: true,
    }
}

// Two calls of `work` at one node's shards, in two threads, each of which goes on only once the other has begun.
fn gates_meet<R: Threads + Wait + Sync + Abort, P: Places + Send + Sync + 'static>(
    rt: &R,
    alloc: Global,
    founded: Founded,
)
    requires { node_names P.places founded.node ≡ names_of founded }
{
    let shards: Arc<Shards<Quiet, P>> = Arc::new(alloc, founded.named()).expect(rt, "memory");
    let mut one = seated(rt, alloc, &shards, 1);
    let mut two = seated(rt, alloc, &shards, 2);
    let first = Arc::new(alloc, AtomicBool::new(false)).expect(rt, "memory");
    let second = Arc::new(alloc, AtomicBool::new(false)).expect(rt, "memory");
    let mut at_first = meeting(rt, &first, &second);
    let mut at_second = meeting(rt, &second, &first);
    let (turns, others) = thread::join(
        rt,
        || work(rt, &mut one.post, &mut at_first, 64),
        || work(rt, &mut two.post, &mut at_second, 64),
    );
    assert_eq!(rt; turns, 64);
    assert_eq!(rt; others, 64);
}

#[test]
fn gate_meets(rt: HostRuntime) {
    let alloc = rt.alloc();
    let founded = found(&rt, alloc);
    gates_meet::<HostRuntime, Brand>(&rt, alloc, founded);
}
