//! Parcels through links, one thread and two.

ghost use Rattle.std.specs.Prelude.{◌<◌};
ghost use Rattle.hk_link.specs.Ends.{IsSameLink};

use hk_base::{Actor, Body, Key, Letter, NodeId, Stamp};
use hk_link::{Bell, Full, Inlet, Outlet, Parcel, close_link, link};
use hk_rows_shared::let_go;
use std::alloc::Global;
use std::process::Abort;
use std::sync::{Arc, Wait};
use std::thread;
use std::thread::Threads;

// A VAL to shard 3, which a test knows by its version.
#[tactic(auto, unfolding(hk_base::specs::Lengths::body_length))]
fn parcel(rt: &impl Abort, alloc: Global, version: u64) -> Parcel
    requires { version < 1000 }
{
    let key = Key::read(alloc, b"k").expect(rt, "memory");
    let letter = Letter {
        epoch: 1,
        from: Actor::Node(NodeId(0)),
        to: Actor::Node(NodeId(1)),
        body: Body::Val {
            key,
            stamp: Stamp { version, node: 0 },
        },
    };
    Parcel { shard: 3, letter }
}

// The version of a VAL, none of another letter.
fn version(parcel: &Parcel) -> Option<u64> {
    match &parcel.letter.body {
        Body::Val { stamp, .. } => Some(stamp.version),
        _ => None,
    }
}

// The version of what is taken, if anything is.
fn taken<R: Wait>(rt: &R, inlet: &mut Inlet) -> Option<u64>
    ensures { IsSameLink inlet.new inlet.old }
{
    match inlet.take(rt) {
        Some(parcel) => version_of(parcel),
        None => None,
    }
}

fn version_of(parcel: Parcel) -> Option<u64> {
    let told = version(&parcel);
    let_go(parcel);
    told
}

// Puts a VAL of this version: the version of what comes back, if anything does.
fn put<R: Wait>(rt: &R, outlet: &mut Outlet, parcel: Parcel) -> Option<u64>
    ensures { IsSameLink outlet.new outlet.old }
{
    match outlet.put(rt, parcel) {
        Ok(()) => None,
        Err(Full(back)) => version_of(back),
    }
}

#[test]
fn a_link_of_one_place_holds_one_parcel(rt: HostRuntime) {
    let alloc = rt.alloc();
    let (mut outlet, mut inlet) = link(alloc, 1).expect(&rt, "memory");
    assert_eq!(rt; put(&rt, &mut outlet, parcel(&rt, alloc, 1)), None);
    assert_eq!(rt; put(&rt, &mut outlet, parcel(&rt, alloc, 2)), Some(2));
    assert_eq!(rt; taken(&rt, &mut inlet), Some(1));
    assert_eq!(rt; taken(&rt, &mut inlet), None);
}

// Puts through two outlets and takes through two inlets, which are joined again: what was taken.
fn through_split_ends<R: Wait>(
    rt: &R,
    ends: (Outlet, Inlet),
    first: Parcel,
    second: Parcel,
) -> Option<(Option<u64>, Option<u64>)>
    requires { IsSameLink ends.1 ends.0 }
{
    let (mut outlet, mut inlet) = ends;
    let Ok(mut other_outlet) = outlet.split() else {
        let_go(first);
        let_go(second);
        return None;
    };
    let Ok(mut other_inlet) = inlet.split() else {
        let_go(first);
        let_go(second);
        return None;
    };
    put(rt, &mut outlet, first);
    put(rt, &mut other_outlet, second);
    let one = taken(rt, &mut other_inlet);
    outlet.join(other_outlet);
    inlet.learn(&mut outlet);
    inlet.join(other_inlet);
    let two = taken(rt, &mut inlet);
    Some((one, two))
}

#[test]
fn a_link_may_be_closed_at_once(rt: HostRuntime) {
    let (outlet, inlet) = link(rt.alloc(), 2).expect(&rt, "memory");
    close_link(outlet, inlet);
}

#[test]
fn split_ends_share_one_queue_and_are_joined_again(rt: HostRuntime) {
    let alloc = rt.alloc();
    let first = parcel(&rt, alloc, 1);
    let second = parcel(&rt, alloc, 2);
    let ends = link(alloc, 4).expect(&rt, "memory");
    assert_eq!(rt;
        through_split_ends(&rt, ends, first, second),
        Some((Some(1), Some(2)))
    );
}

// The version of the next parcel. It sleeps while the link is empty.
fn wait_for_next<R: Wait>(rt: &R, inlet: &mut Inlet, bell: &Bell) -> Option<u64> {
    for _ in rt.forever() {
        let heard = bell.rings();
        match inlet.take(rt) {
            Some(parcel) => return version_of(parcel),
            None => bell.wait(rt, heard),
        }
    }
    None
}

// Whether the versions 0 up to this one come one after the other.
fn take_in_order<R: Wait>(rt: &R, inlet: &mut Inlet, bell: &Bell, end: u64) -> bool {
    for expected in 0..end {
        if wait_for_next(rt, inlet, bell) != Some(expected) {
            return false;
        }
    }
    true
}

// Puts a parcel, as often as the link is full.
fn put_when_there_is_room<R: Wait>(rt: &R, outlet: &mut Outlet, parcel: Parcel) {
    let mut parcel = parcel;
    for _ in rt.forever() {
        match outlet.put(rt, parcel) {
            Ok(()) => return,
            Err(Full(back)) => {
                parcel = back;
                thread::yield_now();
            }
        }
    }
    let_go(parcel);
}

// Whether the versions 0 up to this one come in order through a link of four places to another thread, which sleeps while it is empty.
fn comes_in_order<R>(rt: R, alloc: Global, end: u64) -> bool
where
    R: Threads + Wait + Abort + Copy + Send + Sync + 'static,
    requires { end < 1000 }
{
    let (outlet, mut inlet) = link(alloc, 4).expect(&rt, "memory");
    let bell = Arc::new(alloc, Bell::new()).expect(&rt, "memory");
    let same = Arc::try_clone(&bell).expect(&rt, "memory");
    let mut outlet = outlet.with_bell(same);
    let taker = thread::spawn(&rt, move || take_in_order(&rt, &mut inlet, &bell, end)).expect(
        &rt, "a thread",
    );
    for version in 0..end {
        put_when_there_is_room(&rt, &mut outlet, parcel(&rt, alloc, version));
    }
    taker.join(&rt)
}

#[test]
fn parcels_come_in_order_to_a_thread_that_sleeps_while_there_are_none(rt: HostRuntime) {
    assert!(rt; comes_in_order(rt, rt.alloc(), 500));
}
