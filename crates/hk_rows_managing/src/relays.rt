//! Letters on their way to the cores of a manager.

ghost use Rattle.std.specs.Prelude.{◌<◌};

use crate::turns::{NewManager, new_manager};
use hk_base::{Actor, Body, Letter, NodeId, View};
use hk_link::{Inlet, Outlet, Parcel, link};
use hk_managing::Relay;
use hk_office::Office;
use std::alloc::Global;
use std::process::Abort;
use std::sync::Wait;

// Node 0 asks the manager in this shard for a lease.
#[tactic(auto, unfolding(hk_base::specs::Lengths::body_length))]
fn ask(shard: u8) -> Parcel
    requires { shard < 8 }
{
    let letter = Letter {
        from: Actor::Node(NodeId(0)),
        to: Actor::Manager(0),
        epoch: 1,
        body: Body::LeaseAsk { asked: 3 },
    };
    Parcel { shard, letter }
}

fn put_ask<R: Wait + Abort>(rt: &R, outlet: &mut Outlet, shard: u8)
    requires { shard < 8 }
{
    assert!(*rt; outlet.put(rt, ask(shard)).is_ok());
}

// The shard of the next parcel that comes.
fn next_shard<R: Wait>(rt: &R, inlet: &mut Inlet) -> Option<u8> {
    match inlet.take(rt) {
        Some(parcel) => Some(parcel.shard),
        None => None,
    }
}

// How long ago node 0 asked last, in the shard where that is longest.
fn age(rt: &impl Abort, alloc: Global, office: &Office, now: u64) -> Option<u32> {
    let views = [View::first(alloc, 1).expect(rt, "memory")];
    let seen = office.asks_seen(alloc, now, &views).expect(rt, "memory");
    match seen.as_slice().first() {
        Some(seen) => seen.age_of_ask,
        None => None,
    }
}

#[test]
fn asks_are_noted_as_they_pass(rt: HostRuntime) {
    let alloc = rt.alloc();
    let NewManager { mut office, .. } = new_manager(&rt, alloc, Vec::new(alloc));
    let (mut outlet, inlet) = link(alloc, 64).expect(&rt, "memory");
    let (mut relay, mut passed) = Relay::new(alloc, inlet).expect(&rt, "memory");
    for shard in 0..8 {
        put_ask(&rt, &mut outlet, shard);
    }
    assert!(rt; matches!(relay.pass(&rt, &mut office, 10_000), Ok(false)));
    for shard in 0..8 {
        assert_eq!(rt; next_shard(&rt, &mut passed), Some(shard));
    }
    assert_eq!(rt; next_shard(&rt, &mut passed), None);
    assert_eq!(rt; age(&rt, alloc, &office, 10_250), Some(250));
}
