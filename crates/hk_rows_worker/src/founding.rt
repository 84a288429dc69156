//! The shards of a founder, and desks at them.

ghost use Rattle.std.specs.Prelude.{◌≡◌, ◌≤◌, true};
ghost use Rattle.hk_base.specs.declared.time.TheConstants.{MAX_TIME};
ghost use Rattle.hk_base.specs.View.{IsView, is_member};

use crate::completing::Quiet;
use hk_base::{Content, Data, Key, MAX_TIME, Members, NodeId, Op, Sequence, View};
use hk_locked::Places;
use hk_outside::{Desk, DeskReply, HandClock};
use hk_rows_shared::let_go;
use hk_worker::{ClockDesk, Founded, NodeDesk, Post, Shards, Tickets};
use std::alloc::Global;
use std::marker::Brand;
use std::process::Abort;
use std::sync::{Arc, Wait};

pub fn key(rt: &impl Abort, alloc: Global, name: &[u8]) -> Key {
    Key::read(alloc, name).expect(rt, "a key")
}

pub fn content(rt: &impl Abort, alloc: Global, data: &[u8]) -> Content {
    Content {
        flags: 0,
        bytes: Data::read(alloc, data).expect(rt, "data"),
    }
}

pub fn long_data(rt: &impl Abort, alloc: Global) -> Vec<u8> {
    let mut data = Vec::new(alloc);
    for _byte in 0..1_001 {
        data.push(b'x').expect(rt, "memory");
    }
    data
}

// The first view: node 0, with node 1 or alone.
fn view(rt: &impl Abort, alloc: Global, pair: bool) -> View
    ensures view { IsView result }
    ensures member { is_member (record { 0 = 0 }) result.members ≡ true }
{
    let mut members = Members::new(alloc);
    members.push(NodeId(0)).expect(rt, "memory");
    if pair {
        members.push(NodeId(1)).expect(rt, "memory");
    }
    View {
        epoch: 1,
        members,
        next: 2,
    }
}

fn found_until<R: Wait + Abort>(
    rt: &R,
    alloc: Global,
    pair: bool,
    end: u64,
    lease: u64,
    managers: u8,
) -> Founded
    requires end { end ≤ MAX_TIME }
    requires managers { managers ≤ 9 }
    ensures { result.node ≡ record { 0 = 0 } }
{
    let tickets = Arc::new(alloc, Tickets::new()).expect(rt, "memory");
    let view = view(rt, alloc, pair);
    Shards::<Quiet, Brand>::founders(
        rt,
        alloc,
        NodeId(0),
        &view,
        end,
        lease,
        0,
        managers,
        tickets,
    )
    .expect(rt, "memory")
}

// The shards of node 0, with node 1 or alone.
pub fn found<R: Wait + Abort>(rt: &R, alloc: Global, pair: bool) -> Founded
    ensures { result.node ≡ record { 0 = 0 } }
{
    found_until(rt, alloc, pair, MAX_TIME, MAX_TIME, 0)
}

// The shards of node 0 that is alone, with a lease that ends at 10.
pub fn found_for_a_while<R: Wait + Abort>(rt: &R, alloc: Global) -> Founded
    ensures { result.node ≡ record { 0 = 0 } }
{
    found_until(rt, alloc, false, 10, 10, 0)
}

// The shards of node 0 that is alone and has two managers, with leases that are 1,000 long, the first of which is over.
pub fn found_without_lease<R: Wait + Abort>(rt: &R, alloc: Global) -> Founded
    ensures { result.node ≡ record { 0 = 0 } }
{
    found_until(rt, alloc, false, 0, 1_000, 2)
}

// A desk of node 0 with no outlets.
pub fn desk<R: Wait + Abort + Copy + Drop, P: Places>(
    rt: R,
    alloc: Global,
    shards: &Arc<Shards<Quiet, P>>,
    number: u32,
) -> NodeDesk<R, Quiet, P> {
    let shards = Arc::try_clone(shards).expect(&rt, "memory");
    let post = Post::new(
        &rt,
        alloc,
        0,
        number,
        shards,
        Sequence::new(alloc),
        Sequence::new(alloc),
        Quiet { number: 0 },
    )
    .expect(&rt, "memory");
    NodeDesk::new(rt, post)
}

// A desk of node 0 with a clock at this reading.
pub fn clock_desk<R: Wait + Abort + Copy + Drop, P: Places>(
    rt: R,
    alloc: Global,
    shards: &Arc<Shards<Quiet, P>>,
    number: u32,
    at: u64,
) -> ClockDesk<HandClock, R, Quiet, P> {
    let clock = Arc::new(alloc, HandClock { at }).expect(&rt, "memory");
    ClockDesk::new(desk(rt, alloc, shards, number), clock)
}

// What a desk tells.
pub fn asked<R: Abort, D: Desk>(rt: &R, desk: &mut D, key: &Key, op: Op) -> DeskReply {
    let reply = desk.ask(key, &op).expect(rt, "memory");
    let_go(op);
    reply
}

// Whether this is what a desk tells.
pub fn tells<R: Abort, D: Desk>(
    rt: &R,
    desk: &mut D,
    key: &Key,
    op: Op,
    wanted: DeskReply,
) -> bool {
    let reply = asked(rt, desk, key, op);
    let is_told = reply == wanted;
    let_go(reply);
    let_go(wanted);
    is_told
}
