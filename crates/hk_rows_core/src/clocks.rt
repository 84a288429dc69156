//! Clocks that run apart by a rate.

use hk_base::{Actor, NodeId};
use hk_clocks::{ClockFault, Clocks};
use std::alloc::Global;
use std::process::Abort;

const NODE_0: Actor = Actor::Node(NodeId(0));

const NODE_1: Actor = Actor::Node(NodeId(1));

const MANAGER_0: Actor = Actor::Manager(0);

// Clocks that begin at 1.
fn begun(rt: &impl Abort, alloc: Global, skew: u32, actors: &[Actor]) -> Clocks {
    let mut clocks = Clocks::new(alloc, u64::from(skew));
    for actor in actors {
        clocks.start(alloc, *actor, 1).expect(rt, "it starts");
    }
    clocks
}

fn tick(clocks: &mut Clocks, alloc: Global, actor: Actor, to: u32) -> Result<(), ClockFault> {
    clocks.tick(alloc, actor, u64::from(to))
}

fn tick_all(clocks: &mut Clocks, alloc: Global, to: u32) -> Result<(), ClockFault> {
    clocks.tick_all(alloc, u64::from(to))
}

#[test]
fn a_clock_runs_ahead_by_the_skew(rt: HostRuntime) {
    let alloc = rt.alloc();
    let mut clocks = begun(&rt, alloc, 10, &[NODE_0, NODE_1]);
    let rows = [
        (NODE_0, 11, Ok(())),
        (NODE_1, 12, Err(ClockFault::Skew { to: 12, other: 11 })),
        (NODE_1, 11, Ok(())),
        (NODE_0, 22, Err(ClockFault::Skew { to: 22, other: 11 })),
        (NODE_0, 21, Ok(())),
        (NODE_0, 20, Err(ClockFault::ClockFalls { clock: 21 })),
    ];
    for (actor, to, want) in rows {
        let got = tick(&mut clocks, alloc, actor, to);
        assert_eq!(rt; got, want, "tick {actor:?} to {to}");
    }
}

#[test]
fn the_first_that_is_left_is_told(rt: HostRuntime) {
    let alloc = rt.alloc();
    let mut clocks = begun(&rt, alloc, 5, &[MANAGER_0, NODE_1, NODE_0]);
    tick(&mut clocks, alloc, NODE_0, 3).expect(&rt, "it ticks");
    tick(&mut clocks, alloc, NODE_1, 2).expect(&rt, "it ticks");
    let got = tick(&mut clocks, alloc, MANAGER_0, 7);
    assert_eq!(rt; got, Err(ClockFault::Skew { to: 7, other: 3 }));
    let got = tick(&mut clocks, alloc, NODE_0, 7);
    assert_eq!(rt; got, Err(ClockFault::Skew { to: 7, other: 1 }));
}

#[test]
fn all_rise_together(rt: HostRuntime) {
    let alloc = rt.alloc();
    let mut clocks = begun(&rt, alloc, 10, &[NODE_0, NODE_1]);
    tick(&mut clocks, alloc, NODE_0, 11).expect(&rt, "it ticks");
    let got = tick_all(&mut clocks, alloc, 10);
    assert_eq!(rt; got, Err(ClockFault::ClockFalls { clock: 11 }));
    // node 1 rises by 10 and node 0 by none: now node 1 is ahead by the skew
    tick_all(&mut clocks, alloc, 11).expect(&rt, "it ticks");
    let got = tick(&mut clocks, alloc, NODE_1, 12);
    assert_eq!(rt; got, Err(ClockFault::Skew { to: 12, other: 11 }));
    tick(&mut clocks, alloc, NODE_0, 21).expect(&rt, "it ticks");
    tick(&mut clocks, alloc, NODE_1, 21).expect(&rt, "it ticks");
    assert_eq!(rt; clocks.greatest(1), 21);
    // a clock that begins far behind can't come up at once
    clocks.start(alloc, MANAGER_0, 1).expect(&rt, "it starts");
    let got = tick_all(&mut clocks, alloc, 32);
    assert_eq!(rt; got, Err(ClockFault::Skew { to: 32, other: 21 }));
}

#[test]
fn who_starts_and_stops(rt: HostRuntime) {
    let alloc = rt.alloc();
    let mut clocks = begun(&rt, alloc, 10, &[NODE_0]);
    assert_eq!(rt; clocks.start(alloc, NODE_0, 1), Err(ClockFault::Live));
    assert_eq!(rt;
        tick(&mut clocks, alloc, NODE_1, 2),
        Err(ClockFault::NotLive)
    );
    tick(&mut clocks, alloc, NODE_0, 11).expect(&rt, "it ticks");
    // a joiner has no lead, and none over it
    clocks.start(alloc, NODE_1, 11).expect(&rt, "it starts");
    tick(&mut clocks, alloc, NODE_0, 21).expect(&rt, "it ticks");
    clocks.stop(NODE_0).expect(&rt, "it stops");
    assert_eq!(rt; clocks.stop(NODE_0), Err(ClockFault::NotLive));
    assert_eq!(rt; clocks.clock_of(NODE_0), None);
    // with no other live actor a clock rises freely
    tick(&mut clocks, alloc, NODE_1, 1000).expect(&rt, "it ticks");
    assert_eq!(rt; clocks.clock_of(NODE_1), Some(1000));
}
