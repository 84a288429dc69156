//! How servers of groups end, and that their nodes are one.

ghost use Rattle.std.specs.Prelude.{◌≤◌};
ghost use Rattle.hk_group.specs.Founding.{IsGroup};

use crate::jobs::{doors, seen};
use crate::talking::Talking;
use hk_group::{Group, serve};
use hk_outside::{HandClock, MemoryDoors, NoSpawner, Status, ThreadSpawner};
use std::alloc::Global;
use std::collections::VecDeque;
use std::process::Abort;
use std::sync::Arc;
use std::sync::atomic::{AtomicBool, Ordering};

fn group(nodes: u8, managers: u8, conns: u32) -> Group
    requires some { 1 ≤ nodes }
    requires few { nodes ≤ 16 }
    requires managers { managers ≤ 9 }
    ensures is { IsGroup result }
{
    Group {
        nodes,
        workers: 1,
        managers,
        lease: 1_000,
        skew: 0,
        port: 11_211,
        conns,
    }
}

fn hand_clock(rt: &impl Abort, alloc: Global) -> Arc<HandClock> {
    Arc::new(alloc, HandClock { at: 1 }).expect(rt, "memory")
}

fn flag(rt: &impl Abort, alloc: Global) -> Arc<AtomicBool> {
    Arc::new(alloc, AtomicBool::new(false)).expect(rt, "memory")
}

// A client that sets `k` until it is told so, and one that gets it then until it reads that value.
fn talking(
    rt: &impl Abort,
    alloc: Global,
    stored: &Arc<AtomicBool>,
    found: &Arc<AtomicBool>,
) -> MemoryDoors<Talking> {
    let mut conns = VecDeque::new(alloc);
    let setting = Talking {
        request: b"set k 0 0 1\r\nx\r\n",
        wanted: b"STORED\r\n",
        after: None,
        read: Arc::clone(stored).expect(rt, "memory"),
        tries: 0,
        faults: 0,
    };
    let getting = Talking {
        request: b"get k\r\n",
        wanted: b"VALUE k 0 1\r\nx\r\nEND\r\n",
        after: Some(Arc::clone(stored).expect(rt, "memory")),
        read: Arc::clone(found).expect(rt, "memory"),
        tries: 0,
        faults: 0,
    };
    conns.push_back(setting).expect(rt, "memory");
    conns.push_back(getting).expect(rt, "memory");
    MemoryDoors::new(conns, false)
}

#[test]
fn conns_of_a_node_meet(rt: HostRuntime) {
    let alloc = rt.alloc();
    let seen = seen(&rt, alloc);
    let mut doors = doors(&rt, alloc, &seen, false);
    let mut spawner = ThreadSpawner::new(rt, alloc);
    let clock = hand_clock(&rt, alloc);
    let status = serve(rt, alloc, clock, &group(1, 0, 2), &mut doors, &mut spawner);
    assert_eq!(rt; status, Status::Done);
    assert_eq!(rt; seen.written.load(Ordering::SeqCst), 16);
    spawner.join_all();
}

#[test]
fn nodes_meet(rt: HostRuntime) {
    let alloc = rt.alloc();
    let stored = flag(&rt, alloc);
    let found = flag(&rt, alloc);
    let mut doors = talking(&rt, alloc, &stored, &found);
    let mut spawner = ThreadSpawner::new(rt, alloc);
    let clock = hand_clock(&rt, alloc);
    let status = serve(rt, alloc, clock, &group(2, 1, 2), &mut doors, &mut spawner);
    assert_eq!(rt; status, Status::Done);
    assert!(rt; stored.load(Ordering::SeqCst));
    assert!(rt; found.load(Ordering::SeqCst));
    spawner.join_all();
}

#[test]
fn a_server_with_no_door_tells_so(rt: HostRuntime) {
    let alloc = rt.alloc();
    let seen = seen(&rt, alloc);
    let mut doors = doors(&rt, alloc, &seen, true);
    let mut spawner: NoSpawner<HostRuntime> = NoSpawner::new();
    let clock = hand_clock(&rt, alloc);
    let status = serve(rt, alloc, clock, &group(1, 0, 2), &mut doors, &mut spawner);
    assert_eq!(rt; status, Status::DoorFault);
}

#[test]
fn a_server_with_no_threads_tells_so(rt: HostRuntime) {
    let alloc = rt.alloc();
    let seen = seen(&rt, alloc);
    let mut doors = doors(&rt, alloc, &seen, false);
    let mut spawner: NoSpawner<HostRuntime> = NoSpawner::new();
    let clock = hand_clock(&rt, alloc);
    let status = serve(rt, alloc, clock, &group(1, 0, 2), &mut doors, &mut spawner);
    assert_eq!(rt; status, Status::SpawnFault);
}
