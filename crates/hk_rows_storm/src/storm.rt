//! Storms, and what they write.

use hk_outside::{HandClock, MemorySink, Status};
use hk_storm::{StormOpts, is_storm, storm};
use std::alloc::Global;
use std::process::Abort;
use std::sync::Wait;
use std::thread::Threads;

// What a storm writes.
fn written<R: Threads + Wait + Abort + Copy + Send + Sync + Drop + 'static>(
    rt: R,
    alloc: Global,
    nodes: u8,
    workers: u8,
    calls: u32,
) -> (Status, Vec<u8>) {
    let opts = StormOpts {
        start: 1,
        nodes,
        workers,
        calls,
    };
    assert!(rt; is_storm(&opts));
    let mut sink = MemorySink::new(alloc, Vec::new(alloc));
    let clock = HandClock { at: 1 };
    let status = storm(rt, alloc, &opts, &clock, &mut sink);
    (status, sink.sink.bytes)
}

#[test]
fn a_lone_worker_answers_all_calls(rt: HostRuntime) {
    let (status, text) = written(rt, rt.alloc(), 1, 1, 100);
    assert_eq!(rt; status, Status::Done);
    let wanted = b"storm 1 1 100\nanswered 100 busy 0 aborted 0 open 0 legal\n";
    assert!(rt; text.as_slice() == wanted.as_slice());
}

#[test]
fn a_storm_of_three_nodes_is_legal(rt: HostRuntime) {
    let (status, text) = written(rt, rt.alloc(), 3, 2, 300);
    assert_eq!(rt; status, Status::Done);
    assert!(rt; text.starts_with(b"storm 3 2 300\n") && text.ends_with(b" legal\n"));
}
