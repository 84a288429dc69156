//! The command `peer` over doors in memory, and threads.

use crate::seen::Seen;
use hk_accept::LooseSpawner;
use hk_cli::hermes;
use hk_outside::{
    Doors, HandClock, MemoryDoors, MemorySink, MemorySource, NoSpawner, Spawner, Status,
};
use std::alloc::Global;
use std::collections::VecDeque;
use std::io::Eprint;
use std::process::Abort;
use std::sync::{Arc, Mutex, Wait};
use std::thread::Threads;

const SENT: &[u8] = b"set k 7 0 5\r\nhello\r\nget k none\r\ngets k\r\nquit\r\n";

const REPLIES: &[u8] =
    b"STORED\r\nVALUE k 7 5\r\nhello\r\nEND\r\nVALUE k 7 5 131072\r\nhello\r\nEND\r\n";

// Makes the top call with these words.
pub fn called<
    R: Threads + Wait + Eprint + Abort + Copy + Send + Sync + 'static,
    D: Doors,
    P: Spawner,
>(rt: R, alloc: Global, words: &[&str], doors: &mut D, spawner: &mut P) -> Status {
    let mut owned = Vec::new(alloc);
    for word in words {
        let word = String::from_str(alloc, word).expect(&rt, "memory");
        owned.push(word).expect(&rt, "memory");
    }
    let mut source = MemorySource::new(Vec::new(alloc), Vec::new(alloc));
    let mut sink = MemorySink::new(alloc, Vec::new(alloc));
    let clock = Arc::new(alloc, HandClock { at: 1 }).expect(&rt, "memory");
    hermes(
        rt,
        alloc,
        owned.as_slice(),
        &mut source,
        &mut sink,
        clock,
        doors,
        spawner,
    )
}

// Doors through which one client comes, who sends these bytes.
fn doors<R: Wait + Copy + Send + Sync + Drop + Abort + 'static>(
    rt: R,
    alloc: Global,
    sent: &[u8],
    written: &Arc<Mutex<Vec<u8>>>,
    fails: bool,
) -> MemoryDoors<Seen<R>> {
    let sent = Vec::from_slice(alloc, sent).expect(&rt, "memory");
    let mut conns = VecDeque::new(alloc);
    let conn = Seen {
        rt,
        source: MemorySource::new(sent, Vec::new(alloc)),
        written: Arc::try_clone(written).expect(&rt, "memory"),
        faults: 0,
    };
    conns.push_back(conn).expect(&rt, "memory");
    MemoryDoors::new(conns, fails)
}

const ALONE: [&str; 11] = [
    "peer",
    "--id",
    "0",
    "--nodes",
    "1",
    "--workers",
    "1",
    "--port",
    "21000",
    "--conns",
    "1",
];

fn nothing(rt: &impl Abort, alloc: Global) -> Arc<Mutex<Vec<u8>>> {
    Arc::new(alloc, Mutex::new(Vec::new(alloc))).expect(rt, "memory")
}

#[test]
fn a_client_of_a_lone_node_gets_its_replies(rt: HostRuntime) {
    let alloc = rt.alloc();
    let written = nothing(&rt, alloc);
    let mut doors = doors(rt, alloc, SENT, &written, false);
    let mut spawner = LooseSpawner::new(rt);
    let status = called(rt, alloc, ALONE.as_slice(), &mut doors, &mut spawner);
    assert_eq!(rt; status, Status::Done);
    assert!(rt; written.lock(&rt).as_slice() == REPLIES);
}

#[test]
fn faults_of_doors_and_of_threads_are_told(rt: HostRuntime) {
    let alloc = rt.alloc();
    for (fails, wanted) in [(true, Status::DoorFault), (false, Status::SpawnFault)] {
        let written = nothing(&rt, alloc);
        let mut doors = doors(rt, alloc, SENT, &written, fails);
        let mut spawner: NoSpawner<HostRuntime> = NoSpawner::new();
        let status = called(rt, alloc, ALONE.as_slice(), &mut doors, &mut spawner);
        assert_eq!(rt; status, wanted);
    }
}
