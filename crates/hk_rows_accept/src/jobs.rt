//! How servers end whose connections are jobs, and that these run side by side.

use crate::failing::FailingDoors;
use crate::meeting::{Meeting, Seen};
use hk_accept::{Desks, serve_at, serve_each};
use hk_base::{Answer, Memory};
use hk_outside::{
    Connection, DeskReply, FakeDesk, MemoryConnection, MemoryDoors, MemorySink, MemorySource,
    NoSpawner, Status, ThreadSpawner,
};
use std::alloc::Global;
use std::collections::VecDeque;
use std::process::Abort;
use std::sync::Arc;
use std::sync::atomic::{AtomicBool, AtomicU64, Ordering};

// Desks that tell one Stored each.
#[derive(Drop)]
struct Storing {
    alloc: Global,
}

impl Desks for Storing {
    fn serve<N: Connection>(&self, conn: &mut N, _number: u32) {
        serve_at(self.alloc, conn, self.desk());
    }
}

impl Storing {
    fn desk(&self) -> Result<FakeDesk, Memory> {
        let mut replies = VecDeque::new(self.alloc);
        replies.push_back(DeskReply::Told(Answer::Stored))?;
        FakeDesk::new(self.alloc, replies, 0)
    }
}

fn connection(rt: &impl Abort, alloc: Global) -> MemoryConnection {
    let sent = Vec::from_slice(alloc, b"set k 0 0 1\r\nx\r\n").expect(rt, "memory");
    MemoryConnection {
        source: MemorySource::new(sent, Vec::new(alloc)),
        sink: MemorySink::new(alloc, Vec::new(alloc)),
    }
}

pub fn seen(rt: &impl Abort, alloc: Global) -> Arc<Seen> {
    let seen = Seen {
        written: AtomicU64::new(0),
        stored: AtomicBool::new(false),
    };
    Arc::new(alloc, seen).expect(rt, "memory")
}

// Two connections, of which the first waits for the second.
pub fn doors(
    rt: &impl Abort,
    alloc: Global,
    seen: &Arc<Seen>,
    fails: bool,
) -> MemoryDoors<Meeting> {
    let mut conns = VecDeque::new(alloc);
    for waits in [true, false] {
        let conn = Meeting {
            conn: connection(rt, alloc),
            waits,
            faults: 0,
            seen: Arc::clone(seen).expect(rt, "memory"),
        };
        conns.push_back(conn).expect(rt, "memory");
    }
    MemoryDoors::new(conns, fails)
}

fn stores(rt: &impl Abort, alloc: Global) -> Arc<Storing> {
    Arc::new(alloc, Storing { alloc }).expect(rt, "memory")
}

#[test]
fn conns_meet(rt: HostRuntime) {
    let alloc = rt.alloc();
    for conns in [2, 3] {
        let seen = seen(&rt, alloc);
        let mut doors = doors(&rt, alloc, &seen, false);
        let mut spawner = ThreadSpawner::new(rt, alloc);
        let status = serve_each(
            &rt,
            alloc,
            &mut doors,
            &mut spawner,
            &stores(&rt, alloc),
            conns,
        );
        assert_eq!(rt; status, Status::Done, "{conns} connections");
        assert_eq!(rt; spawner.taken, 2, "{conns} connections");
        assert_eq!(rt;
            seen.written.load(Ordering::SeqCst),
            16,
            "{conns} connections"
        );
        spawner.join_all();
    }
}

#[test]
fn doors_that_fail_are_tried_again(rt: HostRuntime) {
    let alloc = rt.alloc();
    let seen = seen(&rt, alloc);
    let mut doors = FailingDoors {
        doors: doors(&rt, alloc, &seen, false),
        failures: 3,
    };
    let mut spawner = ThreadSpawner::new(rt, alloc);
    let desks = stores(&rt, alloc);
    let status = serve_each(&rt, alloc, &mut doors, &mut spawner, &desks, 2);
    assert_eq!(rt; status, Status::Done);
    assert_eq!(rt; doors.doors.faults, 3);
    assert!(rt; doors.doors.is_closed);
    assert_eq!(rt; seen.written.load(Ordering::SeqCst), 16);
    spawner.join_all();
}

#[test]
fn connections_with_no_job_end_nothing(rt: HostRuntime) {
    let alloc = rt.alloc();
    let seen = seen(&rt, alloc);
    let mut doors = doors(&rt, alloc, &seen, false);
    let mut spawner: NoSpawner<HostRuntime> = NoSpawner::new();
    let desks = stores(&rt, alloc);
    let status = serve_each(&rt, alloc, &mut doors, &mut spawner, &desks, 2);
    assert_eq!(rt; status, Status::Done);
    assert_eq!(rt; spawner.faults, 2);
    assert_eq!(rt; seen.written.load(Ordering::SeqCst), 0);
}
