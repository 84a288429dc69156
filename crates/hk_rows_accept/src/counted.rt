//! Doors that count who came.

use hk_doors::CountedDoors;
use hk_outside::{Doors, Failed, MemoryConnection, MemoryDoors, MemorySink, MemorySource};
use std::alloc::Global;
use std::collections::VecDeque;

fn connection(alloc: Global) -> MemoryConnection {
    MemoryConnection {
        source: MemorySource::new(Vec::new(alloc), Vec::new(alloc)),
        sink: MemorySink::new(alloc, Vec::new(alloc)),
    }
}

// Whether a connection came, where the doors did not fail.
fn comes(doors: &mut CountedDoors<MemoryDoors<MemoryConnection>>) -> Result<bool, Failed> {
    let come = doors.accept()?;
    Ok(come.is_some())
}

#[test]
fn doors_count_who_comes(rt: HostRuntime) {
    let alloc = rt.alloc();
    let mut conns = VecDeque::new(alloc);
    for _ in 0..2_u8 {
        conns.push_back(connection(alloc)).expect(&rt, "memory");
    }
    let mut doors = CountedDoors::new(MemoryDoors::new(conns, false));
    assert_eq!(rt; doors.open(1), Ok(()));
    assert_eq!(rt; comes(&mut doors), Ok(true));
    assert_eq!(rt; comes(&mut doors), Ok(true));
    assert_eq!(rt; (doors.left, doors.faults), (18_446_744_073_709_551_613, 0));
    // Those behind give none, though so many are left.
    assert_eq!(rt; comes(&mut doors), Err(Failed));
    assert_eq!(rt; (doors.left, doors.faults), (18_446_744_073_709_551_613, 1));
}

#[test]
fn doors_behind_them_may_fail_to_open(rt: HostRuntime) {
    let conns = VecDeque::new(rt.alloc());
    let mut doors = CountedDoors::new(MemoryDoors::<MemoryConnection>::new(conns, true));
    assert_eq!(rt; doors.open(1), Err(Failed));
    assert_eq!(rt; (doors.left, doors.faults), (18_446_744_073_709_551_615, 1));
}
