//! A key that is written in one thread and watched in another.

use hk_outside::{MemorySink, Status};
use hk_watching::watch_writes;

#[test]
fn the_last_stamp_that_a_watch_is_told_is_that_of_the_last_write(rt: HostRuntime) {
    let alloc = rt.alloc();
    let rows: [(u32, &[u8]); 2] = [
        (1, b"writes 1 last 2.0 rising\n"),
        (100, b"writes 100 last 200.0 rising\n"),
    ];
    for (writes, line) in rows {
        let mut sink = MemorySink::new(alloc, Vec::new(alloc));
        assert_eq!(rt; watch_writes(rt, alloc, writes, &mut sink), Status::Done);
        assert_eq!(rt; sink.sink.bytes.as_slice(), line);
    }
}

#[test]
fn a_sink_that_fails_is_told(rt: HostRuntime) {
    let alloc = rt.alloc();
    let fails = [0u64].to_vec(alloc).expect(&rt, "memory");
    let mut sink = MemorySink::new(alloc, fails);
    assert_eq!(rt; watch_writes(rt, alloc, 3, &mut sink), Status::WriteFault);
    assert!(rt; sink.sink.bytes.is_empty());
}
