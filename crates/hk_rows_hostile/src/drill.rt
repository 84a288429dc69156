//! Drills whose writes fail.

use hk_drill::drill;
use hk_outside::{MemorySink, MemorySource, Status};
use std::alloc::Global;
use std::process::Abort;

// Two nodes take letters of two writes, some of them twice.
const REPEATS: &[u8] =
    b"group 2 managers 0 lease 1000 skew 0\ncall 0 set k 0 a\ntake 1\ntake 2\ntake 2\ntake 3\ncall 1 set k 0 b\ntake 3\ntake 1\ntake 4\ntake 6\n";

// How a drill ended, and what it wrote.
#[derive(Drop)]
struct Drilled {
    status: Status,
    sink: MemorySink,
}

// A drill of the script, in which these writes fail.
fn follow(rt: &impl Abort, alloc: Global, failing_writes: &[u64]) -> Drilled {
    let script = Vec::from_slice(alloc, REPEATS).expect(rt, "memory");
    let fails = Vec::from_slice(alloc, failing_writes).expect(rt, "memory");
    let mut source = MemorySource::new(script, Vec::new(alloc));
    let mut sink = MemorySink::new(alloc, fails);
    let status = drill(alloc, &mut source, &mut sink);
    Drilled { status, sink }
}

#[test]
fn a_write_that_fails_leaves_a_front_of_the_transcript(rt: HostRuntime) {
    let alloc = rt.alloc();
    let whole = follow(&rt, alloc, &[]);
    assert_eq!(rt; whole.status, Status::Done);
    assert!(rt; whole.sink.writes > 1);
    for number in 0..whole.sink.writes {
        let cut = follow(&rt, alloc, &[number]);
        assert_eq!(rt; cut.status, Status::WriteFault, "write {number}");
        let text = cut.sink.sink.bytes.as_slice();
        assert!(rt;
            whole.sink.sink.bytes.as_slice().starts_with(text),
            "write {number}"
        );
        assert!(rt; text.len() < whole.sink.sink.bytes.len(), "write {number}");
    }
}
