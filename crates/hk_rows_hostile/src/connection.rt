//! Connections that end in the midst of a request, or whose lines are too long.

use hk_conn::{ConnEnd, serve_connection};
use hk_outside::{FakeDesk, MemoryConnection, MemorySink, MemorySource};
use std::alloc::Global;
use std::collections::VecDeque;
use std::process::Abort;

// What a client sends, which reads and writes fail, counted from 0, and what must come of it.
#[derive(Drop)]
struct Case<'a> {
    name: &'a str,
    sent: &'a [u8],
    failing_reads: &'a [u64],
    failing_writes: &'a [u64],
    end: ConnEnd,
    written: &'a [u8],
}

fn connection(rt: &impl Abort, alloc: Global, case: &Case) -> MemoryConnection {
    let sent = Vec::from_slice(alloc, case.sent).expect(rt, "memory");
    let reads = Vec::from_slice(alloc, case.failing_reads).expect(rt, "memory");
    let writes = Vec::from_slice(alloc, case.failing_writes).expect(rt, "memory");
    MemoryConnection {
        source: MemorySource::new(sent, reads),
        sink: MemorySink::new(alloc, writes),
    }
}

// Over a desk that is busy.
fn check(rt: &impl Abort, alloc: Global, case: &Case) {
    let mut conn = connection(rt, alloc, case);
    let mut desk = FakeDesk::new(alloc, VecDeque::new(alloc), 1).expect(rt, "memory");
    let end = serve_connection(alloc, &mut conn, &mut desk, 1);
    let name = case.name;
    assert_eq!(rt; end, case.end, "{name}");
    assert_eq!(rt; conn.sink.sink.bytes.as_slice(), case.written, "{name}");
    assert!(rt; desk.asked.is_empty(), "{name}");
}

const HALF_BLOCK: &[u8] = b"set k 7 0 5\r\nhe";

#[test]
fn a_connection_ends_in_the_midst_of_a_request(rt: HostRuntime) {
    let alloc = rt.alloc();
    let cases: [Case; 3] = [
        Case {
            name: "half a block, and a read that fails",
            sent: HALF_BLOCK,
            failing_reads: &[1],
            failing_writes: &[],
            end: ConnEnd::ReadFault,
            written: b"",
        },
        Case {
            name: "half a block, and the end",
            sent: HALF_BLOCK,
            failing_reads: &[],
            failing_writes: &[],
            end: ConnEnd::End,
            written: b"",
        },
        Case {
            name: "two replies in a write that fails",
            sent: b"version\r\nversion\r\n",
            failing_reads: &[],
            failing_writes: &[0],
            end: ConnEnd::WriteFault,
            written: b"",
        },
    ];
    for case in &cases {
        check(&rt, alloc, case);
    }
}

fn line_of(rt: &impl Abort, alloc: Global, length: usize, end: &[u8]) -> Vec<u8> {
    let mut line = Vec::new(alloc);
    line.resize(length, b'a').expect(rt, "memory");
    line.extend_from_slice(end).expect(rt, "memory");
    line
}

#[test]
fn a_line_has_65536_bytes_at_most(rt: HostRuntime) {
    let alloc = rt.alloc();
    let long = line_of(&rt, alloc, 65_538, b"");
    let fits = line_of(&rt, alloc, 65_536, b"\r\n");
    let too_long = Case {
        name: "65,538 bytes with no end",
        sent: long.as_slice(),
        failing_reads: &[],
        failing_writes: &[],
        end: ConnEnd::TooLong,
        written: b"CLIENT_ERROR line too long\r\n",
    };
    let longest = Case {
        name: "the longest line",
        sent: fits.as_slice(),
        failing_reads: &[],
        failing_writes: &[],
        end: ConnEnd::End,
        written: b"ERROR\r\n",
    };
    check(&rt, alloc, &too_long);
    check(&rt, alloc, &longest);
}
