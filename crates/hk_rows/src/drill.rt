//! Scripts and their transcripts, through the top call.

use hk_cli::hermes;
use hk_outside::{
    HandClock, MemoryDoors, MemorySink, MemorySource, NoSpawner, Status, TcpConnection,
};
use std::alloc::Global;
use std::collections::VecDeque;
use std::io::Eprint;
use std::process::Abort;
use std::sync::{Arc, Wait};
use std::thread::Threads;

const HEADER: &[u8] = b"group 1 managers 0 lease 1000 skew 0\n";

// What the top call did: its status, what it wrote and how much it read.
#[derive(Drop)]
struct Outcome {
    status: Status,
    text: Vec<u8>,
    read: usize,
}

// The words of a command.
fn words_of(rt: &impl Abort, alloc: Global, words: &[&str]) -> Vec<String> {
    let mut owned = Vec::new(alloc);
    for word in words {
        let word = String::from_str(alloc, word).expect(rt, "memory");
        owned.push(word).expect(rt, "memory");
    }
    owned
}

// What standard input gives, of which the reads of these numbers fail.
fn source_of(rt: &impl Abort, alloc: Global, script: &[u8], failing_reads: &[u64]) -> MemorySource {
    let script = Vec::from_slice(alloc, script).expect(rt, "memory");
    let fails = Vec::from_slice(alloc, failing_reads).expect(rt, "memory");
    MemorySource::new(script, fails)
}

// What takes the output, of which the writes of these numbers fail.
fn sink_of(rt: &impl Abort, alloc: Global, failing_writes: &[u64]) -> MemorySink {
    let fails = Vec::from_slice(alloc, failing_writes).expect(rt, "memory");
    MemorySink::new(alloc, fails)
}

// Makes the top call. The reads and writes of these numbers fail.
fn call<R: Threads + Wait + Eprint + Abort + Copy + Send + Sync + 'static>(
    rt: R,
    alloc: Global,
    words: &[&str],
    script: &[u8],
    failing_reads: &[u64],
    failing_writes: &[u64],
) -> Outcome {
    let words = words_of(&rt, alloc, words);
    let mut source = source_of(&rt, alloc, script, failing_reads);
    let mut sink = sink_of(&rt, alloc, failing_writes);
    let clock = Arc::new(alloc, HandClock { at: 1 }).expect(&rt, "memory");
    let mut doors: MemoryDoors<TcpConnection> = MemoryDoors::new(VecDeque::new(alloc), false);
    let mut spawner: NoSpawner<R> = NoSpawner::new();
    let status = hermes(
        rt,
        alloc,
        words.as_slice(),
        &mut source,
        &mut sink,
        clock,
        &mut doors,
        &mut spawner,
    );
    Outcome {
        status,
        text: sink.sink.bytes,
        read: source.source.at,
    }
}

// A drill of a script, with no faults.
fn drill<R: Threads + Wait + Eprint + Abort + Copy + Send + Sync + 'static>(
    rt: R,
    alloc: Global,
    script: &[u8],
) -> Outcome {
    call(rt, alloc, &["drill"], script, &[], &[])
}

// The header, these lines, and a comment of so many bytes with no end.
fn with_comment(rt: &impl Abort, alloc: Global, lines: &[u8], count: usize) -> Vec<u8> {
    let mut script = Vec::from_slice(alloc, HEADER).expect(rt, "memory");
    script.extend_from_slice(lines).expect(rt, "memory");
    for _byte in 0..count {
        script.push(b'#').expect(rt, "memory");
    }
    script
}

// Scripts of a group of one, with their transcript and their status.
const ALONE: [(&[u8], &[u8], Status); 13] = [
    (HEADER, b"end 0 0 0\n", Status::Done),
    (
        b"group 1 managers 0 lease 1000 skew 0\ncall 0 set k 5 a\ncall 0 get k\n",
        b"1 call 1\n1 reply 1 stored\n2 call 2\n2 reply 2 found 5 131072 a\nkey k\nhistory c1 r1 c2 r2\norder 1@131072 2\nend 2 2 0\n",
        Status::Done,
    ),
    // A lease that may be over, by its length and by the skew; the end of the input ends the last line.
    (
        b"group 1 managers 0 lease 0 skew 0\ncall 0 get k",
        b"1 call 1\n1 reply 1 busy lease 0 1\nkey k\nhistory c1 r1\norder\nend 1 1 0\n",
        Status::Done,
    ),
    (
        b"group 1 managers 0 lease 9 skew 9\ncall 0 set k 0 a\n",
        b"1 call 1\n1 reply 1 busy lease 9 1\nkey k\nhistory c1 r1\norder\nend 1 1 0\n",
        Status::Done,
    ),
    (
        b"group 1 managers 0 lease 10 skew 9\ncall 0 get k\n",
        b"1 call 1\n1 reply 1 missing\nkey k\nhistory c1 r1\norder 1\nend 1 1 0\n",
        Status::Done,
    ),
    // Keys stand in byte order, each with its own calls; the word `-` is no byte.
    (
        b"group 1 managers 0 lease 1000 skew 0\ncall 0 set b 4294967295 -\ncall 0 get a\ncall 0 get b\ncall 0 set a 0 0\n",
        b"1 call 1\n1 reply 1 stored\n2 call 2\n2 reply 2 missing\n3 call 3\n3 reply 3 found 4294967295 131072 -\n4 call 4\n4 reply 4 stored\nkey a\nhistory c2 r2 c4 r4\norder 2 4@131072\nkey b\nhistory c1 r1 c3 r3\norder 1@131072 3\nend 4 4 0\n",
        Status::Done,
    ),
    // Lines outside the grammar.
    (
        b"group 1 managers 0 lease 1000 skew 0\ncall 0 get k\ncall 0 get\n",
        b"1 call 1\n1 reply 1 missing\nstop line 3 bad\n",
        Status::BadLine,
    ),
    (b"", b"stop line 1 bad\n", Status::BadLine),
    (
        b"group 1 managers 0 lease 01 skew 0\n",
        b"stop line 1 bad\n",
        Status::BadLine,
    ),
    (
        b"group 1 managers 0 lease 1000000000001 skew 0\n",
        b"stop line 1 bad\n",
        Status::BadLine,
    ),
    (
        b"group 1 managers 0 lease 1000 skew 0\ncall 0  get k\n",
        b"stop line 2 bad\n",
        Status::BadLine,
    ),
    (
        b"group 1 managers 0 lease 1000 skew 0\ncall 0 set k 4294967296 a\n",
        b"stop line 2 bad\n",
        Status::BadLine,
    ),
    // Empty lines, and lines that begin with `#`, say nothing.
    (
        b"# one\n\ngroup 1 managers 0 lease 1000 skew 0\n\n#call 0 get k\ncall 0 get k\n call 0 get k\n",
        b"1 call 1\n1 reply 1 missing\nstop line 7 bad\n",
        Status::BadLine,
    ),
];

#[test]
fn scripts_of_a_group_of_one(rt: HostRuntime) {
    for (script, text, status) in ALONE {
        let outcome = drill(rt, rt.alloc(), script);
        assert_eq!(rt; outcome.text.as_slice(), text);
        assert_eq!(rt; outcome.status, status);
    }
}

// Scripts of groups, with their transcript.
const GROUPS: [(&[u8], &[u8]); 3] = [
    // A read that is answered before the update reaches its node stands before it.
    (
        b"group 3 managers 0 lease 1000 skew 0\n\
          call 0 set k 0 a\n\
          call 1 get k\n\
          take 1\n\
          take 2\n\
          take 3\n\
          take 4\n",
        b"1 call 1\n\
          1 send 1 0>1 1 inv k 2.0 write 0 a\n\
          1 send 2 0>2 1 inv k 2.0 write 0 a\n\
          2 call 2\n\
          2 reply 2 missing\n\
          3 send 3 1>0 1 ack k 2.0 2.0\n\
          4 send 4 2>0 1 ack k 2.0 2.0\n\
          6 send 5 0>1 1 val k 2.0\n\
          6 send 6 0>2 1 val k 2.0\n\
          6 reply 1 stored\n\
          key k\n\
          history c1 c2 r2 r1\n\
          order 2 1@131072\n\
          end 6 2 6\n",
    ),
    // Of two increments at one value the lower one is aborted.
    (
        b"group 2 managers 0 lease 1000 skew 0\n\
          call 0 set k 0 5\n\
          take 1\n\
          take 2\n\
          take 3\n\
          call 0 incr k 1\n\
          call 1 incr k 1\n\
          take 4\n\
          take 5\n\
          take 7\n\
          take 6\n\
          take 8\n\
          call 0 get k\n",
        b"1 call 1\n\
          1 send 1 0>1 1 inv k 2.0 write 0 5\n\
          2 send 2 1>0 1 ack k 2.0 2.0\n\
          3 send 3 0>1 1 val k 2.0\n\
          3 reply 1 stored\n\
          5 call 2\n\
          5 send 4 0>1 1 inv k 3.0 rmw 0 6\n\
          6 call 3\n\
          6 send 5 1>0 1 inv k 3.1 rmw 0 6\n\
          7 send 6 1>0 1 inv k 3.1 rmw 0 6\n\
          8 send 7 0>1 1 ack k 3.1 3.1\n\
          8 reply 2 aborted 3.1\n\
          9 send 8 1>0 1 val k 3.1\n\
          9 reply 3 number 6\n\
          10 send 9 0>1 1 ack k 3.1 3.1\n\
          12 call 4\n\
          12 reply 4 found 0 196609 6\n\
          key k\n\
          history c1 r1 c2 c3 r2 r3 c4 r4\n\
          order 1@131072 3@196609 4\n\
          end 12 4 9\n",
    ),
    // What a world refuses, and by which name.
    (
        b"group 2 managers 0 lease 1000 skew 5\n\
          tick 0 6\n\
          tick 0 7\n\
          tick 0 5\n\
          take 1\n\
          call 2 get k\n\
          crash 1\n\
          call 1 get k\n\
          tick 0 900\n\
          install 0 2\n\
          agree drop 5\n\
          propose m0 1 add\n\
          agree drop 1\n\
          agree drop 0\n\
          install 0 2\n\
          install 0 2\n\
          start 0\n\
          start 7\n",
        b"2 refused skew 7 1\n\
          3 refused clock-falls 6\n\
          4 refused no-letter\n\
          5 refused no-actor\n\
          7 refused crashed\n\
          9 refused no-view\n\
          10 refused no-such-member\n\
          11 refused no-actor\n\
          12 view 2:2:0\n\
          13 refused last-member\n\
          14 installed 0 2\n\
          15 refused behind 2\n\
          16 refused started\n\
          17 refused not-member\n\
          end 17 0 0\n",
    ),
];

#[test]
fn scripts_of_groups(rt: HostRuntime) {
    for (script, text) in GROUPS {
        let outcome = drill(rt, rt.alloc(), script);
        assert_eq!(rt; outcome.text.as_slice(), text);
        assert_eq!(rt; outcome.status, Status::Done);
    }
}

#[test]
fn a_line_has_4096_bytes_at_most(rt: HostRuntime) {
    let alloc = rt.alloc();
    let rows: [(usize, &[u8], Status); 2] = [
        (4_096, b"end 0 0 0\n", Status::Done),
        (4_097, b"stop line 2 long\n", Status::TooLong),
    ];
    for (count, text, status) in rows {
        let script = with_comment(&rt, alloc, b"", count);
        let outcome = drill(rt, alloc, script.as_slice());
        assert_eq!(rt; outcome.text.as_slice(), text);
        assert_eq!(rt; outcome.status, status);
    }
}

const USAGE: &[u8] = b"usage: hermes drill | generate | storm | serve\n";

// Words that are no command's.
const NO_COMMANDS: [&[&str]; 18] = [
    &[],
    &["drill", "now"],
    &["--help"],
    &["serve"],
    &["generate", "--start", "1", "--count", "5"],
    &[
        "generate", "--start", "1", "--count", "100001", "--nodes", "1",
    ],
    &["generate", "--start", "1", "--count=05", "--nodes", "1"],
    &["generate", "--start", "1", "--count", "5", "--nodes", "17"],
    &["generate", "--start", "1", "--start=1", "--nodes", "1"],
    &["--start", "1", "generate", "--count", "5", "--nodes", "1"],
    &["watch"],
    &["watch", "--writes", "0"],
    &["watch", "--writes", "10001"],
    &["watch", "--writes", "5", "--writes", "5"],
    &[
        "peer",
        "--id=3",
        "--nodes=3",
        "--workers=1",
        "--port=11211",
        "--conns=1",
    ],
    &[
        "peer",
        "--id=0",
        "--nodes=3",
        "--workers=1",
        "--port=65534",
        "--conns=1",
    ],
    &[
        "serve",
        "--nodes=17",
        "--workers=1",
        "--managers=0",
        "--lease=1",
        "--skew=0",
        "--port=11211",
        "--conns=1",
    ],
    &[
        "serve",
        "--nodes=1",
        "--workers=1",
        "--managers=0",
        "--lease=1",
        "--skew=0",
        "--port=65536",
        "--conns=1",
    ],
];

#[test]
fn other_words_are_answered_by_one_line(rt: HostRuntime) {
    for words in NO_COMMANDS {
        let outcome = call(rt, rt.alloc(), words, HEADER, &[], &[]);
        assert_eq!(rt; outcome.status, Status::Usage);
        assert_eq!(rt; outcome.text.as_slice(), USAGE);
        assert_eq!(rt; outcome.read, 0);
    }
}

#[test]
fn a_server_that_can_start_no_thread_tells_so(rt: HostRuntime) {
    let words = [
        "serve",
        "--nodes",
        "1",
        "--workers",
        "1",
        "--managers",
        "0",
        "--conns=7",
        "--lease=1000000000000",
        "--skew=0",
        "--port",
        "11211",
    ];
    let outcome = call(rt, rt.alloc(), &words, HEADER, &[], &[]);
    assert_eq!(rt; outcome.status, Status::SpawnFault);
    assert_eq!(rt; outcome.text.as_slice(), b"".as_slice());
    assert_eq!(rt; outcome.read, 0);
}

#[test]
fn runs_are_drawn_from_a_number(rt: HostRuntime) {
    let rows: [(&[&str], &[u8]); 2] = [
        (
            &[
                "generate", "--start", "7", "--count", "20000", "--nodes", "5",
            ],
            b"generated 7 20000 5\ncalls 5115 answered 289 busy 4669 aborted 145 open 12\nletters 10692 legal\n",
        ),
        (
            &["generate", "--nodes=5", "--count=20000", "--start=7"],
            b"generated 7 20000 5\ncalls 5115 answered 289 busy 4669 aborted 145 open 12\nletters 10692 legal\n",
        ),
    ];
    for (words, text) in rows {
        let outcome = call(rt, rt.alloc(), words, b"", &[], &[]);
        assert_eq!(rt; outcome.text.as_slice(), text);
        assert_eq!(rt; outcome.status, Status::Done);
    }
}

#[test]
fn a_watch_tells_the_stamp_of_the_last_write(rt: HostRuntime) {
    let rows: [(&[&str], &[u8]); 2] = [
        (
            &["watch", "--writes", "100"],
            b"writes 100 last 200.0 rising\n",
        ),
        (
            &["watch", "--writes=10000"],
            b"writes 10000 last 20000.0 rising\n",
        ),
    ];
    for (words, text) in rows {
        let outcome = call(rt, rt.alloc(), words, b"", &[], &[]);
        assert_eq!(rt; outcome.text.as_slice(), text);
        assert_eq!(rt; outcome.status, Status::Done);
    }
}

#[test]
fn faults_of_the_outside_are_told(rt: HostRuntime) {
    // The first read fails, then the one that would find the end, then the first write.
    let rows: [(&[u64], &[u64], Status); 3] = [
        (&[0], &[], Status::ReadFault),
        (&[1], &[], Status::ReadFault),
        (&[], &[0], Status::WriteFault),
    ];
    for (failing_reads, failing_writes, status) in rows {
        let outcome = call(
            rt,
            rt.alloc(),
            &["drill"],
            HEADER,
            failing_reads,
            failing_writes,
        );
        assert_eq!(rt; outcome.status, status);
        assert!(rt; outcome.text.is_empty());
    }
}

#[test]
fn a_read_that_fails_leaves_what_the_lines_before_it_told(rt: HostRuntime) {
    let alloc = rt.alloc();
    // The lines behind the header and what they told; the last is not ended, or ends a piece.
    let rows: [(&[u8], &[u8]); 3] = [
        (b"call 0 set k 5 a\n", b"1 call 1\n1 reply 1 stored\n"),
        (
            b"call 0 set k 5 a\ncall 0 get k",
            b"1 call 1\n1 reply 1 stored\n",
        ),
        (b"#\n\ncall 0 get k\n", b"1 call 1\n1 reply 1 missing\n"),
    ];
    for (lines, text) in rows {
        let script = with_comment(&rt, alloc, lines, 0);
        let outcome = call(rt, alloc, &["drill"], script.as_slice(), &[1], &[]);
        assert_eq!(rt; outcome.text.as_slice(), text);
        assert_eq!(rt; outcome.status, Status::ReadFault);
    }
}

#[test]
fn an_event_may_stand_in_two_pieces(rt: HostRuntime) {
    let alloc = rt.alloc();
    // A comment of so many bytes, with its feed, moves the end of the first 4,096 bytes through the event.
    let events: &[u8] = b"\ncall 0 set k 5 a\ncall 0 get k\n";
    let text: &[u8] =
        b"1 call 1\n1 reply 1 stored\n2 call 2\n2 reply 2 found 5 131072 a\nkey k\nhistory c1 r1 c2 r2\norder 1@131072 2\nend 2 2 0\n";
    for count in 4_025usize..4_062 {
        let mut script = with_comment(&rt, alloc, b"", count);
        script.extend_from_slice(events).expect(&rt, "memory");
        let outcome = drill(rt, alloc, script.as_slice());
        assert_eq!(rt; outcome.text.as_slice(), text);
        assert_eq!(rt; outcome.status, Status::Done);
    }
}

#[test]
fn a_stop_reads_no_further(rt: HostRuntime) {
    let alloc = rt.alloc();
    // A bad line; a line of which less than 4,097 bytes have come, for which more is read; and one that is too long before
    // its feed has come. The read behind those that are needed would fail.
    let rows: [(&[u8], usize, u64, &[u8], Status); 3] = [
        (b"call\n", 5_000, 1, b"stop line 2 bad\n", Status::BadLine),
        (b"\n", 5_000, 1, b"", Status::ReadFault),
        (b"\n", 9_000, 2, b"stop line 3 long\n", Status::TooLong),
    ];
    for (line, count, failing_read, text, status) in rows {
        let script = with_comment(&rt, alloc, line, count);
        let outcome = call(
            rt,
            alloc,
            &["drill"],
            script.as_slice(),
            &[failing_read],
            &[],
        );
        assert_eq!(rt; outcome.text.as_slice(), text);
        assert_eq!(rt; outcome.status, status);
    }
}
