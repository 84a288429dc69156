//! Lines of scripts, read and printed.

use hk_base::{Actor, Change, Data, Key, NodeId, Op};
use hk_event::Event;
use hk_rows_shared::let_go;
use hk_script::{LineFault, print_event, print_header, read_event, read_header};
use std::alloc::Global;
use std::process::Abort;

// The line of the event that a line is.
fn again(rt: &impl Abort, alloc: Global, line: &[u8]) -> Vec<u8> {
    let event = read_event(alloc, line).expect(rt, "an event");
    let mut out = Vec::new(alloc);
    print_event(&event, &mut out).expect(rt, "memory");
    let_go(event);
    out
}

fn is_bad(alloc: Global, line: &[u8]) -> bool {
    read_event(alloc, line).err() == Some(LineFault::Bad)
}

#[test]
fn reads_and_prints_each_event(rt: HostRuntime) {
    let alloc = rt.alloc();
    let lines = [
        "call 0 get user:7",
        "call 1 set k 4294967295 hello",
        "call 2 cas k 0 - 18446744073709551615",
        "call 3 incr k 5",
        "call 4 decr k 0",
        "call 5 add k 0 a%20b",
        "call 6 replace k 1 -",
        "call 7 delete k",
        "take 18446744073709551615",
        "tick 65535 1000000000000",
        "tick m8 3",
        "tick all 0",
        "crash 7",
        "crash m0",
        "resend 1 k",
        "replay 2 k",
        "copy 3 0 1",
        "copy 3 65535 64",
        "start 3",
        "agree drop 2",
        "agree add",
        "install 1 3",
        "lease 1 1000000000000",
        "asklease 1 m2",
        "propose m1 4 drop 2",
        "propose m1 4 add",
        "activate m0",
    ];
    for line in lines {
        let out = again(&rt, alloc, line.as_bytes());
        assert_eq!(rt; out.as_slice(), line.as_bytes(), "at {line}");
    }
}

// Whether the event is a cas of the key `k` at node 1, to `a b` with the flags 7, at the tag 42.
fn is_cas(event: &Event, k: &Key, bytes: &Data) -> bool {
    match event {
        Event::Call { node, key, op } => *node == NodeId(1) && key == k && is_cas_of(op, bytes),
        _ => false,
    }
}

fn is_cas_of(op: &Op, bytes: &Data) -> bool {
    match op {
        Op::Cas { tag, content } => { *tag == 42 && content.flags == 7 && content.bytes == *bytes }
        _ => false,
    }
}

// Whether the event is manager 8's proposal to drop node 2 from view 4.
fn is_proposal(event: &Event) -> bool {
    match event {
        Event::Propose {
            manager,
            base,
            change,
        } => *manager == 8 && *base == 4 && *change == Change::Drop(NodeId(2)),
        _ => false,
    }
}

// Whether the event is a tick of manager 3 to 9.
fn is_tick(event: &Event) -> bool {
    match event {
        Event::Tick { actor, to } => *actor == Actor::Manager(3) && *to == 9,
        _ => false,
    }
}

#[test]
fn reads_what_is_meant(rt: HostRuntime) {
    let alloc = rt.alloc();
    let key = Key::read(alloc, b"k").expect(&rt, "memory");
    let bytes = Data::read(alloc, b"a b").expect(&rt, "memory");
    let cas = read_event(alloc, b"call 1 cas k 7 a%20b 42").expect(&rt, "an event");
    assert!(rt; is_cas(&cas, &key, &bytes));
    let_go(cas);
    let proposal = read_event(alloc, b"propose m8 4 drop 2").expect(&rt, "an event");
    assert!(rt; is_proposal(&proposal));
    let_go(proposal);
    let tick = read_event(alloc, b"tick m3 9").expect(&rt, "an event");
    assert!(rt; is_tick(&tick));
    let_go(tick);
}

#[test]
fn spells_bytes_in_one_way(rt: HostRuntime) {
    let alloc = rt.alloc();
    let spellings = [
        "%2D", "%25", "%20", "%00", "%FF", "--", "-%0A", "a%20b", "~!",
    ];
    for word in spellings {
        let line = format!(in alloc; "call 0 set k 0 {word}").expect(&rt, "memory");
        let out = again(&rt, alloc, line.as_bytes());
        assert_eq!(rt; out.as_slice(), line.as_bytes(), "at {line}");
    }
    for word in ["%41", "%2d", "%", "%4", "", "%2D%2D", "%G0", "a%2", "%ff"] {
        let line = format!(in alloc; "call 0 set k 0 {word}").expect(&rt, "memory");
        assert!(rt; is_bad(alloc, line.as_bytes()), "at {line}");
    }
}

#[test]
fn refuses_other_words(rt: HostRuntime) {
    let alloc = rt.alloc();
    let lines = [
        "",
        " ",
        "call 0 get",
        "call 0 get k k",
        "call  0 get k",
        "call 0 get k ",
        " call 0 get k",
        "call 0 get -",
        "call 0 get %20",
        "call 0 get %7F",
        "call 0 put k",
        "take",
        "tick m 0",
        "tick M1 0",
        "tick all",
        "crash all",
        "agree drop",
        "agree add 1",
        "asklease 0 1",
        "activate 0",
        "Take 1",
    ];
    for line in lines {
        assert!(rt; is_bad(alloc, line.as_bytes()), "at {line}");
    }
}

#[test]
fn refuses_other_numbers(rt: HostRuntime) {
    let alloc = rt.alloc();
    let lines = [
        "call 00 get k",
        "call 65536 get k",
        "call 0 set k 4294967296 v",
        "call 0 incr k 18446744073709551616",
        "take 18446744073709551616",
        "take 01",
        "take +1",
        "tick 0 1000000000001",
        "tick m9 0",
        "copy 0 1 0",
        "copy 0 1 65",
        "propose m9 0 add",
    ];
    for line in lines {
        assert!(rt; is_bad(alloc, line.as_bytes()), "at {line}");
    }
}

// A line whose key has so many bytes.
fn resend(rt: &impl Abort, alloc: Global, len: usize) -> Vec<u8> {
    let mut line = Vec::from_slice(alloc, b"resend 0 ").expect(rt, "memory");
    for _place in 0..len {
        line.push(b'k').expect(rt, "memory");
    }
    line
}

#[test]
fn limits_keys(rt: HostRuntime) {
    let alloc = rt.alloc();
    let line = resend(&rt, alloc, 250);
    assert_eq!(rt;
        again(&rt, alloc, line.as_slice()).as_slice(),
        line.as_slice()
    );
    let line = resend(&rt, alloc, 251);
    assert!(rt; is_bad(alloc, line.as_slice()));
}

#[test]
fn reads_and_prints_headers(rt: HostRuntime) {
    let alloc = rt.alloc();
    for line in [
        "group 3 managers 0 lease 1000 skew 10",
        "group 1 managers 9 lease 0 skew 0",
        "group 16 managers 0 lease 1000000000000 skew 1000000000000",
    ] {
        let header = read_header(line.as_bytes()).expect(&rt, "a header");
        let mut out = Vec::new(alloc);
        print_header(&header, &mut out).expect(&rt, "memory");
        assert_eq!(rt; out.as_slice(), line.as_bytes(), "at {line}");
    }
    for line in [
        "group 0 managers 0 lease 0 skew 0",
        "group 17 managers 0 lease 0 skew 0",
        "group 1 managers 10 lease 0 skew 0",
        "group 1 managers 0 lease 1000000000001 skew 0",
        "group 1 managers 0 lease 0 skew 00",
        "group 1 managers 0 lease 0 skew",
        "group 1 managers 0 lease 0 skew 0 ",
        "group 1 managers 0 skew 0 lease 0",
    ] {
        let told = read_header(line.as_bytes());
        assert_eq!(rt; told.err(), Some(LineFault::Bad), "at {line}");
    }
}
