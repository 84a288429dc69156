//! The outside in memory, and over the machine.

use hk_base::{Answer, Content, Data, Key, Op, Why};
use hk_outside::{
    Clock, Desk, DeskReply, Doors, Failed, FakeDesk, HandClock, Job, MemoryConnection, MemoryDoors,
    MemorySink, MemorySource, NoSpawner, ReaderSource, Sink, Source, Spawner, Status, SteadyClock,
    TcpConnection, TcpDoors, ThreadSpawner, WriterSink,
};
use hk_rows_shared::let_go;
use std::alloc::Global;
use std::collections::VecDeque;
use std::io::{Read, Write};
use std::net::{Ipv4Addr, SocketAddr, TcpStream};
use std::process::Abort;

#[derive(Drop)]
struct Nothing;

impl Job for Nothing {
    fn run(self) {
        let Nothing = self;
    }
}

#[test]
fn clocks_tell_milliseconds(rt: HostRuntime) {
    assert_eq!(rt; HandClock { at: 7 }.now(), 7);
    let clock = SteadyClock::new(rt.clone().expect(&rt, "memory"));
    let first = clock.now();
    assert!(rt; 1 <= first && first <= clock.now());
}

#[test]
fn a_source_in_memory_fails_where_it_is_to(rt: HostRuntime) {
    let alloc = rt.alloc();
    let bytes = b"hello".to_vec(alloc).expect(&rt, "memory");
    let bad_reads = vec![in alloc; 1].expect(&rt, "memory");
    let mut source = MemorySource::new(bytes, bad_reads);
    let mut room = [0u8; 3];
    assert_eq!(rt; source.read(&mut room), Ok(3));
    assert_eq!(rt; source.read(&mut room), Err(Failed));
    assert_eq!(rt; source.faults, 1);
    assert_eq!(rt; source.read(&mut room), Ok(2));
    assert_eq!(rt; source.read(&mut room), Ok(0));
}

#[test]
fn a_sink_in_memory_fails_where_it_is_to(rt: HostRuntime) {
    let alloc = rt.alloc();
    let bad_writes = vec![in alloc; 1].expect(&rt, "memory");
    let mut sink = MemorySink::new(alloc, bad_writes);
    assert_eq!(rt; sink.write(b"ab"), Ok(2));
    assert_eq!(rt; sink.write(b"cd"), Err(Failed));
    assert_eq!(rt; sink.write(b"ef"), Ok(2));
    assert_eq!(rt; sink.sink.bytes.as_slice(), b"abef".as_slice());
    assert_eq!(rt; sink.sink.faults, 1);
}

// A connection whose client sends this.
fn connection(rt: &impl Abort, alloc: Global, text: &[u8]) -> MemoryConnection {
    let bytes = text.to_vec(alloc).expect(rt, "memory");
    MemoryConnection {
        source: MemorySource::new(bytes, Vec::new(alloc)),
        sink: MemorySink::new(alloc, Vec::new(alloc)),
    }
}

// The next connection gives this one byte, and takes it back.
fn check_next(rt: &impl Abort, doors: &mut MemoryDoors<MemoryConnection>, text: &[u8; 1]) {
    match doors.accept() {
        Ok(Some(conn)) => check_echo(rt, conn, text),
        _ => panic!(rt; "no connection"),
    }
}

fn check_echo(rt: &impl Abort, conn: MemoryConnection, text: &[u8; 1]) {
    let mut conn = conn;
    let mut room = [0u8; 4];
    assert_eq!(rt; conn.read(&mut room), Ok(1));
    assert_eq!(rt; room[0], text[0]);
    assert_eq!(rt; conn.write(text), Ok(1));
}

#[test]
fn connections_come_through_doors_in_their_order(rt: HostRuntime) {
    let alloc = rt.alloc();
    let mut conns = VecDeque::new(alloc);
    for text in [b"a", b"b"] {
        conns
            .push_back(connection(&rt, alloc, text))
            .expect(&rt, "memory");
    }
    let mut doors = MemoryDoors::new(conns, false);
    assert_eq!(rt; doors.open(11211), Ok(()));
    for text in [b"a", b"b"] {
        check_next(&rt, &mut doors, text);
    }
    assert!(rt; matches!(doors.accept(), Ok(None)));
}

#[test]
fn readers_and_writers_are_sources_and_sinks(rt: HostRuntime) {
    let alloc = rt.alloc();
    let mut source = ReaderSource::new(b"ab".as_slice());
    let mut room = [0u8; 4];
    assert_eq!(rt; source.read(&mut room), Ok(2));
    assert!(rt; room.starts_with(b"ab"));
    let mut sink = WriterSink::new(Vec::new(alloc));
    assert_eq!(rt; sink.write(b"cd"), Ok(2));
}

// The first port of a range that opens.
fn opened(doors: &mut TcpDoors<HostRuntime>) -> Option<u16> {
    for candidate in 41_211..41_299 {
        if doors.open(candidate).is_ok() {
            return Some(candidate);
        }
    }
    None
}

// Bytes go from the client to the connection, and back.
fn check_both_ways(rt: &impl Abort, client: TcpStream, conn: TcpConnection) {
    let (mut client, mut conn) = (client, conn);
    client.write_all(b"to").expect(rt, "the client writes");
    let mut room = [0u8; 4];
    assert_eq!(rt; conn.read(&mut room), Ok(2));
    assert_eq!(rt; conn.write(b"from"), Ok(4));
    let count = client.read(&mut room).expect(rt, "the client reads");
    assert_eq!(rt; count, 4);
    assert_eq!(rt; room, *b"from");
}

#[test]
fn a_connection_over_tcp_carries_bytes_both_ways(rt: HostRuntime) {
    let mut doors = TcpDoors::new(rt.clone().expect(&rt, "memory"));
    let port = opened(&mut doors).expect(&rt, "a port");
    let address = SocketAddr::from((Ipv4Addr::new(127, 0, 0, 1), port));
    let client = TcpStream::connect(&rt, address).expect(&rt, "a client");
    match doors.accept() {
        Ok(Some(conn)) => check_both_ways(&rt, client, conn),
        _ => panic!(&rt; "no connection"),
    }
}

#[test]
fn jobs_run_in_threads_or_are_refused(rt: HostRuntime) {
    let alloc = rt.alloc();
    let mut none: NoSpawner<HostRuntime> = NoSpawner::new();
    assert_eq!(rt; none.start(Nothing), Err(Failed));
    assert_eq!(rt; none.faults, 1);
    let mut threads = ThreadSpawner::new(rt.clone().expect(&rt, "memory"), alloc);
    assert_eq!(rt; threads.start(Nothing), Ok(()));
    assert_eq!(rt; threads.taken, 1);
    threads.join_all();
}

// A desk that is to tell twice that the key is missing.
fn desk(rt: &impl Abort, alloc: Global) -> FakeDesk {
    let mut replies = VecDeque::new(alloc);
    for _turn in 0..2 {
        replies
            .push_back(DeskReply::Told(Answer::Missing))
            .expect(rt, "memory");
    }
    FakeDesk::new(alloc, replies, 2).expect(rt, "memory")
}

// Whether the desk, asked this of the key `k`, tells that answer.
fn tells(rt: &impl Abort, alloc: Global, desk: &mut FakeDesk, op: Op, answer: Answer) -> bool {
    let key = Key::read(alloc, b"k").expect(rt, "memory");
    let reply = desk.ask(&key, &op).expect(rt, "memory");
    let_go(op);
    let wanted = DeskReply::Told(answer);
    let is_told = reply == wanted;
    let_go(reply);
    let_go(wanted);
    is_told
}

fn busy() -> Answer {
    Answer::Busy(Why::Lease { end: 0, now: 1 })
}

#[test]
fn a_desk_tells_its_list_where_that_suits(rt: HostRuntime) {
    let alloc = rt.alloc();
    let mut desk = desk(&rt, alloc);
    assert!(rt; tells(&rt, alloc, &mut desk, Op::Read, Answer::Missing));
    assert!(rt; tells(&rt, alloc, &mut desk, Op::Incr(1), busy()));
    assert_eq!(rt; desk.asked.len(), 2);
    assert!(rt; desk.complete);
    let bytes = Data::read(alloc, b"a").expect(&rt, "memory");
    let write = Op::Write(Content { flags: 0, bytes });
    assert!(rt; tells(&rt, alloc, &mut desk, write, busy()));
    assert!(rt; !desk.complete);
}

#[test]
fn statuses_have_the_numbers_of_their_places(rt: HostRuntime) {
    assert_eq!(rt; Status::Done.number(), 0);
    assert_eq!(rt; Status::SpawnFault.number(), 9);
}
