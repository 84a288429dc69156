//! Two nodes of a group of two over TCP, as two processes run them, each in a thread.

use crate::command::called;
use hk_accept::LooseSpawner;
use hk_outside::{Dial, Doors, Source, Status, TcpConnection, TcpDialer, TcpDoors, write_all};
use std::alloc::Global;
use std::io::Eprint;
use std::net::{Net, TcpListener, TcpStream};
use std::process::Abort;
use std::sync::Wait;
use std::thread;
use std::thread::Threads;

const TRIES: u32 = 1_000_000;

const SET: &[u8] = b"set k 0 0 1\r\nx\r\n";

const GET: &[u8] = b"get k\r\n";

const STORED: &[u8] = b"STORED\r\n";

const FOUND: &[u8] = b"VALUE k 0 1\r\nx\r\nEND\r\n";

const BUSY: &[u8] = b"SERVER_ERROR busy\r\n";

// The first port of a range that opens, and with it the one behind it.
fn free_port<
    R: Net<Listener = TcpListener, Stream = TcpStream> + Eprint + Abort + Copy + Send + 'static,
>(rt: R) -> u16 {
    for candidate in 41_411..41_499 {
        let mut first = TcpDoors::new(rt);
        let mut second = TcpDoors::new(rt);
        if first.open(candidate).is_ok() && second.open(candidate + 1).is_ok() {
            return candidate;
        }
    }
    panic!(&rt; "no port is free")
}

// How the process of this node ends that serves two connections.
fn run_node<
    R: Net<Listener = TcpListener, Stream = TcpStream>
        + Eprint
        + Threads
        + Wait
        + Abort
        + Copy
        + Send
        + Sync
        + Drop
        + 'static,
>(rt: R, alloc: Global, id: &str, port: u16) -> Status {
    let port = format!(in alloc; "--port={port}").expect(&rt, "memory");
    let words = [
        "peer",
        "--id",
        id,
        "--nodes=2",
        "--workers=1",
        port.as_str(),
        "--conns=2",
    ];
    let mut doors = TcpDoors::new(rt);
    let mut spawner = LooseSpawner::new(rt);
    called(rt, alloc, words.as_slice(), &mut doors, &mut spawner)
}

// A client's connection to this port, once its node listens.
fn connected<R: Net<Listener = TcpListener, Stream = TcpStream> + Abort + Copy>(
    rt: R,
    port: u16,
) -> TcpConnection {
    let mut dialer = TcpDialer::new(rt);
    for _try in 0..TRIES {
        if let Ok(conn) = dialer.dial(port) {
            return conn;
        }
        thread::yield_now();
    }
    panic!(&rt; "no node listens")
}

// Sends a request and reads the reply into the room.
fn ask<'a>(
    rt: &impl Abort,
    conn: &mut TcpConnection,
    request: &[u8],
    room: &'a mut [u8; 64],
) -> &'a [u8] {
    write_all(conn, request).expect(rt, "a write");
    let count = conn.read(room).expect(rt, "a read");
    &room[..count]
}

// Whether the reply is this one in the end, behind others where that is allowed.
fn is_stored(rt: &impl Abort, conn: &mut TcpConnection) -> bool {
    let mut room = [0u8; 64];
    for _try in 0..TRIES {
        if ask(rt, conn, SET, &mut room) == STORED {
            return true;
        }
    }
    false
}

// Whether the first reply but `busy` is the value.
fn is_found(rt: &impl Abort, conn: &mut TcpConnection) -> bool {
    let mut room = [0u8; 64];
    for _try in 0..TRIES {
        let reply = ask(rt, conn, GET, &mut room);
        if reply != BUSY {
            return reply == FOUND;
        }
    }
    false
}

#[test]
fn peers_meet(rt: HostRuntime) {
    let alloc = rt.alloc();
    let port = free_port(rt);
    let first = thread::spawn(&rt, move || run_node(rt, alloc, "0", port)).expect(&rt, "a thread");
    let second = thread::spawn(&rt, move || run_node(rt, alloc, "1", port)).expect(&rt, "a thread");
    let mut setting = connected(rt, port);
    assert!(rt; is_stored(&rt, &mut setting));
    drop(setting);
    let mut getting = connected(rt, port.saturating_add(1));
    assert!(rt; is_found(&rt, &mut getting));
    drop(getting);
    assert_eq!(rt; first.join(&rt), Status::Done);
    assert_eq!(rt; second.join(&rt), Status::Done);
}
