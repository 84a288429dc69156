//! How connections end, and what was written before.

use crate::paused::{Paused, Pieces, WHOLE, failing};
use crate::turns::{Counted, desk, exchange, room, tried, turn};
use hk_conn::ConnEnd;
use hk_loops::Turned;
use std::alloc::Global;
use std::process::Abort;
use std::sync::Wait;

// Two requests, and the reply to each.
const SENT: &[u8] = b"version\r\nversion\r\n";

const REPLY: &[u8] = b"VERSION hermes-1\r\n";

// Each request is a piece of its own.
const ONE_BY_ONE: Pieces = Pieces {
    first: 9,
    others: 9,
    ..WHOLE
};

// How the second turn of a connection ends, whose first one waited.
fn second_end<R: Wait + Abort>(
    rt: &R,
    alloc: Global,
    conn: &mut Paused,
) -> Result<Turned, ConnEnd> {
    let mut desk = desk(rt, alloc, &[], false);
    let mut exchange = exchange(rt, alloc);
    let mut room = room(rt, alloc, 64);
    let others = Counted::new();
    let first = turn(
        rt,
        alloc,
        conn,
        &mut desk,
        &mut exchange,
        &mut room,
        &others,
    );
    assert_eq!(rt; first, Turned::Waits);
    conn.go_on();
    tried(
        rt,
        alloc,
        conn,
        &mut desk,
        &mut exchange,
        &mut room,
        &others,
    )
}

#[test]
fn where_a_read_fails_the_replies_before_it_are_written(rt: HostRuntime) {
    let alloc = rt.alloc();
    let mut conn = failing(&rt, alloc, SENT, ONE_BY_ONE, &[1], &[]);
    let end = second_end(&rt, alloc, &mut conn);
    assert_eq!(rt; end, Err(ConnEnd::ReadFault));
    assert_eq!(rt; conn.written(), REPLY);
}

#[test]
fn where_a_write_fails_the_replies_before_it_are_written(rt: HostRuntime) {
    let alloc = rt.alloc();
    let mut conn = failing(&rt, alloc, SENT, ONE_BY_ONE, &[], &[1]);
    let end = second_end(&rt, alloc, &mut conn);
    assert_eq!(rt; end, Err(ConnEnd::WriteFault));
    assert_eq!(rt; conn.written(), REPLY);
}
