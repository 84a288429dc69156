//! What a turn leaves to the next one.

ghost use Rattle.std.specs.Prelude.{◌<◌, length};
ghost use Rattle.hk_conn.specs.Exchange.{IsExchange};

use crate::paused::{Paused, Pieces, WHOLE, connection};
use crate::turns::{Counted, desk, exchange, room, turn};
use hk_conn::Exchange;
use hk_loops::Turned;
use hk_outside::{FakeDesk, FakeWait};
use std::alloc::Global;
use std::process::Abort;
use std::sync::Wait;

// A turn: how many bytes of replies can be taken at it, what it gives, how often the connection was read by then, and how
// many bytes were written to it.
#[derive(Clone, Copy)]
struct DueTurn {
    space: usize,
    gives: Turned,
    reads: u32,
    written: usize,
}

// The turns of a connection are these. Behind one that waits its client goes on.
fn check_each<R: Wait + Abort>(
    rt: &R,
    alloc: Global,
    conn: &mut Paused,
    desk: &mut FakeDesk,
    exchange: &mut Exchange<FakeWait>,
    room: &mut [u8],
    turns: &[DueTurn],
)
    requires room { 0 < length room.old }
    requires exchange { IsExchange exchange.old }
{
    let others = Counted::new();
    for at in turns {
        conn.space = at.space;
        let turned = turn(rt, alloc, conn, desk, exchange, room, &others);
        assert_eq!(rt; turned, at.gives);
        assert_eq!(rt; conn.reads, at.reads);
        assert_eq!(rt; conn.written().len(), at.written);
        if turned == Turned::Waits {
            conn.go_on();
        }
    }
}

// The turns of a connection, of which so many bytes are read at once, are these.
fn check<R: Wait + Abort>(rt: &R, alloc: Global, conn: &mut Paused, size: usize, turns: &[DueTurn])
    requires { 0 < size }
{
    let mut desk = desk(rt, alloc, &[], false);
    let mut exchange = exchange(rt, alloc);
    let mut room = room(rt, alloc, size);
    check_each(rt, alloc, conn, &mut desk, &mut exchange, &mut room, turns);
}

fn due(space: usize, gives: Turned, reads: u32, written: usize) -> DueTurn {
    DueTurn {
        space,
        gives,
        reads,
        written,
    }
}

// Two requests of nine bytes with replies of eighteen.
const TWO: &[u8] = b"version\r\nversion\r\n";

// The same, each a piece of its own.
const ONE_BY_ONE: Pieces = Pieces {
    first: 9,
    others: 9,
    taken: 0,
};

#[test]
fn nothing_is_read_of_a_client_that_does_not_take_its_replies(rt: HostRuntime) {
    let alloc = rt.alloc();
    let mut conn = connection(&rt, alloc, TWO, ONE_BY_ONE);
    let turns = [
        due(0, Turned::Waits, 1, 0),
        due(0, Turned::Waits, 1, 0),
        due(10, Turned::Waits, 1, 10),
        due(0, Turned::Waits, 1, 10),
        due(100, Turned::Waits, 2, 36),
    ];
    check(&rt, alloc, &mut conn, 64, turns.as_slice());
}

// So many empty lines, each of which is told `ERROR`.
fn empty_lines(rt: &impl Abort, alloc: Global, count: u32) -> Vec<u8> {
    let mut sent = Vec::new(alloc);
    for _line in 0..count {
        sent.extend_from_slice(b"\r\n").expect(rt, "memory");
    }
    sent
}

#[test]
fn no_more_than_64_things_are_answered_in_a_turn(rt: HostRuntime) {
    let alloc = rt.alloc();
    let sent = empty_lines(&rt, alloc, 130);
    let mut conn = connection(&rt, alloc, sent.as_slice(), WHOLE);
    let turns = [
        due(1_000, Turned::More, 1, 448),
        due(1_000, Turned::More, 1, 896),
        due(1_000, Turned::More, 1, 910),
        due(1_000, Turned::Waits, 2, 910),
    ];
    check(&rt, alloc, &mut conn, 512, turns.as_slice());
}

#[test]
fn where_the_room_is_filled_more_is_read_at_once(rt: HostRuntime) {
    let alloc = rt.alloc();
    let mut conn = connection(&rt, alloc, TWO, WHOLE);
    let turns = [
        due(1_000, Turned::More, 1, 18),
        due(1_000, Turned::More, 2, 36),
        due(1_000, Turned::Waits, 3, 36),
    ];
    check(&rt, alloc, &mut conn, 9, turns.as_slice());
}

#[test]
fn where_the_end_is_known_more_is_read_at_once(rt: HostRuntime) {
    let alloc = rt.alloc();
    let mut conn = connection(&rt, alloc, TWO, WHOLE);
    conn.ends = true;
    let turns = [
        due(1_000, Turned::More, 1, 36),
        due(1_000, Turned::Over, 2, 36),
    ];
    check(&rt, alloc, &mut conn, 64, turns.as_slice());
}

#[test]
fn nothing_is_read_behind_a_quit(rt: HostRuntime) {
    let alloc = rt.alloc();
    let mut conn = connection(&rt, alloc, b"version\r\nquit\r\nversion\r\n", WHOLE);
    let turns = [due(10, Turned::Waits, 1, 10), due(10, Turned::Over, 1, 18)];
    check(&rt, alloc, &mut conn, 64, turns.as_slice());
}
