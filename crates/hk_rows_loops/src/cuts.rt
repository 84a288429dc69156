//! Whatever pieces and pauses a connection has, its client is told the same.

ghost use Rattle.std.specs.Prelude.{◌<◌, length};
ghost use Rattle.hk_conn.specs.Exchange.{IsExchange};

use crate::paused::{Paused, Pieces, WHOLE, connection};
use crate::turns::{Counted, Tell, desk, exchange, room, turn};
use hk_conn::{Exchange, Owed};
use hk_loops::Turned;
use hk_outside::{FakeDesk, FakeWait};
use std::alloc::Global;
use std::process::Abort;
use std::sync::Wait;

// More turns than any connection here takes.
const MOST_TURNS: u32 = 1_000;

// What a client sends, with what its desk tells, and what is to be told to the client.
#[derive(Clone, Copy)]
struct Script<'a> {
    sent: &'a [u8],
    tells: &'a [Tell],
    told: &'a [u8],
}

const SCRIPT: Script<'static> = Script {
    sent: b"set a 7 0 5\r\nhello\r\nget a b\r\nset b 0 0 1 noreply\r\nx\r\ndelete c noreply\r\nget\r\n\
        set a 0 60 4\r\nquit\r\ngets b\r\nquit\r\nget a\r\n",
    tells: &[
        Tell::Stored,
        Tell::Found(b"hello"),
        Tell::Missing,
        Tell::Stored,
        Tell::Deleted,
        Tell::Found(b"x"),
    ],
    told: b"STORED\r\nVALUE a 7 5\r\nhello\r\nEND\r\nERROR\r\nSERVER_ERROR expiry not kept\r\n\
        VALUE b 7 1 131072\r\nx\r\nEND\r\n",
};

// How much of it comes before it quits.
const BEFORE_QUIT: usize = 104;

// Whether the connection waits for what its client has to do: to take the replies, or else to send more.
fn waits_for_client<W: Drop>(conn: &Paused, exchange: &Exchange<W>) -> bool {
    if exchange.unwritten().is_empty() {
        return exchange.owed() == Owed::Bytes && conn.there == 0;
    }
    conn.space == 0
}

// Takes turns, and gives whether the connection is over at last. Where it waits, its client goes on.
fn serve<R: Wait + Abort>(
    rt: &R,
    alloc: Global,
    conn: &mut Paused,
    desk: &mut FakeDesk,
    exchange: &mut Exchange<FakeWait>,
    room: &mut [u8],
) -> bool
    requires room { 0 < length room.old }
    requires exchange { IsExchange exchange.old }
{
    let others = Counted::new();
    for _turn in 0..MOST_TURNS {
        match turn(rt, alloc, conn, desk, exchange, room, &others) {
            Turned::Over => return true,
            Turned::More => {}
            Turned::Waits => {
                assert!(rt; waits_for_client(conn, exchange), "{:?}", exchange.owed());
                conn.go_on();
            }
        }
    }
    false
}

// Whether the connection, whose client sends the script, is over at last. Room for so many bytes is read into.
fn is_served<R: Wait + Abort>(
    rt: &R,
    alloc: Global,
    conn: &mut Paused,
    script: &Script,
    late: bool,
    size: usize,
) -> bool
    requires { 0 < size }
{
    let mut desk = desk(rt, alloc, script.tells, late);
    let mut exchange = exchange(rt, alloc);
    let mut room = room(rt, alloc, size);
    serve(rt, alloc, conn, &mut desk, &mut exchange, &mut room)
}

// What is told is the same in these pieces, whether updates wait or not.
fn check<R: Wait + Abort>(rt: &R, alloc: Global, script: &Script, pieces: Pieces, size: usize)
    requires { 0 < size }
{
    let Pieces {
        first,
        others,
        taken,
    } = pieces;
    for late in [false, true] {
        let mut conn = connection(rt, alloc, script.sent, pieces);
        assert!(rt; is_served(rt, alloc, &mut conn, script, late, size));
        assert_eq!(rt;
            conn.written(),
            script.told,
            "pieces of {first} and {others}, {taken} taken at once, late: {late}"
        );
    }
}

#[test]
fn the_replies_to_one_piece_are_those_of_its_lines(rt: HostRuntime) {
    check(&rt, rt.alloc(), &SCRIPT, WHOLE, 16_384);
}

#[test]
fn wherever_what_comes_is_cut_the_replies_are_the_same(rt: HostRuntime) {
    let alloc = rt.alloc();
    for first in 1..SCRIPT.sent.len() {
        for taken in [1, 7, 16_384] {
            let pieces = Pieces {
                first,
                taken,
                ..WHOLE
            };
            check(&rt, alloc, &SCRIPT, pieces, 64);
        }
    }
}

#[test]
fn in_pieces_of_whatever_size_the_replies_are_the_same(rt: HostRuntime) {
    let alloc = rt.alloc();
    for size in 1..SCRIPT.sent.len() {
        let pieces = Pieces {
            first: size,
            others: size,
            ..WHOLE
        };
        check(&rt, alloc, &SCRIPT, pieces, 7);
    }
}

#[test]
fn however_much_is_taken_at_once_the_replies_are_the_same(rt: HostRuntime) {
    let alloc = rt.alloc();
    for taken in 1..SCRIPT.told.len() {
        for size in [1, 11, 16_384] {
            let pieces = Pieces {
                first: size,
                others: size,
                taken,
            };
            check(&rt, alloc, &SCRIPT, pieces, 64);
        }
    }
}

#[test]
fn a_client_that_sends_no_more_has_its_replies(rt: HostRuntime) {
    let alloc = rt.alloc();
    let (sent, _) = SCRIPT.sent.split_at(BEFORE_QUIT);
    let script = Script { sent, ..SCRIPT };
    for size in 1..BEFORE_QUIT {
        let pieces = Pieces {
            first: size,
            others: size,
            taken: size,
        };
        check(&rt, alloc, &script, pieces, size);
    }
}
