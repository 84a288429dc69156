//! What a client sends, what a desk tells, and what is written: whole, and in pieces of one to eight bytes.

use crate::pieces::{InTurn, Pieced, SIZES, in_pieces};
use hk_base::{Answer, Content, Data, Memory, Stamp};
use hk_conn::{ConnEnd, serve_connection};
use hk_outside::{DeskReply, FakeDesk};
use std::alloc::Global;
use std::collections::VecDeque;
use std::process::Abort;

// What a desk tells next.
#[derive(Clone, Copy)]
enum Tell {
    Found(&'static [u8]),
    Missing,
    Stored,
    NotStored,
    Deleted,
    Number(u64),
    NotFound,
    Aborted,
    Unknown,
    Spent,
}

fn told(alloc: Global, tell: Tell) -> Result<DeskReply, Memory> {
    let answer = match tell {
        Tell::Found(text) => {
            let Ok(bytes) = Data::read(alloc, text) else {
                return Err(Memory);
            };
            let content = Content { flags: 7, bytes };
            Answer::Found {
                content,
                tag: 131_072,
            }
        }
        Tell::Missing => Answer::Missing,
        Tell::Stored => Answer::Stored,
        Tell::NotStored => Answer::NotStored,
        Tell::Deleted => Answer::Deleted,
        Tell::Number(n) => Answer::Number(n),
        Tell::NotFound => Answer::NotFound,
        Tell::Aborted => Answer::Aborted(Stamp {
            version: 3,
            node: 1,
        }),
        Tell::Unknown => return Ok(DeskReply::Unknown { turns: 100_000 }),
        Tell::Spent => return Ok(DeskReply::Spent {
            asks: 4_294_967_295,
        }),
    };
    Ok(DeskReply::Told(answer))
}

fn desk_of(rt: &impl Abort, alloc: Global, tells: &[Tell]) -> FakeDesk {
    let mut replies = VecDeque::new(alloc);
    for tell in tells {
        let reply = told(alloc, *tell).expect(rt, "room");
        replies.push_back(reply).expect(rt, "room");
    }
    FakeDesk::new(alloc, replies, 64).expect(rt, "room")
}

// How a connection ended, what it holds then, and how often the desk was asked.
#[derive(Drop)]
struct Served {
    end: ConnEnd,
    conn: Pieced,
    asks: usize,
}

// Serves a connection over a desk that tells these, and is busy then. At a late one updates wait.
fn serve(rt: &impl Abort, alloc: Global, conn: Pieced, tells: &[Tell], late: bool) -> Served {
    let mut conn = conn;
    let mut desk = desk_of(rt, alloc, tells);
    desk.late = late;
    let end = serve_connection(alloc, &mut conn, &mut desk, 3);
    let asks = desk.asked.len();
    Served { end, conn, asks }
}

// What a client sends, what the desk tells, and what must come of it.
struct Exchange<'a> {
    name: &'a str,
    sent: &'a [u8],
    tells: &'a [Tell],
    end: ConnEnd,
    written: &'a [u8],
    asks: usize,
}

// The row holds whole and in pieces.
fn check_at(rt: &impl Abort, alloc: Global, row: &Exchange, late: bool) {
    let name = row.name;
    for most in SIZES {
        let conn = in_pieces(rt, alloc, row.sent, most, &[], &[]);
        let served = serve(rt, alloc, conn, row.tells, late);
        assert_eq!(rt;
            served.conn.written(),
            row.written,
            "{name}, {most} bytes at a time, late: {late}"
        );
        assert_eq!(rt;
            served.end,
            row.end,
            "{name}, {most} bytes at a time, late: {late}"
        );
        assert_eq!(rt;
            served.asks,
            row.asks,
            "{name}, {most} bytes at a time, late: {late}"
        );
    }
}

// So it does whether updates wait or not.
fn check(rt: &impl Abort, alloc: Global, row: &Exchange) {
    check_at(rt, alloc, row, false);
    check_at(rt, alloc, row, true);
}

#[test]
fn requests_are_answered_in_their_order(rt: HostRuntime) {
    let alloc = rt.alloc();
    check(
        &rt,
        alloc,
        &Exchange {
            name: "values and their tags",
            sent: b"set k 7 0 5\r\nhello\r\nget k none\r\ngets k\r\nquit\r\nversion\r\n",
            tells: &[
                Tell::Stored,
                Tell::Found(b"hello"),
                Tell::Missing,
                Tell::Found(b"hello"),
            ],
            end: ConnEnd::Quit,
            written: b"STORED\r\nVALUE k 7 5\r\nhello\r\nEND\r\nVALUE k 7 5 131072\r\nhello\r\nEND\r\n",
            asks: 4,
        },
    );
    check(
        &rt,
        alloc,
        &Exchange {
            name: "usual traffic",
            sent: b"set visits 7 0 2\r\n41\r\nincr visits 1\r\ndecr visits 50\r\nincr nokey 1\r\nset quiet 7 0 1 noreply\r\nx\r\nget visits quiet\r\nversion\r\n",
            tells: &[
                Tell::Stored,
                Tell::Number(42),
                Tell::Number(0),
                Tell::NotFound,
                Tell::Stored,
                Tell::Found(b"0"),
                Tell::Found(b"x"),
            ],
            end: ConnEnd::End,
            written: b"STORED\r\n42\r\n0\r\nNOT_FOUND\r\nVALUE visits 7 1\r\n0\r\nVALUE quiet 7 1\r\nx\r\nEND\r\nVERSION hermes-1\r\n",
            asks: 7,
        },
    );
}

#[test]
fn what_is_there_is_added_replaced_and_deleted(rt: HostRuntime) {
    check(
        &rt,
        rt.alloc(),
        &Exchange {
            name: "what is there",
            sent: b"add k 0 0 1\r\na\r\nadd k 0 0 1\r\nb\r\ndelete k\r\ndelete k\r\nreplace k 0 0 1\r\nc\r\nget k\r\ndelete k 0\r\n",
            tells: &[
                Tell::Stored,
                Tell::NotStored,
                Tell::Deleted,
                Tell::NotFound,
                Tell::NotStored,
                Tell::Missing,
            ],
            end: ConnEnd::End,
            written: b"STORED\r\nNOT_STORED\r\nDELETED\r\nNOT_FOUND\r\nNOT_STORED\r\nEND\r\nERROR\r\n",
            asks: 6,
        },
    );
}

#[test]
fn refused_blocks_are_no_commands(rt: HostRuntime) {
    let alloc = rt.alloc();
    check(
        &rt,
        alloc,
        &Exchange {
            name: "a refused block",
            sent: b"set k 0 60 4\r\nquit\r\nset k 0 0 2\r\nabcd",
            tells: &[],
            end: ConnEnd::End,
            written: b"SERVER_ERROR expiry not kept\r\nCLIENT_ERROR bad data chunk\r\n",
            asks: 0,
        },
    );
    check(
        &rt,
        alloc,
        &Exchange {
            name: "lines that are refused",
            sent: b"append k 0 0 3\r\nfoo\r\nget\r\nincr k +5\r\n",
            tells: &[],
            end: ConnEnd::End,
            written: b"ERROR\r\nERROR\r\nCLIENT_ERROR bad number\r\n",
            asks: 0,
        },
    );
}

// What a desk may tell beside an answer, and what a client is told then. The desk is asked three times.
const UNTOLD: [Exchange; 6] = [
    Exchange {
        name: "a desk that is busy",
        sent: b"get k\r\n",
        tells: &[],
        end: ConnEnd::End,
        written: b"SERVER_ERROR busy\r\n",
        asks: 3,
    },
    Exchange {
        name: "a desk that is busy at the second key",
        sent: b"get a b\r\n",
        tells: &[Tell::Found(b"1")],
        end: ConnEnd::End,
        written: b"SERVER_ERROR busy\r\n",
        asks: 4,
    },
    Exchange {
        name: "an aborted increment",
        sent: b"incr k 1\r\n",
        tells: &[Tell::Aborted],
        end: ConnEnd::End,
        written: b"SERVER_ERROR aborted\r\n",
        asks: 1,
    },
    Exchange {
        name: "an increment whose outcome is unknown",
        sent: b"incr k 1\r\n",
        tells: &[Tell::Unknown],
        end: ConnEnd::End,
        written: b"SERVER_ERROR outcome unknown\r\n",
        asks: 1,
    },
    Exchange {
        name: "a desk that is spent",
        sent: b"get k\r\n",
        tells: &[Tell::Spent],
        end: ConnEnd::End,
        written: b"SERVER_ERROR calls spent\r\n",
        asks: 1,
    },
    Exchange {
        name: "an increment with no reply",
        sent: b"incr k 1 noreply\r\n",
        tells: &[],
        end: ConnEnd::End,
        written: b"",
        asks: 3,
    },
];

#[test]
fn what_a_desk_does_not_tell_is_told(rt: HostRuntime) {
    let alloc = rt.alloc();
    for row in &UNTOLD {
        check(&rt, alloc, row);
    }
}

// Of two replies the last write fails. Both are one write where both requests come in one piece.
#[test]
fn a_write_that_fails_leaves_a_front_of_the_replies(rt: HostRuntime) {
    let alloc = rt.alloc();
    let sent = b"version\r\nversion\r\n".as_slice();
    for most in SIZES {
        let (last, front) = if most < sent.len() {
            (1, b"VERSION hermes-1\r\n".as_slice())
        } else {
            (0, b"".as_slice())
        };
        let conn = in_pieces(&rt, alloc, sent, most, &[], &[last]);
        let served = serve(&rt, alloc, conn, &[], false);
        assert_eq!(rt; served.end, ConnEnd::WriteFault, "{most} bytes at a time");
        assert_eq!(rt; served.conn.written(), front, "{most} bytes at a time");
    }
}

// No clause says when replies are written: this shows it.
#[test]
fn replies_are_written_before_more_is_read(rt: HostRuntime) {
    let alloc = rt.alloc();
    let sent = b"version\r\nversion\r\nversion\r\n".as_slice();
    let Pieced { conn, .. } = in_pieces(&rt, alloc, sent, 9, &[], &[]);
    let mut conn = InTurn {
        conn,
        reads: 0,
        is_late: false,
    };
    let mut desk = desk_of(&rt, alloc, &[]);
    let end = serve_connection(alloc, &mut conn, &mut desk, 3);
    assert_eq!(rt; end, ConnEnd::End);
    assert_eq!(rt; conn.reads, 4);
    assert!(rt; !conn.is_late);
}
