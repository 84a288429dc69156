//! A desk that tells what stands in a list, and turns at it.

ghost use Rattle.std.specs.Prelude.{◌≡◌, ◌<◌, length, IfOk};
ghost use Rattle.hk_conn.specs.Exchange.{IsExchange};

use crate::paused::Paused;
use hk_base::{Answer, Content, Data};
use hk_conn::{ConnEnd, Exchange};
use hk_loops::{Others, Turned, take_turn};
use hk_outside::{Desk, DeskReply, FakeDesk};
use std::alloc::Global;
use std::collections::VecDeque;
use std::process::Abort;
use std::sync::Wait;
use std::sync::atomic::{AtomicU64, Ordering};

// What a desk tells next.
#[derive(Clone, Copy)]
pub enum Tell {
    Found(&'static [u8]),
    Missing,
    Stored,
    Deleted,
}

fn answer(rt: &impl Abort, alloc: Global, tell: Tell) -> Answer {
    match tell {
        Tell::Found(text) => {
            let bytes = Data::read(alloc, text).expect(rt, "memory");
            let content = Content { flags: 7, bytes };
            Answer::Found {
                content,
                tag: 131_072,
            }
        }
        Tell::Missing => Answer::Missing,
        Tell::Stored => Answer::Stored,
        Tell::Deleted => Answer::Deleted,
    }
}

// A desk that tells these, and is busy then. At a late one updates wait.
pub fn desk(rt: &impl Abort, alloc: Global, tells: &[Tell], late: bool) -> FakeDesk {
    let mut replies = VecDeque::new(alloc);
    for tell in tells {
        let reply = DeskReply::Told(answer(rt, alloc, *tell));
        replies.push_back(reply).expect(rt, "memory");
    }
    let mut desk = FakeDesk::new(alloc, replies, 0).expect(rt, "memory");
    desk.late = late;
    desk
}

// How often others were told to go on.
#[derive(Drop)]
pub struct Counted {
    times: AtomicU64,
}

impl Counted {
    pub fn new() -> Counted {
        Counted {
            times: AtomicU64::new(0),
        }
    }

    pub fn times(&self) -> u64 {
        self.times.load(Ordering::SeqCst)
    }
}

impl Others for Counted {
    fn go_on<R: Wait>(&self, _rt: &R) {
        self.times.fetch_add(1, Ordering::SeqCst);
    }
}

// Room for so many bytes that are read.
pub fn room(rt: &impl Abort, alloc: Global, size: usize) -> Vec<u8>
    ensures { length result.items ≡ size }
{
    match Vec::from_elem(alloc, 0, size) {
        Ok(room) => room,
        Err(_) => panic!(rt; "memory"),
    }
}

// Nothing came yet.
pub fn exchange<W: Drop>(rt: &impl Abort, alloc: Global) -> Exchange<W>
    ensures { IsExchange result }
{
    match Exchange::new(alloc) {
        Ok(exchange) => exchange,
        Err(_) => panic!(rt; "memory"),
    }
}

// A turn, or how the connection ended at it.
pub fn tried<R: Wait, D: Desk>(
    rt: &R,
    alloc: Global,
    conn: &mut Paused,
    desk: &mut D,
    exchange: &mut Exchange<D::Waits>,
    room: &mut [u8],
    others: &Counted,
) -> Result<Turned, ConnEnd>
    requires room { 0 < length room.old }
    requires exchange { IsExchange exchange.old }
    ensures exchange { IfOk result (λ _. IsExchange exchange.new) }
    ensures room { length room.new ≡ length room.old }
{
    let ends = conn.ends;
    take_turn(rt, alloc, conn, desk, exchange, room, others, 1, ends)
}

// A turn at which the connection does not fail.
pub fn turn<R: Wait + Abort, D: Desk>(
    rt: &R,
    alloc: Global,
    conn: &mut Paused,
    desk: &mut D,
    exchange: &mut Exchange<D::Waits>,
    room: &mut [u8],
    others: &Counted,
) -> Turned
    requires room { 0 < length room.old }
    requires exchange { IsExchange exchange.old }
    ensures exchange { IsExchange exchange.new }
    ensures room { length room.new ≡ length room.old }
{
    match tried(rt, alloc, conn, desk, exchange, room, others) {
        Ok(turned) => turned,
        Err(end) => panic!(rt; "{end}"),
    }
}
