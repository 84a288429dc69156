//! A connection of an event loop, and whose turn it is.

ghost use Rattle.std.specs.Prelude.{◌≡◌, ◌<◌, ◌≤◌, length, IfOk};
ghost use Rattle.hk_conn.specs.Exchange.{IsExchange};
ghost use Rattle.hk_loops.specs.Sound.{IsExchange-prop};

use crate::turn::{Others, Turned, take_turn};
use hk_base::Memory;
use hk_conn::Exchange;
use hk_hosts::PromptConnection;
use hk_outside::Desk;
use std::alloc::Global;
use std::sync::atomic::{AtomicBool, AtomicU64, Ordering};
use std::sync::{Mutex, Wait};

// Nothing can be done of it before it is ready.
const RESTS: u64 = 0;

// It has its turn, or will have it.
const HAS_TURN: u64 = 1;

// The same, and meanwhile it became ready once more.
const READY_AGAIN: u64 = 2;

// A connection, and what was said over it.
#[derive(Drop)]
struct Talk<N: Drop, W: Drop> {
    conn: N,
    exchange: Exchange<W>,
}

// A connection between two turns. For each turn it is taken out of its cell: that moves one word.
#[derive(Drop)]
struct Client<N: Drop, W: Drop> {
    talk: Box<Talk<N, W>>,
    ghost sound: { IsExchange talk.value.exchange } by { IsExchange-prop talk.value.exchange },
}

/// A connection of an event loop, which one thread serves at a time.
#[derive(Drop)]
pub(crate) struct Cell<N: Drop, W: Drop> {
    // Its place among those of the loop.
    place: usize,
    turn: AtomicU64,
    // The client sends no more.
    ends: AtomicBool,
    // None once it is over.
    client: Mutex<Option<Client<N, W>>>,
}

impl<N: PromptConnection + Drop, W: Drop> Client<N, W> {
    // What it waits for behind its turn, and the connection, unless that is over.
    fn after_turn<R: Wait, D: Desk<Waits = W>, O: Others>(
        self,
        rt: &R,
        alloc: Global,
        desk: &mut D,
        room: &mut [u8],
        others: &O,
        patience: u32,
        ends: bool,
    ) -> (Turned, Option<Client<N, W>>)
        requires patience { 1 ≤ patience }
        requires room { 0 < length room.old }
        ensures { length room.new ≡ length room.old }
    {
        let Client { mut talk } = self;
        let Talk { conn, exchange } = &mut *talk;
        match take_turn(
            rt, alloc, conn, desk, exchange, room, others, patience, ends,
        ) {
            Ok(Turned::Over) => (Turned::Over, None),
            Ok(turned) => (turned, Some(Client { talk })),
            Err(_) => (Turned::Over, None),
        }
    }
}

impl<N: PromptConnection + Drop, W: Drop> Cell<N, W> {
    /// A new connection, at this place.
    pub(crate) fn new(alloc: Global, place: usize, conn: N) -> Result<Cell<N, W>, Memory> {
        let exchange = Exchange::new(alloc)?;
        let talk = Box::new(alloc, Talk { conn, exchange })?;
        Ok(Cell {
            place,
            turn: AtomicU64::new(RESTS),
            ends: AtomicBool::new(false),
            client: Mutex::new(Some(Client { talk })),
        })
    }

    pub(crate) fn place(&self) -> usize {
        self.place
    }

    /// It is ready. Gives whether it is to have a turn for that, and has none yet.
    pub(crate) fn wakes(&self, ends: bool) -> bool {
        if ends {
            self.ends.store(true, Ordering::SeqCst);
        }
        if self.turn.swap(READY_AGAIN, Ordering::SeqCst) != RESTS {
            return false;
        }
        self.turn.store(HAS_TURN, Ordering::SeqCst);
        true
    }

    /// Its turn ends, unless it became ready since that began: then it has another one.
    pub(crate) fn rests(&self) -> bool {
        self.turn
            .compare_exchange(HAS_TURN, RESTS, Ordering::SeqCst, Ordering::SeqCst)
            .is_ok()
    }

    /// Its turn.
    pub(crate) fn take_turn<R: Wait, D: Desk<Waits = W>, O: Others>(
        &self,
        rt: &R,
        alloc: Global,
        desk: &mut D,
        room: &mut [u8],
        others: &O,
        patience: u32,
    ) -> Turned
        requires patience { 1 ≤ patience }
        requires room { 0 < length room.old }
        ensures { length room.new ≡ length room.old }
    {
        // What made it ready so far is seen by what follows.
        self.turn.store(HAS_TURN, Ordering::SeqCst);
        let ends = self.ends.load(Ordering::SeqCst);
        let mut guard = self.client.lock(rt);
        let Some(client) = guard.take() else {
            return Turned::Over;
        };
        let (turned, rest) = client.after_turn(rt, alloc, desk, room, others, patience, ends);
        *guard = rest;
        turned
    }

    /// It is over, and closed as soon as its turn ends.
    pub(crate) fn end<R: Wait>(&self, rt: &R) {
        let mut guard = self.client.lock(rt);
        *guard = None;
    }
}
