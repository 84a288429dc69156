//! Desks that send what they say.

ghost use Rattle.std.specs.Prelude.{◌≡◌, ◌<◌, None, length};
ghost use Rattle.hk_outside.specs.Desk.{BeginSuits, IsSettled, Suits};
ghost use Rattle.hk_worker.specs.Opening.{FinishesAtPost};
ghost use Rattle.hk_group.specs.Led.{AsksAgain, BeginsAgain};

use crate::lane::Lanes;
use crate::reader::LaneReader;
use crate::tally::{Counters, Tallies};
use crossbeam_utils::CachePadded;
use hk_accept::Desks;
use hk_base::{Key, Memory, Op};
use hk_conn::serve_connection;
use hk_group::{GroupDesk, GroupDesks};
use hk_hosts::PromptConnection;
use hk_link::Outlet;
use hk_locked::Places;
use hk_loops::{EventLoop, LoopDesks, WornDesk};
use hk_outside::{Begun, Connection, Desk, DeskReply, Source};
use hk_peer::{Course, PromptCarrier, serve_peer};
use hk_worker::{DeskClock, OpenAsk};
use std::alloc::Global;
use std::sync::{Arc, Wait};

// How often one key of one request is asked. The desk waits for a key that is busy as long as anybody is to wait.
const PATIENCE: u32 = 1;

// After so many asks a desk of a loop's thread is made anew: each asks its post 32 times at most, which may be asked 4,294,967,295 times.
const MOST_ASKS: u64 = 33_554_432;

/// A desk that sends the letters of its updates itself, before it waits for what they are told.
#[derive(Drop)]
pub struct LaneDesk<C: DeskClock + Drop, R: Wait + Drop, P: Places, X: Drop> {
    rt: R,
    desk: GroupDesk<C, R, P>,
    lanes: Arc<Lanes<X>>,
    counters: Arc<CachePadded<Counters>>,
    // So often it was asked.
    asks: u64,
}

impl<C: DeskClock + Drop, R: Wait + Drop, P: Places, X: PromptCarrier + Drop> Desk
    for LaneDesk<C, R, P, X> {
    type Waits = OpenAsk;

    ghost asks = { λ desk. None };

    ghost op_of = { λ waits. waits.op };

    fn ask(&mut self, key: &Key, op: &Op) -> Result<DeskReply, Memory>
        ensures suits { Suits op.now result }
        ensures told { AsksAgain (C.was_read self.old.desk.clock.value) (C.reading self.old.desk.clock.value) key.now op.now self.old.desk.post self.new.desk.post result }
    {
        self.asks = self.asks.saturating_add(1);
        let told = self.desk.ask(key, op);
        if let Ok(reply) = &told {
            self.counters.note(op, reply);
        }
        told
    }

    fn begin(&mut self, key: &Key, op: &Op) -> Result<Begun<OpenAsk>, Memory>
        ensures suits { BeginSuits (λ waits. waits.op) op.now result }
        ensures told { BeginsAgain (C.was_read self.old.desk.clock.value) (C.reading self.old.desk.clock.value) key.now op.now self.old.desk.post self.new.desk.post result }
    {
        self.asks = self.asks.saturating_add(1);
        let begun = self.desk.begin(key, op);
        if let Ok(Begun::Told(reply)) = &begun {
            self.counters.note(op, reply);
        }
        begun
    }

    fn finish(&mut self, waits: OpenAsk) -> Result<DeskReply, Memory>
        ensures suits { Suits waits.op result }
        ensures settled { IsSettled result }
        ensures told { FinishesAtPost waits self.old.desk.post self.new.desk.post result }
    {
        self.lanes.send(&self.rt);
        self.desk.hush();
        let told = self.desk.finish(waits);
        if let Ok(reply) = &told {
            self.counters.note_update(reply);
        }
        told
    }
}

impl<C: DeskClock + Drop, R: Wait + Drop, P: Places, X: PromptCarrier + Drop> WornDesk
    for LaneDesk<C, R, P, X> {
    fn is_worn(&self) -> bool {
        self.asks >= MOST_ASKS
    }
}

/// Makes a desk for each connection at the first node of a group's, whose letters leave on these lanes.
#[derive(Drop)]
pub struct LaneDesks<R: Wait + Drop, C: Drop, P: Places, X: Drop> {
    rt: R,
    alloc: Global,
    desks: GroupDesks<R, C, P>,
    lanes: Arc<Lanes<X>>,
    tallies: Arc<Tallies>,
}

impl<R: Wait + Copy + Drop, C: DeskClock + Drop, P: Places, X: PromptCarrier + Drop> LaneDesks<
    R,
    C,
    P,
    X,
> {
    /// Desks of these, whose letters to other nodes leave on these lanes. What they tell is counted there.
    pub fn new(
        rt: R,
        alloc: Global,
        desks: GroupDesks<R, C, P>,
        lanes: Arc<Lanes<X>>,
        tallies: Arc<Tallies>,
    ) -> LaneDesks<R, C, P, X> {
        LaneDesks {
            rt,
            alloc,
            desks,
            lanes,
            tallies,
        }
    }

    // What takes the letters that one connection more brings, and the outlet that leads to it.
    fn reader(&self) -> Result<(Outlet, LaneReader<R, P, X>), Memory> {
        let lanes = Arc::try_clone(&self.lanes)?;
        let (outlet, reader) = self.desks.reader()?;
        let reader = LaneReader {
            rt: self.rt,
            reader,
            lanes,
        };
        Ok((outlet, reader))
    }

    /// Makes the steps of the letters that a connection carries, to its end, and sends what the node says to them. Where there is no memory for it, none is read.
    pub fn take_letters<N: Source>(&self, conn: &mut N, course: Course) {
        if let Ok((mut outlet, mut reader)) = self.reader() {
            serve_peer(&self.rt, self.alloc, conn, course, &mut outlet, &mut reader);
        }
    }

    // The desk of the connection of this number.
    fn desk(&self, number: u32) -> Result<LaneDesk<C, R, P, X>, Memory> {
        let lanes = Arc::try_clone(&self.lanes)?;
        let counters = self.tallies.of(number)?;
        Ok(LaneDesk {
            rt: self.rt,
            desk: self.desks.desk(number)?,
            lanes,
            counters,
            asks: 0,
        })
    }
}

impl<
    R: Wait + Copy + Send + Sync + Drop + 'static,
    C: DeskClock + Send + Sync + Drop + 'static,
    P: Places + Send + Sync + 'static,
    X: PromptCarrier + Send + Drop + 'static,
> Desks for LaneDesks<R, C, P, X> {
    fn serve<N: Connection>(&self, conn: &mut N, number: u32) {
        if let Ok(mut desk) = self.desk(number) {
            serve_connection(self.alloc, conn, &mut desk, PATIENCE);
        }
    }
}

impl<
    R: Wait + Copy + Send + Sync + Drop + 'static,
    C: DeskClock + Send + Sync + Drop + 'static,
    P: Places + Send + Sync + 'static,
    X: PromptCarrier + Send + Drop + 'static,
> LoopDesks for LaneDesks<R, C, P, X> {
    type Waits = OpenAsk;

    fn serve_turns<Q: Wait, N: PromptConnection + Drop>(
        &self,
        rt: &Q,
        event_loop: &EventLoop<N, OpenAsk>,
        room: &mut [u8],
        number: u32,
    )
        requires { 0 < length room.old }
        ensures { length room.new ≡ length room.old }
    {
        if let Ok(mut desk) = self.desk(number) {
            event_loop.serve(rt, &mut desk, room, PATIENCE);
        }
    }
}
