//! An event loop: connections of which whichever is ready has its turn.

ghost use Rattle.std.specs.Prelude.{◌≡◌, ◌<◌, ◌≤◌, length};

use crate::cell::Cell;
use crate::desks::WornDesk;
use crate::table::Table;
use crate::turn::{Others, Turned};
use hk_base::Memory;
use hk_hosts::PromptConnection;
use hk_link::Bell;
use hk_outside::{Desk, Failed};
use mio::unix::SourceFd;
use mio::{Events, Interest, Poll, Registry, Token};
use std::alloc::Global;
use std::collections::VecDeque;
use std::net::Net;
use std::sync::atomic::{AtomicBool, AtomicU64, Ordering};
use std::sync::{Arc, Mutex, Wait};
use std::time::Duration;

// So many connections are told ready at once at most.
const EVENTS: usize = 256;

// What a thread needs to learn whose turn it is.
#[derive(Drop)]
struct Lead<N: Drop, W: Drop> {
    poll: Poll,
    events: Events,
    // Those that are ready.
    ready: VecDeque<Arc<Cell<N, W>>>,
    // Those that may go on without that, once the others had their turn.
    again: VecDeque<Arc<Cell<N, W>>>,
}

/// Connections, of which one has its turn, and then another that is ready. Threads of a loop take its lead one after the other: who has it learns whose turn is next, lets
/// the lead go, and serves that connection. Where that has to wait for other nodes, another thread takes the lead; else no other one is woken.
#[derive(Drop)]
pub struct EventLoop<N: Drop, W: Drop> {
    alloc: Global,
    // Where connections are watched.
    registry: Registry,
    table: Mutex<Table<N, W>>,
    is_led: AtomicBool,
    lead: Mutex<Lead<N, W>>,
    // Wakes a thread that takes the lead, unless another one has it.
    bell: Bell,
    // So many turns ended.
    turns: AtomicU64,
}

impl<N: PromptConnection + Drop, W: Drop> Lead<N, W> {
    // Those that are ready get their turn.
    fn note_ready<R: Wait>(&mut self, rt: &R, table: &Mutex<Table<N, W>>) {
        let mut table = table.lock(rt);
        for event in self.events.iter() {
            let Token(place) = event.token();
            let Some(cell) = table.cell(place) else {
                continue;
            };
            if !cell.wakes(event.is_read_closed() || event.is_error()) {
                continue;
            }
            if self.ready.push_back(cell).is_err() {
                table.end(place);
            }
        }
    }

    // Looks who is ready, and waits for the first one where nobody may go on without that.
    fn look<R: Wait>(&mut self, rt: &R, table: &Mutex<Table<N, W>>) {
        let limit = if self.again.is_empty() {
            None
        } else {
            Some(Duration::ZERO)
        };
        if self.poll.poll(&mut self.events, limit).is_ok() {
            self.note_ready(rt, table);
        }
    }

    // Whose turn it is.
    fn next<R: Wait>(
        &mut self,
        rt: &R,
        table: &Mutex<Table<N, W>>,
        kept: Option<Arc<Cell<N, W>>>,
    ) -> Option<Arc<Cell<N, W>>> {
        if let Some(cell) = kept {
            if let Err(refused) = self.again.push_back(cell) {
                return Some(refused.value);
            }
        }
        if let Some(cell) = self.ready.pop_front() {
            return Some(cell);
        }
        self.look(rt, table);
        match self.ready.pop_front() {
            Some(cell) => Some(cell),
            None => self.again.pop_front(),
        }
    }
}

impl<N: PromptConnection + Drop, W: Drop> EventLoop<N, W> {
    /// A loop without connections.
    pub fn new(net: &impl Net, alloc: Global) -> Result<EventLoop<N, W>, Memory> {
        let poll = Poll::new(net).or(Err(Memory))?;
        let registry = poll.registry().try_clone().or(Err(Memory))?;
        let lead = Lead {
            poll,
            events: Events::with_capacity(alloc, EVENTS)?,
            ready: VecDeque::new(alloc),
            again: VecDeque::new(alloc),
        };
        Ok(EventLoop {
            alloc,
            registry,
            table: Mutex::new(Table::new(alloc)),
            is_led: AtomicBool::new(false),
            lead: Mutex::new(lead),
            bell: Bell::new(),
            turns: AtomicU64::new(0),
        })
    }

    // Has it told when the connection at this place is ready.
    fn watch(&self, descriptor: i32, place: usize) -> Result<(), Failed> {
        self.registry
            .register(
                &mut SourceFd(&descriptor),
                Token(place),
                Interest::READABLE | Interest::WRITABLE,
            )
            .or(Err(Failed))
    }

    /// Serves the connection from now on. After `Failed` it is closed: there was no memory, or the system does not tell of it.
    pub fn add<R: Wait>(&self, rt: &R, conn: N) -> Result<(), Failed> {
        conn.stop_waiting()?;
        let descriptor = conn.descriptor();
        let mut table = self.table.lock(rt);
        let Ok(place) = table.put(self.alloc, conn) else {
            return Err(Failed);
        };
        if self.watch(descriptor, place).is_err() {
            table.end(place);
            return Err(Failed);
        }
        Ok(())
    }

    // Whose turn it is, once the caller has the lead. One that is kept may go on: it does so here where another thread has the lead.
    fn next<R: Wait>(&self, rt: &R, kept: Option<Arc<Cell<N, W>>>) -> Arc<Cell<N, W>> {
        let mut kept = kept;
        for _ in rt.forever() {
            let heard = self.bell.rings();
            if self.is_led.swap(true, Ordering::SeqCst) {
                match kept.take() {
                    Some(cell) => return cell,
                    None => self.bell.wait(rt, heard),
                }
                continue;
            }
            let next = self.lead.lock(rt).next(rt, &self.table, kept.take());
            self.is_led.store(false, Ordering::SeqCst);
            if let Some(cell) = next {
                return cell;
            }
        }
        unreachable!()
    }

    // Serves one connection that is ready, as soon as one is, and gives it back where it may go on.
    fn serve_next<R: Wait, D: Desk<Waits = W>>(
        &self,
        rt: &R,
        desk: &mut D,
        room: &mut [u8],
        patience: u32,
        kept: Option<Arc<Cell<N, W>>>,
    ) -> Option<Arc<Cell<N, W>>>
        requires patience { 1 ≤ patience }
        requires room { 0 < length room.old }
        ensures { length room.new ≡ length room.old }
    {
        let cell = self.next(rt, kept);
        let turned = cell.take_turn(rt, self.alloc, desk, room, self, patience);
        self.turns.fetch_add(1, Ordering::SeqCst);
        match turned {
            Turned::More => Some(cell),
            Turned::Waits => { if cell.rests() { None } else { Some(cell) } }
            Turned::Over => {
                self.table.lock(rt).end(cell.place());
                None
            }
        }
    }

    /// Serves connections that are ready, until the desk is worn.
    pub fn serve<R: Wait, D: WornDesk<Waits = W>>(
        &self,
        rt: &R,
        desk: &mut D,
        room: &mut [u8],
        patience: u32,
    )
        requires patience { 1 ≤ patience }
        requires room { 0 < length room.old }
        ensures { length room.new ≡ length room.old }
    {
        let mut kept = None;
        for _ in rt.forever() {
            kept = self.serve_next(rt, desk, room, patience, kept);
            if kept.is_none() && desk.is_worn() {
                return;
            }
        }
        unreachable!()
    }
}

impl<N: Drop, W: Drop> EventLoop<N, W> {
    /// How many turns ended so far.
    pub fn turns(&self) -> u64 {
        self.turns.load(Ordering::SeqCst)
    }

    /// Has another thread take the lead where nobody has it.
    pub fn lead_on<R: Wait>(&self, rt: &R) {
        if !self.is_led.load(Ordering::SeqCst) {
            self.bell.ring(rt, 1);
        }
    }
}

impl<N: Drop, W: Drop> Others for EventLoop<N, W> {
    // Another thread takes the lead.
    fn go_on<R: Wait>(&self, rt: &R) {
        self.lead_on(rt);
    }
}
