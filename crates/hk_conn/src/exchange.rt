//! A connection between two calls of its loop.

ghost use Rattle.std.specs.Prelude.{◌≡◌, ◌≤◌, None, [], drop, length, Err, IfOk, OnOk, OnErr};
ghost use Rattle.hk_outside.specs.Causes.{Rose};
ghost use Rattle.hk_lines.specs.declared.due.Due.TheVariants as due;
ghost use Rattle.hk_conn.specs.Exchange.{Gives, GivesNothing, IsExchange, IsIdle, Writes, more_came, owed, owed_then, unwritten};
ghost use Rattle.hk_conn.specs.Pieces.{Pieces};
ghost use Rattle.hk_conn.specs.Turns.{IsReader};
ghost use Rattle.hk_conn.specs.declared.said.Stop.TheVariants as stop;

use crate::ends::ConnEnd;
use crate::pending::PendingUpdate;
use crate::reader::Reader;
use crate::said::{Said, Stop};
use hk_base::Memory;
use hk_outside::{Connection, Sink, Source};
use std::alloc::Global;
use std::collections::VecDeque;

// How much room for replies is kept between writes.
const KEPT_ROOM: usize = 4_096;

/// A connection between two calls of its loop: the bytes that came, the updates that wait at the desk, and the replies
/// that are to be written. No call of it waits for the client.
#[derive(Drop)]
pub struct Exchange<W> {
    pub(crate) reader: Reader,
    // what was said, and is answered once the updates that wait are told
    pub(crate) held: Option<Said>,
    // the updates that wait at the desk
    pub(crate) updates: VecDeque<PendingUpdate<W>>,
    // the replies before those
    pub(crate) told: Vec<u8>,
    // the replies behind them
    pub(crate) out: Vec<u8>,
    // how much of these is written
    pub(crate) at: usize,
    pub(crate) stop: Stop,
}

/// What an exchange waits for.
#[derive(Clone, Copy, Debug, PartialEq, Eq)]
pub enum Owed {
    /// More bytes of the client.
    Bytes,
    /// A step: something that came may be answered.
    Step,
    /// What is told of the update that has waited longest.
    Hear,
    /// That the replies are written.
    Write,
    /// Nothing any more: the client quit, or a line was too long.
    Over,
}

// Once more came there may be more to answer, unless it is over.
fn more_came(stop: Stop) -> Stop
    ensures { result ≡ more_came stop }
{
    match stop {
        Stop::Need => Stop::Full,
        Stop::Full => Stop::Full,
        Stop::Quit => Stop::Quit,
        Stop::TooLong => Stop::TooLong,
    }
}

fn owed_then(is_held: bool, unwritten: bool, stop: Stop) -> Owed
    ensures { result ≡ owed_then is_held unwritten stop }
{
    if is_held {
        return Owed::Step;
    }
    if unwritten {
        return Owed::Write;
    }
    match stop {
        Stop::Need => Owed::Bytes,
        Stop::Full => Owed::Step,
        Stop::Quit => Owed::Over,
        Stop::TooLong => Owed::Over,
    }
}

// What stands behind so many bytes.
fn behind(text: &[u8], at: usize) -> &[u8]
    ensures { result.now ≡ drop at text.now }
{
    if at >= text.len() {
        return &[];
    }
    &text[at..]
}

impl<W: Drop> Exchange<W> {
    /// Nothing came yet.
    pub fn new(alloc: Global) -> Result<Exchange<W>, Memory>
        ensures exchange { IfOk result (λ e. IsExchange e) }
        ensures idle { IfOk result (λ e. IsIdle e × (e.stop ≡ stop.Need)) }
        ensures empty { IfOk result (λ e. (e.reader.cutter ≡ record { unread = []; dropping = 0; limit = 65536; due = due.Line; given = []; room = [] }) × (e.reader.pending ≡ None)) }
    {
        let reader = Reader::new(alloc)?;
        Ok(Exchange {
            reader,
            held: None,
            updates: VecDeque::new(alloc),
            told: Vec::new(alloc),
            out: Vec::new(alloc),
            at: 0,
            stop: Stop::Need,
        })
    }

    /// What it waits for.
    pub fn owed(&self) -> Owed
        ensures { result ≡ owed self.now }
    {
        if self.updates.len() > 0 {
            return Owed::Hear;
        }
        owed_then(self.held.is_some(), self.at < self.out.len(), self.stop)
    }

    /// These bytes came. After an `Err` all is as it was.
    pub fn give(&mut self, bytes: &[u8]) -> Result<(), Memory>
        ensures given { OnOk result (Gives bytes.now self.old self.new) }
        ensures not { OnErr result (GivesNothing self.old self.new) }
    {
        match self.reader.feed(bytes) {
            Ok(()) => {
                self.stop = more_came(self.stop);
                Ok(())
            }
            Err(memory) => Err(memory),
        }
    }

    // Reads some bytes, straight to where they are kept. None is the end.
    pub(crate) fn read<C: Connection>(&mut self, conn: &mut C) -> Result<usize, ConnEnd>
        requires { IsReader self.old.reader.cutter self.old.reader.pending }
        ensures reader { IsReader self.new.reader.cutter self.new.reader.pending }
        ensures pending { self.new.reader.pending ≡ self.old.reader.pending }
        ensures pieces { Pieces result (C.left conn.old) (C.left conn.new) (C.Source.given conn.old) (C.Source.given conn.new) self.old.reader.cutter self.new.reader.cutter }
        ensures later { C.Source.faults conn.old ≤ C.Source.faults conn.new }
        ensures failed { OnErr result (result ≡ Err ConnEnd.ReadFault → Rose (C.Source.faults conn.old) (C.Source.faults conn.new)) }
        ensures held { C.held conn.new ≡ C.held conn.old }
        ensures writes { C.Sink.faults conn.new ≡ C.Sink.faults conn.old }
        ensures idle { IsIdle self.old → IsIdle self.new }
        ensures stop { OnOk result (self.new.stop ≡ more_came self.old.stop) }
    {
        match self.reader.read(conn) {
            Ok(count) => {
                self.stop = more_came(self.stop);
                Ok(count)
            }
            Err(end) => Err(end),
        }
    }

    /// The replies that are to be written: none while an update waits.
    pub fn unwritten(&self) -> &[u8]
        ensures { result.now ≡ unwritten self.now }
    {
        if self.updates.len() > 0 {
            return &[];
        }
        behind(self.out.as_slice(), self.at)
    }

    // All of the replies are written. They are let go, and the room that large ones took.
    pub(crate) fn all_written(&mut self)
        ensures reader { self.new.reader ≡ self.old.reader }
        ensures held { self.new.held ≡ self.old.held }
        ensures updates { self.new.updates ≡ self.old.updates }
        ensures told { self.new.told ≡ self.old.told }
        ensures stop { self.new.stop ≡ self.old.stop }
        ensures out { self.new.out.items ≡ [] }
        ensures at { self.new.at ≡ 0 }
    {
        self.out.clear();
        self.out.shrink_to(KEPT_ROOM);
        self.at = 0;
    }

    /// So many bytes of the replies are written.
    pub fn written(&mut self, count: usize)
        requires exchange { IsExchange self.old }
        requires some { 1 ≤ count }
        requires unwritten { count ≤ length (unwritten self.old) }
        ensures { Writes count self.old self.new }
    {
        let at = self.at + count;
        if at == self.out.len() {
            self.all_written();
        } else {
            self.at = at;
        }
    }
}
