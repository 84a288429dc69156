//! Reads what a client says, in whatever pieces it comes.

ghost use Rattle.std.specs.Prelude.{◌≡◌, ◌+◌, ◌≤◌, ◌<◌, ◌^◌, [], length, None, Some, Ok, IfOk, OnOk, OnErr};
ghost use Rattle.std.specs.Io.KnownBytes.{ReadConsumes};
ghost use Rattle.std.specs.Io.{ReadsAtMost};
ghost use Rattle.hk_outside.specs.Causes.{Rose};
ghost use Rattle.hk_outside.specs.Records.{RecordsRead};
ghost use Rattle.hk_lines.specs.Cut.{fed, with_room};
ghost use Rattle.hk_request.specs.Heads.{HasItsTag};
ghost use Rattle.hk_request.specs.Reading.{head_of};
ghost use Rattle.hk_conn.specs.Said.{said_block};
ghost use Rattle.hk_lines.specs.declared.due.Due.TheVariants as due;
ghost use Rattle.hk_conn.specs.Turns.{GoesOn, IsReader, Turns, LineTurns};
ghost use Rattle.hk_conn.specs.Pieces.{Pieces};

use crate::ends::ConnEnd;
use crate::said::{ReaderStep, Said};
use hk_base::Memory;
use hk_lines::{Cutter, Step};
use hk_outside::{Connection, Failed, Sink, Source};
use hk_request::{BlockFault, Head, Request, RequestCause, StoreHead, finish, read_request};
use std::alloc::Global;

// The longest line, without the two bytes that end it.
const LINE_LIMIT: usize = 65_536;

// How much room there is at least for what is read: little at a connection that sends little, which most connections are.
const LEAST_ROOM: usize = 1_024;

// How much room there is at least where much is read at once.
const MOST_ROOM: usize = 65_536;

/// The unread bytes of a client, and the head of the store whose block is due.
#[derive(Drop)]
pub struct Reader {
    pub cutter: Cutter,
    pub pending: Option<StoreHead>,
    // how much room there is at least for the next read
    room: usize,
}

// How much room the read behind one is given, which read so much into so much room: more where it was filled, and less where most of it was not.
fn next_room(room: usize, count: usize) -> usize {
    if count >= room {
        room.saturating_mul(2)
    } else if count < room / 4 {
        room / 2
    } else {
        room
    }
}

// Reads some bytes, which leaves what was written.
fn read_some<C: Connection>(conn: &mut C, room: &mut [u8]) -> Result<usize, Failed>
    ensures bound { ReadsAtMost result room.new }
    ensures bytes { ReadConsumes (C.left conn.old) (C.left conn.new) result room.new }
    ensures given { RecordsRead (C.Source.given conn.old) (C.Source.given conn.new) result room.new }
    ensures later { C.Source.faults conn.old ≤ C.Source.faults conn.new }
    ensures failed { OnErr result (Rose (C.Source.faults conn.old) (C.Source.faults conn.new)) }
    ensures held { C.held conn.new ≡ C.held conn.old }
    ensures writes { C.Sink.faults conn.new ≡ C.Sink.faults conn.old }
{
    conn.read(room)
}

impl Reader {
    pub fn new(alloc: Global) -> Result<Reader, Memory>
        ensures reader { IfOk result (λ r. IsReader r.cutter r.pending) }
        ensures empty { IfOk result (λ r. (r.cutter ≡ record { unread = []; dropping = 0; limit = LINE_LIMIT; due = due.Line; given = []; room = [] }) × (r.pending ≡ None)) }
    {
        Ok(Reader {
            cutter: Cutter::new(alloc, LINE_LIMIT)?,
            pending: None,
            room: LEAST_ROOM,
        })
    }

    /// Reads some bytes, straight into the cutter. None is the end.
    pub fn read<C: Connection>(&mut self, conn: &mut C) -> Result<usize, ConnEnd>
        requires { IsReader self.old.cutter self.old.pending }
        ensures reader { IsReader self.new.cutter self.new.pending }
        ensures pending { self.new.pending ≡ self.old.pending }
        ensures pieces { Pieces result (C.left conn.old) (C.left conn.new) (C.Source.given conn.old) (C.Source.given conn.new) self.old.cutter self.new.cutter }
        ensures later { C.Source.faults conn.old ≤ C.Source.faults conn.new }
        ensures failed { OnErr result (result ≡ Err ConnEnd.ReadFault → Rose (C.Source.faults conn.old) (C.Source.faults conn.new)) }
        ensures held { C.held conn.new ≡ C.held conn.old }
        ensures writes { C.Sink.faults conn.new ≡ C.Sink.faults conn.old }
    {
        let room = self.room.clamp(LEAST_ROOM, MOST_ROOM);
        if self.cutter.make_room(room).is_err() {
            return Err(ConnEnd::Memory);
        }
        let count = match read_some(conn, self.cutter.room()) {
            Ok(count) => count,
            Err(_) => return Err(ConnEnd::ReadFault),
        };
        self.cutter.filled(count);
        self.room = next_room(room, count);
        Ok(count)
    }

    /// These bytes came. After an `Err` all is as it was.
    pub fn feed(&mut self, bytes: &[u8]) -> Result<(), Memory>
        ensures given { OnOk result (self.new.cutter ≡ fed self.old.cutter bytes.now) }
        ensures not { OnErr result (self.new.cutter ≡ with_room self.old.cutter []) }
        ensures pending { self.new.pending ≡ self.old.pending }
    {
        self.cutter.feed(bytes)
    }

    /// The next that was said, if all of it is there.
    pub fn turn(&mut self, alloc: Global) -> Result<ReaderStep, Memory>
        requires { IsReader self.old.cutter self.old.pending }
        ensures reader { IfOk result (λ t. GoesOn t self.new.cutter self.new.pending) }
        ensures turns { IfOk result (λ t. Turns t self.old.pending self.old.cutter self.new.pending self.new.cutter) }
    {
        if self.pending.is_none() {
            return self.line_turn(alloc);
        }
        self.due_turn(alloc)
    }

    // The same where a block may be due. It stands by itself, so that a line, which comes most often, needs no room for a head.
    #[inline(never)]
    fn due_turn(&mut self, alloc: Global) -> Result<ReaderStep, Memory>
        requires { IsReader self.old.cutter self.old.pending }
        ensures reader { IfOk result (λ t. GoesOn t self.new.cutter self.new.pending) }
        ensures turns { IfOk result (λ t. Turns t self.old.pending self.old.cutter self.new.pending self.new.cutter) }
    {
        match self.pending.take() {
            None => self.line_turn(alloc),
            Some(head) => self.block_turn(alloc, head),
        }
    }

    fn line_turn(&mut self, alloc: Global) -> Result<ReaderStep, Memory>
        requires reader { IsReader self.old.cutter None }
        requires pending { self.old.pending ≡ None }
        ensures reader { IfOk result (λ t. GoesOn t self.new.cutter self.new.pending) }
        ensures turns { IfOk result (λ t. Turns t None self.old.cutter self.new.pending self.new.cutter) }
    {
        match self.cutter.next() {
            Step::Line => self.line(alloc),
            Step::TooLong => Ok(ReaderStep::Says(Said::LongLine)),
            Step::Need => Ok(ReaderStep::Need),
            Step::Block => Ok(ReaderStep::Need),
        }
    }

    fn line(&mut self, alloc: Global) -> Result<ReaderStep, Memory>
        requires reader { IsReader self.old.cutter None }
        requires free { self.old.cutter.dropping < 2 ^ 63 }
        requires pending { self.old.pending ≡ None }
        ensures reader { OnOk result (IsReader self.new.cutter self.new.pending) }
        ensures turns { IfOk result (λ t. LineTurns t (head_of self.old.cutter.given) self.old.cutter self.new.pending self.new.cutter) }
    {
        match read_request(alloc, self.cutter.given()) {
            Ok(Head::Whole(Request::Quit)) => Ok(ReaderStep::Says(Said::Left)),
            Ok(Head::Whole(request)) => Ok(ReaderStep::Says(Said::Asked(request))),
            Ok(Head::Store(head)) => {
                self.cutter.expect_block(head.bytes);
                self.pending = Some(head);
                Ok(ReaderStep::Head)
            }
            Err(fault) => match fault.cause {
                RequestCause::Memory => Err(Memory),
                _ => {
                    self.cutter.skip(fault.skip);
                    Ok(ReaderStep::Says(Said::Refused(fault.cause)))
                }
            },
        }
    }

    fn block_turn(&mut self, alloc: Global, head: StoreHead) -> Result<ReaderStep, Memory>
        requires reader { IsReader self.old.cutter (Some head) }
        requires pending { self.old.pending ≡ None }
        ensures reader { OnOk result (IsReader self.new.cutter self.new.pending) }
        ensures turns { IfOk result (λ t. Turns t (Some head) self.old.cutter self.new.pending self.new.cutter) }
    {
        match self.cutter.next() {
            Step::Block => {
                let said = self.block(alloc, head)?;
                Ok(ReaderStep::Says(said))
            }
            _ => {
                self.pending = Some(head);
                Ok(ReaderStep::Need)
            }
        }
    }

    fn block(&self, alloc: Global, head: StoreHead) -> Result<Said, Memory>
        requires small { head.bytes ≤ 1048576 }
        requires whole { length self.now.cutter.given ≡ head.bytes + 2 }
        requires its_tag { HasItsTag head }
        ensures { IfOk result (λ s. s ≡ said_block head self.now.cutter.given) }
    {
        let noreply = head.noreply;
        match finish(alloc, head, self.cutter.given()) {
            Ok(request) => Ok(Said::Asked(request)),
            Err(BlockFault::BadEnd) => Ok(Said::BadEnd { noreply }),
            Err(BlockFault::Memory) => Err(Memory),
        }
    }
}
