//! Connections whose bytes may come before they are asked for.

ghost use Rattle.std.specs.Prelude.{◌≡◌, ◌≤◌, ℕ, List, [], Some, length, take, drop, min, refl, OnErr};
ghost use Rattle.std.specs.Io.{ReadsAtMost};
ghost use Rattle.std.specs.Io.KnownBytes.{prepend_known, ReadConsumes};
ghost use Rattle.hk_outside.specs.Causes.{Rose};
ghost use Rattle.hk_greet.specs.Standing.{standing_of, Writes};
ghost use Rattle.hk_greet.specs.Hearing.{Fills};

use crate::fault::HearFault;
use crate::stream::{read_some, write_all};
use crate::taken::Taken;
use hk_base::Memory;
use hk_buffer::Buffer;
use hk_hosts::{Ender, Patient};
use hk_outside::{Connection, Failed, Sink, Source};
use std::alloc::Global;
use std::marker::Model;

// How much room there is at least for what is read.
const PIECE: usize = 4_096;

/// A connection, and the bytes that came off it before they were asked for: whoever reads next is given these first.
#[derive(Drop)]
pub struct Buffered<C: Connection> {
    conn: C,
    buffer: Buffer,
    given: Taken,
}

impl<C: Connection> Model for Buffered<C> {
    ghost use Rattle.hk_greet.specs.Standing.{Standing, standing_of};

    ghost Value = { Standing };

    ghost view = { λ b. standing_of C.left C.Source.given C.held C.Source.faults C.Sink.faults b.conn b.given.pieces b.buffer.unread };
}

impl<C: Connection> Buffered<C> {
    /// Nothing came yet. It takes no memory.
    pub fn new(alloc: Global, conn: C) -> Buffered<C>
        ensures { result ≡ standing_of C.left C.Source.given C.held C.Source.faults C.Sink.faults conn [] [] }
    {
        Buffered {
            conn,
            buffer: Buffer::new(alloc),
            given: Taken::new(),
        }
    }

    /// The connection alone.
    pub fn conn(&self) -> &C
        ensures { standing_of C.left C.Source.given C.held C.Source.faults C.Sink.faults result.now self.now.gave self.now.unread ≡ self.now }
    {
        &self.conn
    }

    /// The bytes that came and that nobody took yet.
    pub fn unread(&self) -> &[u8]
        ensures { result.now ≡ self.now.unread }
    {
        self.buffer.unread()
    }

    // Reads what comes next behind the unread bytes, and answers how many bytes. None is the end.
    pub(crate) fn fill(&mut self) -> Result<usize, HearFault>
        ensures { Fills result self.old self.new }
    {
        read_piece(&mut self.buffer, &mut self.conn)
    }

    // Takes the first `count` of the unread bytes.
    pub(crate) fn skip(&mut self, count: usize)
        requires { count ≤ length self.old.unread }
        ensures { self.new ≡ record self.old { unread = drop count self.old.unread } }
    {
        self.buffer.skip(count);
    }

    // Writes all of a text, or a front of it.
    pub(crate) fn say(&mut self, text: &[u8]) -> Result<(), Failed>
        ensures { Writes result text.now self.old self.new }
    {
        write_all(&mut self.conn, text)
    }
}

impl<C: Connection> Source for Buffered<C> {
    ghost left = { λ b. prepend_known b.unread b.left };

    ghost given = { λ b. Some b.gave };

    ghost faults = { λ b. b.read_faults };

    ghost beside = { λ b. (b.held, b.write_faults) };

    fn read(&mut self, room: &mut [u8]) -> Result<usize, Failed> {
        let count = read_next(&mut self.buffer, &mut self.conn, room)?;
        self.given.note(&room[..count]);
        Ok(count)
    }
}

impl<C: Connection> Sink for Buffered<C> {
    ghost held = { λ b. b.held };

    ghost given = { λ b. Some b.gave };

    ghost faults = { λ b. b.write_faults };

    ghost beside = { λ b. (prepend_known b.unread b.left, b.read_faults) };

    fn write(&mut self, piece: &[u8]) -> Result<usize, Failed> {
        self.conn.write(piece)
    }
}

impl<C: Connection> Connection for Buffered<C> {
    ghost read_keeps = { λ b. refl };

    ghost write_keeps = { λ b. refl };

    ghost one_record = { λ b. refl };
}

impl<C: Patient> Patient for Buffered<C> {
    fn wait_at_most(&self, read: u64, write: u64) {
        self.conn.wait_at_most(read, write);
    }

    fn write_promptly(&self) {
        self.conn.write_promptly();
    }

    fn keeps(&self) -> bool {
        self.conn.keeps()
    }

    fn catch_up(&mut self) -> Result<(), Failed> {
        self.conn.catch_up()
    }

    fn ender(&self) -> Result<Ender, Memory> {
        self.conn.ender()
    }
}

// Gives the front of the unread bytes into the front of the room, as much as fits, and answers how much.
fn give(buffer: &mut Buffer, room: &mut [u8]) -> usize
    ensures count { result ≡ min (length buffer.old.unread) (length room.old) }
    ensures same { take result room.new ≡ take result buffer.old.unread }
    ensures left { buffer.new.unread ≡ drop result buffer.old.unread }
{
    let count = buffer.unread_len().min(room.len());
    room[..count].copy_from_slice(&buffer.unread()[..count]);
    buffer.skip(count);
    count
}

// Reads the unread bytes, or where there are none what the connection gives.
fn read_next<C: Connection>(
    buffer: &mut Buffer,
    conn: &mut C,
    room: &mut [u8],
) -> Result<usize, Failed>
    ensures within { ReadsAtMost result room.new }
    ensures bytes { ReadConsumes (prepend_known buffer.old.unread (C.left conn.old)) (prepend_known buffer.new.unread (C.left conn.new)) result room.new }
    ensures later { C.Source.faults conn.old ≤ C.Source.faults conn.new }
    ensures failed { OnErr result (Rose (C.Source.faults conn.old) (C.Source.faults conn.new)) }
    ensures held { C.held conn.new ≡ C.held conn.old }
    ensures writes { C.Sink.faults conn.new ≡ C.Sink.faults conn.old }
{
    let count = give(buffer, room);
    if count == 0 {
        return read_some(conn, room);
    }
    Ok(count)
}

// Reads some bytes, straight into the buffer. None is the end.
fn read_piece<C: Connection>(buffer: &mut Buffer, conn: &mut C) -> Result<usize, HearFault>
    ensures { (gave : List (List ℕ)) → Fills result (standing_of C.left C.Source.given C.held C.Source.faults C.Sink.faults conn.old gave buffer.old.unread) (standing_of C.left C.Source.given C.held C.Source.faults C.Sink.faults conn.new gave buffer.new.unread) }
{
    if buffer.make_room(PIECE).is_err() {
        return Err(HearFault::Memory);
    }
    let count = match read_some(conn, buffer.room()) {
        Ok(count) => count,
        Err(_) => return Err(HearFault::ReadFault),
    };
    buffer.filled(count);
    Ok(count)
}
