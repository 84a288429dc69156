//! The buffer.

ghost use Rattle.std.specs.Borrow.{sem};
ghost use Rattle.std.specs.Prelude.{◌≡◌, ◌<◌, ◌≤◌, ◌^◌, [], length, OnOk, OnErr};
ghost use Rattle.hk_buffer.specs.Held.{fed, with_room, filled, giving, skipped};
ghost use Rattle.hk_buffer.specs.Lending.{LendsRoom};

use hk_base::Memory;
use std::alloc::Global;
use std::marker::Model;

// Room beyond so many times what is asked for goes back once few bytes are unread. Below that it is not worth the time to take it again.
const MOST_TIMES: usize = 4;

// So much is asked for where a piece is fed.
const FEED_ROOM: usize = 65_536;

// So much more than was asked for is made room at most, so that long bytes come in few reads.
const MOST_BESIDE: usize = 65_536;

/// The bytes that came and were not given yet, those that were given last, and room for those that come. Once few bytes are unread no more than four times the
/// room that is asked for is held, unless the memory has no smaller place: then the buffer stays where it is.
#[derive(Drop)]
pub struct Buffer {
    bytes: Vec<u8>,
    // the unread bytes are those from here to `end`; behind them is the room
    start: usize,
    end: usize,
    // where the bytes that were given last lie
    from: usize,
    to: usize,
}

impl Model for Buffer {
    ghost use Rattle.std.specs.Prelude.{◌≤◌, drop, take, length, slice_range};
    ghost use Rattle.hk_buffer.specs.Held.{Held};

    ghost Value = { Held };

    ghost view = { λ b. record { unread = drop b.start (take b.end b.bytes.items); given = slice_range (take b.end b.bytes.items) b.from b.to; room = drop b.end b.bytes.items } };

    ghost invariant = { λ b. (b.start ≤ b.end) × (b.end ≤ length b.bytes.items) × (b.from ≤ b.to) × (b.to ≤ b.start) };
}

impl Buffer {
    /// Nothing came yet. It takes no memory.
    pub fn new(alloc: Global) -> Buffer
        ensures { result ≡ record { unread = []; given = []; room = [] } }
    {
        Buffer {
            bytes: Vec::new(alloc),
            start: 0,
            end: 0,
            from: 0,
            to: 0,
        }
    }

    /// The piece comes behind what is there. After an `Err` all is as it was, but that `given` and the room are empty.
    pub fn feed(&mut self, piece: &[u8]) -> Result<(), Memory>
        ensures ok { OnOk result (self.new ≡ fed self.old piece.now) }
        ensures err { OnErr result (self.new ≡ with_room self.old []) }
    {
        self.compact(FEED_ROOM);
        self.bytes.truncate(self.end);
        self.bytes.extend_from_slice(piece)?;
        self.end = self.bytes.len();
        Ok(())
    }

    /// Makes room for at least `count` bytes, so that they can be read into the buffer with nothing between. After an
    /// `Err` there may be less room. `given` is empty afterwards.
    pub fn make_room(&mut self, count: usize) -> Result<(), Memory>
        requires { count < 2 ^ 63 }
        ensures same { self.new ≡ with_room self.old self.new.room }
        ensures enough { OnOk result (count ≤ length self.new.room) }
    {
        self.compact(count);
        let needed = self.end + count;
        if self.bytes.len() < needed {
            self.bytes.reserve(needed - self.bytes.len())?;
            let held = self
                .bytes
                .capacity()
                .min(needed.saturating_add(MOST_BESIDE));
            self.bytes.resize(held, 0)?;
        }
        Ok(())
    }

    /// Lends the room. What is written to its front comes with `filled`.
    pub fn room(&mut self) -> &mut [u8]
        ensures* writes { sem 𝓛 (LendsRoom self.entry result) }
        ensures room { result.now ≡ self.old.room }
    {
        self.bytes.slice_mut(self.end..)
    }

    /// The first `count` bytes of the room come, as a piece does that is fed. It takes no memory.
    pub fn filled(&mut self, count: usize)
        requires { count ≤ length self.old.room }
        ensures { self.new ≡ filled self.old count }
    {
        self.from = 0;
        self.to = 0;
        self.end += count;
    }

    // Nothing is given any more, and what was taken goes, with room that is far beyond what is asked for.
    fn compact(&mut self, asked: usize)
        ensures { self.new ≡ with_room self.old self.new.room }
    {
        self.move_up();
        self.give_back(asked);
    }

    // Once more than half of what is held was taken, what is left moves to the front. So less is moved than was taken.
    fn move_up(&mut self)
        ensures { self.new ≡ with_room self.old self.new.room }
    {
        self.from = 0;
        self.to = 0;
        if self.start == self.end {
            self.start = 0;
            self.end = 0;
        } else if self.start > self.end / 2 {
            self.bytes.drain(..self.start);
            self.end -= self.start;
            self.start = 0;
        }
    }

    // Gives back room that is far beyond what is asked for, once few bytes are left.
    fn give_back(&mut self, asked: usize)
        ensures { self.new ≡ record self.old { room = self.new.room } }
    {
        if self.end <= asked && self.bytes.capacity() / MOST_TIMES > asked {
            self.bytes.truncate(asked);
            self.bytes.shrink_to(asked);
        }
    }

    /// Gives the first `count` bytes; `gone` are no longer unread.
    pub fn give(&mut self, count: usize, gone: usize)
        requires within { gone ≤ length self.old.unread }
        requires front { count ≤ gone }
        ensures { self.new ≡ giving self.old count gone }
    {
        self.from = self.start;
        self.to = self.start + count;
        self.start += gone;
    }

    /// What was given is no longer lent.
    pub fn give_nothing(&mut self)
        ensures { self.new ≡ record self.old { given = [] } }
    {
        self.from = 0;
        self.to = 0;
    }

    /// Drops the first `count` of the unread bytes.
    pub fn skip(&mut self, count: usize)
        requires { count ≤ length self.old.unread }
        ensures { self.new ≡ skipped self.old count }
    {
        self.start += count;
    }

    /// The bytes that came and are there yet.
    pub fn unread(&self) -> &[u8]
        ensures { result.now ≡ self.now.unread }
    {
        let (held, _) = self.bytes.split_at(self.end);
        let (_, unread) = held.split_at(self.start);
        unread
    }

    /// How many bytes are unread.
    pub fn unread_len(&self) -> usize
        ensures { result ≡ length self.now.unread }
    {
        self.end - self.start
    }

    /// The bytes that were given last, until others are given, or bytes come.
    pub fn given(&self) -> &[u8]
        ensures { result.now ≡ self.now.given }
    {
        let (held, _) = self.bytes.split_at(self.end);
        &held[self.from..self.to]
    }
}
