//! The cutter.

ghost use Rattle.std.specs.Borrow.{sem};
ghost use Rattle.std.specs.Prelude.{◌≡◌, ◌≢◌, ◌+◌, ◌<◌, ◌≤◌, ◌^◌, [], length, take, drop, nat_le, None, OnOk, OnErr, IfOk, IfSome};
ghost use Rattle.hk_lines.specs.Cut.{line_end, fed, with_room, filled, skipped, expecting, stepped, line_step, block_step, giving};
ghost use Rattle.hk_lines.specs.Lending.{LendsRoom};
ghost use Rattle.hk_lines.specs.declared.due.Due.TheVariants as due;

use crate::due::Due;
use crate::step::Step;
use hk_base::Memory;
use hk_buffer::Buffer;
use memchr::memchr;
use std::alloc::Global;
use std::marker::Model;

/// Holds the bytes that came and were not given yet, in one buffer, and knows what is due of them: a line, or a block
/// of a count that was told. No line is longer than the limit: after one that is, the cutter tells `TooLong` for ever.
///
/// Bytes come by `feed`, which copies them, or are written into the cutter's own room: `make_room`, then `room` lends
/// it, then `filled`.
#[derive(Drop)]
pub struct Cutter {
    buffer: Buffer,
    // no line ends in so many of the unread bytes
    searched: usize,
    // how many of the bytes to come are dropped
    dropping: u64,
    limit: usize,
    due: Due,
}

impl Model for Cutter {
    ghost use Rattle.std.specs.Prelude.{◌≡◌, ◌<◌, []};
    ghost use Rattle.hk_lines.specs.Cut.{Cutting};
    ghost use Rattle.hk_lines.specs.Searched.{IsSearched};

    ghost Value = { Cutting };

    ghost view = { λ c. record { unread = c.buffer.unread; dropping = c.dropping; limit = c.limit; due = c.due; given = c.buffer.given; room = c.buffer.room } };

    ghost invariant = { λ c. (0 < c.dropping → c.buffer.unread ≡ []) × IsSearched c.searched c.limit c.buffer.unread };
}

impl Cutter {
    /// Nothing came yet, and a line is due, of at most `limit` bytes.
    pub fn new(alloc: Global, limit: usize) -> Result<Cutter, Memory>
        ensures { IfOk result (λ c. c ≡ record { unread = []; dropping = 0; limit = limit; due = due.Line; given = []; room = [] }) }
    {
        Ok(Cutter {
            buffer: Buffer::new(alloc),
            searched: 0,
            dropping: 0,
            limit,
            due: Due::Line,
        })
    }

    /// The piece comes behind what is there. After an `Err` all is as it was, but that `given` and the room are empty.
    ///
    /// Each byte is copied into the buffer once, and moved within it at most once on average.
    pub fn feed(&mut self, piece: &[u8]) -> Result<(), Memory>
        ensures ok { OnOk result (self.new ≡ fed self.old piece.now) }
        ensures err { OnErr result (self.new ≡ with_room self.old []) }
    {
        self.buffer.feed(kept_of(piece, self.dropping))?;
        self.dropping = self.dropping.saturating_sub(piece.len() as u64);
        Ok(())
    }

    /// Makes room for at least `count` bytes, so that they can be read into the cutter with nothing between. After an
    /// `Err` there may be less room. `given` is empty afterwards.
    pub fn make_room(&mut self, count: usize) -> Result<(), Memory>
        requires { count < 2 ^ 63 }
        ensures same { self.new ≡ with_room self.old self.new.room }
        ensures enough { OnOk result (count ≤ length self.new.room) }
    {
        self.buffer.make_room(count)
    }

    /// Lends the room. What is written to its front comes with `filled`.
    pub fn room(&mut self) -> &mut [u8]
        ensures* writes { sem 𝓛 (LendsRoom self.entry result) }
        ensures room { result.now ≡ self.old.room }
    {
        self.buffer.room()
    }

    /// The first `count` bytes of the room come, as a piece does that is fed. It takes no memory.
    pub fn filled(&mut self, count: usize)
        requires { count ≤ length self.old.room }
        ensures { self.new ≡ filled self.old count }
    {
        let dropped = self.dropping.min(count as u64);
        self.buffer.filled(count);
        self.buffer.skip(dropped as usize);
        self.dropping -= dropped;
    }

    /// What is due next is a block of `count` bytes and the two that end it, unless a line was too long. It takes no
    /// memory.
    pub fn expect_block(&mut self, count: u32)
        ensures { self.new ≡ expecting self.old count }
    {
        match self.due {
            Due::Line | Due::Block(_) => self.due = Due::Block(count),
            Due::Nothing => {}
        }
    }

    /// Drops the next `count` bytes, those that are there and, where they are too few, those that come. What is still
    /// to be dropped stays below 2^64. It takes no memory.
    pub fn skip(&mut self, count: u64)
        requires { self.old.dropping + count < 2 ^ 64 }
        ensures { self.new ≡ skipped self.old count }
    {
        self.searched = 0;
        let held = self.buffer.unread_len();
        let unread = held as u64;
        if count <= unread {
            self.buffer.skip(count as usize);
        } else {
            self.buffer.skip(held);
            self.dropping += count - unread;
        }
    }

    /// The next step. `given` then lends the bytes of a line or a block, and nothing where none was given.
    /// It takes no memory.
    #[tactic(auto, unfolding(crate::specs::Cut::stepped))]
    pub fn next(&mut self) -> Step
        ensures step { result ≡ (stepped self.old).step }
        ensures rest { self.new ≡ (stepped self.old).rest }
        ensures free { 0 < self.new.dropping → self.new.unread ≡ [] }
        ensures none_dropped { result ≢ Step.Need → result ≢ Step.TooLong → self.new.dropping ≡ 0 }
    {
        match self.due {
            Due::Line => self.next_line(),
            Due::Block(count) => self.next_block(count as usize),
            Due::Nothing => {
                self.buffer.give_nothing();
                Step::TooLong
            }
        }
    }

    fn next_line(&mut self) -> Step
        ensures step { result ≡ (line_step self.old (line_end (take (self.old.limit + 2) self.old.unread))).step }
        ensures rest { self.new ≡ (line_step self.old (line_end (take (self.old.limit + 2) self.old.unread))).rest }
    {
        match self.ends() {
            Some(end) => {
                self.give(end, end + 2);
                Step::Line
            }
            None => {
                self.buffer.give_nothing();
                if self.is_long() {
                    self.due = Due::Nothing;
                    Step::TooLong
                } else {
                    Step::Need
                }
            }
        }
    }

    fn next_block(&mut self, count: usize) -> Step
        requires { count < 2 ^ 32 }
        ensures step { result ≡ (block_step self.old count).step }
        ensures rest { self.new ≡ (block_step self.old count).rest }
    {
        if self.buffer.unread_len() < count + 2 {
            self.buffer.give_nothing();
            return Step::Need;
        }
        self.give(count + 2, count + 2);
        Step::Block
    }

    // Where the line ends, if it does within the limit. What was searched before is not searched again.
    fn ends(&mut self) -> Option<usize>
        ensures same { self.new ≡ self.old }
        ensures end { result ≡ line_end (take (self.old.limit + 2) self.old.unread) }
        ensures within { IfSome result (λ n. n + 2 ≤ length self.old.unread) }
        ensures fits { IfSome result (λ n. n + 2 < 2 ^ 64) }
    {
        if self.buffer.unread_len() == 0 {
            return None;
        }
        let end = line_end(self.window(), self.searched);
        if end.is_none() {
            self.searched = self.window().len();
        }
        end
    }

    // The bytes in which a line that is due must end.
    fn window(&self) -> &[u8]
        ensures { result.now ≡ take (self.now.limit + 2) self.now.unread }
    {
        let unread = self.buffer.unread();
        let (window, _) = unread.split_at(unread.len().min(self.limit.saturating_add(2)));
        window
    }

    // Whether so many bytes are there that a line of the limit's length would have ended.
    fn is_long(&self) -> bool
        ensures { result ≡ nat_le (self.now.limit + 2) (length self.now.unread) }
    {
        let held = self.buffer.unread_len();
        held >= self.limit && held - self.limit >= 2
    }

    // Gives the first `count` bytes; `gone` are no longer unread.
    fn give(&mut self, count: usize, gone: usize)
        requires within { gone ≤ length self.old.unread }
        requires front { count ≤ gone }
        ensures { self.new ≡ giving self.old count gone }
    {
        self.buffer.give(count, gone);
        self.searched = 0;
        self.due = Due::Line;
    }

    /// The bytes of the line or block that the last step gave, until the next call of `next`, or until bytes come.
    pub fn given(&self) -> &[u8]
        ensures { result.now ≡ self.now.given }
    {
        self.buffer.given()
    }
}

// What of the piece is kept, where `dropping` bytes are dropped.
fn kept_of(piece: &[u8], dropping: u64) -> &[u8]
    ensures { result.now ≡ drop dropping piece.now }
{
    if dropping >= piece.len() as u64 {
        return &[];
    }
    &piece[dropping as usize..]
}

// How many bytes stand before the first carriage return that a line feed follows. No line ends in the first `searched`
// bytes, so they are not searched again, but for the last, which may be that carriage return.
fn line_end(bytes: &[u8], searched: usize) -> Option<usize>
    requires there { searched ≤ length bytes.now }
    requires none { line_end (take searched bytes.now) ≡ None }
    ensures end { result ≡ line_end bytes.now }
    ensures within { IfSome result (λ n. n + 2 ≤ length bytes.now) }
{
    let mut at = searched.saturating_sub(1);
    loop {
        let (_, rest) = bytes.split_at(at);
        let Some(feed) = memchr(b'\n', rest) else {
            return None;
        };
        if feed > 0 && rest[feed - 1] == b'\r' {
            return Some(at + feed - 1);
        }
        at += feed + 1;
    }
}
