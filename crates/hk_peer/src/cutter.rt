//! The cutter.

ghost use Rattle.std.specs.Borrow.{sem};
ghost use Rattle.std.specs.Prelude.{◌≡◌, ◌++◌, ◌<◌, ◌≤◌, ◌^◌, [], length, drop, true, Some, None, Ok, Err, OnOk, OnErr, IfOk, IfSome};
ghost use Rattle.hk_frame.specs.Told.{frame_at};
ghost use Rattle.hk_frame.specs.declared.fault.FrameFault.TheVariants as faults;
ghost use Rattle.hk_peer.specs.Cut.{IsPart, IsBad, fed, with_room, filled, Steps};
ghost use Rattle.hk_peer.specs.Lending.{LendsRoom};
ghost use Rattle.hk_peer.specs.declared.step.PeerStep.TheVariants as step;

use crate::step::PeerStep;
use hk_base::Memory;
use hk_buffer::Buffer;
use hk_frame::{FrameFault, read_letter};
use hk_link::Parcel;
use std::alloc::Global;
use std::marker::Model;

// How many bytes a frame's length takes. Before they are there, nothing is read.
const HEAD: usize = 4;

/// Holds the bytes that came and were not given yet, in one buffer. A frame is looked at when its length is there, and once more when all of it is there: so one
/// that comes byte by byte costs no more than one that comes whole.
///
/// Bytes come by `feed`, which copies them, or are written into the cutter's own room: `make_room`, then `room` lends it, then `filled`.
#[derive(Drop)]
pub struct PeerCutter {
    buffer: Buffer,
    // before so many bytes are unread no frame is whole
    wanted: usize,
    // the fault that was told
    fault: Option<FrameFault>,
}

impl Model for PeerCutter {
    ghost use Rattle.std.specs.Prelude.{IfSome};
    ghost use Rattle.hk_peer.specs.Cut.{Cutting, IsWanted, IsBad};

    ghost Value = { Cutting };

    ghost view = { λ c. record { unread = c.buffer.unread; fault = c.fault; room = c.buffer.room } };

    ghost invariant = { λ c. IsWanted c.wanted c.buffer.unread × IfSome c.fault (λ fault. IsBad fault c.buffer.unread) };
}

impl PeerCutter {
    /// Nothing came yet.
    pub fn new(alloc: Global) -> Result<PeerCutter, Memory>
        ensures { IfOk result (λ c. c ≡ record { unread = []; fault = None; room = [] }) }
    {
        Ok(PeerCutter {
            buffer: Buffer::new(alloc),
            wanted: HEAD,
            fault: None,
        })
    }

    /// The piece comes behind what is there. After an `Err` all is as it was, but that the room is empty.
    ///
    /// Each byte is copied into the buffer once, and moved within it at most once on average.
    pub fn feed(&mut self, piece: &[u8]) -> Result<(), Memory>
        ensures ok { OnOk result (self.new ≡ fed self.old piece.now) }
        ensures err { OnErr result (self.new ≡ with_room self.old []) }
    {
        self.buffer.feed(piece)
    }

    /// Makes room for at least `count` bytes, so that they can be read into the cutter with nothing between. After an `Err` there may be less room.
    pub fn make_room(&mut self, count: usize) -> Result<(), Memory>
        requires { count < 2 ^ 63 }
        ensures same { self.new ≡ with_room self.old self.new.room }
        ensures enough { OnOk result (count ≤ length self.new.room) }
    {
        self.buffer.make_room(count)
    }

    /// Lends the room. What is written to its front comes with `filled`.
    pub fn room(&mut self) -> &mut [u8]
        ensures* writes { sem 𝓛 (LendsRoom self.entry result) }
        ensures room { result.now ≡ self.old.room }
    {
        self.buffer.room()
    }

    /// The first `count` bytes of the room come, as a piece does that is fed. It takes no memory.
    pub fn filled(&mut self, count: usize)
        requires { count ≤ length self.old.room }
        ensures { self.new ≡ filled self.old count }
    {
        self.buffer.filled(count);
    }

    /// The next step. Keys and data of a letter are copied once. A fault that was told is told for ever. After an `Err` all is as it was.
    pub fn next(&mut self, alloc: Global) -> Result<PeerStep, Memory>
        ensures step { Steps result self.old self.new }
        ensures stays { IfSome self.old.fault (λ fault. result ≡ Ok (step.Bad fault)) }
    {
        if let Some(fault) = self.fault {
            return Ok(PeerStep::Bad(fault));
        }
        self.next_frame(alloc)
    }

    fn next_frame(&mut self, alloc: Global) -> Result<PeerStep, Memory>
        requires { self.old.fault ≡ None }
        ensures { Steps result self.old self.new }
    {
        if self.is_part() {
            return Ok(PeerStep::Need);
        }
        match read_letter(alloc, self.buffer.unread()) {
            Ok((shard, letter, length)) => {
                self.give(length);
                Ok(PeerStep::Parcel(Parcel { shard, letter }))
            }
            Err(FrameFault::Memory) => Err(Memory),
            Err(FrameFault::Short { wanted }) => {
                self.want(wanted);
                Ok(PeerStep::Need)
            }
            Err(fault) => {
                self.keep_fault(fault);
                Ok(PeerStep::Bad(fault))
            }
        }
    }

    // Whether too few bytes are there for a frame.
    fn is_part(&self) -> bool
        ensures { result ≡ true → IsPart self.now.unread }
    {
        self.buffer.unread_len() < self.wanted
    }

    // The first `count` bytes are given.
    fn give(&mut self, count: usize)
        requires there { count ≤ length self.old.unread }
        requires none { self.old.fault ≡ None }
        ensures { self.new ≡ record self.old { unread = drop count self.old.unread } }
    {
        self.buffer.skip(count);
        self.wanted = HEAD;
    }

    // So many bytes are needed.
    fn want(&mut self, wanted: usize)
        requires { frame_at self.old.unread ≡ Err (faults.Short wanted) }
        ensures { self.new ≡ self.old }
    {
        self.wanted = wanted;
    }

    fn keep_fault(&mut self, fault: FrameFault)
        requires { IsBad fault self.old.unread }
        ensures { self.new ≡ record self.old { fault = Some fault } }
    {
        self.fault = Some(fault);
    }
}
