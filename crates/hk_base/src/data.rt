//! The data that a key holds.

ghost use Rattle.std.specs.Prelude.{◌≡◌, IfOk, nat_eq};
ghost use Rattle.std.specs.Cmp.Lexicographic.{pointwise, nat_list_eq_equiv};
ghost use Rattle.std.specs.Cmp.{partial_equiv_from_equiv};

use crate::block::Block;
use crate::memory::Memory;
use std::alloc::Global;
use std::marker::Model;
use std::sync::{Arc, ArcSlice};
use thiserror::Error;

/// The greatest length of data, in bytes.
pub const MAX_DATA_LEN: usize = 1_048_576;

/// Why bytes are no data.
#[derive(Clone, Copy, Debug, PartialEq, Eq, Error)]
pub enum DataFault {
    /// An allocation was refused.
    #[error("no memory")]
    Memory,
    /// There are more than 1,048,576 bytes, namely `len`.
    #[error("data has {len} bytes, more than 1048576")]
    TooLarge { len: usize },
}

// How many bytes a block has room for. Their length and the count of owners take nine more, and the allocator takes the next
// multiple of 16 that leaves it eight: 32 bytes,
const TINY_LEN: usize = 15;

// 64,
const SMALL_LEN: usize = 47;

// or 128.
const MEDIUM_LEN: usize = 111;

// Where the bytes stand: in one block of memory, or in a block that a second one points to.
#[derive(Drop)]
enum Place {
    Tiny(Arc<Block<TINY_LEN>>),
    Small(Arc<Block<SMALL_LEN>>),
    Medium(Arc<Block<MEDIUM_LEN>>),
    Large(ArcSlice<u8>),
}

ghost use Rattle.hk_base.specs.DataPlace.{stored};

// The bytes at the place that their number asks for.
fn place_of(alloc: Global, bytes: &[u8]) -> Result<Place, Memory>
    ensures { IfOk result (λ place. stored place ≡ bytes.now) }
{
    let place = if bytes.len() <= TINY_LEN {
        Place::Tiny(Arc::new(alloc, Block::new(bytes))?)
    } else if bytes.len() <= SMALL_LEN {
        Place::Small(Arc::new(alloc, Block::new(bytes))?)
    } else if bytes.len() <= MEDIUM_LEN {
        Place::Medium(Arc::new(alloc, Block::new(bytes))?)
    } else {
        Place::Large(ArcSlice::from_slice(alloc, bytes)?)
    };
    Ok(place)
}

/// Data of at most 1,048,576 bytes, whatever they are. Contracts see its bytes.
#[derive(Drop)]
pub struct Data {
    place: Place,
}

impl Model for Data {
    ghost use Rattle.std.specs.Prelude.{List, ℕ};

    ghost Value = { List ℕ };

    ghost use Rattle.hk_base.specs.Key.{IsData};
    ghost use Rattle.hk_base.specs.DataPlace.{stored};

    ghost view = { λ d. stored d.place };

    ghost invariant = { λ d. IsData (stored d.place) };
}

impl PartialEq for Data {
    ghost eq = { pointwise nat_eq };

    ghost laws = { partial_equiv_from_equiv nat_list_eq_equiv };

    fn eq(&self, other: &Data) -> bool {
        self.bytes() == other.bytes()
    }
}

impl Eq for Data {
    ghost laws = { nat_list_eq_equiv };
}

impl Data {
    ghost use Rattle.hk_base.specs.Key.{IsData};
    ghost use Rattle.hk_base.specs.KeyFaults.{IsDataRead};

    /// Makes data of the bytes, which are copied once.
    pub fn read(alloc: Global, bytes: &[u8]) -> Result<Data, DataFault>
        ensures exact { IsDataRead result bytes.now }
    {
        if bytes.len() > MAX_DATA_LEN {
            return Err(DataFault::TooLarge { len: bytes.len() });
        }
        match place_of(alloc, bytes) {
            Ok(place) => Ok(Data { place }),
            Err(_) => Err(DataFault::Memory),
        }
    }

    /// The bytes.
    pub fn bytes(&self) -> &[u8]
        ensures same { result.now ≡ self.now }
        ensures data { IsData self.now }
    {
        match &self.place {
            Place::Tiny(block) => block.as_slice(),
            Place::Small(block) => block.as_slice(),
            Place::Medium(block) => block.as_slice(),
            Place::Large(bytes) => bytes.as_slice(),
        }
    }

    /// The same data, which shares the bytes.
    pub fn share(&self) -> Result<Data, Memory>
        ensures { IfOk result (λ d. d ≡ self.now) }
    {
        let place = match &self.place {
            Place::Tiny(block) => Place::Tiny(block.clone()?),
            Place::Small(block) => Place::Small(block.clone()?),
            Place::Medium(block) => Place::Medium(block.clone()?),
            Place::Large(bytes) => Place::Large(bytes.clone()?),
        };
        Ok(Data { place })
    }
}
