//! Requests, heads of stores, and why a line is neither.

use crate::keys::Keys;
use hk_base::{Key, Op};
use thiserror::Error;

/// A request that is whole.
#[derive(Drop)]
pub enum Request {
    /// `get`, or `gets`, which asks for tags too.
    Get { keys: Keys, tags: bool },
    /// An update. With `noreply` nothing is written of what it is answered.
    Update { key: Key, op: Op, noreply: bool },
    Quit,
    Version,
}

/// The command of a store.
#[derive(Clone, Copy, Debug, PartialEq, Eq)]
pub enum Verb {
    /// Writes the content.
    Set,
    /// Writes it where the key's tag is the one that is given.
    Cas,
    /// Writes it where the key holds nothing.
    Add,
    /// Writes it where the key holds something.
    Replace,
}

/// The line of a store, whose block is to come.
#[derive(Drop)]
pub struct StoreHead {
    pub verb: Verb,
    pub key: Key,
    pub flags: u32,
    /// The tag of a `cas`. No other store has one.
    pub tag: Option<u64>,
    /// How long the data is, at most 1,048,576 bytes. The block has two more, which end it.
    pub bytes: u32,
    pub noreply: bool,
}

/// What a line is.
#[derive(Drop)]
pub enum Head {
    Whole(Request),
    Store(StoreHead),
}

/// Why a line is refused. It is the first fault: an unknown command, then a wrong count of words, and then the words
/// from the second on, one after the other.
#[derive(Clone, Copy, Debug, PartialEq, Eq, Error)]
pub enum RequestCause {
    /// An allocation was refused.
    #[error("no memory")]
    Memory,
    /// There is no word, or the first is no command.
    #[error("the first word is no command")]
    Unknown,
    /// A key has no byte, more than 250, or one that no key has.
    #[error("a key is none")]
    BadKey,
    /// The word at this place, the command being 1, is no number, or one that is too great for its type.
    #[error("word {word} is no number")]
    BadNumber { word: u8 },
    /// There are too few words or too many, or the word behind the last that must be there is not `noreply`.
    #[error("there are too few words or too many")]
    WrongCount,
    /// The data would be longer than 1,048,576 bytes, namely `bytes`.
    #[error("the data would have {bytes} bytes, more than 1048576")]
    TooLarge { bytes: u32 },
    /// The time of expiry is not 0.
    #[error("a time of expiry is not kept")]
    Expiry,
}

/// A refused line.
#[derive(Clone, Copy, Debug, PartialEq, Eq, Error)]
#[error("{cause}; {skip} bytes are passed over")]
pub struct RequestFault {
    pub cause: RequestCause,
    /// How many bytes come behind the line that belong to it, and are to be dropped.
    pub skip: u64,
}

/// Why a block is refused.
#[derive(Clone, Copy, Debug, PartialEq, Eq, Error)]
pub enum BlockFault {
    /// An allocation was refused.
    #[error("no memory")]
    Memory,
    /// It does not end in a carriage return and a line feed.
    #[error("the block does not end as it must")]
    BadEnd,
}
