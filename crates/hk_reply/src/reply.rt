//! Replies.

use hk_base::{Data, Key, Sequence};

/// A value that was found.
#[derive(Drop)]
pub struct Item {
    pub key: Key,
    pub flags: u32,
    pub bytes: Data,
    /// The tag, memcached's cas unique. It is written in replies to `gets` alone.
    pub tag: u64,
}

/// The values of one reply, in the order of the request's keys.
pub type ValueItems = Sequence<Item>;

/// What was wrong with a request.
#[derive(Clone, Copy, Debug, PartialEq, Eq)]
pub enum ClientText {
    BadKey,
    BadNumber,
    /// A block does not end as it must.
    BadChunk,
    /// The data that an incr or decr found is no number.
    NotNumber,
    /// The line is too long. The connection ends.
    TooLong,
}

/// Why a request was not carried out.
#[derive(Clone, Copy, Debug, PartialEq, Eq)]
pub enum ServerText {
    /// The data would be too long.
    TooLarge,
    /// A time of expiry was given, and none is kept.
    Expiry,
    /// The key was busy each time that it was asked.
    Busy,
    /// The update was given up. It may take effect yet.
    Aborted,
    /// It is not known whether the update takes effect.
    Unknown,
    /// There are no more numbers for calls.
    Spent,
    /// The key's version can't be raised.
    VersionLimit,
    /// An allocation was refused.
    Memory,
}

/// What a request is answered.
#[derive(Drop)]
pub enum Reply {
    /// The values that a get found, with their tags where it was a `gets`.
    Values { items: ValueItems, tags: bool },
    Stored,
    Exists,
    NotFound,
    NotStored,
    Deleted,
    /// What an incr or decr left.
    Number(u64),
    /// The line is no request.
    Error,
    ClientError(ClientText),
    ServerError(ServerText),
    Version,
}
