//! What a client says.

use hk_request::{Request, RequestCause};

/// One thing that a client says.
#[derive(Drop)]
pub enum Said {
    /// A request, other than to quit.
    Asked(Request),
    /// A line that is no request. A block that belongs to it is passed over.
    Refused(RequestCause),
    /// A store whose block does not end as it must.
    BadEnd { noreply: bool },
    /// A line that is too long. Nothing is read behind it.
    LongLine,
    /// A quit. Nothing is read behind it.
    Left,
}

/// What a turn of the reader gave.
#[derive(Drop)]
pub enum ReaderStep {
    Says(Said),
    /// The line of a store, whose block is due now.
    Head,
    /// Nothing, before more bytes come.
    Need,
}

/// Why no more is answered for now.
#[derive(Clone, Copy, Debug, PartialEq, Eq)]
pub enum Stop {
    /// All that was said is answered.
    Need,
    /// So much was answered that it is written first.
    Full,
    Quit,
    TooLong,
}
