//! Why bytes are no frame.

use thiserror::Error;

/// The first fault of some bytes that begin with no frame.
#[derive(Clone, Copy, Debug, PartialEq, Eq, Error)]
pub enum FrameFault {
    /// An allocation was refused.
    #[error("no memory")]
    Memory,
    /// The bytes end within the frame: `wanted` bytes are needed, 4 for its length and, once that is known, all that
    /// it tells. Nothing but the length was looked at.
    #[error("{wanted} bytes are wanted")]
    Short { wanted: usize },
    /// No letter has this kind; kinds are 1 to 13.
    #[error("no letter has kind {kind}")]
    BadKind { kind: u8 },
    /// The length of what follows, as the frame tells it: it is below 16 or above 2,200,000, or a field passes the
    /// frame's end, or bytes are left over behind the last field.
    #[error("no frame has length {length}")]
    BadLength { length: u32 },
    /// The value of the field at place `at`, counted from 0 at the frame's first byte, is out of range. Of a key it is
    /// the place of its length, or of the first byte that no key has.
    #[error("the field at {at} is out of range")]
    BadField { at: usize },
}

/// Why reading fields stops.
#[derive(Clone, Copy, Debug, PartialEq, Eq)]
pub enum Stop {
    /// An allocation was refused.
    Memory,
    /// No letter has this kind.
    Kind { kind: u8 },
    /// A field passes the end, or bytes are left over.
    Length,
    /// The field that has `left` bytes from its first one on is out of range.
    Field { left: usize },
}
