//! What a cutter is to give.

/// What is due of the bytes that come.
#[derive(Clone, Copy, Debug, PartialEq, Eq)]
pub enum Due {
    /// A line.
    Line,
    /// A block of so many bytes, and the two that end it.
    Block(u32),
    /// Nothing any more: a line was too long.
    Nothing,
}
