//! Times, which are in milliseconds.

/// The greatest time: of a clock, of a lease's end or length, and of a skew.
pub const MAX_TIME: u64 = 1_000_000_000_000;
