//! The limits of a frame's length.

/// The least length of what follows a frame's length.
pub const MIN_LENGTH: u32 = 16;

/// The greatest one.
pub const MAX_LENGTH: u32 = 2_200_000;
