//! What a cell shows of a row.

use hk_base::{Content, Key, Stamp, State};

/// The greatest length of data that a cell shows, in bytes.
pub const MAX_SMALL_LEN: usize = 1_000;

/// What a row holds, as far as a cell shows it.
#[derive(Drop)]
pub enum Shape {
    /// A content with at most 1,000 bytes of data.
    Small(Content),
    /// A content with more than 1,000 bytes of data, which is not shown.
    Large,
    /// Nothing.
    Missing,
}

/// A published row, as far as a cell shows it.
#[derive(Drop)]
pub struct Snapshot {
    pub key: Key,
    pub state: State,
    pub stamp: Stamp,
    /// The number of the step that changed the row. In one cell tickets never fall.
    pub ticket: u64,
    pub shape: Shape,
}

/// What a cell shows of a row beside its key and its content.
#[derive(Clone, Copy, Debug, PartialEq, Eq)]
pub struct Glance {
    pub state: State,
    pub stamp: Stamp,
    /// The row holds more than 1,000 bytes of data, which are not shown.
    pub is_large: bool,
}
