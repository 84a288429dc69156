//! What a batch is.

use hk_base::CopyItems;

/// How many bytes the keys and data of one batch have at most. One item never has more.
pub const MAX_BATCH_BYTES: usize = 2_097_152;

/// The next rows of a copy.
#[derive(Drop)]
pub struct Batch {
    pub items: CopyItems,
    /// Whether there are no rows behind these.
    pub done: bool,
}
