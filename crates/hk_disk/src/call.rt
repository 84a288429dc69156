//! Calls of a file.

// A call of a file, as it ended.
#[derive(Clone, Copy, Debug)]
pub enum FileCall {
    // All of its bytes were read.
    Read,
    // It was cut to so many bytes, or is about to be.
    Cut { len: usize },
    // Bytes were appended.
    Append,
    // It was synced.
    Sync,
    // A call failed.
    Fail,
}
