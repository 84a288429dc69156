//! Want of memory.

use std::alloc::{AllocError, AllocFailed};
use thiserror::Error;

/// An allocation was refused. It is the one answer that no clause explains: a call may give it whenever it
/// allocates, and leaves its receiver as it was.
#[derive(Clone, Copy, Debug, PartialEq, Eq, Error)]
#[error("no memory")]
pub struct Memory;

impl From<AllocError> for Memory {
    fn from(_error: AllocError) -> Memory {
        Memory
    }
}

impl<T: Drop> From<AllocFailed<T>> for Memory {
    fn from(_error: AllocFailed<T>) -> Memory {
        Memory
    }
}
