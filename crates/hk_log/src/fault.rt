//! What can be wrong with a log, and with a record.

use thiserror::Error;

/// Why a log is not read.
#[derive(Clone, Copy, Debug, PartialEq, Eq, Error)]
pub enum LogFault {
    /// An allocation was refused.
    #[error("no memory")]
    Memory,
    /// The bytes from this place on, counted from 0 at the file's first byte, are no record, and no front of one that
    /// was being written.
    #[error("damaged at byte {at}")]
    Damaged { at: usize },
}

/// Why entries make no record.
#[derive(Clone, Copy, Debug, PartialEq, Eq, Error)]
pub enum RecordFault {
    /// An allocation was refused.
    #[error("no memory")]
    Memory,
    /// The entries take more than 1,048,576 bytes.
    #[error("the record is too long")]
    TooLong,
}
