//! Why a line is not read.

use thiserror::Error;

/// Why a line is not read.
#[derive(Clone, Copy, Debug, PartialEq, Eq, Error)]
pub enum LineFault {
    /// An allocation was refused.
    #[error("no memory")]
    Memory,
    /// The line is outside the grammar.
    #[error("the line is outside the grammar")]
    Bad,
}
