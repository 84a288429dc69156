//! What an operation comes to.

use hk_base::{Answer, Content};

/// What an operation does to a register.
#[derive(PartialEq, Eq, Drop)]
pub enum Turn {
    /// The register takes this content, also where it is equal to the old one, or holds nothing from now on.
    Change {
        content: Option<Content>,
        answer: Answer,
    },
    /// The register stays as it is.
    Stay(Answer),
}
