//! What a cutter gives.

/// What is next of the bytes.
#[derive(Clone, Copy, Debug, PartialEq, Eq)]
pub enum Step {
    /// A line. `Cutter::given` lends its bytes, without the two that end it.
    Line,
    /// The block that was expected. `Cutter::given` lends its bytes, the last two among them.
    Block,
    /// What is due is not there yet.
    Need,
    /// A line is due, and it is longer than the limit. It stays so, whatever comes and whatever is called.
    TooLong,
}
