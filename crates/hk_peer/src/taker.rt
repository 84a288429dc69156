//! Who takes what a connection brought.

/// Takes from a link in the thread that puts into it.
pub trait Taker {
    /// Takes all that was put so far. It is called where the link is full, and behind each read.
    fn take(&mut self);
}

/// Takes nothing: other threads do, which the link's bell wakes.
#[derive(Clone, Copy, Debug, PartialEq, Eq)]
pub struct Elsewhere;

impl Taker for Elsewhere {
    fn take(&mut self) {}
}
