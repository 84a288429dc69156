//! Who carries parcels to another actor.

use hk_link::Parcel;

/// Carries parcels to one other actor, over connections. No clause says what comes of them: a parcel may always be lost.
pub trait Carrier {
    /// Sends them together. What can't be sent is lost.
    fn forward(&mut self, batch: &[Parcel]);

    /// Whether there is a connection on which the last were sent.
    fn is_connected(&self) -> bool;
}

/// What came of parcels that were to be sent without waiting.
#[derive(Clone, Copy, Debug, PartialEq, Eq)]
pub enum Prompted {
    /// They left, or are lost.
    Sent,
    /// They are on their way, but the other end could not take them all yet: whoever may wait has the rest leave by `forward`, of none or of more.
    Kept,
    /// Nothing of them was sent, since that would have waited: whoever may wait sends them by `forward`.
    Unsent,
}

/// Carries parcels without waiting, where that can be.
pub trait PromptCarrier: Carrier {
    /// Sends them together, unless that would wait.
    fn forward_now(&mut self, batch: &[Parcel]) -> Prompted;
}
