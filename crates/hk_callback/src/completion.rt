//! What is called with an answer.

ghost use Rattle.std.specs.Prelude.{◌≡◌, IfOk};

use hk_base::{Answer, CallNo, Memory};

/// A call with its answer, handed to whoever waits for it.
#[derive(PartialEq, Eq, Drop)]
pub struct Delivery {
    pub call: CallNo,
    pub answer: Answer,
}

/// What is called with the answer of a call. It may be called on every number and every answer, and delivers just these two.
pub trait Completion {
    /// Delivers the answer of the call.
    fn deliver(&self, call: CallNo, answer: &Answer) -> Result<Delivery, Memory>
        ensures { IfOk result (λ delivery. delivery ≡ record { call = call; answer = answer.now }) };
}
