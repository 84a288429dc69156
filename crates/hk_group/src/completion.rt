//! What is called with the answer of an update that waited.

use hk_base::{Answer, CallNo, Memory};
use hk_callback::{Completion, Delivery};

/// Tells nobody: a desk looks for its answer itself.
#[derive(Clone, Copy, Drop)]
pub(crate) struct Unheard;

impl Completion for Unheard {
    fn deliver(&self, call: CallNo, answer: &Answer) -> Result<Delivery, Memory> {
        let answer = answer.share()?;
        Ok(Delivery { call, answer })
    }
}
