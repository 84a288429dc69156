//! Stored completions: what is to be called with the answer of a call, kept until the answer is there.
//!
//! A worker keeps one for a call that it makes, by the call's number, and fires it with the reply. Each delivers its own call with the answer that was
//! fired, once: a delivery takes it out. Where delivering finds no memory it is still kept and may be fired again. A caller keeps it before it makes the
//! call, so that no reply finds none, and forgets it where the call was never made.
//!
//! What is proved. `keep` refuses exactly a second completion of one number, and gives back the one that it refuses
//! (`exact`). `fire` delivers just its call with the answer that was fired, and takes it out (`fired`, `gone`); where
//! that finds no memory it is still kept (`err`, `still_kept`). All others stay (`others`).
#![tactic(auto)]

mod callbacks;
mod completion;

pub use callbacks::{Callbacks, KeepFault};
pub use completion::{Completion, Delivery};
