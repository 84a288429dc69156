//! What may happen in a group, how a group begins, and why an event is refused: what the lines of a script say, and what a world makes.
//!
//! Which events a world refuses, and what each other one does, stands in `hk_world`. The caller owes nothing here.
#![tactic(auto)]

mod event;
mod refused;

pub use event::{Event, Header};
pub use refused::Refused;
