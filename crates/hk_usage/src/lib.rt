//! What is wrong with words that are no command, for the person who typed them.
//!
//! [`first_mistake`] finds the first word that no command could have at its place, and [`Mistake`] says in a line which one and what was wanted. Which words are a
//! command is decided by who reads them, and not here: these texts are in no contract.
#![tactic(auto)]

mod find;
mod limits;
mod mistake;

pub use find::first_mistake;
pub use limits::{Limits, limits_of};
pub use mistake::Mistake;
