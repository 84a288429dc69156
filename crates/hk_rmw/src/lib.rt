//! One operation on a register: what it answers, and what the register holds afterwards.
//!
//! [`turn`] is the definition `act` of `hk_base`, for each operation on each register. Every replica does with an
//! operation what it says. It knows no stamps: a change takes whatever tag its caller gives it.
#![tactic(auto)]

mod number;
mod outcome;
mod register;

pub use outcome::Turn;
pub use register::turn;
