//! That every letter which was ever sent in a world is in range whole: what `hk_sent` says of each step of a node and a manager, said of
//! runs of `hk_world`, whatever their events.
//!
//! The law is `worlds_send_in_range`.
#![tactic(auto)]

mod laws;

pub use laws::worlds_send_in_range;
