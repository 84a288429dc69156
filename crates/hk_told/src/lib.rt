//! The laws on which the answers of desks rest: what becomes of a call that waits at a node, and how what is told of it is shown by what the node's shard
//! published.
//!
//! A desk asks an update under its shard's lock, and its call may be answered much later, in a step that a worker makes under the same lock. Who keeps a
//! shard keeps its *asks* beside it: of each the list of its key's cell has the beginning, and what follows it is as the ask was told, or that it was not.
//! [`asks_stay_held`] says that each step of the node keeps this, over any number of keys in a cell, and [`told_is_shown`] what a desk may tell by it.
//!
//! The caller publishes all rows that a step changed before it delivers the step's replies, draws a ticket above the last for each step, and makes a
//! call only under a number for which no ask is kept.
//!
//! What is proved. What becomes of a call that waits, at each key and at every step (`waiting_calls_move`). A read
//! leaves its node as it was (`reads_leave_nodes`). An event of a key changes that key's row alone
//! (`key_events_change_one_row`). What is told of an ask is shown by the list of its key's cell, for all eight
//! operations (`asks_are_shown`, `told_is_shown`), and suits it. An answer is told to its ask, or the ask is dropped
//! exactly where nobody waits for it (`Asks::deliver`, `answered`). A look takes out the ask that was told something,
//! and nothing else (`TakesOut`). `keep` that finds no memory changes nothing (`err`). That code keeps to it is proved
//! of the lock (`hk_locked`), and of posts and desks (`hk_worker`).
#![tactic(auto)]

mod ask;
mod asks;
mod laws;

pub use ask::Ask;
pub use asks::{AskState, Asks};
pub use laws::{
    asks_are_shown, asks_stay_held, key_events_change_one_row, reads_leave_nodes, told_is_shown,
    waiting_calls_move,
};
