//! Which keys of a shard are due for a resend or a replay.
//!
//! A row that is not Valid waits for letters that may be lost, so its update is sent again now and then. To find such rows a worker looks at no row: it keeps
//! the keys of the open ones ([`OpenKeys`]), each with the ticket of the step since which it is open, by what each step reports to have changed. A key is due
//! only where it was open at some earlier ticket, which the worker chooses: else what is on its way would be sent again at once. What is to be sent again
//! of it its row tells ([`Due`]). Of a key for which someone waits that is told at once ([`due_of_key`]).
//!
//! The caller tells of each step of the shard's node which rows it changed, and which of these are open then, in the order of the steps' tickets
//! ([`OpenKeys::note`]).
//!
//! What is proved. Where none was missed for want of memory, the keys that are kept are just those of the open rows,
//! and a key that stays open keeps its ticket (`steps_keep_the_open_keys`). `is_open` tells of each row whether it is
//! open. `next_due` finds exactly the least key behind one that is open since a step up to a ticket, without a look at
//! a row. What is to be sent again is its pending update, or else, where it is Invalid, the update that made it so
//! (`due`, by a look at that row), and so of a key that is named, where its row is open (`due_of_key`). Where a key was
//! missed, `due` takes the least open row, since whatever step.
#![tactic(auto)]

mod due;
mod keys;
mod laws;

pub use due::{Due, due_of_key};
pub use keys::OpenKeys;
pub use laws::steps_keep_the_open_keys;
