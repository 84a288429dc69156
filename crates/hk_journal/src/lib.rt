//! The journal of a node: what happened at it, each step with the letters and replies that it gave.
//!
//! Every step of a node is a function of the node and the event, so a journal and the node at its beginning, its *base*, tell the
//! node at its end: the *replay*. They tell too which rows each step changed, and so all that is shown of the node to others while
//! it steps, in the same order. Entries have *tickets*, numbers that rise, by which the journals of several nodes are merged.
//! Nothing here knows of threads, locks or cells: who keeps a journal makes one entry for each step, with a greater ticket.
//!
//! What is proved. Replays of journals behind each other are one replay, and so is what they publish
//! (`journals_are_joined`). The rows that differ between the nodes before and after a step are those that its report
//! names (`changed_rows_are_reported`).
#![tactic(auto)]

mod laws;
mod step_entry;

pub use laws::{changed_rows_are_reported, journals_are_joined};
pub use step_entry::{Journal, JournalEntry, entry, share_journal};
