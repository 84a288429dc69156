//! The run that journals and notes of local reads come to.
//!
//! Threads make the steps of each node, and keep a journal of them. Here the journals of a shard's nodes are followed
//! in one order by one world: [`assemble`] gives the run whose events are just the entries' and the notes' Reads, or
//! tells the first entry or note that no run can have. A letter is taken where an equal one was sent before: the first
//! one of them, which a map tells, so that the time grows with the entries and hardly faster. The caller owes a header
//! without managers, a journal for each of its nodes, and tickets that rise in each journal.
//!
//! What is proved (`IsAssembled`). Where [`assemble`] gives a run, its events are those of the merged list, each
//! entry's letters and answers are what that step shows, the numbers of calls aside, and each note is a Read of the run
//! with its answer. `Letter` and `Entry` name the first entry that fails, where the run has come to what stands before
//! it: `Letter` one that takes a letter which no entry of a lower ticket sent, with the least ticket at which an equal
//! one was sent, if any; `Entry` one that no such run can have, or whose step shows something else, which it carries.
//! `Note` names the first note, as they are listed, that was told something else than a Read directly behind its
//! snapshot's entry. Of one input one answer is told, but for want of memory (`answers_are_one`). `tickets_rise` is
//! true just where they do.
#![tactic(auto)]

mod assembly;
mod checking;
mod gap;
mod laws;
mod mark;
mod rising;
mod sent;
mod stepping;
mod taking;
mod whole;

pub use gap::{Gap, Given};
pub use laws::{answers_are_one, letters_stay_known};
pub use rising::tickets_rise;
pub use whole::assemble;
