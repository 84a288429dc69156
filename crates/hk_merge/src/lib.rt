//! The journals of all nodes as one list, with the notes of local reads in their places.
//!
//! Threads make the steps of each node under a lock, and draw a ticket for each; a local read takes no lock, and notes
//! the ticket of what it saw. Here all that is laid into one order: entries by their tickets, and each note where a
//! read under the lock would have been answered the same. That this place serves is a law, [`notes_are_kept`]. The
//! caller owes that the tickets of each journal rise.
//!
//! What is proved. `merge` gives the entries of all journals and the founded notes, those whose snapshot's entry is
//! there, in the order of their places and nothing else (`merge_is_merged`), which is one list (`merged_is_single`). A
//! note stands behind the entry of its snapshot and before each later entry of its key at its node
//! (`notes_stand_between`); a read there is answered as one directly behind that entry (`notes_are_kept`,
//! `kept_is_shown`). In a group without managers founders serve on in such a run, and no event of it is refused
//! (`serving_stays`). Tests that letters are equal tell just that (`sameness_is_equality`).
#![tactic(auto)]

mod index;
mod laws;
mod named;
mod note;
mod same;
mod slot;

pub use laws::{
    kept_is_shown, merge_is_merged, merged_is_single, notes_are_kept, notes_stand_between,
    reads_leave, reads_stand, sameness_is_equality, serving_stays,
};
pub use note::{Journals, Note, Notes};
pub use same::{same_answer, same_letter, same_letters, same_replies};
pub use slot::{Place, Slot, Slots, merge};
