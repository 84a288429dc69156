//! What journals and notes come to, worked by hand: two short journals and a note, their merge, the run that is
//! assembled of them, and what a storm of these two calls tells.
//!
//! In a group of two nodes the first one is asked to write a key, the second one acknowledges the update, and is
//! asked to read the key then, without its lock. Each has a journal of two entries, and the read has a note.
//!
//! The crate has laws alone, of the definitions of `hk_merge`, `hk_assemble` and `hk_storm`: what they say of this
//! group stands here as values.
//!
//! What is proved. `two_journals_are_merged`: the merged list is the four entries by their tickets, and the note
//! behind them; and where the second node writes the key next, the note stands before that entry, though the reader
//! drew its own ticket later. `their_run_is_assembled`: the run is the write, the taking of three letters and the
//! read; where the letter was never sent, or was sent at a later ticket, the journals come to none because of that
//! letter (`Gap::Letter`); where the note tells another answer they come to none because of the note (`Gap::Note`).
//! `a_storm_of_two_calls_is_told`: a storm that draws these two calls tells of these journals that two were
//! answered, and where the note is missing that the second call was made no time.
#![tactic(auto)]

mod laws;

pub use laws::{a_storm_of_two_calls_is_told, their_run_is_assembled, two_journals_are_merged};
