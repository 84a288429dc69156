//! A cell for a value of several words, which is read with no lock.
//!
//! It keeps the rule of `crossbeam_utils::atomic::seq_cell`, whose passes and outcomes are used here: word 0 is a
//! version, odd while a writer has the cell, and the words of the value follow. The first of these tells how many of
//! them are in use, itself counted, and no others are looked at: a store writes the words in use over those of the
//! value before, and those behind them stay; a load reads the first word and as many as it tells, all of one version.
//! Both work on the caller's words, with no copy, and a store writes only the words that differ from those that stand
//! there. A step that needs no word of the value is made by one load of the version ([`WordCell::note_as`]).
//!
//! A load that meets a writer begins again. Nothing is said of progress.
//!
//! The caller gives a rule, and for each step the outcome that it is to have under that rule.
//!
//! What is proved. The words in use that a load gives stood there together at one moment, as the front of the value at
//! which the caller's step is made (`load_as`, `HasInUse`). A store puts its words in use over the value of its moment,
//! and leaves those behind them (`store_as`, `over`). `note_as` makes a step at the value of its moment.
//!
//! What no clause says: that a load or a store ends, and which words a store leaves since they are the same already.
#![tactic(auto)]

mod cell;
mod plays;

pub use cell::{Wide, WordCell};
