//! One key at one node: its row, and what each event makes of it.
//!
//! The replication protocol follows Hermes (Katsarakis and others, "Hermes: a fast, fault-tolerant and linearizable
//! replication protocol", ASPLOS 2020). An update goes by three letters. Its coordinator announces it with INV, by which
//! the others make their rows Invalid and take the content; they answer ACK; once each of them has, the coordinator
//! answers its client and tells VAL, by which the rows become Valid again. Any node that holds an Invalid row may replay
//! its update in the same way, so that a coordinator that crashed holds up no key.
//!
//! What each step does is a table, `specs/Table.antt`: a clause for each line. Each method of [`Row`] is held to its
//! line, in full: the row afterwards, what is sent and to whom, and what is answered.
//!
//! What is proved. Of the steps `begin` and `replay` alone take memory, and leave the row as it was where they find
//! none (`err`). A row becomes Valid by completion only where it still has the update's stamp and every other member
//! acknowledged that very stamp, or where a VAL of the row's stamp came while its own write waited. Every step keeps a
//! sound row sound (`rows_stay_sound`). A stamp never falls (`stamps_never_fall`). A call that waits is answered once
//! or waits on, and what is answered was waited for (`calls_wait_or_are_answered`, `answers_were_waited_for`).
//! `is_same` tells whether a step changed a row, with no look at its contents (`same_rows_are_unchanged`). Rows worked
//! by hand are computed from the table (`worked_rows`).
#![tactic(auto)]

mod acks;
mod boxed;
mod copy;
mod laws;
mod out;
mod row;
mod same;

pub use acks::{Ack, Acks, MAX_ACKS};
pub use boxed::{BoxedPending, BoxedRow};
pub use laws::{
    answers_were_waited_for, calls_wait_or_are_answered, rows_stay_sound, same_rows_are_unchanged,
    stamps_never_fall, worked_rows,
};
pub use out::{Aim, Out, Sending, What};
pub use row::{Pending, Row};
