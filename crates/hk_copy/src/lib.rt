//! Batches of rows, by which a joiner copies the store of a member.
//!
//! A joiner asks for the rows behind a key, some at a time. It is given the next rows in the order of their keys, as many
//! as were asked for, as fit in 2 MiB, or as there are, and whether there are none behind them. So it goes through all
//! rows by asking again behind the last key that it was given (`batches_give_all`). `Rows` is what batches are made of, and
//! `MemoryRows` is rows that stand in memory.
//!
//! What is proved. `batch` gives exactly those rows (`items`), and is done exactly where none is left (`done`). What is
//! taken and what is left are the whole (`whole`); the first row always fits, so a batch is empty only where none is
//! left (`first`); what is left lies behind the last row that was taken (`behind`). `MemoryRows::push` refuses exactly
//! a row that is not behind the last one, and where it refuses or finds no memory the rows are as they were (`told`,
//! `err`).
#![tactic(auto)]

mod copying;
mod given;
mod laws;
mod memory;
mod rows;

pub use copying::batch;
pub use given::{Batch, MAX_BATCH_BYTES};
pub use laws::batches_give_all;
pub use memory::{MemoryRows, PushFault};
pub use rows::Rows;
