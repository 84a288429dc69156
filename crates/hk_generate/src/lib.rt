//! A run that is drawn from a number, and its summary: what `hermes generate` does.
//!
//! The order of each key of that run is legal, which is a clause of [`generate_run`]; it holds for every run. The caller owes 1 to 16 nodes.
//!
//! What is proved. The run is the one of its number; where it is Done its summary was written (`done`), and whatever
//! the answer, a front of that (`front`). WriteFault comes only where the sink's faults rose (`write_fault`).
#![tactic(auto)]

mod generate;

pub use generate::generate as generate_run;
