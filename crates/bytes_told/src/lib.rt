//! What the programs share that read bytes from anyone and tell what the readers of this repository make of them: inputs, and the words
//! of answers. `checks/bytes` draws the inputs and compares the answers with those of readers of its own.
//!
//! An input is a line, `KIND LENGTH`, then so many bytes and a line feed. An answer is a line of words, which one space parts.
//! Bytes are told by two hexadecimal digits each, and by `-` where there is none.
#![tactic(auto)]

mod answer;
mod input;
mod told;

pub use answer::{put, put_bytes, put_flag, put_number, put_op, put_stamp};
pub use input::{Input, next_input};
pub use told::{Teller, tell_all};
