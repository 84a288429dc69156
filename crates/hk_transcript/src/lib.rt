//! The lines of a transcript that tell what an event showed: the call, the view, the letters and the replies, or why it was refused.
//!
//! `specs/Text.antt` says how each thing is written. What is written is appended; where memory ends, a part of it may be there. The caller owes nothing.
#![tactic(auto)]

mod answers;
mod letters;
mod lines;
mod parts;
mod views;

pub use answers::put_answer;
pub use letters::put_letters;
pub use lines::{put_call, put_end, put_refused, put_replies, put_view_line};
pub use parts::put_named;
