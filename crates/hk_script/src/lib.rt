//! The lines of a script: the header of a group, and the events of its world.
//!
//! Each event has one line, `specs/Grammar.antt`, and each line is one event's or none. So a line is read exactly: as the event
//! whose line it is, or as Bad; and what is printed is read again. The words of a line are printed one at a time by [`put_text`],
//! [`put_number`], [`put_word`] and [`put_actor`].
//!
//! What is proved. `read_event` and `read_header` give exactly the event or header whose line it is, and Bad exactly
//! where it is none's (`IsEventRead`, `exact`). `print_event` and `print_header` append that one line; what they leave
//! after want of memory is not said. No line is two events' or two headers' (`lines_are_one`). `Generator` and
//! `AskGenerator` draw exactly what `specs/Drawn.antt` has, and are as they were after want of memory (`err`).
#![tactic(auto)]

mod event;
mod fault;
mod generator;
mod header;
mod laws;
mod op;
mod parts;
mod print;
mod put;
mod read;
mod words;

pub use fault::LineFault;
pub use generator::{AskGenerator, Generator};
pub use laws::lines_are_one;
pub use print::{print_event, print_header};
pub use put::{put as put_text, put_actor, put_number, put_word};
pub use read::{read_event, read_header, read_number};
