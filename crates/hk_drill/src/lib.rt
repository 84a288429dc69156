//! A script in, its transcript out: what `hermes drill` does.
//!
//! A script is lines of text: a header with the group's founders, lease and skew, and then one event a line; empty lines and lines that
//! begin with `#` say nothing. It is followed as far as it is in the grammar and within the limits: each event is made by the world of
//! the group, or refused. The transcript tells what each event showed, and for each key that a call named the history of its calls and
//! one order of them. That this order is legal is proved for every script, and stands in the contract of `drill`.
//!
//! `joint` follows a script in the same way, and writes at its end one order of the calls on all keys, and its batches.
//!
//! What is proved. The transcript (`specs/Transcript.antt`) is a function of the bytes that were read: the lines, the
//! run of their events, what each shows, and then each key that a call named, in byte order, with its history and its
//! order (`specs/Keys.antt`); or the stop line. At Done the source was read to its end and the text was written, whole,
//! and each printed order is legal for the printed history (`done`). At BadLine and TooLong what was read decides it,
//! whatever would follow, and the text was written with the stop line at its end (`bad_line`, `too_long`); the orders
//! of that run are legal too. At ReadFault just what the lines told whose feed was read (`cut_off`). Whatever the
//! answer, a front of it was written (`front`). Faults come only where that object's count rose; where none did the
//! status is the transcript's, or Memory (`exact`). `drill` reads pieces of 4,096 bytes, and writes what the lines of
//! one tell before it reads on.
//!
//! So of `joint`: at Done its text is `joint_transcript`, whose order is legal (`JointLegal`). A stop has written its
//! line alone, and a read that failed nothing (`untouched`).
#![tactic(auto)]

mod drill_state;
mod end;
mod fault;
mod joined;
mod keys;
mod line;
mod script;
mod shown;
mod stop;
mod together;
mod top;

pub use drill_state::MAX_LETTERS;
pub use line::{MAX_LINE_LEN, MAX_LINES};
pub use stop::Stop;
pub use together::joint;
pub use top::drill;
