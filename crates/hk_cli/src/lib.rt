//! What the program calls.
//!
//! `hermes` takes the words of the command and all of the outside that a command can need, does what the words say and
//! answers a status. What the product promises to the person at the terminal stands in its contract; which words are which command,
//! in `specs/Words.antt`.
//!
//! What is proved of each command. Usage comes exactly where the words are no command's, unless writing its line fails;
//! nothing is read then (`usage`, `no_command`). The words are read exactly, both ways (`read_command`), and no words
//! are two commands (`commands_are_one`). Each ends with its own statuses (`statuses`). ReadFault, WriteFault,
//! DoorFault and SpawnFault come only where that object's count of faults rose in this call.
//!
//! `drill` and `joint` have the clauses of `hk_drill`, `generate` those of `hk_generate` (`written`, `legal`, `part`),
//! `storm` and `joint-storm` what `conclude` and `conclude_joint` say (`stormed`, `joint_stormed`), `watch` those of
//! `hk_watching` (`watched`, `watching`). A server or a process that is done took the connections that it was to take
//! (a process at least these), or all that were left, and for each its spawner took a job or counts one fault more
//! (`served`, `met`); its doors are closed (`closed`, `met_closed`). It reads no source and writes to no sink (`aside`,
//! `met_aside`).
//!
//! The bytes that were read are one notion (`HasRead` of `hk_outside`): all that the source had left, where it tells
//! that, and all that it gave up to its end, where it records that. `drill`, `joint` and `generate` wait for no other
//! thread; every other command may.
#![tactic(auto)]

mod laws;
mod options;
mod top;
mod words;

pub use laws::commands_are_one;
pub use top::hermes;
pub use words::{Command, read_command};
