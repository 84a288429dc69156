//! The commands of a group over hosts, each over the files, the network and the clock of this machine.
#![tactic(auto)]

mod asker;
mod commands;
mod end;
mod files;
mod node;

pub use commands::perform;
pub use end::HostEnd;
