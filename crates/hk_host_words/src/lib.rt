//! The words of the commands of a group over hosts: `node`, `init`, `status` and `leave`.
//!
//! [`read_host_command`] reads words as a [`HostCommand`], exactly both ways: it gives one exactly where
//! `specs/Words.antt` says that the words are that command's, and else, unless memory was wanting, they are no command of
//! these. [`named_command`] tells which of the four their first word names. No words are two commands
//! (`host_commands_are_one`). [`read_secret`] gives the secret that a file holds, or tells why it holds none, exactly.
//!
//! An option stands once at most, in any order, as `--name VALUE` or as `--name=VALUE`. The word behind `--name` is its
//! value whatever it is, one that begins with two dashes too. A host that is told its place has the address that stands
//! there: where another is given besides, it must be the same. A group's secret is the first line of its file, up to the
//! first line feed; a carriage return is a byte of it like any other.
//!
//! A process tells less by `-q`, more by `-v`: [`take_verbosity`] takes that word out, which stands where an option
//! may, and gives
//! the words without it, which are read as any.
//!
//! Its caller owes it nothing: any words are read, and of any file.
//!
//! What no clause says: which [`HostMistake`] is told, and its text; and which of several words `-q` and `-v` is taken
//! out.
#![tactic(auto)]

mod command;
mod fault;
mod group;
mod names;
mod node;
mod secret;
mod settings;
mod values;
mod verbosity;
mod words;

ghost use Rattle.hk_host_words.specs.Words.{WordsTellHostCommands};

pub use command::{named_command, read_host_command};
pub use fault::{HostMistake, WordsFault};
pub use names::{CommandName, OptionName};
pub use secret::{MAX_SECRET_LEN, MIN_SECRET_LEN, SecretFault, read_secret};
pub use verbosity::{Verbosity, take_verbosity};
pub use words::{CLIENT_PORT, GroupWords, HostCommand, INSIDE_PORT, NodeWords};

/// No words are two commands.
pub fn host_commands_are_one()
    ensures { WordsTellHostCommands }
{
    hk_hosts::addresses_are_read_as_printed();
}
