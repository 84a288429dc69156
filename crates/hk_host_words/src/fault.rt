//! What can be wrong with words.

use crate::names::{CommandName, OptionName};
use hk_hosts::HostsFault;
use std::fmt;
use std::fmt::{Display, Formatter, Write};

/// What is wrong with words that are no command of a group over hosts.
#[derive(Clone, Copy, Debug, PartialEq, Eq)]
pub enum HostMistake<'a> {
    /// There are none, or the first is the name of no such command.
    NoCommand,
    /// No option stands where this word does.
    NoOption(&'a str),
    /// The words end behind this option, which wants a value.
    NoValue(OptionName),
    /// This command does not take this option.
    NotTaken(CommandName, OptionName),
    /// This option is there more than once.
    Twice(OptionName),
    /// This option is not there, and must be.
    Missing(OptionName),
    /// This text is nothing that the option may be given.
    BadValue(OptionName, &'a str),
    /// A number from the least to the most is wanted for this option, and not this text.
    BadNumber {
        option: OptionName,
        least: u32,
        most: u32,
        text: &'a str,
    },
    /// This text is no list of hosts.
    BadHosts(HostsFault, &'a str),
    /// This address is not the one that stands among the hosts at the place of this one.
    OtherInside(&'a str),
    /// The address for clients, with its port, is longer than 64 bytes.
    LongListen,
    /// Who is to leave is told by `--at` or by `--node`, and by one of them alone.
    NoLeaver,
}

/// Why words are not read.
#[derive(Clone, Copy, Debug, PartialEq, Eq)]
pub enum WordsFault<'a> {
    /// An allocation was refused.
    Memory,
    /// They are no command.
    Mistaken(HostMistake<'a>),
}

// What an option may be given.
fn wanted(option: OptionName) -> &'static str {
    match option {
        OptionName::Hosts => "1, 3, 5, 7 or 9 different addresses with commas between them",
        OptionName::Secret => "the name of a file",
        OptionName::Group => "1 to 32 of a-z, 0-9 and -",
        OptionName::At => "a place among the hosts, from 0 on",
        OptionName::Inside | OptionName::Listen => "HOST or HOST:PORT, at most 64 bytes",
        OptionName::Data => "the name of a folder",
        OptionName::Lease | OptionName::Skew | OptionName::Workers | OptionName::Node => "a number",
    }
}

impl<'a> Display for HostMistake<'a> {
    fn fmt<W: Write>(&self, f: &mut Formatter<W>) -> fmt::Result {
        match self {
            HostMistake::NoCommand => f.write_str("no command of a group over hosts"),
            HostMistake::NoOption(word) => write!(f, "'{word}' is no option"),
            HostMistake::NoValue(option) => write!(
                f,
                "--{}: {} is wanted behind it",
                option.text(),
                wanted(*option)
            ),
            HostMistake::NotTaken(command, option) => {
                write!(
                    f,
                    "{}: --{} is no option of it",
                    command.text(),
                    option.text()
                )
            }
            HostMistake::Twice(option) => write!(f, "--{} is given twice", option.text()),
            HostMistake::Missing(option) => write!(
                f,
                "--{} is not given, {}",
                option.text(),
                wanted(*option)
            ),
            HostMistake::BadValue(option, text) => write!(
                f,
                "--{} {text}: {} is wanted",
                option.text(),
                wanted(*option)
            ),
            HostMistake::BadNumber {
                option,
                least,
                most,
                text,
            } => write!(
                f,
                "--{} {text}: a number from {least} to {most} is wanted",
                option.text()
            ),
            HostMistake::BadHosts(fault, text) => write!(f, "--hosts {text}: {fault}"),
            HostMistake::OtherInside(text) => {
                write!(
                    f,
                    "--inside {text}: at this place of --hosts another address stands"
                )
            }
            HostMistake::LongListen => {
                f.write_str(
                    "--listen is not given, and the host of --inside is too long with the usual port",
                )
            }
            HostMistake::NoLeaver => f.write_str("leave: --at or --node is wanted, and not both"),
        }
    }
}

impl<'a> Display for WordsFault<'a> {
    fn fmt<W: Write>(&self, f: &mut Formatter<W>) -> fmt::Result {
        match self {
            WordsFault::Memory => f.write_str("no memory"),
            WordsFault::Mistaken(mistake) => write!(f, "{mistake}"),
        }
    }
}
