//! What can be wrong with words.

use crate::limits::Limits;
use std::fmt;
use std::fmt::{Display, Formatter, Write};

/// What is wrong with words.
#[derive(Clone, Copy, Debug, PartialEq, Eq)]
pub enum Mistake<'a> {
    /// There are none.
    NoWords,
    /// The first word is the name of no command.
    NoCommand(&'a str),
    /// This word is no option of this command.
    NoOption { command: &'a str, word: &'a str },
    /// No number stands behind this option.
    NoValue(Limits),
    /// This word is no number that the option may be.
    BadValue { option: Limits, word: &'a str },
    /// This option is not there.
    Missing { command: &'a str, option: Limits },
    /// This option is there more than once.
    Twice(Limits),
    /// The node's number is not below the number of nodes.
    NoSuchNode { id: u64, nodes: u64 },
    /// From this port on there is no port for each node.
    NoPort { port: u64, nodes: u64 },
}

impl<'a> Display for Mistake<'a> {
    fn fmt<W: Write>(&self, f: &mut Formatter<W>) -> fmt::Result {
        match self {
            Mistake::NoWords => f.write_str("no command is given, or a word is no text"),
            Mistake::NoCommand(word) => write!(f, "'{word}' is no command"),
            Mistake::NoOption { command, word } => {
                write!(f, "{command}: '{word}' is no option of it")
            }
            Mistake::NoValue(option) => write!(
                f,
                "--{}: a number from {} to {} is wanted behind it",
                option.name, option.least, option.most
            ),
            Mistake::BadValue { option, word } => write!(
                f,
                "--{} {word}: a number from {} to {} is wanted",
                option.name, option.least, option.most
            ),
            Mistake::Missing { command, option } => write!(
                f,
                "{command}: --{} is not given, a number from {} to {}",
                option.name, option.least, option.most
            ),
            Mistake::Twice(option) => write!(f, "--{} is given twice", option.name),
            Mistake::NoSuchNode { id, nodes } => {
                write!(f, "--id {id}: a number below --nodes {nodes} is wanted")
            }
            Mistake::NoPort { port, nodes } => write!(
                f,
                "--port {port}: each of {nodes} nodes needs a port from there on, up to 65535"
            ),
        }
    }
}
