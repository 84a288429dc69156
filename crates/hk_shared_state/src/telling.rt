//! Lines for the operator, on standard error. A line that can't be written is lost.

ghost use Rattle.std.specs.Prelude.{◌≡◌};
ghost use Rattle.hk_shared_state.specs.Notices.{is_wanted};

use crate::moment::Moment;
use crate::shared_state::SharedState;
use hk_base::{Actor, NodeId};
use hk_hello::HelloRefusal;
use hk_host_words::Verbosity;
use hk_hosts::Address;
use hk_outside::Clock;
use std::fmt;
use std::fmt::{Display, Formatter, Write};
use std::io::Eprint;
use std::sync::Wait;

/// How grave a line is.
#[derive(Clone, Copy, Debug, PartialEq, Eq)]
pub enum Level {
    /// Something has failed for good.
    Error,
    /// Something is wrong that may pass.
    Warning,
    /// Something happened that an operator must know.
    Info,
    /// Something happened on the way to that.
    Debug,
}

impl Display for Level {
    fn fmt<W: Write>(&self, f: &mut Formatter<W>) -> fmt::Result {
        let text = match self {
            Level::Error => "error",
            Level::Warning => "warning",
            Level::Info => "info",
            Level::Debug => "debug",
        };
        f.write_str(text)
    }
}

/// Which lines a process writes, and how it knows the time of one.
#[derive(Clone, Copy, Debug, PartialEq, Eq)]
pub struct Telling {
    pub verbosity: Verbosity,
    /// The milliseconds from the beginning of 1970 to the reading 0 of the process's clock.
    pub began: u64,
}

impl Telling {
    /// Whether a line of this level is written.
    pub fn wants(&self, level: Level) -> bool
        ensures { result ≡ is_wanted self.now.verbosity level }
    {
        match self.verbosity {
            Verbosity::Quiet => match level {
                Level::Error => true,
                Level::Warning | Level::Info | Level::Debug => false,
            },
            Verbosity::Usual => match level {
                Level::Error | Level::Warning | Level::Info => true,
                Level::Debug => false,
            },
            Verbosity::Verbose => true,
        }
    }
}

/// What a process tells its operator.
#[derive(Clone, Copy)]
pub enum Notice<'a> {
    /// The hellos are refused that are sent to an actor.
    Refused { to: Actor, refusal: HelloRefusal },
    /// The log can't be written: the manager is stopped for good.
    LogEnded,
    /// The group is open, and this host's manager none of its own: the folder that it began with was empty.
    NoManager { folder: &'a str },
    /// The group is open.
    Open { founding: u64 },
    /// This manager let views with these members begin.
    Begins { members: &'a [NodeId] },
    /// The manager of this place has not answered for a lease.
    Gone { place: u8 },
    /// It answers again.
    Back { place: u8 },
    /// The node has a number, and is no member yet.
    Seated { node: NodeId },
    /// The node is a member, and copies the rows.
    Copying { node: NodeId },
    /// The node serves clients.
    Ready { node: NodeId },
    /// The port for clients is open.
    Listens { address: &'a Address },
    /// The port for clients can't be opened, and is tried again.
    Shut { address: &'a Address },
    /// The node leaves the group, and serves no clients any more.
    Leaving { node: NodeId },
    /// The lease of the node is over, so it answers nothing.
    LeaseOver { node: NodeId },
    /// The node has a lease again.
    LeaseBack { node: NodeId },
}

impl<'a> Notice<'a> {
    /// How grave it is.
    pub fn level(&self) -> Level {
        match self {
            Notice::LogEnded | Notice::NoManager { .. } => Level::Error,
            Notice::Refused { .. }
            | Notice::Gone { .. }
            | Notice::Shut { .. }
            | Notice::LeaseOver { .. } => Level::Warning,
            Notice::Open { .. }
            | Notice::Begins { .. }
            | Notice::Back { .. }
            | Notice::Ready { .. }
            | Notice::Listens { .. }
            | Notice::Leaving { .. }
            | Notice::LeaseBack { .. } => Level::Info,
            Notice::Seated { .. } | Notice::Copying { .. } => Level::Debug,
        }
    }
}

// Numbers with commas between them.
fn write_numbers<W: Write>(f: &mut Formatter<W>, nodes: &[NodeId]) -> fmt::Result {
    let mut between = "";
    for node in nodes {
        write!(f, "{between}{}", node.0)?;
        between = ", ";
    }
    Ok(())
}

fn write_address<W: Write>(f: &mut Formatter<W>, address: &Address) -> fmt::Result {
    if let Ok(host) = str::from_utf8(address.host.as_slice()) {
        f.write_str(host)?;
    }
    write!(f, ":{}", address.port)
}

fn write_refused<W: Write>(f: &mut Formatter<W>, to: Actor, refusal: HelloRefusal) -> fmt::Result {
    match to {
        Actor::Node(node) => write!(f, "node {} refused: {refusal}", node.0),
        Actor::Manager(place) => write!(f, "manager {place} refused: {refusal}"),
    }
}

impl<'a> Display for Notice<'a> {
    fn fmt<W: Write>(&self, f: &mut Formatter<W>) -> fmt::Result {
        match self {
            Notice::Refused { to, refusal } => write_refused(f, *to, *refusal),
            Notice::LogEnded => {
                f.write_str("the log can't be written; this host has no manager from now on")
            }
            Notice::NoManager { folder } => write!(
                f,
                "the group lives and {folder} is empty: this host has no manager"
            ),
            Notice::Open { founding } => {
                write!(f, "the group of founding {founding:016x} is open")
            }
            Notice::Begins { members } => {
                f.write_str("a view begins with members ")?;
                write_numbers(f, members)
            }
            Notice::Gone { place } => write!(f, "manager {place} is gone"),
            Notice::Back { place } => write!(f, "manager {place} is back"),
            Notice::Seated { node } => write!(f, "node {} is seated", node.0),
            Notice::Copying { node } => write!(f, "node {} copies", node.0),
            Notice::Ready { node } => write!(f, "node {} is ready", node.0),
            Notice::Listens { address } => {
                f.write_str("clients are served at ")?;
                write_address(f, address)
            }
            Notice::Shut { address } => {
                write_address(f, address)?;
                f.write_str(" can't be opened, and is tried again each second")
            }
            Notice::Leaving { node } => write!(f, "node {} leaves", node.0),
            Notice::LeaseOver { node } => write!(f, "the lease of node {} is over", node.0),
            Notice::LeaseBack { node } => write!(f, "node {} has a lease again", node.0),
        }
    }
}

impl<R: Wait + Eprint + Drop, C: Clock + Drop> SharedState<R, C> {
    /// Writes a line, where lines of its level are wanted: of a verbose process with the time and the level in front.
    /// No lock of this process may be held.
    pub fn tell(&self, notice: &Notice<'_>) {
        let level = notice.level();
        if !self.telling.wants(level) {
            return;
        }
        let rt = &self.rt;
        let _ = match self.telling.verbosity {
            Verbosity::Verbose => {
                let moment = Moment(self.telling.began.saturating_add(self.clock.now()));
                eprintln!(rt; "hermes: {moment} {level}: {notice}")
            }
            Verbosity::Quiet | Verbosity::Usual => eprintln!(rt; "hermes: {notice}"),
        };
    }
}
