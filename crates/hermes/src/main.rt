//! The program: it makes the real objects of the outside, makes the call that its words name, and ends with its status.
//!
//! Standard input records what it gave, and standard output what it took, both from nothing on, and the doors tell how
//! many connections they still give, so the clauses of `hk_cli::hermes` speak of the real program.
#![tactic(auto)]

mod notices;

use crate::notices::{tell_beginning, tell_end, tell_host_mistake, tell_mistake};
use hk_accept::LooseSpawner;
use hk_cli::{hermes, read_command};
use hk_doors::CountedDoors;
use hk_host_words::{CommandName, Verbosity, named_command, read_host_command, take_verbosity};
use hk_hosting::perform;
use hk_outside::{ReaderSource, SteadyClock, TcpDoors, WriterSink};
use std::process::ExitCode;
use std::sync::Arc;
use std::{env, io};

// The words behind the program's name. A word that is no text is in no command: then there are none.
fn words(rt: &HostRuntime) -> io::Result<Vec<String>> {
    let mut words = Vec::new(rt.alloc());
    match env::args(rt) {
        Ok(all) => {
            for word in all.skip(1) {
                words.push(word)?;
            }
        }
        Err(error) => {
            if error.kind() != io::ErrorKind::InvalidData {
                return Err(error);
            }
        }
    }
    Ok(words)
}

// How much a command of this name tells. The word for that is taken out of the words.
fn verbosity_of(name: CommandName, words: &mut Vec<String>) -> Verbosity {
    match name {
        CommandName::Node => take_verbosity(words),
        CommandName::Init | CommandName::Status | CommandName::Leave => Verbosity::Usual,
    }
}

fn main(rt: HostRuntime) -> io::Result<ExitCode> {
    let alloc = rt.alloc();
    let mut words = words(&rt)?;
    if let Some(name) = named_command(words.as_slice()) {
        let verbosity = verbosity_of(name, &mut words);
        let mut sink = WriterSink::new(io::writer(&rt));
        let number = match read_host_command(alloc, words.as_slice()) {
            Ok(command) => perform(rt, alloc, command, verbosity, &mut sink),
            Err(fault) => tell_host_mistake(&rt, fault).number(),
        };
        return Ok(ExitCode::from(number));
    }
    let command = read_command(words.as_slice());
    match &command {
        Some(command) => tell_beginning(&rt, command),
        None => tell_mistake(&rt, words.as_slice()),
    }
    let mut source = ReaderSource::new(rt.reader());
    let mut sink = WriterSink::new(io::writer(&rt));
    let clock = Arc::new(alloc, SteadyClock::new(rt))?;
    let mut doors = CountedDoors::new(TcpDoors::new(rt));
    let mut spawner = LooseSpawner::new(rt);
    let status = hermes(
        rt,
        alloc,
        words.as_slice(),
        &mut source,
        &mut sink,
        clock,
        &mut doors,
        &mut spawner,
    );
    if let Some(command) = &command {
        tell_end(&rt, command, status);
    }
    Ok(ExitCode::from(status.number()))
}
