//! What is written on standard error of a command, for the person who started the program. A line that can't be written is lost.

use hk_cli::Command;
use hk_host_words::WordsFault;
use hk_outside::Status;
use hk_usage::{Limits, first_mistake, limits_of};
use std::io::Eprint;

/// What a server of these words will not do, though it may be started.
pub fn tell_beginning<R: Eprint>(rt: &R, command: &Command) {
    let Command::Serve(group) = command else {
        return;
    };
    if group.managers > 0 && group.lease <= group.skew {
        let _ = eprintln!(rt;
            "hermes: a lease of {} ms is no longer than the skew of {} ms: every request is told busy",
            group.lease, group.skew
        );
    }
}

// The options of the command that the first word names.
fn wanted_options(words: &[String]) -> Option<&'static [Limits]> {
    limits_of(words.first()?.as_str())
}

/// What is wrong with words that are no command, and which options their command has.
pub fn tell_mistake<R: Eprint>(rt: &R, words: &[String]) {
    let Some(mistake) = first_mistake(words) else {
        return;
    };
    let _ = eprintln!(rt; "hermes: {mistake}");
    let Some(options) = wanted_options(words) else {
        return;
    };
    for option in options {
        let _ = eprintln!(rt;
            "hermes:   --{} {} to {}",
            option.name, option.least, option.most
        );
    }
}

/// What is wrong with words of a command of a group over hosts. Gives how the program ends then.
pub fn tell_host_mistake<R: Eprint>(rt: &R, fault: WordsFault<'_>) -> Status {
    let _ = eprintln!(rt; "hermes: {fault}");
    match fault {
        WordsFault::Memory => Status::Memory,
        WordsFault::Mistaken(_) => Status::Usage,
    }
}

/// That a server has ended, or could not begin.
pub fn tell_end<R: Eprint>(rt: &R, command: &Command, status: Status) {
    if !matches!(command, Command::Serve(_) | Command::Peer(_)) {
        return;
    }
    let number = status.number();
    let _ = match status {
        Status::Done => eprintln!(rt; "hermes: the server has ended, with status {number}"),
        _ => eprintln!(rt; "hermes: the server could not begin, and ends with status {number}"),
    };
}
