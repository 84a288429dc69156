//! What command words are. Each word is ended by a zero byte.

use bytes_told::{put, put_number};
use hk_base::Memory;
use hk_cli::{Command, read_command};
use hk_group::Group;
use hk_process::Process;
use hk_storm::StormOpts;
use std::alloc::Global;

// The words; none where they are no text, as the program has none then.
fn words(alloc: Global, bytes: &[u8]) -> Result<Vec<String>, Memory> {
    let mut words = Vec::new(alloc);
    let Ok(text) = str::from_utf8(bytes) else {
        return Ok(words);
    };
    for word in text.split('\0') {
        words.push(String::from_str(alloc, word)?)?;
    }
    if words.last().is_some_and(|word| word.is_empty()) {
        words.pop();
    }
    Ok(words)
}

fn put_numbers(out: &mut Vec<u8>, name: &[u8], numbers: &[u64]) -> Result<(), Memory> {
    put(out, name)?;
    for number in numbers {
        put(out, b" ")?;
        put_number(out, *number)?;
    }
    Ok(())
}

fn put_storm(out: &mut Vec<u8>, opts: &StormOpts) -> Result<(), Memory> {
    let numbers = [
        opts.start,
        u64::from(opts.calls),
        u64::from(opts.nodes),
        u64::from(opts.workers),
    ];
    put_numbers(out, b"storm", &numbers)
}

fn put_group(out: &mut Vec<u8>, group: &Group) -> Result<(), Memory> {
    let numbers = [
        u64::from(group.nodes),
        u64::from(group.workers),
        u64::from(group.managers),
        group.lease,
        group.skew,
        u64::from(group.port),
        u64::from(group.conns),
    ];
    put_numbers(out, b"serve", &numbers)
}

fn put_process(out: &mut Vec<u8>, process: &Process) -> Result<(), Memory> {
    let numbers = [
        u64::from(process.id),
        u64::from(process.nodes),
        u64::from(process.workers),
        u64::from(process.port),
        u64::from(process.conns),
    ];
    put_numbers(out, b"peer", &numbers)
}

/// Tells which command the words are.
pub fn tell(alloc: Global, bytes: &[u8], out: &mut Vec<u8>) -> Result<(), Memory> {
    match read_command(words(alloc, bytes)?.as_slice()) {
        Some(Command::Drill) => put(out, b"drill"),
        Some(Command::Joint) => put(out, b"joint"),
        Some(
            Command::Generate {
                start,
                count,
                nodes,
            },
        ) => put_numbers(
            out,
            b"generate",
            &[start, u64::from(count), u64::from(nodes)],
        ),
        Some(Command::Storm(opts)) => put_storm(out, &opts),
        Some(Command::Serve(group)) => put_group(out, &group),
        Some(Command::Peer(process)) => put_process(out, &process),
        Some(Command::JointStorm { workers, reads }) => {
            put_numbers(out, b"joint-storm", &[u64::from(workers), u64::from(reads)])
        }
        Some(Command::Watch { writes }) => put_numbers(out, b"watch", &[u64::from(writes)]),
        None => put(out, b"none"),
    }
}
