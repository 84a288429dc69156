//! The words of a command.

ghost use Rattle.std.specs.Prelude.{◌≡◌, ◌≤◌, map, length, string_bytes, IfSome};
ghost use Rattle.hk_cli.specs.Words.{IsCommandRead};
ghost use Rattle.hk_cli.specs.Commands.{IsInRange};
ghost use Rattle.hk_cli.specs.Options.{alone, command_of, generate_of, peer_of, serve_of, storm_of, watch_of, joint_storm_of, option_is, option_count, ranged, value_of};

use crate::options::{option_count, value_of};
use hk_base::MAX_TIME;
use hk_group::Group;
use hk_process::Process;
use hk_storm::StormOpts;

/// What the program is to do.
#[derive(Clone, Copy, Debug, PartialEq, Eq)]
pub enum Command {
    /// Read a script, and write its transcript.
    Drill,
    /// Read a script, and write one order of the calls on all keys.
    Joint,
    /// Make a run of so many events of so many nodes, drawn from a number, and write its summary.
    Generate { start: u64, count: u32, nodes: u8 },
    /// Run a storm, and write what it came to.
    Storm(StormOpts),
    /// Serve connections at the nodes of a new group.
    Serve(Group),
    /// Serve connections at one node of a new group, whose other nodes run in processes of their own.
    Peer(Process),
    /// Write a key so often in one thread while a watch of it looks in another, and tell the last stamp that the watch was told.
    Watch { writes: u32 },
    /// Write keys in so many threads while a reader reads all of them together so often, and place what it found.
    JointStorm { workers: u8, reads: u32 },
}

// Whether the words are so many options, and so not more than each of them once.
fn are_options(words: &[String], count: usize) -> bool
    ensures { result ≡ option_is count (option_count (length words.now) (map (λ w. string_bytes w) words.now)) }
{
    match option_count(words) {
        Some(n) => n == count,
        None => false,
    }
}

// The value of the option of this name, in its range.
#[tactic(auto, unfolding(crate::specs::Options::ranged))]
fn ranged(words: &[String], name: &[u8], least: u64, most: u64) -> Option<u64>
    ensures value { result ≡ ranged least most (value_of name.now (length words.now) (map (λ w. string_bytes w) words.now)) }
    ensures within { IfSome result (λ n. n ≤ most) }
    ensures enough { IfSome result (λ n. least ≤ n) }
{
    let n = value_of(words, name)?;
    if n < least {
        return None;
    }
    if n > most {
        return None;
    }
    Some(n)
}

#[tactic(auto, unfolding(crate::specs::Options::generate_of))]
fn read_generate(words: &[String]) -> Option<Command>
    ensures { result ≡ generate_of (map (λ w. string_bytes w) words.now) }
{
    if !are_options(words, 3) {
        return None;
    }
    let start = value_of(words, b"start")?;
    let count = ranged(words, b"count", 1, 100_000)?;
    let nodes = ranged(words, b"nodes", 1, 16)?;
    Some(Command::Generate {
        start,
        count: count as u32,
        nodes: nodes as u8,
    })
}

#[tactic(auto, unfolding(crate::specs::Options::storm_of))]
fn read_storm(words: &[String]) -> Option<Command>
    ensures { result ≡ storm_of (map (λ w. string_bytes w) words.now) }
{
    if !are_options(words, 4) {
        return None;
    }
    let start = value_of(words, b"start")?;
    let nodes = ranged(words, b"nodes", 1, 8)?;
    let workers = ranged(words, b"workers", 1, 8)?;
    let calls = ranged(words, b"calls", 1, 20_000)?;
    Some(Command::Storm(StormOpts {
        start,
        nodes: nodes as u8,
        workers: workers as u8,
        calls: calls as u32,
    }))
}

#[tactic(auto, unfolding(crate::specs::Options::serve_of))]
fn read_serve(words: &[String]) -> Option<Command>
    ensures { result ≡ serve_of (map (λ w. string_bytes w) words.now) }
{
    if !are_options(words, 7) {
        return None;
    }
    let nodes = ranged(words, b"nodes", 1, 16)?;
    let workers = ranged(words, b"workers", 1, 8)?;
    let managers = ranged(words, b"managers", 0, 9)?;
    let lease = ranged(words, b"lease", 0, MAX_TIME)?;
    let skew = ranged(words, b"skew", 0, MAX_TIME)?;
    let port = ranged(words, b"port", 1, 65_535)?;
    let conns = ranged(words, b"conns", 1, 1_000_000)?;
    Some(Command::Serve(Group {
        nodes: nodes as u8,
        workers: workers as u8,
        managers: managers as u8,
        lease,
        skew,
        port: port as u16,
        conns: conns as u32,
    }))
}

#[tactic(auto, unfolding(crate::specs::Options::peer_of))]
fn read_peer(words: &[String]) -> Option<Command>
    ensures { result ≡ peer_of (map (λ w. string_bytes w) words.now) }
{
    if !are_options(words, 5) {
        return None;
    }
    let nodes = ranged(words, b"nodes", 1, 16)?;
    let id = ranged(words, b"id", 0, nodes - 1)?;
    let workers = ranged(words, b"workers", 1, 8)?;
    let port = ranged(words, b"port", 1, 65_536 - nodes)?;
    let conns = ranged(words, b"conns", 1, 1_000_000)?;
    Some(Command::Peer(Process {
        id: id as u8,
        nodes: nodes as u8,
        workers: workers as u8,
        port: port as u16,
        conns: conns as u32,
    }))
}

#[tactic(auto, unfolding(crate::specs::Options::watch_of))]
fn read_watch(words: &[String]) -> Option<Command>
    ensures { result ≡ watch_of (map (λ w. string_bytes w) words.now) }
{
    if !are_options(words, 1) {
        return None;
    }
    let writes = ranged(words, b"writes", 1, 10_000)?;
    Some(Command::Watch {
        writes: writes as u32,
    })
}

#[tactic(auto, unfolding(crate::specs::Options::joint_storm_of))]
fn read_joint_storm(words: &[String]) -> Option<Command>
    ensures { result ≡ joint_storm_of (map (λ w. string_bytes w) words.now) }
{
    if !are_options(words, 2) {
        return None;
    }
    let workers = ranged(words, b"workers", 1, 8)?;
    let reads = ranged(words, b"reads", 1, 10_000)?;
    Some(Command::JointStorm {
        workers: workers as u8,
        reads: reads as u32,
    })
}

// The command, with no words behind it.
fn alone(words: &[String], command: Command) -> Option<Command>
    ensures { result ≡ alone command (map (λ w. string_bytes w) words.now) }
{
    if words.is_empty() {
        Some(command)
    } else {
        None
    }
}

#[tactic(auto, unfolding(crate::specs::Options::command_of))]
fn read(words: &[String]) -> Option<Command>
    ensures { result ≡ command_of (map (λ w. string_bytes w) words.now) }
{
    let (name, words) = words.split_first()?;
    match name.as_str() {
        "drill" => alone(words, Command::Drill),
        "joint" => alone(words, Command::Joint),
        "generate" => read_generate(words),
        "storm" => read_storm(words),
        "serve" => read_serve(words),
        "peer" => read_peer(words),
        "watch" => read_watch(words),
        "joint-storm" => read_joint_storm(words),
        _ => None,
    }
}

/// The command that words are; none where they are no command's.
pub fn read_command(words: &[String]) -> Option<Command>
    ensures read { IsCommandRead result (map (λ w. string_bytes w) words.now) }
    ensures range { IsInRange result }
{
    read(words)
}
