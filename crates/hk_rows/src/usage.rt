//! Words that are no command, and what is told of them.

use hk_cli::read_command;
use hk_usage::first_mistake;
use std::alloc::Global;
use std::process::Abort;

// Lines of words, and what is wrong with each. Nothing is told of a command.
static ROWS: [(&str, &str); 16] = [
    ("drill", ""),
    ("drill x", "drill: 'x' is no option of it"),
    ("serv", "'serv' is no command"),
    (
        "generate --start=18446744073709551615 --count 100000 --nodes=16",
        "",
    ),
    (
        "generate --start=1 --count 100001 --nodes=16",
        "--count 100001: a number from 1 to 100000 is wanted",
    ),
    ("storm --start 0 --nodes 8 --workers 8 --calls 20000", ""),
    (
        "storm --start 0 --nodes 9 --workers 8 --calls 20000",
        "--nodes 9: a number from 1 to 8 is wanted",
    ),
    (
        "serve --nodes 16 --workers 8 --managers 9 --lease 1000000000000 --skew 1000000000000 --port 65535 --conns 1000000",
        "",
    ),
    (
        "serve --nodes 16 --workers 8 --managers 9 --lease 1000000000001 --skew 0 --port 65535 --conns 1000000",
        "--lease 1000000000001: a number from 0 to 1000000000000 is wanted",
    ),
    (
        "serve --nodes 1 --workers 1 --managers 0 --lease 0 --skew 0 --port 1",
        "serve: --conns is not given, a number from 1 to 1000000",
    ),
    (
        "peer --id 15 --nodes 16 --workers 8 --port 65520 --conns 1000000",
        "",
    ),
    (
        "peer --id 2 --nodes 2 --workers 1 --port 1 --conns 1",
        "--id 2: a number below --nodes 2 is wanted",
    ),
    (
        "peer --id 0 --nodes 2 --workers 1 --port 65535 --conns 1",
        "--port 65535: each of 2 nodes needs a port from there on, up to 65535",
    ),
    ("watch --writes 10000", ""),
    ("watch --writes=1 --writes=1", "--writes is given twice"),
    (
        "joint-storm --workers 8 --reads 10001",
        "--reads 10001: a number from 1 to 10000 is wanted",
    ),
];

fn words(rt: &impl Abort, alloc: Global, line: &str) -> Vec<String> {
    let mut words = Vec::new(alloc);
    for word in line.split(' ') {
        let word = String::from_str(alloc, word).expect(rt, "memory");
        words.push(word).expect(rt, "memory");
    }
    words
}

#[test]
fn what_is_no_command_is_told_by_its_first_mistake(rt: HostRuntime) {
    let alloc = rt.alloc();
    for (line, wanted) in &ROWS {
        let words = words(&rt, alloc, line);
        let told = match first_mistake(words.as_slice()) {
            Some(mistake) => format!(in alloc; "{mistake}").expect(&rt, "memory"),
            None => String::new(alloc),
        };
        assert_eq!(rt; told.as_str(), *wanted);
        assert_eq!(rt; read_command(words.as_slice()).is_some(), wanted.is_empty());
    }
}
