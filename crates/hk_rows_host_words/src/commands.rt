//! Words of each command, and words of none.

use hk_host_words::{
    CommandName, GroupWords, HostCommand, NodeWords, WordsFault, named_command, read_host_command,
};
use hk_hosts::{Address, put_hosts};
use hk_inside::Leaver;
use std::alloc::{AllocError, Global};

// The words of a line, which have one space between them.
fn words_of(alloc: Global, line: &str) -> Result<Vec<String>, AllocError> {
    let mut words = Vec::new(alloc);
    for word in line.split(' ') {
        words.push(String::from_str(alloc, word)?)?;
    }
    Ok(words)
}

fn text(bytes: &[u8]) -> &str {
    str::from_utf8(bytes).unwrap_or("no text")
}

// What is printed of addresses, with commas between them.
fn addresses(alloc: Global, hosts: &[Address]) -> Result<String, AllocError> {
    let mut out = Vec::new(alloc);
    match put_hosts(&mut out, hosts) {
        Ok(()) => String::from_str(alloc, text(out.as_slice())),
        Err(_) => Err(AllocError),
    }
}

fn address(alloc: Global, address: &Address) -> Result<String, AllocError> {
    format!(in alloc; "{}:{}", text(address.host.as_slice()), address.port)
}

fn group_text(alloc: Global, group: &GroupWords) -> Result<String, AllocError> {
    let hosts = addresses(alloc, group.hosts.as_slice())?;
    let secret = text(group.secret.as_slice());
    let name = text(group.group.as_slice());
    format!(in alloc; "{hosts} {secret} {name}")
}

fn node_text(alloc: Global, node: &NodeWords) -> Result<String, AllocError> {
    let group = group_text(alloc, &node.group)?;
    let inside = address(alloc, &node.inside)?;
    let listen = address(alloc, &node.listen)?;
    let data = text(node.data.as_slice());
    let at = match node.at {
        Some(place) => format!(in alloc; "{place}")?,
        None => String::from_str(alloc, "-")?,
    };
    format!(in alloc;
        "node {group} at {at} {inside} {listen} {data} {} {} {}",
        node.lease, node.skew, node.workers
    )
}

fn leave_text(alloc: Global, group: &GroupWords, who: Leaver) -> Result<String, AllocError> {
    let group = group_text(alloc, group)?;
    match who {
        Leaver::Node(node) => format!(in alloc; "leave {group} node {}", node.0),
        Leaver::Host(place) => format!(in alloc; "leave {group} host {place}"),
    }
}

fn command_text(alloc: Global, command: &HostCommand) -> Result<String, AllocError> {
    match command {
        HostCommand::Node(node) => node_text(alloc, node),
        HostCommand::Init(group) => {
            let group = group_text(alloc, group)?;
            format!(in alloc; "init {group}")
        }
        HostCommand::Status(group) => {
            let group = group_text(alloc, group)?;
            format!(in alloc; "status {group}")
        }
        HostCommand::Leave { group, who } => leave_text(alloc, group, *who),
    }
}

// What a line is read as, or what is wrong with it.
fn told(alloc: Global, line: &str) -> Result<String, AllocError> {
    let words = words_of(alloc, line)?;
    match read_host_command(alloc, words.as_slice()) {
        Ok(command) => command_text(alloc, &command),
        Err(WordsFault::Memory) => Err(AllocError),
        Err(WordsFault::Mistaken(mistake)) => format!(in alloc; "{mistake}"),
    }
}

static NODES: [(&str, &str); 12] = [
    (
        "node --hosts a,b,c --at 0",
        "node a:11400,b:11400,c:11400 hermes-data/secret hermes at 0 a:11400 a:11211 hermes-data 1000 10 1",
    ),
    (
        "node --at=2 --hosts=a,b:7,[::1]",
        "node a:11400,b:7,[::1]:11400 hermes-data/secret hermes at 2 [::1]:11400 [::1]:11211 hermes-data 1000 10 1",
    ),
    (
        "node --hosts a,b,c --inside d",
        "node a:11400,b:11400,c:11400 hermes-data/secret hermes at - d:11400 d:11211 hermes-data 1000 10 1",
    ),
    (
        "node --hosts a --at 0 --inside a:11400 --listen b --data /var/h",
        "node a:11400 /var/h/secret hermes at 0 a:11400 b:11211 /var/h 1000 10 1",
    ),
    (
        "node --hosts a --at 0 --secret --group --data=--at",
        "node a:11400 --group hermes at 0 a:11400 a:11211 --at 1000 10 1",
    ),
    (
        "node --data=a=b --secret s=t --hosts a --at 0 --group h-2",
        "node a:11400 s=t h-2 at 0 a:11400 a:11211 a=b 1000 10 1",
    ),
    (
        "node --hosts a --at 0 --lease 200 --skew 25 --workers 8",
        "node a:11400 hermes-data/secret hermes at 0 a:11400 a:11211 hermes-data 200 25 8",
    ),
    (
        "node --hosts a --at 0 --lease 60000 --skew 7500 --workers 1",
        "node a:11400 hermes-data/secret hermes at 0 a:11400 a:11211 hermes-data 60000 7500 1",
    ),
    (
        "node --hosts a --at 0 --lease 207 --skew 0",
        "node a:11400 hermes-data/secret hermes at 0 a:11400 a:11211 hermes-data 207 0 1",
    ),
    (
        "node --hosts a,b,c,d,e,f,g,h,i --at 8 --group abcdefghijklmnopqrstuvwxyz-01234",
        "node a:11400,b:11400,c:11400,d:11400,e:11400,f:11400,g:11400,h:11400,i:11400 hermes-data/secret abcdefghijklmnopqrstuvwxyz-01234 at 8 i:11400 i:11211 hermes-data 1000 10 1",
    ),
    (
        "node --hosts a --at 0 --listen [::1]:1",
        "node a:11400 hermes-data/secret hermes at 0 a:11400 [::1]:1 hermes-data 1000 10 1",
    ),
    (
        "node --hosts a --inside abcdefghijabcdefghijabcdefghijabcdefghijabcdefghijabcdefghijabc:1 --listen b",
        "--inside abcdefghijabcdefghijabcdefghijabcdefghijabcdefghijabcdefghijabc:1: HOST or HOST:PORT, at most 64 bytes is wanted",
    ),
];

static GROUPS: [(&str, &str); 7] = [
    (
        "init --hosts a,b,c",
        "init a:11400,b:11400,c:11400 hermes-data/secret hermes",
    ),
    ("init --group g --secret s --hosts a", "init a:11400 s g"),
    (
        "status --hosts=a --secret=s --group=9",
        "status a:11400 s 9",
    ),
    (
        "leave --hosts a,b,c --at 2",
        "leave a:11400,b:11400,c:11400 hermes-data/secret hermes host 2",
    ),
    (
        "leave --node 0 --hosts a",
        "leave a:11400 hermes-data/secret hermes node 0",
    ),
    (
        "leave --node=65535 --hosts a",
        "leave a:11400 hermes-data/secret hermes node 65535",
    ),
    (
        "leave --at=0 --hosts a --group=x",
        "leave a:11400 hermes-data/secret x host 0",
    ),
];

static MISTAKES: [(&str, &str); 45] = [
    ("", "no command of a group over hosts"),
    ("drill", "no command of a group over hosts"),
    ("Node --hosts a --at 0", "no command of a group over hosts"),
    (
        "node",
        "--hosts is not given, 1, 3, 5, 7 or 9 different addresses with commas between them",
    ),
    (
        "node --at 0",
        "--hosts is not given, 1, 3, 5, 7 or 9 different addresses with commas between them",
    ),
    (
        "init",
        "--hosts is not given, 1, 3, 5, 7 or 9 different addresses with commas between them",
    ),
    (
        "node --hosts a",
        "--inside is not given, HOST or HOST:PORT, at most 64 bytes",
    ),
    ("node hosts a", "'hosts' is no option"),
    ("node -hosts a", "'-hosts' is no option"),
    ("node -- a", "'--' is no option"),
    ("node --host a", "'--host' is no option"),
    (
        "node --hosts",
        "--hosts: 1, 3, 5, 7 or 9 different addresses with commas between them is wanted behind it",
    ),
    ("node --hosts a --at 0 b", "'b' is no option"),
    ("node --hosts a --at 0 ", "'' is no option"),
    ("node --hosts a --hosts a --at 0", "--hosts is given twice"),
    ("node --hosts a --at 0 --at=0", "--at is given twice"),
    (
        "node --hosts a --at 0 --node 1",
        "node: --node is no option of it",
    ),
    ("init --hosts a --at 0", "init: --at is no option of it"),
    ("init --hosts a --data d", "init: --data is no option of it"),
    (
        "status --hosts a --lease 1000",
        "status: --lease is no option of it",
    ),
    (
        "leave --hosts a --inside a",
        "leave: --inside is no option of it",
    ),
    (
        "leave --hosts a",
        "leave: --at or --node is wanted, and not both",
    ),
    (
        "leave --hosts a --at 0 --node 1",
        "leave: --at or --node is wanted, and not both",
    ),
    (
        "leave --hosts a --at 1",
        "--at 1: a place among the hosts, from 0 on is wanted",
    ),
    (
        "leave --hosts a --node 65536",
        "--node 65536: a number from 0 to 65535 is wanted",
    ),
    (
        "leave --hosts a --node 00",
        "--node 00: a number from 0 to 65535 is wanted",
    ),
    (
        "node --hosts a,b --at 0",
        "--hosts a,b: there must be 1, 3, 5, 7 or 9 hosts",
    ),
    (
        "node --hosts a,b,a --at 0",
        "--hosts a,b,a: two hosts have one address",
    ),
    (
        "node --hosts a,b,a:11400 --at 0",
        "--hosts a,b,a:11400: two hosts have one address",
    ),
    ("node --hosts= --at 0", "--hosts : an entry is no address"),
    (
        "node --hosts a,b,c --at 3",
        "--at 3: a place among the hosts, from 0 on is wanted",
    ),
    (
        "node --hosts a --at 256",
        "--at 256: a place among the hosts, from 0 on is wanted",
    ),
    (
        "node --hosts a --at +0",
        "--at +0: a place among the hosts, from 0 on is wanted",
    ),
    (
        "node --hosts a --at 0 --inside b",
        "--inside b: at this place of --hosts another address stands",
    ),
    (
        "node --hosts a --at 0 --inside a:1",
        "--inside a:1: at this place of --hosts another address stands",
    ),
    (
        "node --hosts a --at 0 --listen a:0",
        "--listen a:0: HOST or HOST:PORT, at most 64 bytes is wanted",
    ),
    (
        "node --hosts a --at 0 --lease 199",
        "--lease 199: a number from 200 to 60000 is wanted",
    ),
    (
        "node --hosts a --at 0 --lease 60001",
        "--lease 60001: a number from 200 to 60000 is wanted",
    ),
    (
        "node --hosts a --at 0 --skew 126",
        "--skew 126: a number from 0 to 125 is wanted",
    ),
    (
        "node --hosts a --at 0 --lease 207 --skew 26",
        "--skew 26: a number from 0 to 25 is wanted",
    ),
    (
        "node --hosts a --at 0 --workers 0",
        "--workers 0: a number from 1 to 8 is wanted",
    ),
    (
        "node --hosts a --at 0 --workers 9",
        "--workers 9: a number from 1 to 8 is wanted",
    ),
    (
        "node --hosts a --at 0 --group=",
        "--group : 1 to 32 of a-z, 0-9 and - is wanted",
    ),
    (
        "node --hosts a --at 0 --group Hermes",
        "--group Hermes: 1 to 32 of a-z, 0-9 and - is wanted",
    ),
    (
        "node --hosts a --at 0 --group abcdefghijklmnopqrstuvwxyz-012345",
        "--group abcdefghijklmnopqrstuvwxyz-012345: 1 to 32 of a-z, 0-9 and - is wanted",
    ),
];

static PATHS: [(&str, &str); 4] = [
    (
        "node --hosts a --at 0 --data=",
        "--data : the name of a folder is wanted",
    ),
    (
        "init --hosts a --secret=",
        "--secret : the name of a file is wanted",
    ),
    (
        "node --hosts abcdefghijabcdefghijabcdefghijabcdefghijabcdefghijabcdefghij:1 --at 0",
        "--listen is not given, and the host of --inside is too long with the usual port",
    ),
    (
        "node --hosts abcdefghijabcdefghijabcdefghijabcdefghijabcdefghijabcdefghij:1 --at 0 --listen a",
        "node abcdefghijabcdefghijabcdefghijabcdefghijabcdefghijabcdefghij:1 hermes-data/secret hermes at 0 abcdefghijabcdefghijabcdefghijabcdefghijabcdefghijabcdefghij:1 a:11211 hermes-data 1000 10 1",
    ),
];

#[test]
fn processes_are_read(rt: HostRuntime) {
    for (line, wanted) in &NODES {
        let told = told(rt.alloc(), line).expect(&rt, "memory");
        assert_eq!(rt; told.as_str(), *wanted);
    }
}

#[test]
fn groups_are_read(rt: HostRuntime) {
    for (line, wanted) in &GROUPS {
        let told = told(rt.alloc(), line).expect(&rt, "memory");
        assert_eq!(rt; told.as_str(), *wanted);
    }
}

#[test]
fn mistakes_are_told(rt: HostRuntime) {
    for (line, wanted) in &MISTAKES {
        let told = told(rt.alloc(), line).expect(&rt, "memory");
        assert_eq!(rt; told.as_str(), *wanted);
    }
}

#[test]
fn names_of_files_are_read(rt: HostRuntime) {
    for (line, wanted) in &PATHS {
        let told = told(rt.alloc(), line).expect(&rt, "memory");
        assert_eq!(rt; told.as_str(), *wanted);
    }
}

#[test]
fn first_words_name_commands(rt: HostRuntime) {
    let alloc = rt.alloc();
    for (line, wanted) in [
        ("node", Some(CommandName::Node)),
        ("init --hosts", Some(CommandName::Init)),
        ("status of what", Some(CommandName::Status)),
        ("leave --hosts a --at 0", Some(CommandName::Leave)),
        ("Node", None),
        ("--hosts node", None),
        ("", None),
    ] {
        let words = words_of(alloc, line).expect(&rt, "memory");
        assert_eq!(rt; named_command(words.as_slice()), wanted, "{line}");
    }
}
