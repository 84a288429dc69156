//! With what a manager begins that finds a log: logs by words, a letter for each record, and what they give; also where they are cut or damaged.

ghost use Rattle.std.specs.Prelude.{◌≡◌, ◌≤◌, length, IfSome};
ghost use Rattle.hk_base.specs.View.{IsView};

use hk_base::{Actor, NodeId, View};
use hk_disk::FakeFile;
use hk_fields::{FoundingHosts, HostTickets, Ticket};
use hk_log::{Check, Entry, Founding, HEADER, PrintedRecord, print_record};
use hk_managing::{BeginFault, Begun, begin_manager};
use hk_restore::Terms;
use std::alloc::Global;

/// The only host of a group.
pub const TERMS: Terms = Terms {
    place: 0,
    managers: 1,
    lease: 1_000,
    skew: 10,
};

/// The tickets that its process drew.
pub const DRAWN: HostTickets = HostTickets {
    manager: Ticket([1; 16]),
    node: Ticket([2; 16]),
};

// The ticket in logs.
const LOGGED: Ticket = Ticket([7; 16]);

// So many hosts with the same tickets.
fn hosts(alloc: Global, count: u8) -> Option<FoundingHosts>
    ensures { IfSome result (λ hosts. length hosts ≡ count) }
{
    let mut hosts = FoundingHosts::new(alloc);
    for _host in 0..count {
        let host = HostTickets {
            manager: LOGGED,
            node: LOGGED,
        };
        if hosts.push(host).is_err() {
            return None;
        }
    }
    Some(hosts)
}

// The record of a founding of the last of so many hosts.
fn print_founding(alloc: Global, before: Check, count: u8, lease: u32) -> Option<PrintedRecord>
    requires some { 1 ≤ count }
    requires few { count ≤ 9 }
{
    let hosts = hosts(alloc, count)?;
    let founding = Founding {
        number: 5,
        place: count - 1,
        lease,
        skew: 10,
        hosts,
    };
    let entries = [Entry::Founded(founding)];
    print_record(alloc, before, &entries).ok()
}

fn print_opening(alloc: Global, before: Check) -> Option<PrintedRecord> {
    let entries = [Entry::Open];
    print_record(alloc, before, &entries).ok()
}

fn print_binding(alloc: Global, before: Check) -> Option<PrintedRecord> {
    let entries = [Entry::Bound {
        actor: Actor::Node(NodeId(1)),
        ticket: LOGGED,
    }];
    print_record(alloc, before, &entries).ok()
}

// The record of a letter: a founding, one of host 1 of 2, one with a lease of 400; an opening, and a binding.
fn print_word(alloc: Global, before: Check, word: u8) -> Option<PrintedRecord> {
    match word {
        b'f' => print_founding(alloc, before, 1, 1_000),
        b'h' => print_founding(alloc, before, 2, 1_000),
        b'l' => print_founding(alloc, before, 1, 400),
        b'o' => print_opening(alloc, before),
        _ => print_binding(alloc, before),
    }
}

// The log of these records.
fn log_of(alloc: Global, words: &str) -> Option<Vec<u8>> {
    let mut bytes = Vec::new(alloc);
    if bytes.extend_from_slice(&HEADER).is_err() {
        return None;
    }
    let mut before = Check(HEADER);
    for word in words.as_bytes() {
        let printed = print_word(alloc, before, *word)?;
        if bytes.extend_from_slice(&printed.bytes).is_err() {
            return None;
        }
        before = printed.check;
    }
    Some(bytes)
}

// With what a manager begins: the number of its founding, whether it is open, to whom manager 0 and node 1 are bound, and how many records there are.
#[derive(Clone, Copy, Debug, PartialEq, Eq)]
struct Told {
    founding: u64,
    is_open: bool,
    manager: Option<Ticket>,
    node: Option<Ticket>,
    records: u64,
}

fn tell(begun: &Begun) -> Told {
    Told {
        founding: begun.office.founding(),
        is_open: begun.office.takes_letters(),
        manager: begun.office.roll().bound(Actor::Manager(0)),
        node: begun.office.roll().bound(Actor::Node(NodeId(1))),
        records: begun.records,
    }
}

fn begin(alloc: Global, bytes: Vec<u8>) -> Option<Result<Told, BeginFault>> {
    let first = View::first(alloc, 1).ok()?;
    let file = FakeFile::new(bytes, Vec::new(alloc), 0);
    match begin_manager(alloc, file, TERMS, DRAWN, &first, 7) {
        Ok(start) => Some(Ok(tell(&start.begun))),
        Err(fault) => Some(Err(fault)),
    }
}

fn begins(alloc: Global, words: &str) -> Option<Result<Told, BeginFault>> {
    begin(alloc, log_of(alloc, words)?)
}

const NOTHING: Told = Told {
    founding: 0,
    is_open: false,
    manager: None,
    node: None,
    records: 0,
};

const FOUNDED: Told = Told {
    founding: 5,
    is_open: false,
    manager: Some(LOGGED),
    node: None,
    records: 1,
};

#[test]
fn a_manager_begins_by_its_log(rt: HostRuntime) {
    let alloc = rt.alloc();
    assert_eq!(rt; begin(alloc, Vec::new(alloc)), Some(Ok(NOTHING)));
    assert_eq!(rt; begins(alloc, ""), Some(Ok(NOTHING)));
    assert_eq!(rt; begins(alloc, "f"), Some(Ok(FOUNDED)));
    let opened = Told {
        is_open: true,
        records: 2,
        ..FOUNDED
    };
    assert_eq!(rt; begins(alloc, "fo"), Some(Ok(opened)));
    let bound = Told {
        is_open: true,
        node: Some(LOGGED),
        records: 3,
        ..FOUNDED
    };
    assert_eq!(rt; begins(alloc, "fob"), Some(Ok(bound)));
}

#[test]
fn logs_of_others_are_told(rt: HostRuntime) {
    let alloc = rt.alloc();
    let host = BeginFault::OfHost { host: 1, of: 2 };
    let terms = BeginFault::OtherTerms {
        lease: 400,
        skew: 10,
    };
    assert_eq!(rt; begins(alloc, "h"), Some(Err(host)));
    assert_eq!(rt; begins(alloc, "l"), Some(Err(terms)));
    let at = HEADER.len();
    assert_eq!(rt;
        begins(alloc, "o"),
        Some(Err(BeginFault::DoesNotReplay { at }))
    );
}

#[test]
fn a_torn_record_counts_for_nothing(rt: HostRuntime) {
    let alloc = rt.alloc();
    let mut bytes = log_of(alloc, "fo").expect(&rt, "memory");
    let _ = bytes.pop();
    assert_eq!(rt; begin(alloc, bytes), Some(Ok(FOUNDED)));
}

#[test]
fn faults_are_printed(rt: HostRuntime) {
    let alloc = rt.alloc();
    let told = format!(in alloc; "{}", BeginFault::OfHost { host: 1, of: 3 }).expect(&rt, "memory");
    assert_eq!(rt; told.as_str(), "is of host 1 of 3");
    let told = format!(in alloc;
        "{}",
        BeginFault::OtherTerms {
            lease: 400,
            skew: 10
        }
    )
    .expect(&rt, "memory");
    assert_eq!(rt; told.as_str(), "has lease 400 skew 10");
}
