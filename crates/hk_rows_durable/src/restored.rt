//! What a process begins with that finds a log: logs by words, a letter for each record, and what they give; also where
//! they are cut.

ghost use Rattle.std.specs.Prelude.{◌≡◌, ◌≤◌, length, IfSome};
ghost use Rattle.hk_base.specs.View.{IsView};

use hk_base::{Actor, Change, NodeId, View};
use hk_disk::{FakeFile, recover};
use hk_fields::Ticket;
use hk_log::{
    Check, Entry, Founding, FoundingHosts, HEADER, HostTickets, PrintedRecord, print_record,
};
use hk_restore::{RestoreFault, Restored, Terms, restore};
use std::alloc::Global;

const TERMS: Terms = Terms {
    place: 0,
    managers: 1,
    lease: 1_000,
    skew: 10,
};

const TICKET: Ticket = Ticket([7; 16]);

// So many hosts with the same tickets.
fn hosts(alloc: Global, count: u8) -> Option<FoundingHosts>
    ensures { IfSome result (λ hosts. length hosts ≡ count) }
{
    let mut hosts = FoundingHosts::new(alloc);
    for _host in 0..count {
        let host = HostTickets {
            manager: TICKET,
            node: TICKET,
        };
        if hosts.push(host).is_err() {
            return None;
        }
    }
    Some(hosts)
}

// The record of a founding of the last of so many hosts.
fn print_founding(
    alloc: Global,
    before: Check,
    number: u64,
    count: u8,
    lease: u32,
) -> Option<PrintedRecord>
    requires number { 1 ≤ number }
    requires some { 1 ≤ count }
    requires few { count ≤ 9 }
{
    let hosts = hosts(alloc, count)?;
    let founding = Founding {
        number,
        place: count - 1,
        lease,
        skew: 10,
        hosts,
    };
    let entries = [Entry::Founded(founding)];
    print_record(alloc, before, &entries).ok()
}

fn print_opening(alloc: Global, before: Check) -> Option<PrintedRecord> {
    let entries = [Entry::Open];
    print_record(alloc, before, &entries).ok()
}

fn print_binding(alloc: Global, before: Check) -> Option<PrintedRecord> {
    let entries = [Entry::Bound {
        actor: Actor::Node(NodeId(1)),
        ticket: TICKET,
    }];
    print_record(alloc, before, &entries).ok()
}

fn print_proposal(alloc: Global, before: Check, base: u64) -> Option<PrintedRecord> {
    let entries = [Entry::Propose {
        shard: 0,
        base,
        change: Change::Add,
    }];
    print_record(alloc, before, &entries).ok()
}

// The record of a letter: foundings 1 and 2, one of host 1 of 2, one with a lease of 400; an opening, a binding, a
// proposal on the first view and one on another.
fn print_word(alloc: Global, before: Check, word: u8) -> Option<PrintedRecord> {
    match word {
        b'f' => print_founding(alloc, before, 1, 1, 1_000),
        b'g' => print_founding(alloc, before, 2, 1, 1_000),
        b'h' => print_founding(alloc, before, 1, 2, 1_000),
        b'l' => print_founding(alloc, before, 1, 1, 400),
        b'o' => print_opening(alloc, before),
        b'b' => print_binding(alloc, before),
        b'p' => print_proposal(alloc, before, 1),
        _ => print_proposal(alloc, before, 2),
    }
}

// The log of these records.
fn log_of(alloc: Global, words: &str) -> Option<Vec<u8>> {
    let mut bytes = Vec::new(alloc);
    if bytes.extend_from_slice(&HEADER).is_err() {
        return None;
    }
    let mut before = Check(HEADER);
    for word in words.as_bytes() {
        let printed = print_word(alloc, before, *word)?;
        if bytes.extend_from_slice(&printed.bytes).is_err() {
            return None;
        }
        before = printed.check;
    }
    Some(bytes)
}

// The number of the founding, if there is one; whether the group is open; how many bindings there are, and how many
// records.
#[derive(Clone, Copy, Debug, PartialEq, Eq)]
struct Told {
    founding: Option<u64>,
    is_open: bool,
    bindings: usize,
    records: u64,
}

fn tell(restored: &Restored) -> Told {
    match &restored.group {
        Some(group) => Told {
            founding: Some(group.founding.number),
            is_open: group.is_open,
            bindings: group.bindings.len(),
            records: restored.records,
        },
        None => Told {
            founding: None,
            is_open: false,
            bindings: 0,
            records: restored.records,
        },
    }
}

// What the log of a file gives.
fn given(alloc: Global, bytes: Vec<u8>) -> Option<Result<Told, RestoreFault>> {
    let first = View::first(alloc, 1).ok()?;
    let recovered = recover(alloc, FakeFile::new(bytes, Vec::new(alloc), 0)).ok()?;
    let restored = restore(
        alloc,
        &TERMS,
        &first,
        recovered.records.as_slice(),
        &recovered.starts,
    );
    Some(match restored {
        Ok(restored) => Ok(tell(&restored)),
        Err(fault) => Err(fault),
    })
}

// What the log of these records gives.
fn gives(alloc: Global, words: &str) -> Option<Result<Told, RestoreFault>> {
    given(alloc, log_of(alloc, words)?)
}

fn group(
    founding: u64,
    is_open: bool,
    bindings: usize,
    records: u64,
) -> Option<Result<Told, RestoreFault>> {
    Some(Ok(Told {
        founding: Some(founding),
        is_open,
        bindings,
        records,
    }))
}

#[test]
fn logs_give_groups(rt: HostRuntime) {
    let alloc = rt.alloc();
    assert_eq!(rt;
        gives(alloc, ""),
        Some(Ok(Told {
            founding: None,
            is_open: false,
            bindings: 0,
            records: 0
        }))
    );
    assert_eq!(rt; gives(alloc, "f"), group(1, false, 0, 1));
    assert_eq!(rt; gives(alloc, "fg"), group(2, false, 0, 2));
    assert_eq!(rt; gives(alloc, "fobpb"), group(1, true, 2, 5));
    // what stands before a founding is of an earlier group
    assert_eq!(rt; gives(alloc, "fobpgo"), group(2, true, 0, 6));
}

#[test]
fn logs_of_others_are_told(rt: HostRuntime) {
    let alloc = rt.alloc();
    let host = RestoreFault::OfHost { host: 1, of: 2 };
    let terms = RestoreFault::OtherTerms {
        lease: 400,
        skew: 10,
    };
    assert_eq!(rt; gives(alloc, "fh"), Some(Err(host)));
    assert_eq!(rt; gives(alloc, "l"), Some(Err(terms)));
}

#[test]
fn what_does_not_replay_is_told(rt: HostRuntime) {
    let alloc = rt.alloc();
    for (words, at) in [
        ("o", 8),
        ("bf", 8),
        ("fp", 71),
        ("foo", 84),
        ("foq", 84),
        ("fopq", 109),
    ] {
        assert_eq!(rt;
            gives(alloc, words),
            Some(Err(RestoreFault::DoesNotReplay { at }))
        );
    }
}

#[test]
fn a_log_that_is_cut_gives_what_stands(rt: HostRuntime) {
    let alloc = rt.alloc();
    for len in 84..109 {
        let mut bytes = log_of(alloc, "fop").expect(&rt, "memory");
        bytes.truncate(len);
        assert_eq!(rt; given(alloc, bytes), group(1, true, 0, 2));
    }
}
