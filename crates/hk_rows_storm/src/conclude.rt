//! What is written of the journals and notes of a storm of one node, one worker and one call, which is drawn from 1: a read of `k1`.

use hk_base::{
    Actor, Answer, Body, CallNo, Key, Letter, Letters, NodeId, Op, Reply, Sequence, Stamp,
};
use hk_journal::{Journal, JournalEntry};
use hk_merge::Note;
use hk_node::{NodeEvent, StepReplies};
use hk_outside::{MemorySink, Status};
use hk_storm::{StormGroup, StormGroups, StormOpts, are_groups, conclude, is_storm};
use std::alloc::Global;
use std::process::Abort;

pub fn key(rt: &impl Abort, alloc: Global, name: &[u8]) -> Key {
    Key::read(alloc, name).expect(rt, "a key")
}

fn entry(alloc: Global, ticket: u64, event: NodeEvent, replies: StepReplies) -> JournalEntry {
    JournalEntry {
        ticket,
        event,
        letters: Letters::new(alloc),
        replies,
    }
}

fn told_missing(call: u64) -> StepReplies {
    StepReplies::one(Reply {
        call: CallNo(call),
        answer: Answer::Missing,
    })
}

// A read of a key that holds nothing.
fn read_of(rt: &impl Abort, alloc: Global, ticket: u64, bytes: &[u8]) -> JournalEntry {
    let event = NodeEvent::Call {
        call: CallNo(ticket),
        key: key(rt, alloc, bytes),
        op: Op::Read,
    };
    entry(alloc, ticket, event, told_missing(ticket))
}

// A VAL of node 0 to itself.
fn val(rt: &impl Abort, alloc: Global) -> Letter {
    let stamp = Stamp {
        version: 2,
        node: 0,
    };
    let body = Body::Val {
        key: key(rt, alloc, b"k1"),
        stamp,
    };
    Letter {
        epoch: 1,
        from: Actor::Node(NodeId(0)),
        to: Actor::Node(NodeId(0)),
        body,
    }
}

// A VAL, which comes to node 0 though nobody sent it.
fn forged(rt: &impl Abort, alloc: Global) -> JournalEntry {
    let event = NodeEvent::Receive(val(rt, alloc));
    entry(alloc, 3, event, StepReplies::nothing())
}

// Nothing is waiting there, so nothing is sent.
fn resent(rt: &impl Abort, alloc: Global) -> JournalEntry {
    let event = NodeEvent::Resend(key(rt, alloc, b"k1"));
    entry(alloc, 1, event, StepReplies::nothing())
}

fn group(rt: &impl Abort, alloc: Global, journal: Journal) -> StormGroup {
    let mut journals = Sequence::new(alloc);
    journals.push(journal).expect(rt, "memory");
    StormGroup {
        journals,
        notes: Sequence::new(alloc),
    }
}

// The group with a note that a read of `k1` found nothing, by the step of this ticket.
fn noted(rt: &impl Abort, alloc: Global, mut group: StormGroup, ticket: u64) -> StormGroup {
    let note = Note {
        call: CallNo(9),
        node: NodeId(0),
        key: key(rt, alloc, b"k1"),
        own: 4,
        answer: Answer::Missing,
        ticket,
    };
    group.notes.push(note).expect(rt, "memory");
    group
}

// The group, and seven in which nothing happened.
fn eight(rt: &impl Abort, alloc: Global, first: StormGroup) -> StormGroups {
    let mut groups = Sequence::new(alloc);
    groups.push(first).expect(rt, "memory");
    for _group in 1..8 {
        let empty = group(rt, alloc, Sequence::new(alloc));
        groups.push(empty).expect(rt, "memory");
    }
    groups
}

// The group beside seven empty ones comes to this status and text.
fn comes_to(rt: &impl Abort, alloc: Global, first: StormGroup, status: Status, text: &[u8]) {
    let opts = StormOpts {
        start: 1,
        nodes: 1,
        workers: 1,
        calls: 1,
    };
    let groups = eight(rt, alloc, first);
    assert!(rt; is_storm(&opts));
    assert!(rt; are_groups(opts.nodes, groups.as_slice()));
    let mut sink = MemorySink::new(alloc, Vec::new(alloc));
    let told = conclude(alloc, &opts, &groups, &mut sink);
    assert!(rt; told == status);
    assert!(rt; sink.sink.bytes.as_slice() == text);
}

fn reads(rt: &impl Abort, alloc: Global, keys: &[&[u8]]) -> StormGroup {
    let mut journal = Sequence::new(alloc);
    let mut ticket = 0u64;
    for bytes in keys {
        ticket = ticket.saturating_add(1);
        let read = read_of(rt, alloc, ticket, bytes);
        journal.push(read).expect(rt, "memory");
    }
    group(rt, alloc, journal)
}

fn lone(rt: &impl Abort, alloc: Global, entry: JournalEntry) -> StormGroup {
    let mut journal = Sequence::new(alloc);
    journal.push(entry).expect(rt, "memory");
    group(rt, alloc, journal)
}

#[test]
fn empty_journals_lack_the_drawn_call(rt: HostRuntime) {
    let alloc = rt.alloc();
    let none = group(&rt, alloc, Sequence::new(alloc));
    comes_to(&rt, alloc, none, Status::Gap, b"gap calls 1 1 0\n");
}

#[test]
fn the_drawn_call_alone_is_done(rt: HostRuntime) {
    let alloc = rt.alloc();
    let read = reads(&rt, alloc, [b"k1".as_slice()].as_slice());
    let text = b"storm 1 1 1\nanswered 1 busy 0 aborted 0 open 0 legal\n";
    comes_to(&rt, alloc, read, Status::Done, text);
}

#[test]
fn a_read_without_a_lock_is_the_drawn_call(rt: HostRuntime) {
    let alloc = rt.alloc();
    let resent = resent(&rt, alloc);
    let group = noted(&rt, alloc, lone(&rt, alloc, resent), 1);
    let text = b"storm 1 1 1\nanswered 1 busy 0 aborted 0 open 0 legal\n";
    comes_to(&rt, alloc, group, Status::Done, text);
}

#[test]
fn a_call_made_twice_is_told(rt: HostRuntime) {
    let alloc = rt.alloc();
    let twice = [b"k1".as_slice(), b"k1".as_slice()];
    let reads = reads(&rt, alloc, twice.as_slice());
    comes_to(&rt, alloc, reads, Status::Gap, b"gap calls 1 1 2\n");
}

#[test]
fn a_call_that_was_not_drawn_is_told(rt: HostRuntime) {
    let alloc = rt.alloc();
    let other = [b"k1".as_slice(), b"k2".as_slice()];
    let reads = reads(&rt, alloc, other.as_slice());
    comes_to(&rt, alloc, reads, Status::Gap, b"gap calls 0 1 2\n");
}

#[test]
fn a_note_of_no_entry_is_told(rt: HostRuntime) {
    let alloc = rt.alloc();
    let none = group(&rt, alloc, Sequence::new(alloc));
    let noted = noted(&rt, alloc, none, 3);
    let text = b"gap note 9 3 missing none\n";
    comes_to(&rt, alloc, noted, Status::Gap, text);
}

#[test]
fn a_letter_that_nobody_sent_is_told(rt: HostRuntime) {
    let alloc = rt.alloc();
    let forged = forged(&rt, alloc);
    let group = lone(&rt, alloc, forged);
    comes_to(&rt, alloc, group, Status::Gap, b"gap letter 3 none\n");
}

// A letter stands beside the read, which sent none.
#[test]
fn a_letter_that_its_step_did_not_send_is_told(rt: HostRuntime) {
    let alloc = rt.alloc();
    let mut read = read_of(&rt, alloc, 1, b"k1");
    let letter = val(&rt, alloc);
    read.letters.push(letter).expect(&rt, "memory");
    let group = lone(&rt, alloc, read);
    comes_to(&rt, alloc, group, Status::Gap, b"gap entry 0 1\n");
}
