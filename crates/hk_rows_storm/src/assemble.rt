//! Journals and notes of two nodes.

use crate::conclude::key;
use hk_assemble::{Gap, assemble, tickets_rise};
use hk_base::{
    Actor, Answer, Body, CallNo, Content, Data, Kind, Letter, Letters, NodeId, Op, Reply, Sequence,
    Stamp,
};
use hk_event::Header;
use hk_journal::JournalEntry;
use hk_merge::{Journals, Note, Notes, same_letter};
use hk_node::{NodeEvent, StepReplies};
use hk_safety::{Run, order_of};
use hk_script::print_event;
use std::alloc::Global;
use std::process::Abort;

fn content(rt: &impl Abort, alloc: Global, bytes: &[u8]) -> Content {
    let bytes = Data::read(alloc, bytes).expect(rt, "memory");
    Content { flags: 0, bytes }
}

fn stamp() -> Stamp {
    Stamp {
        version: 2,
        node: 0,
    }
}

fn letter(from: u16, to: u16, body: Body) -> Letter {
    Letter {
        epoch: 1,
        from: Actor::Node(NodeId(from)),
        to: Actor::Node(NodeId(to)),
        body,
    }
}

fn inv(rt: &impl Abort, alloc: Global) -> Letter {
    let body = Body::Inv {
        key: key(rt, alloc, b"k"),
        stamp: stamp(),
        kind: Kind::Write,
        content: Some(content(rt, alloc, b"a")),
    };
    letter(0, 1, body)
}

fn ack(rt: &impl Abort, alloc: Global) -> Letter {
    let body = Body::Ack {
        key: key(rt, alloc, b"k"),
        stamp: stamp(),
        top: stamp(),
    };
    letter(1, 0, body)
}

fn val(rt: &impl Abort, alloc: Global) -> Letter {
    let body = Body::Val {
        key: key(rt, alloc, b"k"),
        stamp: stamp(),
    };
    letter(0, 1, body)
}

fn entry(
    rt: &impl Abort,
    alloc: Global,
    ticket: u64,
    event: NodeEvent,
    letter: Option<Letter>,
) -> JournalEntry {
    let mut letters = Letters::new(alloc);
    if let Some(letter) = letter {
        letters.push(letter).expect(rt, "memory");
    }
    JournalEntry {
        ticket,
        event,
        letters,
        replies: StepReplies::nothing(),
    }
}

fn call(rt: &impl Abort, alloc: Global) -> JournalEntry {
    let event = NodeEvent::Call {
        call: CallNo(1),
        key: key(rt, alloc, b"k"),
        op: Op::Write(content(rt, alloc, b"a")),
    };
    entry(rt, alloc, 1, event, Some(inv(rt, alloc)))
}

fn receipt(rt: &impl Abort, alloc: Global) -> JournalEntry {
    let event = NodeEvent::Receive(inv(rt, alloc));
    entry(rt, alloc, 2, event, Some(ack(rt, alloc)))
}

fn completion(rt: &impl Abort, alloc: Global) -> JournalEntry {
    let event = NodeEvent::Receive(ack(rt, alloc));
    let mut entry = entry(rt, alloc, 3, event, Some(val(rt, alloc)));
    entry.replies = StepReplies::one(Reply {
        call: CallNo(1),
        answer: Answer::Stored,
    });
    entry
}

// Node 0 writes, node 1 acknowledges, node 0 completes.
fn journals(rt: &impl Abort, alloc: Global) -> Journals {
    let mut first = Sequence::new(alloc);
    first.push(call(rt, alloc)).expect(rt, "memory");
    first.push(completion(rt, alloc)).expect(rt, "memory");
    let mut second = Sequence::new(alloc);
    second.push(receipt(rt, alloc)).expect(rt, "memory");
    let mut journals = Sequence::new(alloc);
    journals.push(first).expect(rt, "memory");
    journals.push(second).expect(rt, "memory");
    journals
}

// Of one entry, at node 0.
fn lone(rt: &impl Abort, alloc: Global, ticket: u64, event: NodeEvent) -> Journals {
    let mut first = Sequence::new(alloc);
    first
        .push(entry(rt, alloc, ticket, event, None))
        .expect(rt, "memory");
    let mut journals = Sequence::new(alloc);
    journals.push(first).expect(rt, "memory");
    journals.push(Sequence::new(alloc)).expect(rt, "memory");
    journals
}

fn notes(rt: &impl Abort, alloc: Global, bytes: &[u8]) -> Notes {
    let mut notes = Sequence::new(alloc);
    notes
        .push(Note {
            call: CallNo(9),
            node: NodeId(0),
            key: key(rt, alloc, b"k"),
            own: 4,
            answer: Answer::Found {
                content: content(rt, alloc, bytes),
                tag: 131_072,
            },
            ticket: 3,
        })
        .expect(rt, "memory");
    notes
}

fn assembled(
    rt: &impl Abort,
    alloc: Global,
    journals: &Journals,
    notes: &Notes,
) -> Result<Run, Gap> {
    assert!(rt; journals.len() == 2);
    assert!(rt; tickets_rise(journals.as_slice()));
    let header = Header {
        nodes: 2,
        managers: 0,
        lease: 1_000_000_000_000,
        skew: 0,
    };
    assemble(alloc, header, journals, notes)
}

fn events(rt: &impl Abort, alloc: Global, run: &Run) -> Vec<u8> {
    let mut text = Vec::new(alloc);
    for before in 0..run.len() {
        if let Some(event) = run.event(before + 1) {
            print_event(event, &mut text).expect(rt, "memory");
            text.push(b'\n').expect(rt, "memory");
        }
    }
    text
}

#[test]
fn a_write_and_a_local_read_are_one_run(rt: HostRuntime) {
    let alloc = rt.alloc();
    let journals = journals(&rt, alloc);
    let notes = notes(&rt, alloc, b"a");
    match assembled(&rt, alloc, &journals, &notes) {
        Ok(run) => {
            let text = events(&rt, alloc, &run);
            let lines = b"call 0 set k 0 a\ntake 1\ntake 2\ncall 0 get k\n";
            assert!(rt; text.as_slice() == lines.as_slice());
            let order = order_of(alloc, &run, &key(&rt, alloc, b"k")).expect(&rt, "memory");
            assert_eq!(rt; order.len(), 2);
        }
        Err(_) => assert!(rt; false),
    }
}

#[test]
fn a_note_that_was_told_something_else_is_told(rt: HostRuntime) {
    let alloc = rt.alloc();
    let journals = journals(&rt, alloc);
    let notes = notes(&rt, alloc, b"b");
    match assembled(&rt, alloc, &journals, &notes) {
        Err(
            Gap::Note {
                call,
                ticket,
                told,
                kept,
            },
        ) => {
            assert_eq!(rt; (call, ticket), (CallNo(9), 3));
            assert!(rt;
                told == Answer::Found {
                    content: content(&rt, alloc, b"b"),
                    tag: 131_072
                }
            );
            assert!(rt;
                kept == Some(Answer::Found {
                    content: content(&rt, alloc, b"a"),
                    tag: 131_072
                })
            );
        }
        _ => assert!(rt; false),
    }
}

#[test]
fn a_letter_that_nobody_sent_is_told(rt: HostRuntime) {
    let alloc = rt.alloc();
    let journals = lone(&rt, alloc, 3, NodeEvent::Receive(ack(&rt, alloc)));
    match assembled(&rt, alloc, &journals, &Notes::new(alloc)) {
        Err(Gap::Letter { taken, sent }) => assert_eq!(rt; (taken, sent), (3, None)),
        _ => assert!(rt; false),
    }
}

// Node 0 writes `a`, and its INV has `b`.
fn altered(rt: &impl Abort, alloc: Global) -> Journals {
    let event = NodeEvent::Call {
        call: CallNo(1),
        key: key(rt, alloc, b"k"),
        op: Op::Write(content(rt, alloc, b"a")),
    };
    let body = Body::Inv {
        key: key(rt, alloc, b"k"),
        stamp: stamp(),
        kind: Kind::Write,
        content: Some(content(rt, alloc, b"b")),
    };
    let mut first = Sequence::new(alloc);
    first
        .push(entry(rt, alloc, 1, event, Some(letter(0, 1, body))))
        .expect(rt, "memory");
    let mut journals = Sequence::new(alloc);
    journals.push(first).expect(rt, "memory");
    journals.push(Sequence::new(alloc)).expect(rt, "memory");
    journals
}

// Whether the letters are just this one.
fn is_just(letters: &Letters, letter: &Letter) -> bool {
    match letters.as_slice() {
        [only] => same_letter(only, letter),
        _ => false,
    }
}

#[test]
fn a_letter_that_its_step_did_not_send_is_told(rt: HostRuntime) {
    let alloc = rt.alloc();
    let journals = altered(&rt, alloc);
    match assembled(&rt, alloc, &journals, &Notes::new(alloc)) {
        Err(
            Gap::Entry {
                node,
                ticket,
                given: Some(given),
            },
        ) => {
            assert_eq!(rt; (node, ticket), (NodeId(0), 1));
            assert!(rt; is_just(&given.letters, &inv(&rt, alloc)));
            assert!(rt; given.replies.is_empty());
        }
        _ => assert!(rt; false),
    }
}

#[test]
fn a_tick_is_no_entry_of_such_a_run(rt: HostRuntime) {
    let alloc = rt.alloc();
    let journals = lone(&rt, alloc, 1, NodeEvent::Tick { now: 2 });
    match assembled(&rt, alloc, &journals, &Notes::new(alloc)) {
        Err(
            Gap::Entry {
                node,
                ticket,
                given,
            },
        ) => {
            assert_eq!(rt; (node, ticket), (NodeId(0), 1));
            assert!(rt; given.is_none());
        }
        _ => assert!(rt; false),
    }
}
