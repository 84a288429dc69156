//! Keys, contents, views and letters, shared and copied.

use hk_base::{
    Actor, Answer, Body, Content, CopyItem, CopyItems, Data, Key, Kind, Letter, Members, NodeId,
    Op, Stamp, View,
};
use hk_rows_shared::let_go;
use std::alloc::Global;
use std::process::Abort;

#[test]
fn reads_keys_and_shares_them(rt: HostRuntime) {
    let key = Key::read(rt.alloc(), b"user:7").expect(&rt, "memory");
    assert_eq!(rt; key.bytes(), b"user:7".as_slice());
    let same = key.share().expect(&rt, "memory");
    assert!(rt; same == key);
}

// Asserts that an operation is shared.
fn check_operation(rt: &impl Abort, op: &Op) {
    let same = op.share().expect(rt, "memory");
    assert!(rt; same == *op);
    let_go(same);
}

// Asserts that an answer is shared.
fn check_answer(rt: &impl Abort, answer: &Answer) {
    let same = answer.share().expect(rt, "memory");
    assert!(rt; same == *answer);
    let_go(same);
}

#[test]
fn shares_contents_operations_and_answers(rt: HostRuntime) {
    let bytes = Data::read(rt.alloc(), b"hello").expect(&rt, "memory");
    let content = Content { flags: 7, bytes };
    let same = content.share().expect(&rt, "memory");
    let op = Op::Write(same);
    check_operation(&rt, &op);
    let_go(op);
    let answer = Answer::Found { content, tag: 5 };
    check_answer(&rt, &answer);
    let_go(answer);
}

#[test]
fn lists_and_views(rt: HostRuntime) {
    let alloc = rt.alloc();
    let mut members = Members::new(alloc);
    assert!(rt; members.is_empty());
    members.push(NodeId(3)).expect(&rt, "memory");
    let view = View {
        epoch: 2,
        members,
        next: 4,
    };
    let copy = view.copy(alloc).expect(&rt, "memory");
    assert_eq!(rt; copy.members.len(), 1);
    assert_eq!(rt; copy.members.get(0), Some(&NodeId(3)));
    assert_eq!(rt; copy.members.into_vec().as_slice(), [NodeId(3)].as_slice());
}

fn is_last_batch_of(body: &Body, count: usize) -> bool {
    match body {
        Body::CopyGive { done, items, .. } => *done && items.len() == count,
        _ => false,
    }
}

// A row that holds nothing.
fn empty_row(rt: &impl Abort, alloc: Global) -> CopyItem {
    CopyItem {
        key: Key::read(alloc, b"k").expect(rt, "memory"),
        stamp: Stamp {
            version: 2,
            node: 1,
        },
        kind: Kind::Write,
        valid: true,
        content: None,
    }
}

// The last batch of a copy, with this row.
fn last_batch(rt: &impl Abort, alloc: Global, row: CopyItem) -> Letter {
    let mut items = CopyItems::new(alloc);
    items.push(row).expect(rt, "memory");
    Letter {
        epoch: 2,
        from: Actor::Node(NodeId(1)),
        to: Actor::Node(NodeId(3)),
        body: Body::CopyGive {
            after: None,
            done: true,
            items,
        },
    }
}

#[test]
fn shares_letters(rt: HostRuntime) {
    let alloc = rt.alloc();
    let letter = last_batch(&rt, alloc, empty_row(&rt, alloc));
    let same = letter.share(alloc).expect(&rt, "memory");
    assert_eq!(rt; (same.epoch, same.to), (2, Actor::Node(NodeId(3))));
    assert!(rt; is_last_batch_of(&same.body, 1));
    let_go(letter);
    let_go(same);
}
