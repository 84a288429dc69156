//! Desks at one node's shards.

ghost use Rattle.std.specs.Prelude.{◌≡◌};
ghost use Rattle.hk_locked.specs.Places.{node_names};
ghost use Rattle.hk_worker.specs.Founding.{names_of};

use crate::completing::Quiet;
use crate::founding::{asked, content, desk, found, key, long_data, tells};
use hk_base::{Answer, Key, Op, Stamp, State, Why};
use hk_journal::{Journal, JournalEntry};
use hk_locked::Places;
use hk_node::NodeEvent;
use hk_outside::{Begun, Desk, DeskReply};
use hk_rows_shared::let_go;
use hk_worker::{Founded, Shards};
use std::alloc::Global;
use std::marker::Brand;
use std::process::Abort;
use std::sync::{Arc, Wait};

pub fn is_stored<R: Abort, D: Desk>(rt: &R, desk: &mut D, key: &Key, op: Op) -> bool {
    tells(rt, desk, key, op, DeskReply::Told(Answer::Stored))
}

// Whether a read finds the data under the tag.
pub fn finds<R: Abort, D: Desk>(rt: &R, desk: &mut D, key: &Key, data: &[u8], under: u64) -> bool {
    let reply = asked(rt, desk, key, Op::Read);
    let is_found = has_found(&reply, data, under);
    let_go(reply);
    is_found
}

// Whether the reply has the data under the tag.
fn has_found(reply: &DeskReply, data: &[u8], under: u64) -> bool {
    match reply {
        DeskReply::Told(Answer::Found { content, tag }) => {
            content.bytes.bytes() == data && *tag == under
        }
        _ => false,
    }
}

// How many entries the journal of shard 3 has, which is the key's.
pub fn entries<R: Wait, P: Places>(rt: &R, shards: &Shards<Quiet, P>) -> usize {
    shards.lock_of(3).lock(rt).journal().len()
}

// What the first stores the second finds, and what a third trims is gone from the journal.
fn two_desks<R: Wait + Abort + Copy + Drop, P: Places>(rt: R, alloc: Global, founded: Founded)
    requires { node_names P.places founded.node ≡ names_of founded }
{
    let shards: Arc<Shards<Quiet, P>> = Arc::new(alloc, founded.named()).expect(&rt, "memory");
    let mut first = desk(rt, alloc, &shards, 1);
    let mut second = desk(rt, alloc, &shards, 2);
    let mut third = desk(rt, alloc, &shards, 3);
    let k = key(&rt, alloc, b"k");
    let data = long_data(&rt, alloc);
    let write = Op::Write(content(&rt, alloc, data.as_slice()));
    assert!(rt; is_stored(&rt, &mut first, &k, write));
    assert!(rt; finds(&rt, &mut second, &k, data.as_slice(), 131_072));
    third.post.tick(&rt, 5).expect(&rt, "memory");
    assert_eq!(rt; entries(&rt, &shards), 3);
    third.post.trim(&rt, 4).expect(&rt, "memory");
    assert_eq!(rt; entries(&rt, &shards), 3);
    third.post.trim(&rt, 1).expect(&rt, "memory");
    assert_eq!(rt; entries(&rt, &shards), 0);
    let_go(first);
    let_go(second);
    let_go(third);
    let_go(k);
    let_go(data);
    let_go(shards);
}

#[test]
fn what_one_desk_stores_another_finds(rt: HostRuntime) {
    let alloc = rt.alloc();
    let founded = found(&rt, alloc, false);
    two_desks::<HostRuntime, Brand>(rt, alloc, founded);
}

// Whether this is the entry of a call that was answered at once and sent nothing.
fn is_told_call(entry: &JournalEntry, answer: &Answer) -> bool {
    let is_call = matches!(entry.event, NodeEvent::Call { .. });
    match entry.replies.as_slice() {
        [reply] => is_call && entry.letters.as_slice().is_empty() && reply.answer == *answer,
        _ => false,
    }
}

// Whether the journal has two entries, of which the second is that of a call that began nothing.
fn began_once(journal: &Journal, answer: &Answer) -> bool {
    match journal.as_slice() {
        [_first, second] => is_told_call(second, answer),
        _ => false,
    }
}

// An update that waits for a node which hears nothing is told as unknown, and begun once. What is told Busy of it has begun nothing.
fn told_begins_nothing<R: Wait + Abort + Copy + Drop, P: Places>(
    rt: R,
    alloc: Global,
    founded: Founded,
)
    requires { node_names P.places founded.node ≡ names_of founded }
{
    let shards: Arc<Shards<Quiet, P>> = Arc::new(alloc, founded.named()).expect(&rt, "memory");
    let mut desk = desk(rt, alloc, &shards, 1);
    let k = key(&rt, alloc, b"k");
    let write = Op::Write(content(&rt, alloc, b"1"));
    let unknown = DeskReply::Unknown { turns: 100_000 };
    assert!(rt; tells(&rt, &mut desk, &k, write, unknown));
    let busy = Answer::Busy(Why::Row {
        state: State::Write,
        stamp: Stamp {
            version: 2,
            node: 0,
        },
    });
    let told = asked(&rt, &mut desk, &k, Op::Incr(1));
    assert!(rt; began_once(shards.lock_of(3).lock(&rt).journal(), &busy));
    let wanted = DeskReply::Told(busy);
    assert!(rt; told == wanted);
    let_go(told);
    let_go(wanted);
    let_go(desk);
    let_go(k);
    let_go(shards);
}

#[test]
fn what_is_told_busy_has_begun_nothing(rt: HostRuntime) {
    let alloc = rt.alloc();
    let founded = found(&rt, alloc, true);
    told_begins_nothing::<HostRuntime, Brand>(rt, alloc, founded);
}

// Alone, a node tells Stored at once, and a tag that was told serves the next update.
fn stored_by_tag<R: Wait + Abort + Copy + Drop, P: Places>(rt: R, alloc: Global, founded: Founded)
    requires { node_names P.places founded.node ≡ names_of founded }
{
    let shards: Arc<Shards<Quiet, P>> = Arc::new(alloc, founded.named()).expect(&rt, "memory");
    let mut desk = desk(rt, alloc, &shards, 1);
    let k = key(&rt, alloc, b"k");
    let write = Op::Write(content(&rt, alloc, b"1"));
    assert!(rt; is_stored(&rt, &mut desk, &k, write));
    let cas = Op::Cas {
        tag: 131_072,
        content: content(&rt, alloc, b"2"),
    };
    assert!(rt; is_stored(&rt, &mut desk, &k, cas));
    let_go(desk);
    let_go(k);
    let_go(shards);
}

#[test]
fn a_tag_that_was_told_serves_the_next_update(rt: HostRuntime) {
    let alloc = rt.alloc();
    let founded = found(&rt, alloc, false);
    stored_by_tag::<HostRuntime, Brand>(rt, alloc, founded);
}

// What a write that begins comes to.
fn begun<R: Abort, D: Desk>(rt: &R, alloc: Global, desk: &mut D, key: &Key) -> Begun<D::Waits> {
    let write = Op::Write(content(rt, alloc, b"1"));
    let begun = desk.begin(key, &write).expect(rt, "memory");
    let_go(write);
    begun
}

// Whether it waits, and is told as unknown in the end.
fn ends_unknown<R: Abort, D: Desk>(rt: &R, desk: &mut D, begun: Begun<D::Waits>) -> bool {
    match begun {
        Begun::Told(reply) => {
            let_go(reply);
            false
        }
        Begun::Waits(waits) => {
            let reply = desk.finish(waits).expect(rt, "memory");
            let is_unknown = matches!(&reply, DeskReply::Unknown { turns: 100_000 });
            let_go(reply);
            is_unknown
        }
    }
}

// A write that waits for a node which hears nothing holds up no other key.
fn two_wait<R: Wait + Abort + Copy + Drop, P: Places>(rt: R, alloc: Global, founded: Founded)
    requires { node_names P.places founded.node ≡ names_of founded }
{
    let shards: Arc<Shards<Quiet, P>> = Arc::new(alloc, founded.named()).expect(&rt, "memory");
    let mut desk = desk(rt, alloc, &shards, 1);
    let first = key(&rt, alloc, b"k");
    let second = key(&rt, alloc, b"other");
    let third = key(&rt, alloc, b"third");
    let first_begun = begun(&rt, alloc, &mut desk, &first);
    let second_begun = begun(&rt, alloc, &mut desk, &second);
    let missing = DeskReply::Told(Answer::Missing);
    assert!(rt; tells(&rt, &mut desk, &third, Op::Read, missing));
    assert!(rt; ends_unknown(&rt, &mut desk, second_begun));
    assert!(rt; ends_unknown(&rt, &mut desk, first_begun));
    let_go(desk);
    let_go(first);
    let_go(second);
    let_go(third);
    let_go(shards);
}

#[test]
fn updates_wait_beside_each_other(rt: HostRuntime) {
    let alloc = rt.alloc();
    let founded = found(&rt, alloc, true);
    two_wait::<HostRuntime, Brand>(rt, alloc, founded);
}
