//! Batches of rows in memory.

use crate::values::{content, key};
use hk_base::{CopyItem, Key, Kind, Stamp};
use hk_copy::{MemoryRows, PushFault, batch};
use std::alloc::Global;
use std::process::Abort;

fn row(rt: &impl Abort, alloc: Global, name: &[u8]) -> CopyItem {
    CopyItem {
        key: key(rt, alloc, name),
        stamp: Stamp {
            version: 2,
            node: 0,
        },
        kind: Kind::Write,
        valid: true,
        content: Some(content(rt, alloc, b"5")),
    }
}

// Asserts what a batch of one row behind a key gives, and whether it is the last.
fn check(
    rt: &impl Abort,
    alloc: Global,
    rows: &MemoryRows,
    name: &str,
    after: Option<&Key>,
    given: Option<&Key>,
    done: bool,
) {
    let batch = batch(alloc, rows, after, 1).expect(rt, "memory");
    assert_eq!(rt; batch.done, done, "{name}");
    assert!(rt; batch.items.get(0).map(|item| &item.key) == given, "{name}");
    assert!(rt; batch.items.get(1).is_none(), "{name}");
}

#[test]
fn gives_the_rows_one_by_one(rt: HostRuntime) {
    let alloc = rt.alloc();
    let mut rows = MemoryRows::new(alloc);
    rows.push(row(&rt, alloc, b"a")).expect(&rt, "a row");
    rows.push(row(&rt, alloc, b"b")).expect(&rt, "a row");
    let a = key(&rt, alloc, b"a");
    let b = key(&rt, alloc, b"b");
    let table = [
        ("from the start", None, Some(&a), false),
        ("behind a", Some(&a), Some(&b), true),
        ("behind b", Some(&b), None, true),
    ];
    for (name, after, given, done) in table {
        check(&rt, alloc, &rows, name, after, given, done);
    }
}

#[test]
fn refuses_a_row_that_is_not_behind(rt: HostRuntime) {
    let alloc = rt.alloc();
    let mut rows = MemoryRows::new(alloc);
    rows.push(row(&rt, alloc, b"b")).expect(&rt, "a row");
    let same = rows.push(row(&rt, alloc, b"b"));
    assert_eq!(rt; same, Err(PushFault::NotBehind), "the same key");
    let before = rows.push(row(&rt, alloc, b"a"));
    assert_eq!(rt; before, Err(PushFault::NotBehind), "a key before it");
    let batch = batch(alloc, &rows, None, 64).expect(&rt, "memory");
    assert_eq!(rt; (batch.done, batch.items.len()), (true, 1));
}
