//! Given orders, and what the checker tells of them.

use hk_base::{Answer, CallNo, Content, Data, Memory, Op, Sequence};
use hk_history::{CheckFault, Entry, Event, Items, Rule, check_order, is_history};
use std::alloc::Global;

fn content(alloc: Global, bytes: &[u8]) -> Result<Content, Memory> {
    match Data::read(alloc, bytes) {
        Ok(bytes) => Ok(Content { flags: 0, bytes }),
        Err(_) => Err(Memory),
    }
}

// Call 1 writes `a` and is told Stored; call 2 reads, and is told this.
fn history(alloc: Global, read: Answer) -> Result<Items, Memory> {
    let mut items = Items::new(alloc);
    items.push(Event::Call {
        no: CallNo(1),
        op: Op::Write(content(alloc, b"a")?),
    })?;
    items.push(Event::Reply {
        no: CallNo(1),
        answer: Answer::Stored,
    })?;
    items.push(Event::Call {
        no: CallNo(2),
        op: Op::Read,
    })?;
    items.push(Event::Reply {
        no: CallNo(2),
        answer: read,
    })?;
    Ok(items)
}

fn entry(call: u64, tag: Option<u64>) -> Entry {
    Entry {
        call: CallNo(call),
        tag,
    }
}

// What the check of this order tells of that history.
fn checked(alloc: Global, read: Answer, entries: &[Entry]) -> Result<(), CheckFault> {
    let items = history(alloc, read)?;
    if !is_history(alloc, &items)? {
        return Err(CheckFault::Memory);
    }
    let Ok(entries) = entries.to_vec(alloc) else {
        return Err(CheckFault::Memory);
    };
    check_order(alloc, &items, &Sequence::from_vec(entries))
}

fn breach(rule: Rule, first: u64, second: u64) -> Result<(), CheckFault> {
    Err(CheckFault::Breach {
        rule,
        first,
        second,
    })
}

#[test]
fn the_first_broken_rule_is_told(rt: HostRuntime) {
    let alloc = rt.alloc();
    let written = entry(1, Some(131_072));
    let read = entry(2, None);
    assert!(rt; checked(alloc, Answer::Missing, &[read, written]) == breach(Rule::Early, 1, 2));
    assert!(rt; checked(alloc, Answer::Missing, &[written, read]) == breach(Rule::Answer, 2, 2));
    assert!(rt; checked(alloc, Answer::Missing, &[written]) == breach(Rule::Lacking, 2, 2));
    let found = Answer::Found {
        content: content(alloc, b"a").expect(&rt, "memory"),
        tag: 131_072,
    };
    assert!(rt; checked(alloc, found, &[written, read]) == Ok(()));
}
