//! The steps of the row.

ghost use Rattle.std.specs.Prelude.{◌<◌, IfOk};
ghost use Rattle.hk_node.specs.Sound.{IsNodeEvent};

use crate::opened::{Opened, SKEW};
use bytes_told::{put, put_bytes, put_number};
use hk_base::{CallNo, Content, Data, Key, Memory, Op};
use hk_journal::JournalEntry;
use hk_node::NodeEvent;
use hk_outside::HandClock;
use hk_shard::Shard;
use hk_snap::{Local, Shape, read_local};
use std::alloc::Global;
use std::sync::Wait;

/// How many steps there are.
pub const STEPS: u8 = 13;

// The cell of both keys.
const CELL: u8 = 13;

// More data than a cell shows.
const LONG: [u8; 1_001] = [b'x'; 1_001];

fn key_of(alloc: Global, bytes: &[u8]) -> Result<Key, Memory> {
    match Key::read(alloc, bytes) {
        Ok(key) => Ok(key),
        Err(_) => Err(Memory),
    }
}

fn content_of(alloc: Global, flags: u32, data: &[u8]) -> Result<Content, Memory> {
    match Data::read(alloc, data) {
        Ok(bytes) => Ok(Content { flags, bytes }),
        Err(_) => Err(Memory),
    }
}

fn write_of(
    alloc: Global,
    number: u64,
    key: &[u8],
    flags: u32,
    data: &[u8],
) -> Result<NodeEvent, Memory>
    ensures { IfOk result IsNodeEvent }
{
    let key = key_of(alloc, key)?;
    let content = content_of(alloc, flags, data)?;
    Ok(NodeEvent::Call {
        call: CallNo(number),
        key,
        op: Op::Write(content),
    })
}

// Makes the call of this number, which writes, under the ticket of the same number.
fn apply_write<R: Wait>(
    rt: &R,
    alloc: Global,
    shard: &mut Shard,
    number: u64,
    key: &[u8],
    flags: u32,
    data: &[u8],
) -> Result<(), Memory>
    requires { shard.old.last < number }
{
    let event = write_of(alloc, number, key, flags, data)?;
    match shard.apply(rt, alloc, number, event) {
        Ok(_) => Ok(()),
        Err(_) => Err(Memory),
    }
}

// The same, unless it was made.
fn write<R: Wait>(
    rt: &R,
    alloc: Global,
    opened: &mut Opened,
    number: u64,
    key: &[u8],
    flags: u32,
    data: &[u8],
    out: &mut Vec<u8>,
) -> Result<(), Memory> {
    if opened.shard.last_ticket() < number {
        apply_write(rt, alloc, &mut opened.shard, number, key, flags, data)?;
    }
    put(out, b"wrote ")?;
    put_number(out, number)?;
    put(out, b"\n")
}

fn put_found(out: &mut Vec<u8>, content: &Content, tag: u64, ticket: u64) -> Result<(), Memory> {
    put(out, b"found ")?;
    put_number(out, u64::from(content.flags))?;
    put_bytes(out, content.bytes.bytes())?;
    put(out, b" ")?;
    put_number(out, tag)?;
    put(out, b" ")?;
    put_number(out, ticket)?;
    put(out, b"\n")
}

fn put_local(out: &mut Vec<u8>, local: &Local) -> Result<(), Memory> {
    match local {
        Local::Found {
            content,
            tag,
            ticket,
        } => put_found(out, content, *tag, *ticket),
        Local::Missing { .. } => put(out, b"missing\n"),
        Local::Busy(_) => put(out, b"busy\n"),
        Local::Large => put(out, b"large\n"),
        Local::Elsewhere => put(out, b"elsewhere\n"),
    }
}

// Reads what the shard shows of the key, by a clock that stands at `at`.
fn read<R: Wait>(
    rt: &R,
    alloc: Global,
    opened: &mut Opened,
    at: u64,
    key: &[u8],
    out: &mut Vec<u8>,
) -> Result<(), Memory> {
    let key = key_of(alloc, key)?;
    let clock = HandClock { at };
    let local = read_local(
        rt,
        alloc,
        &mut opened.reader,
        &mut opened.lease,
        &clock,
        SKEW,
        &key,
    )?;
    put_local(out, &local)
}

fn put_shape(out: &mut Vec<u8>, shape: &Shape) -> Result<(), Memory> {
    match shape {
        Shape::Small(_) => put(out, b" small\n"),
        Shape::Large => put(out, b" large\n"),
        Shape::Missing => put(out, b" missing\n"),
    }
}

// What the cell shows.
fn show<R: Wait>(
    rt: &R,
    alloc: Global,
    opened: &mut Opened,
    out: &mut Vec<u8>,
) -> Result<(), Memory> {
    opened.reader.load(rt, CELL);
    match opened.reader.shown(alloc)? {
        Some(shown) => {
            put(out, b"shown")?;
            put_bytes(out, shown.key.bytes())?;
            put(out, b" ")?;
            put_number(out, shown.stamp.version)?;
            put(out, b" ")?;
            put_number(out, shown.ticket)?;
            put_shape(out, &shown.shape)
        }
        None => put(out, b"nothing shown\n"),
    }
}

// Tells the tickets of the entries.
fn put_tickets(out: &mut Vec<u8>, entries: &[JournalEntry]) -> Result<(), Memory> {
    put(out, b"entries")?;
    for entry in entries {
        put(out, b" ")?;
        put_number(out, entry.ticket)?;
    }
    put(out, b"\n")
}

// Hands the journal out, and tells the tickets of its entries.
fn hand_out(alloc: Global, shard: &mut Shard, out: &mut Vec<u8>) -> Result<(), Memory> {
    match shard.checkpoint(alloc) {
        Ok(journal) => put_tickets(out, journal.as_slice()),
        Err(_) => Err(Memory),
    }
}

/// Makes the step of this number, and tells what it answers.
pub fn make<R: Wait>(
    rt: &R,
    alloc: Global,
    opened: &mut Opened,
    step: u8,
    out: &mut Vec<u8>,
) -> Result<(), Memory> {
    match step {
        0 => show(rt, alloc, opened, out),
        1 => write(rt, alloc, opened, 1, b"k", 7, b"hello", out),
        2 => read(rt, alloc, opened, 990, b"k", out),
        3 => write(rt, alloc, opened, 2, b"yyy", 0, b"x", out),
        4 => read(rt, alloc, opened, 990, b"k", out),
        5 => read(rt, alloc, opened, 990, b"yyy", out),
        6 => write(rt, alloc, opened, 3, b"k", 0, &LONG, out),
        7 => read(rt, alloc, opened, 990, b"k", out),
        8 => read(rt, alloc, opened, 991, b"k", out),
        9 => show(rt, alloc, opened, out),
        10 => hand_out(alloc, &mut opened.shard, out),
        11 => hand_out(alloc, &mut opened.shard, out),
        _ => read(rt, alloc, opened, 990, b"yyy", out),
    }
}
