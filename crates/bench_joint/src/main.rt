//! Reads two numbers from standard input, and reads four keys of a shard that were written once, as often as the second says: together from their cells where the first is 0, and
//! under a lock from their rows where it is another. Prints how often all four were found. `bench/joint` measures it.
#![tactic(auto)]

use hk_base::{Content, Key, Memory, share_content};
use hk_joint_reads::{Joint, read_joint};
use hk_joint_storm::{KeysWriter, storm_keys};
use hk_outside::HandClock;
use hk_snap::{LeaseCell, SnapReader};
use std::alloc::Global;
use std::io;
use std::sync::{Mutex, Wait};

// What is to be done.
#[derive(Clone, Copy, Debug)]
struct Plan {
    // Whether the keys are read under the lock.
    is_locked: bool,
    // How often they are read.
    reads: u64,
}

// Whether all keys are found together.
fn is_found<R: Wait>(
    rt: &R,
    alloc: Global,
    reader: &mut SnapReader,
    lease: &mut LeaseCell,
    keys: &[Key],
) -> Result<bool, Memory> {
    let clock = HandClock { at: 1 };
    let joint = read_joint(rt, alloc, reader, lease, &clock, 0, keys)?;
    Ok(matches!(joint, Joint::Found(_)))
}

// How often all keys are found together.
fn read_together<R: Wait>(
    rt: &R,
    alloc: Global,
    reader: &mut SnapReader,
    lease: &mut LeaseCell,
    keys: &[Key],
    reads: u64,
) -> Result<u64, Memory> {
    let mut found: u64 = 0;
    for _read in 0..reads {
        if is_found(rt, alloc, reader, lease, keys)? {
            found = found.saturating_add(1);
        }
    }
    Ok(found)
}

// What the key holds, by its row.
fn content_of(writer: &KeysWriter, key: &Key) -> Result<Option<Content>, Memory> {
    match writer.shard().part().row(key) {
        Some(row) => share_content(&row.content),
        None => Ok(None),
    }
}

// What the keys hold, by their rows.
fn contents_of(alloc: Global, writer: &KeysWriter, keys: &[Key]) -> Result<Vec<Content>, Memory> {
    let mut contents = Vec::new(alloc);
    for key in keys {
        if let Some(content) = content_of(writer, key)? {
            contents.push(content)?;
        }
    }
    Ok(contents)
}

// What the keys hold, read under the lock.
fn locked_contents<R: Wait>(
    rt: &R,
    alloc: Global,
    writer: &Mutex<KeysWriter>,
    keys: &[Key],
) -> Result<Vec<Content>, Memory> {
    let held = &*writer.lock(rt);
    contents_of(alloc, held, keys)
}

// How often all keys are found under the lock.
fn read_locked<R: Wait>(
    rt: &R,
    alloc: Global,
    writer: &Mutex<KeysWriter>,
    keys: &[Key],
    reads: u64,
) -> Result<u64, Memory> {
    let mut found: u64 = 0;
    for _read in 0..reads {
        if locked_contents(rt, alloc, writer, keys)?.len() == keys.len() {
            found = found.saturating_add(1);
        }
    }
    Ok(found)
}

// A reader of what the writer writes once of each key.
fn reader_behind<R: Wait>(
    rt: &R,
    alloc: Global,
    writer: &Mutex<KeysWriter>,
    keys: &[Key],
) -> Result<(SnapReader, LeaseCell), Memory> {
    let held = &mut *writer.lock(rt);
    for key in keys {
        held.write(rt, alloc, key)?;
    }
    held.reader(rt, alloc)
}

// How often all keys are found, as the plan says.
fn measured_behind<R: Wait>(
    rt: &R,
    alloc: Global,
    writer: &Mutex<KeysWriter>,
    keys: &[Key],
    plan: Plan,
) -> Result<u64, Memory> {
    let (mut reader, mut lease) = reader_behind(rt, alloc, writer, keys)?;
    if plan.is_locked {
        return read_locked(rt, alloc, writer, keys, plan.reads);
    }
    read_together(rt, alloc, &mut reader, &mut lease, keys, plan.reads)
}

fn measured<R: Wait>(rt: &R, alloc: Global, plan: Plan) -> Result<u64, Memory> {
    let keys = storm_keys(alloc)?;
    let writer = Mutex::new(KeysWriter::new(rt, alloc)?);
    measured_behind(rt, alloc, &writer, keys.as_slice(), plan)
}

// The number on the next line of the input, 0 where there is none.
fn read_number<R: Input + Alloc>(rt: &R) -> io::Result<u64> {
    let mut line = String::new(rt.alloc());
    rt.read_line(&mut line)?;
    Ok(line.trim().parse::<u64>().unwrap_or(0))
}

fn main(rt: HostRuntime) -> io::Result<()> {
    let plan = Plan {
        is_locked: read_number(&rt)? != 0,
        reads: read_number(&rt)?,
    };
    match measured(&rt, rt.alloc(), plan) {
        Ok(found) => println!(rt; "found {found}"),
        Err(_) => println!(rt; "no memory"),
    }
}
