//! Reads three numbers from standard input, keeps as many watches of one key as the first says, and looks as often as the third says, by the first watches of all, as
//! many as the second says, in turn. Prints how many of the looks told a watcher. `bench/watch` measures it.
#![tactic(auto)]

use hk_base::{Key, Memory, Stamp};
use hk_snap::SnapReader;
use hk_watch::{Look, Notice, Seen, Watcher, Watches};
use hk_watching::KeyWriter;
use std::alloc::Global;
use std::io;
use std::sync::Wait;

// What is to be done.
#[derive(Clone, Copy, Debug)]
struct Plan {
    // How many watches are kept.
    count: u64,
    // How many of them look in turn.
    looking: u64,
    // How often one of them looks.
    looks: u64,
}

// Gives notice of what it is told.
#[derive(Drop)]
struct Noting;

impl Watcher for Noting {
    fn tell(&self, watch: u64, seen: &Seen) -> Result<Notice, Memory> {
        Ok(Notice {
            watch,
            stamp: seen.stamp,
        })
    }
}

// Keeps a watch of the key from the first stamp on.
fn keep(watches: &mut Watches<Noting>, watch: u64, key: Key) -> Result<(), Memory> {
    let from = Stamp {
        version: 0,
        node: 0,
    };
    match watches.watch(watch, key, from, Noting) {
        Ok(()) => Ok(()),
        Err(_) => Err(Memory),
    }
}

// Keeps so many watches of the key, numbered from 0 on.
fn keep_all(watches: &mut Watches<Noting>, key: &Key, count: u64) -> Result<(), Memory> {
    for watch in 0..count {
        keep(watches, watch, key.share()?)?;
    }
    Ok(())
}

// Looks as the plan says, and counts the looks that fired.
fn look_in_turn<R: Wait>(
    rt: &R,
    alloc: Global,
    watches: &mut Watches<Noting>,
    reader: &mut SnapReader,
    plan: Plan,
) -> Result<u64, Memory> {
    let mut fired: u64 = 0;
    let mut watch: u64 = 0;
    for _look in 0..plan.looks {
        if let Look::Fired(_) = watches.look(rt, alloc, reader, watch)? {
            fired = fired.saturating_add(1);
        }
        watch = watch.saturating_add(1);
        if watch >= plan.looking {
            watch = 0;
        }
    }
    Ok(fired)
}

// The looks that fired, of watches of the key.
fn looked<R: Wait>(
    rt: &R,
    alloc: Global,
    key: &Key,
    mut reader: SnapReader,
    plan: Plan,
) -> Result<u64, Memory> {
    let mut watches = Watches::new(alloc);
    match keep_all(&mut watches, key, plan.count) {
        Ok(()) => look_in_turn(rt, alloc, &mut watches, &mut reader, plan),
        Err(_) => Err(Memory),
    }
}

// A reader of what the writer wrote once.
fn reader_behind<R: Wait>(
    rt: &R,
    alloc: Global,
    writer: &mut KeyWriter,
) -> Result<SnapReader, Memory> {
    writer.write(rt, alloc)?;
    writer.reader(rt, alloc)
}

// The looks that fired, of watches of the key that was written once.
fn looked_behind<R: Wait>(
    rt: &R,
    alloc: Global,
    writer: &mut KeyWriter,
    plan: Plan,
) -> Result<u64, Memory> {
    let reader = reader_behind(rt, alloc, writer)?;
    looked(rt, alloc, &writer.key, reader, plan)
}

fn measured<R: Wait>(rt: &R, alloc: Global, plan: Plan) -> Result<u64, Memory> {
    let mut writer = KeyWriter::new(rt, alloc)?;
    looked_behind(rt, alloc, &mut writer, plan)
}

// The number on the next line of the input, 0 where there is none.
fn read_number<R: Input + Alloc>(rt: &R) -> io::Result<u64> {
    let mut line = String::new(rt.alloc());
    rt.read_line(&mut line)?;
    Ok(line.trim().parse::<u64>().unwrap_or(0))
}

fn main(rt: HostRuntime) -> io::Result<()> {
    let plan = Plan {
        count: read_number(&rt)?,
        looking: read_number(&rt)?,
        looks: read_number(&rt)?,
    };
    match measured(&rt, rt.alloc(), plan) {
        Ok(fired) => println!(rt; "fired {fired}"),
        Err(_) => println!(rt; "no memory"),
    }
}
