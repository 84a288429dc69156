//! Watches of a key that the only node of a group writes.

use hk_base::{CallNo, Content, Data, Key, Memory, Op, Stamp};
use hk_lone::lone_shard;
use hk_node::NodeEvent;
use hk_shard::Shard;
use hk_snap::SnapReader;
use hk_watch::{Look, Notice, Notices, Seen, WatchCall, WatchCalls, WatchFault, Watcher, Watches};
use std::alloc::Global;
use std::process::Abort;
use std::sync::Wait;
use std::sync::atomic::{AtomicBool, Ordering};

const NEVER: Stamp = Stamp {
    version: 0,
    node: 0,
};

// Gives notice of what it is told.
#[derive(Drop)]
struct Noting;

impl Watcher for Noting {
    fn tell(&self, watch: u64, seen: &Seen) -> Result<Notice, Memory> {
        Ok(Notice {
            watch,
            stamp: seen.stamp,
        })
    }
}

// Finds no memory when it is told for the first time.
#[derive(Drop)]
struct Wanting {
    was_told: AtomicBool,
}

impl Watcher for Wanting {
    fn tell(&self, watch: u64, seen: &Seen) -> Result<Notice, Memory> {
        if self.was_told.swap(true, Ordering::SeqCst) {
            return Ok(Notice {
                watch,
                stamp: seen.stamp,
            });
        }
        Err(Memory)
    }
}

// A shard of the only node of a group, and a reader of its cells.
fn shown_shard<R: Wait>(rt: &R, alloc: Global) -> Result<(Shard, SnapReader), Memory> {
    let mut shard = lone_shard(rt, alloc, 1000, 10)?;
    let (reader, _lease) = shard.reader(rt, alloc)?;
    Ok((shard, reader))
}

fn key(rt: &impl Abort, alloc: Global) -> Key {
    Key::read(alloc, b"k").expect(rt, "a key")
}

// A Write of so many bytes.
fn op(rt: &impl Abort, alloc: Global, len: usize) -> Op {
    let bytes = vec![in alloc; b'a'; len].expect(rt, "memory");
    let bytes = Data::read(alloc, bytes.as_slice()).expect(rt, "data");
    Op::Write(Content { flags: 0, bytes })
}

// Writes so many bytes to the key.
fn write<R: Wait + Abort>(rt: &R, alloc: Global, shard: &mut Shard, len: usize) {
    let ticket = shard.last_ticket().checked_add(1).expect(rt, "a ticket");
    let event = NodeEvent::Call {
        call: CallNo(ticket),
        key: key(rt, alloc),
        op: op(rt, alloc, len),
    };
    shard.apply(rt, alloc, ticket, event).expect(rt, "memory");
}

// The shard of the only node of a group, which writes `k`, with watch 1 of that key.
#[derive(Drop)]
struct Watched<F: Watcher + Drop> {
    shard: Shard,
    reader: SnapReader,
    watches: Watches<F>,
}

fn watched_by<F: Watcher + Drop, R: Wait + Abort>(rt: &R, alloc: Global, done: F) -> Watched<F> {
    let (shard, reader) = shown_shard(rt, alloc).expect(rt, "memory");
    let mut it = Watched {
        shard,
        reader,
        watches: Watches::new(alloc),
    };
    it.watch(rt, alloc, done);
    it
}

impl<F: Watcher + Drop> Watched<F> {
    // Whether the answer was that the watch is kept already.
    fn watch(&mut self, rt: &impl Abort, alloc: Global, done: F) -> bool {
        matches!(
            &self.watches.watch(1, key(rt, alloc), NEVER, done),
            Err(WatchFault::Kept(_))
        )
    }

    fn look<R: Wait>(&mut self, rt: &R, alloc: Global) -> Result<Look, Memory> {
        self.watches.look(rt, alloc, &mut self.reader, 1)
    }

    fn write<R: Wait + Abort>(&mut self, rt: &R, alloc: Global, len: usize) {
        write(rt, alloc, &mut self.shard, len);
    }

    fn end(&mut self) -> bool {
        self.watches.end(1)
    }
}

// The notices of the five calls, on a shard that wrote `k` once.
fn run_five<R: Wait + Abort>(rt: &R, alloc: Global) -> Notices {
    let (mut shard, mut reader) = shown_shard(rt, alloc).expect(rt, "memory");
    write(rt, alloc, &mut shard, 1);
    run(rt, alloc, &mut reader, five_calls(rt, alloc))
}

fn run<R: Wait + Abort>(
    rt: &R,
    alloc: Global,
    reader: &mut SnapReader,
    calls: WatchCalls<Noting>,
) -> Notices {
    let mut watches = Watches::new(alloc);
    watches.run(rt, alloc, reader, calls).expect(rt, "memory")
}

fn stamp(version: u64) -> Stamp {
    Stamp { version, node: 0 }
}

fn fired(version: u64) -> Result<Look, Memory> {
    Ok(Look::Fired(notice(version)))
}

fn notice(version: u64) -> Notice {
    Notice {
        watch: 1,
        stamp: stamp(version),
    }
}

// Watch 1, two looks, its end, and a look.
fn five_calls(rt: &impl Abort, alloc: Global) -> WatchCalls<Noting> {
    let mut calls = WatchCalls::new(alloc);
    let watch = WatchCall::Watch {
        watch: 1,
        key: key(rt, alloc),
        from: NEVER,
        done: Noting,
    };
    calls.push(watch).expect(rt, "memory");
    for call in [
        WatchCall::Look { watch: 1 },
        WatchCall::Look { watch: 1 },
        WatchCall::End { watch: 1 },
        WatchCall::Look { watch: 1 },
    ] {
        calls.push(call).expect(rt, "memory");
    }
    calls
}

#[test]
fn a_watch_is_told_what_a_look_finds_above_its_last_stamp(rt: HostRuntime) {
    let alloc = rt.alloc();
    let mut k = watched_by(&rt, alloc, Noting);
    assert_eq!(rt; k.look(&rt, alloc), Ok(Look::Elsewhere));
    k.write(&rt, alloc, 1);
    assert_eq!(rt; k.look(&rt, alloc), fired(2));
    assert_eq!(rt; k.look(&rt, alloc), Ok(Look::Old { stamp: stamp(2) }));
    k.write(&rt, alloc, 1);
    k.write(&rt, alloc, 1);
    assert_eq!(rt; k.look(&rt, alloc), fired(6));
    k.write(&rt, alloc, 1_001);
    assert_eq!(rt; k.look(&rt, alloc), Ok(Look::Large { stamp: stamp(8) }));
    assert!(rt; k.watch(&rt, alloc, Noting));
    assert!(rt; k.end());
    assert_eq!(rt; k.look(&rt, alloc), Ok(Look::NoWatch));
}

#[test]
fn a_run_of_calls_gives_the_notices_that_were_fired(rt: HostRuntime) {
    let notices = run_five(&rt, rt.alloc());
    assert_eq!(rt; notices.as_slice(), [notice(2)].as_slice());
}

#[test]
fn a_look_after_one_that_found_no_memory_tells_the_same_stamp(rt: HostRuntime) {
    let alloc = rt.alloc();
    let wanting = Wanting {
        was_told: AtomicBool::new(false),
    };
    let mut k = watched_by(&rt, alloc, wanting);
    k.write(&rt, alloc, 1);
    assert_eq!(rt; k.look(&rt, alloc), Err(Memory));
    assert_eq!(rt; k.look(&rt, alloc), fired(2));
}
