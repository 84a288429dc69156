//! The command: a writer beside a watch.

ghost use Rattle.std.specs.Prelude.{◌≡◌, ◌*◌, ◌≤◌, ℕ, take, IfOk};
ghost use Rattle.std.specs.Io.KnownBytes.{Appends};
ghost use Rattle.hk_outside.specs.Causes.{Rose};
ghost use Rattle.hk_watching.specs.Watching.{watched_line, EndsWatch};

use crate::follower::{Follower, Told};
use crate::writer::KeyWriter;
use hk_base::{Memory, Stamp};
use hk_outside::{Sink, Status, write_all};
use itoa::Buffer;
use std::alloc::Global;
use std::sync::atomic::{AtomicBool, Ordering};
use std::sync::{Mutex, Wait};
use std::thread;
use std::thread::Threads;

// Writes the key so often, each time under the lock.
fn write_each<R: Wait>(
    rt: &R,
    alloc: Global,
    writer: &Mutex<KeyWriter>,
    writes: u32,
) -> Result<(), Memory> {
    for _write in 0..writes {
        writer.lock(rt).write(rt, alloc)?;
    }
    Ok(())
}

// Writes the key so often, and says that writing has ended, however it did.
fn write_to_end<R: Wait>(
    rt: &R,
    alloc: Global,
    writer: &Mutex<KeyWriter>,
    writes: u32,
    ended: &AtomicBool,
) -> Result<(), Memory> {
    let written = write_each(rt, alloc, writer, writes);
    ended.store(true, Ordering::SeqCst);
    written
}

// Writes the key so often while the follower looks, in a new thread, until writing has ended. Where no thread can be made, the looks come
// behind the writes. When this returns both have ended.
fn write_beside<R: Threads + Wait + Sync>(
    rt: &R,
    alloc: Global,
    writer: &Mutex<KeyWriter>,
    follower: &mut Follower,
    writes: u32,
) -> Result<(), Memory> {
    let ended = AtomicBool::new(false);
    let (followed, written) = thread::join(
        rt,
        || follower.follow(rt, alloc, &ended),
        || write_to_end(rt, alloc, writer, writes, &ended),
    );
    followed?;
    written
}

// Writes the key so often while the follower looks, and looks once more when that has ended.
fn follow_writes<R: Threads + Wait + Sync>(
    rt: &R,
    alloc: Global,
    writer: KeyWriter,
    follower: &mut Follower,
    writes: u32,
) -> Result<(), Memory> {
    let writer = Mutex::new(writer);
    write_beside(rt, alloc, &writer, follower, writes)?;
    follower.look(rt, alloc)
}

// What the follower is told of those writes.
fn told_of_writes<R: Threads + Wait + Sync>(
    rt: &R,
    alloc: Global,
    writer: KeyWriter,
    mut follower: Follower,
    writes: u32,
) -> Result<Told, Memory> {
    match follow_writes(rt, alloc, writer, &mut follower, writes) {
        Ok(()) => Ok(follower.told),
        Err(_) => Err(Memory),
    }
}

// What a new follower of the key is told of those writes.
fn told_of_writer<R: Threads + Wait + Sync>(
    rt: &R,
    alloc: Global,
    mut writer: KeyWriter,
    writes: u32,
) -> Result<Told, Memory> {
    match writer.follower(rt, alloc) {
        Ok(follower) => told_of_writes(rt, alloc, writer, follower, writes),
        Err(_) => Err(Memory),
    }
}

// What a watch of the key of a new shard is told while it is written so often.
fn told_beside_writes<R: Threads + Wait + Sync>(
    rt: &R,
    alloc: Global,
    writes: u32,
) -> Result<Told, Memory> {
    match KeyWriter::new(rt, alloc) {
        Ok(writer) => told_of_writer(rt, alloc, writer, writes),
        Err(_) => Err(Memory),
    }
}

// The line of the command.
fn line(alloc: Global, writes: u32) -> Result<Vec<u8>, Memory>
    ensures { IfOk result (λ text. text.items ≡ watched_line writes) }
{
    let mut buffer = Buffer::new();
    let mut text = Vec::from_slice(alloc, b"writes ")?;
    text.extend_from_slice(buffer.format(writes).as_bytes())?;
    text.extend_from_slice(b" last ")?;
    let last = 2 * u64::from(writes);
    text.extend_from_slice(buffer.format(last).as_bytes())?;
    text.extend_from_slice(b".0 rising\n")?;
    Ok(text)
}

// Whether each stamp that was told rose, and the last is that of the last write. By what `hk_watch` proves no other stamps are told.
fn rose_to_the_last(told: Told, writes: u32) -> bool {
    let last = Stamp {
        version: 2 * u64::from(writes),
        node: 0,
    };
    told.rises && told.last == last
}

// The line, once a watch was told what it says.
fn watched<R: Threads + Wait + Sync>(rt: &R, alloc: Global, writes: u32) -> Result<Vec<u8>, Memory>
    ensures { IfOk result (λ text. text.items ≡ watched_line writes) }
{
    let told = told_beside_writes(rt, alloc, writes)?;
    if !rose_to_the_last(told, writes) {
        return Err(Memory);
    }
    line(alloc, writes)
}

/// Writes a key so often in one thread while a watch of it looks in another, and then one line: how often it was written, and the last
/// stamp that the watch was told. All stamps that it was told rose.
///
/// Done: the line was written. Memory: there was none. WriteFault: the sink failed, or took nothing of a piece. The line is begun when
/// both threads have ended.
pub fn watch_writes<R: Threads + Wait + Copy + Send + Sync + 'static, K: Sink>(
    rt: R,
    alloc: Global,
    writes: u32,
    sink: &mut K,
) -> Status
    ensures ends { EndsWatch result }
    ensures done { result ≡ Status.Done → Appends (K.held sink.old) (K.held sink.new) (watched_line writes) }
    // Whatever the answer, what was written is a front of the line.
    ensures front { (n : ℕ) × Appends (K.held sink.old) (K.held sink.new) (take n (watched_line writes)) }
    ensures write_fault { result ≡ Status.WriteFault → Rose (K.faults sink.old) (K.faults sink.new) }
    ensures writes_later { K.faults sink.old ≤ K.faults sink.new }
{
    let Ok(text) = watched(&rt, alloc, writes) else {
        return Status::Memory;
    };
    match write_all(sink, text.as_slice()) {
        Ok(()) => Status::Done,
        Err(_) => Status::WriteFault,
    }
}
