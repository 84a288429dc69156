//! The command: writers beside a reader of several keys.

ghost use Rattle.std.specs.Prelude.{◌≡◌, ◌≤◌, IfOk};
ghost use Rattle.hk_outside.specs.Causes.{Rose};
ghost use Rattle.hk_joint_storm.specs.Keys.{storm_keys};
ghost use Rattle.hk_joint_storm.specs.Concluded.{AreFounds, IsJointStorm, EndsJointStorm};

use crate::ending::conclude_joint;
use crate::gaps::JointFounds;
use crate::keys::{KEYS, KeysWriter, storm_keys};
use crate::reading::JointReader;
use hk_base::{Key, Memory};
use hk_outside::{Clock, Sink, Status};
use std::alloc::Global;
use std::sync::{Mutex, Wait};
use std::thread;
use std::thread::Threads;

// Writes each key once.
fn write_once<R: Wait>(
    rt: &R,
    alloc: Global,
    writer: &mut KeysWriter,
    keys: &[Key],
) -> Result<(), Memory> {
    for key in keys {
        writer.write(rt, alloc, key)?;
    }
    Ok(())
}

// Makes so many writes, of the keys in turn, each under the lock.
fn write_often<R: Wait>(
    rt: &R,
    alloc: Global,
    writer: &Mutex<KeysWriter>,
    keys: &[Key],
    writes: u32,
) -> Result<(), Memory> {
    for write in 0..writes as usize {
        if let Some(key) = keys.get(write % KEYS) {
            writer.lock(rt).write(rt, alloc, key)?;
        }
    }
    Ok(())
}

// Whether all have written.
fn all_written(written: Vec<Result<(), Memory>>) -> Result<(), Memory> {
    for one in written {
        one?;
    }
    Ok(())
}

// Writes in so many threads.
fn write_in_threads<R: Threads + Wait + Sync>(
    rt: &R,
    alloc: Global,
    writer: &Mutex<KeysWriter>,
    keys: &[Key],
    workers: u8,
    writes: u32,
) -> Result<(), Memory> {
    let written = thread::map_indices(
        rt,
        alloc,
        usize::from(workers),
        &|_worker: usize| { write_often(rt, alloc, writer, keys, writes) },
    )?;
    all_written(written)
}

// Reads beside the writers, and once more when all of them have ended. What was found is given.
fn read_beside<R: Threads + Wait + Sync, C: Clock + Sync>(
    rt: &R,
    alloc: Global,
    writer: &Mutex<KeysWriter>,
    reader: &mut JointReader,
    keys: &[Key],
    workers: u8,
    reads: u32,
    clock: &C,
) -> Result<JointFounds, Memory>
    requires { keys.now ≡ storm_keys }
    ensures { IfOk result (λ founds. AreFounds reads founds) }
{
    let Some(beside) = reads.checked_sub(1) else {
        return Ok(JointFounds::new(alloc));
    };
    let read = || -> Result<JointFounds, Memory>
        requires { keys.now ≡ storm_keys }
        ensures { IfOk result (λ founds. AreFounds beside founds) }
    { reader.read_often(rt, alloc, clock, keys, beside) };
    let (founds, written) = thread::join(
        rt,
        read,
        || write_in_threads(rt, alloc, writer, keys, workers, reads),
    );
    let mut founds = founds?;
    written?;
    reader.read(rt, alloc, clock, keys, &mut founds)?;
    Ok(founds)
}

// What is left when the threads have ended.
#[derive(Drop)]
struct Left {
    writer: KeysWriter,
    founds: JointFounds,
}

// Lets the writer and the reader run, and gives what they leave.
fn run<R: Threads + Wait + Sync, C: Clock + Sync>(
    rt: &R,
    alloc: Global,
    writer: KeysWriter,
    mut reader: JointReader,
    keys: &[Key],
    workers: u8,
    reads: u32,
    clock: &C,
) -> Result<Left, Memory>
    requires { keys.now ≡ storm_keys }
    ensures { IfOk result (λ left. AreFounds reads left.founds) }
{
    let writer = Mutex::new(writer);
    match read_beside(rt, alloc, &writer, &mut reader, keys, workers, reads, clock) {
        Ok(founds) => Ok(Left {
            writer: writer.into_inner(),
            founds,
        }),
        Err(_) => Err(Memory),
    }
}

// Writes the keys once, and lets a new reader run beside the writer.
fn run_writer<R: Threads + Wait + Sync, C: Clock + Sync>(
    rt: &R,
    alloc: Global,
    mut writer: KeysWriter,
    keys: &[Key],
    workers: u8,
    reads: u32,
    clock: &C,
) -> Result<Left, Memory>
    requires { keys.now ≡ storm_keys }
    ensures { IfOk result (λ left. AreFounds reads left.founds) }
{
    let begun = begin(rt, alloc, &mut writer, keys);
    match begun {
        Ok(reader) => run(rt, alloc, writer, reader, keys, workers, reads, clock),
        Err(_) => Err(Memory),
    }
}

// Writes the keys once, and makes a reader of them.
fn begin<R: Wait>(
    rt: &R,
    alloc: Global,
    writer: &mut KeysWriter,
    keys: &[Key],
) -> Result<JointReader, Memory> {
    write_once(rt, alloc, writer, keys)?;
    let (cells, lease) = writer.reader(rt, alloc)?;
    Ok(JointReader { cells, lease })
}

// What the threads leave of a new shard.
fn run_all<R: Threads + Wait + Sync, C: Clock + Sync>(
    rt: &R,
    alloc: Global,
    workers: u8,
    reads: u32,
    clock: &C,
) -> Result<Left, Memory>
    ensures { IfOk result (λ left. AreFounds reads left.founds) }
{
    let keys = storm_keys(alloc)?;
    match KeysWriter::new(rt, alloc) {
        Ok(writer) => run_writer(rt, alloc, writer, keys.as_slice(), workers, reads, clock),
        Err(_) => Err(Memory),
    }
}

// What the joint reads come to by the shard's journal.
fn conclude<K: Sink>(
    alloc: Global,
    workers: u8,
    reads: u32,
    writer: &KeysWriter,
    founds: &JointFounds,
    sink: &mut K,
) -> Status
    requires { AreFounds reads founds.now }
    ensures ends { EndsJointStorm result }
    ensures exact { IsJointStorm result workers reads (K.held sink.old) (K.held sink.new) }
    ensures write_fault { result ≡ Status.WriteFault → Rose (K.faults sink.old) (K.faults sink.new) }
    ensures later { K.faults sink.old ≤ K.faults sink.new }
{
    let shard = writer.shard();
    let Ok(base) = shard.base(alloc) else {
        return Status::Memory;
    };
    // A shard's journal is a replay from its base.
    let _part = shard.part();
    conclude_joint(alloc, workers, reads, &base, shard.journal(), founds, sink)
}

/// Runs so many writers of four keys, each in a thread of its own and with as many writes as there are reads, beside a reader that reads all four together so often, the last time when
/// the writers are joined. What it found is placed by the shard's journal, and told as by [`conclude_joint`].
///
/// Memory: there was none; nothing was written.
pub fn joint_storm<R: Threads + Wait + Copy + Send + Sync + 'static, C: Clock + Sync, K: Sink>(
    rt: R,
    alloc: Global,
    workers: u8,
    reads: u32,
    clock: &C,
    sink: &mut K,
) -> Status
    ensures ends { EndsJointStorm result }
    ensures exact { IsJointStorm result workers reads (K.held sink.old) (K.held sink.new) }
    ensures write_fault { result ≡ Status.WriteFault → Rose (K.faults sink.old) (K.faults sink.new) }
    ensures later { K.faults sink.old ≤ K.faults sink.new }
{
    let Ok(left) = run_all(&rt, alloc, workers, reads, clock) else {
        return Status::Memory;
    };
    conclude(alloc, workers, reads, &left.writer, &left.founds, sink)
}
