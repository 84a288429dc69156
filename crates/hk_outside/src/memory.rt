//! Sources and sinks in memory.

ghost use Rattle.std.specs.Prelude.{◌≡◌, ◌↔◌, ◌≤◌, ◌<◌, ◌+◌, ◌-◌, ◌^◌, min, Some, drop, take, length, [], refl, IsOk, IsErr, IfOk, Contains};
ghost use Rattle.std.specs.Io.{ReadsAtMost, WritesAtMost};
ghost use Rattle.std.specs.Io.KnownBytes.{ReadConsumes, WriteAppends};
ghost use Rattle.hk_outside.specs.Causes.{HasCause, Rose};

use crate::stream::{Connection, Failed, Sink, Source};
use std::alloc::Global;

// Copies the front of the rest into the front of the room, as much as fits, and answers how much.
fn copy_front(rest: &[u8], room: &mut [u8]) -> usize
    ensures count { result ≡ min (length rest.now) (length room.new) }
    ensures same { take result room.new ≡ take result rest.now }
    ensures full { result ≡ 0 → 0 < length room.new → rest.now ≡ [] }
{
    let count = rest.len().min(room.len());
    room[..count].copy_from_slice(&rest[..count]);
    count
}

/// Bytes in memory that are read without a fault.
#[derive(Drop)]
pub struct SureSource {
    pub bytes: Vec<u8>,
    /// How many of the bytes were read.
    pub at: usize,
    ghost within: { at ≤ length bytes.items },
}

impl SureSource {
    pub fn new(bytes: Vec<u8>) -> SureSource
        ensures bytes { result.bytes ≡ bytes }
        ensures at { result.at ≡ 0 }
    {
        SureSource { bytes, at: 0 }
    }
}

impl Source for SureSource {
    ghost left = { λ source. Some (drop source.at source.bytes.items) };

    ghost faults = { λ source. 0 };

    ghost beside = { λ source. (Some [], 0) };

    fn read(&mut self, room: &mut [u8]) -> Result<usize, Failed>
        ensures within { ReadsAtMost result room.new }
        ensures bytes { ReadConsumes (Some (drop self.old.at self.old.bytes.items)) (Some (drop self.new.at self.new.bytes.items)) result room.new }
        ensures cause { HasCause 0 0 result }
        ensures sure { IsOk result }
    {
        let count = copy_front(&self.bytes[self.at..], room);
        self.at += count;
        Ok(count)
    }
}

/// Bytes in memory, and the numbers of the reads that fail, counted from 0.
#[derive(Drop)]
pub struct MemorySource {
    pub source: SureSource,
    pub fails: Vec<u64>,
    pub reads: u64,
    pub faults: u64,
}

impl MemorySource {
    pub fn new(bytes: Vec<u8>, fails: Vec<u64>) -> MemorySource
        ensures bytes { result.source.bytes ≡ bytes }
        ensures at { result.source.at ≡ 0 }
        ensures fails { result.fails ≡ fails }
        ensures reads { result.reads ≡ 0 }
        ensures faults { result.faults ≡ 0 }
    {
        MemorySource {
            source: SureSource::new(bytes),
            fails,
            reads: 0,
            faults: 0,
        }
    }
}

impl Source for MemorySource {
    ghost left = { λ s. Some (drop s.source.at s.source.bytes.items) };

    ghost faults = { λ s. s.faults };

    ghost beside = { λ s. (Some [], 0) };

    fn read(&mut self, room: &mut [u8]) -> Result<usize, Failed>
        ensures within { ReadsAtMost result room.new }
        ensures bytes { ReadConsumes (Some (drop self.old.source.at self.old.source.bytes.items)) (Some (drop self.new.source.at self.new.source.bytes.items)) result room.new }
        ensures cause { HasCause self.old.faults self.new.faults result }
        ensures fails { IsErr result ↔ Contains self.old.fails.items self.old.reads }
        ensures reads { (self.new.fails ≡ self.old.fails) × (self.new.reads ≡ min (self.old.reads + 1) (2 ^ 64 - 1)) }
    {
        let number = self.reads;
        self.reads = number.saturating_add(1);
        if self.fails.contains(&number) {
            self.faults = self.faults.saturating_add(1);
            return Err(Failed);
        }
        self.source.read(room)
    }
}

/// A sink in memory that fails only for want of memory.
#[derive(Drop)]
pub struct SureSink {
    pub bytes: Vec<u8>,
    pub faults: u64,
}

impl SureSink {
    pub fn new(alloc: Global) -> SureSink
        ensures bytes { result.bytes.items ≡ [] }
        ensures faults { result.faults ≡ 0 }
    {
        SureSink {
            bytes: Vec::new(alloc),
            faults: 0,
        }
    }
}

impl Sink for SureSink {
    ghost held = { λ sink. Some sink.bytes.items };

    ghost faults = { λ sink. sink.faults };

    ghost beside = { λ sink. (Some [], 0) };

    fn write(&mut self, piece: &[u8]) -> Result<usize, Failed>
        ensures within { WritesAtMost result piece.now }
        ensures bytes { WriteAppends (Some self.old.bytes.items) (Some self.new.bytes.items) result piece.now }
        ensures cause { HasCause self.old.faults self.new.faults result }
        ensures whole { IfOk result (λ count. count ≡ length piece.now) }
    {
        match self.bytes.extend_from_slice(piece) {
            Ok(()) => Ok(piece.len()),
            Err(_) => {
                self.faults = self.faults.saturating_add(1);
                Err(Failed)
            }
        }
    }
}

/// A sink in memory, and the numbers of the writes that fail, counted from 0.
#[derive(Drop)]
pub struct MemorySink {
    pub sink: SureSink,
    pub fails: Vec<u64>,
    pub writes: u64,
}

impl MemorySink {
    pub fn new(alloc: Global, fails: Vec<u64>) -> MemorySink
        ensures bytes { result.sink.bytes.items ≡ [] }
        ensures faults { result.sink.faults ≡ 0 }
        ensures fails { result.fails ≡ fails }
        ensures writes { result.writes ≡ 0 }
    {
        MemorySink {
            sink: SureSink::new(alloc),
            fails,
            writes: 0,
        }
    }
}

impl Sink for MemorySink {
    ghost held = { λ s. Some s.sink.bytes.items };

    ghost faults = { λ s. s.sink.faults };

    ghost beside = { λ s. (Some [], 0) };

    fn write(&mut self, piece: &[u8]) -> Result<usize, Failed>
        ensures within { WritesAtMost result piece.now }
        ensures bytes { WriteAppends (Some self.old.sink.bytes.items) (Some self.new.sink.bytes.items) result piece.now }
        ensures cause { HasCause self.old.sink.faults self.new.sink.faults result }
        ensures whole { IfOk result (λ count. count ≡ length piece.now) }
        ensures fails { Contains self.old.fails.items self.old.writes → IsErr result }
        ensures writes { (self.new.fails ≡ self.old.fails) × (self.new.writes ≡ min (self.old.writes + 1) (2 ^ 64 - 1)) }
    {
        let number = self.writes;
        self.writes = number.saturating_add(1);
        if self.fails.contains(&number) {
            self.sink.faults = self.sink.faults.saturating_add(1);
            return Err(Failed);
        }
        self.sink.write(piece)
    }
}

/// A connection in memory: what is to be read, and what was written.
#[derive(Drop)]
pub struct MemoryConnection {
    pub source: MemorySource,
    pub sink: MemorySink,
}

impl Source for MemoryConnection {
    ghost left = { λ c. Some (drop c.source.source.at c.source.source.bytes.items) };

    ghost faults = { λ c. c.source.faults };

    ghost beside = { λ c. (Some c.sink.sink.bytes.items, c.sink.sink.faults) };

    fn read(&mut self, room: &mut [u8]) -> Result<usize, Failed> {
        self.source.read(room)
    }
}

impl Sink for MemoryConnection {
    ghost held = { λ c. Some c.sink.sink.bytes.items };

    ghost faults = { λ c. c.sink.sink.faults };

    ghost beside = { λ c. (Some (drop c.source.source.at c.source.source.bytes.items), c.source.faults) };

    fn write(&mut self, piece: &[u8]) -> Result<usize, Failed> {
        self.sink.write(piece)
    }
}

impl Connection for MemoryConnection {
    ghost read_keeps = { λ c. refl };

    ghost write_keeps = { λ c. refl };

    ghost one_record = { λ c. refl };
}
