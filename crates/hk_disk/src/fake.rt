//! A file in memory that refuses, tears, and loses what was not sure.

ghost use Rattle.std.specs.Prelude.{◌≡◌, ◌++◌, ◌≤◌, ◌<◌, List, ℕ, [], take, length, IfOk, OnOk};
ghost use Rattle.hk_outside.specs.Causes.{HasCause, Rose};
ghost use Rattle.hk_disk.specs.Fakes.{IsSureIn};

use crate::file::LogFile;
use hk_outside::Failed;
use std::alloc::Global;

/// A file in memory.
#[derive(Drop)]
pub struct FakeFile {
    pub bytes: Vec<u8>,
    /// How many of them are sure.
    pub sure: usize,
    /// The numbers of the calls that fail, counted from 0.
    pub fails: Vec<u64>,
    /// How many bytes of what is appended stay where an append fails.
    pub tears: usize,
    pub calls: u64,
    pub faults: u64,
}

impl FakeFile {
    /// A file that has these bytes, all of them sure.
    pub fn new(bytes: Vec<u8>, fails: Vec<u64>, tears: usize) -> FakeFile {
        let sure = bytes.len();
        FakeFile {
            bytes,
            sure,
            fails,
            tears,
            calls: 0,
            faults: 0,
        }
    }

    /// The machine stops: of what is not sure, `kept` bytes are left at most.
    pub fn stop(&mut self, kept: usize)
        ensures left { (bytes : List ℕ) → IsSureIn self.old.sure self.old.bytes.items bytes → take (length bytes) self.new.bytes.items ≡ bytes }
    {
        self.bytes.truncate(self.sure.saturating_add(kept));
    }

    // Counts a call, and whether it fails.
    fn begins(&mut self) -> Result<(), Failed>
        ensures bytes { self.new.bytes ≡ self.old.bytes }
        ensures sure { self.new.sure ≡ self.old.sure }
        ensures cause { HasCause self.old.faults self.new.faults result }
        ensures kept { OnOk result (self.new.faults ≡ self.old.faults) }
    {
        let number = self.calls;
        self.calls = number.saturating_add(1);
        if self.fails.contains(&number) {
            self.faults = self.faults.saturating_add(1);
            return Err(Failed);
        }
        Ok(())
    }

    fn fail(&mut self) -> Failed
        ensures bytes { self.new.bytes ≡ self.old.bytes }
        ensures sure { self.new.sure ≡ self.old.sure }
        ensures rose { Rose self.old.faults self.new.faults }
        ensures later { self.old.faults ≤ self.new.faults }
    {
        self.faults = self.faults.saturating_add(1);
        Failed
    }
}

impl LogFile for FakeFile {
    ghost holds = { λ file. λ bytes. file.bytes.items ≡ bytes };

    ghost is_sure = { λ file. λ bytes. IsSureIn file.sure file.bytes.items bytes };

    ghost faults = { λ file. file.faults };

    fn read(&mut self, alloc: Global) -> Result<Vec<u8>, Failed> {
        self.begins()?;
        match self.bytes.to_vec(alloc) {
            Ok(bytes) => Ok(bytes),
            Err(_) => Err(self.fail()),
        }
    }

    fn cut(&mut self, len: usize) -> Result<(), Failed> {
        self.begins()?;
        self.bytes.truncate(len);
        Ok(())
    }

    fn append(&mut self, piece: &[u8]) -> Result<(), Failed> {
        if self.begins().is_err() {
            let _torn = self
                .bytes
                .extend_from_slice(&piece[..piece.len().min(self.tears)]);
            return Err(Failed);
        }
        match self.bytes.extend_from_slice(piece) {
            Ok(()) => Ok(()),
            Err(_) => Err(self.fail()),
        }
    }

    fn sync(&mut self) -> Result<(), Failed> {
        self.begins()?;
        self.sure = self.bytes.len();
        Ok(())
    }
}
