//! The file of a log on a disk.

ghost use Rattle.std.specs.Prelude.{◌≡◌, ◌≤◌, [], None, Some, IfOk};
ghost use Rattle.hk_outside.specs.Causes.{Rose};

use crate::call::FileCall;
use crate::file::LogFile;
use crate::known::Known;
use hk_outside::Failed;
use std::alloc::Global;
use std::fs::{File, Files, OpenOptions, TryLockError};
use std::io::{self, Read, Seek, Write};
use std::path::Path;
use thiserror::Error;

/// Why a file is not opened.
#[derive(Clone, Copy, Debug, PartialEq, Eq, Error)]
pub enum OpenFault {
    /// Another process has it open, or this one has.
    #[error("is held by another process")]
    Held,
    /// A call of the system failed, or what has the name is no file.
    #[error("can't be opened")]
    Failed,
}

/// A file of this machine, locked from when it is opened until it is dropped.
///
/// A contract knows of it what its calls told: the bytes that were read, cut off and appended since it was opened. That
/// the machine's file has just these bytes, and that its disk keeps what a sync answered, no contract can say.
#[derive(Drop)]
pub struct DiskFile {
    file: File,
    faults: u64,
    known: Known,
}

// Locks a file, where nobody else has locked it.
fn lock(file: &File) -> Result<(), OpenFault> {
    match file.try_lock() {
        Ok(()) => Ok(()),
        Err(TryLockError::WouldBlock) => Err(OpenFault::Held),
        Err(TryLockError::Error(_)) => Err(OpenFault::Failed),
    }
}

// Makes sure that a file, and its name in its folder, are there when the machine has stopped.
fn make_sure<R: Files<File = File>>(rt: &R, file: &File, path: &str) -> io::Result<()> {
    file.sync_all()?;
    let folder = match Path::new(path).parent() {
        Some(folder) if folder.as_str() != "" => folder,
        _ => Path::new("."),
    };
    File::open(rt, folder)?.sync_all()
}

impl DiskFile {
    /// Opens the file at a path and locks it; one that is missing is made, in a folder that is there. From then on the
    /// file and its name outlast a stop of the machine. Nothing is known of its bytes until they are read.
    pub fn open<R: Files<File = File>>(rt: &R, path: &str) -> Result<DiskFile, OpenFault>
        ensures { IfOk result (λ file. (file.known.bytes ≡ None) × (file.known.sure ≡ None) × (file.faults ≡ 0)) }
    {
        let Ok(file) = OpenOptions::new()
            .read(true)
            .append(true)
            .create(true)
            .open(rt, path)
        else {
            return Err(OpenFault::Failed);
        };
        lock(&file)?;
        if make_sure(rt, &file, path).is_err() {
            return Err(OpenFault::Failed);
        }
        Ok(DiskFile {
            file,
            faults: 0,
            known: Known::new(),
        })
    }

    fn read_all(&mut self, alloc: Global) -> io::Result<Vec<u8>>
        ensures known { self.new.known ≡ self.old.known }
        ensures faults { self.new.faults ≡ self.old.faults }
    {
        let mut bytes = Vec::new(alloc);
        self.file.rewind()?;
        self.file.read_to_end(&mut bytes)?;
        Ok(bytes)
    }

    // Cuts off what stands behind so many bytes. A shorter file is left as it is, where the system would put zeros behind.
    fn shorten(&self, len: usize) -> io::Result<()> {
        if self.file.metadata()?.len() <= len as u64 {
            return Ok(());
        }
        self.file.set_len(len as u64)
    }

    // Notes a call that failed.
    fn fail(&mut self) -> Failed
        ensures rose { Rose self.old.faults self.new.faults }
        ensures later { self.old.faults ≤ self.new.faults }
    {
        self.known.note(&FileCall::Fail, &[]);
        self.faults = self.faults.saturating_add(1);
        Failed
    }
}

impl LogFile for DiskFile {
    ghost holds = { λ file. λ bytes. file.known.bytes ≡ Some bytes };

    ghost is_sure = { λ file. λ bytes. file.known.sure ≡ Some bytes };

    ghost faults = { λ file. file.faults };

    fn read(&mut self, alloc: Global) -> Result<Vec<u8>, Failed> {
        match self.read_all(alloc) {
            Ok(bytes) => {
                self.known.note(&FileCall::Read, &bytes);
                Ok(bytes)
            }
            Err(_) => Err(self.fail()),
        }
    }

    fn cut(&mut self, len: usize) -> Result<(), Failed> {
        // also where it fails the file may have been cut
        self.known.note(&FileCall::Cut { len }, &[]);
        match self.shorten(len) {
            Ok(()) => Ok(()),
            Err(_) => Err(self.fail()),
        }
    }

    fn append(&mut self, piece: &[u8]) -> Result<(), Failed> {
        match self.file.write_all(piece) {
            Ok(()) => {
                self.known.note(&FileCall::Append, piece);
                Ok(())
            }
            Err(_) => Err(self.fail()),
        }
    }

    fn sync(&mut self) -> Result<(), Failed> {
        match self.file.sync_data() {
            Ok(()) => {
                self.known.note(&FileCall::Sync, &[]);
                Ok(())
            }
            Err(_) => Err(self.fail()),
        }
    }
}
