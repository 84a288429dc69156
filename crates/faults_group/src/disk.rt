//! Disks in memory, which outlast the processes that write to them.

ghost use Rattle.std.specs.Prelude.{⊤};
ghost use Rattle.hk_outside.specs.Causes.{HasCause};

use crate::draws::Draws;
use hk_disk::{FakeFile, LogFile};
use hk_outside::Failed;
use std::alloc::Global;
use std::sync::{Arc, Mutex, Wait};

/// A disk, with the log of its host.
#[derive(Drop)]
pub struct Disk {
    log: FakeFile,
}

impl Disk {
    /// Nothing was written yet.
    pub fn new(alloc: Global) -> Disk {
        Disk {
            log: FakeFile::new(Vec::new(alloc), Vec::new(alloc), 0),
        }
    }

    /// One of the next two calls fails, where there is memory to note it.
    pub fn fail(&mut self, draws: &mut Draws) {
        let call = self.log.calls.saturating_add(draws.below(2));
        let _ = self.log.fails.push(call);
        self.log.tears = draws.below(60) as usize;
    }

    /// No call fails any more.
    pub fn heal(&mut self) {
        self.log.fails.truncate(0);
    }

    /// The machine stops: of what is not sure a part is left.
    pub fn stop(&mut self, draws: &mut Draws) {
        let unsure = self.log.bytes.len().saturating_sub(self.log.sure);
        let kept = draws.below((unsure as u64).saturating_add(1)) as usize;
        self.log.stop(kept);
        self.heal();
    }
}

/// The file of the log on a disk.
#[derive(Drop)]
pub struct DiskLog<R: Wait + Drop> {
    rt: R,
    disk: Arc<Mutex<Disk>>,
    faults: u64,
}

// Counts what failed.
fn counted<T>(faults: &mut u64, made: Result<T, Failed>) -> Result<T, Failed>
    ensures { HasCause faults.old faults.new result }
{
    match made {
        Ok(value) => Ok(value),
        Err(failed) => {
            *faults = faults.saturating_add(1);
            Err(failed)
        }
    }
}

impl<R: Wait + Drop> DiskLog<R> {
    /// The file of this disk.
    pub fn new(rt: R, disk: Arc<Mutex<Disk>>) -> DiskLog<R> {
        DiskLog {
            rt,
            disk,
            faults: 0,
        }
    }
}

impl<R: Wait + Drop> LogFile for DiskLog<R> {
    ghost holds = { λ file. λ bytes. ⊤ };

    ghost is_sure = { λ file. λ bytes. ⊤ };

    ghost faults = { λ file. file.faults };

    fn read(&mut self, alloc: Global) -> Result<Vec<u8>, Failed> {
        let read = {
            let mut guard = self.disk.lock(&self.rt);
            let disk = &mut *guard;
            disk.log.read(alloc)
        };
        counted(&mut self.faults, read)
    }

    fn cut(&mut self, len: usize) -> Result<(), Failed> {
        let cut = {
            let mut guard = self.disk.lock(&self.rt);
            let disk = &mut *guard;
            disk.log.cut(len)
        };
        counted(&mut self.faults, cut)
    }

    fn append(&mut self, piece: &[u8]) -> Result<(), Failed> {
        let appended = {
            let mut guard = self.disk.lock(&self.rt);
            let disk = &mut *guard;
            disk.log.append(piece)
        };
        counted(&mut self.faults, appended)
    }

    fn sync(&mut self) -> Result<(), Failed> {
        let synced = {
            let mut guard = self.disk.lock(&self.rt);
            let disk = &mut *guard;
            disk.log.sync()
        };
        counted(&mut self.faults, synced)
    }
}
