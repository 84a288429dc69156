//! Writers of logs.

ghost use Rattle.std.specs.Prelude.{◌≡◌, ◌++◌, ◌∷◌, ◌≤◌, [], List, ℕ, true, false, length, All, Err, IfOk, OnOk};
ghost use Rattle.hk_outside.specs.Causes.{HasCause};
ghost use Rattle.hk_log.specs.declared.entry.Entry.{Entry};
ghost use Rattle.hk_log.specs.Entries.{IsEntryInRange};
ghost use Rattle.hk_log.specs.Records.{record_starts};
ghost use Rattle.hk_disk.specs.declared.writer.AppendFault.TheVariants.{Ended};
ghost use Rattle.hk_disk.specs.Writing.{IsSureLog, settled};
ghost use Rattle.hk_disk.specs.Appending.{is_ended, Explains};

use crate::file::LogFile;
use hk_log::{
    Check, Entry, HEADER, Log, LogFault, PrintedRecord, RecordFault, Records, print_record,
    read_log,
};
use hk_outside::Failed;
use std::alloc::Global;
use thiserror::Error;

/// Why a log is not taken up. Nothing of it may be used.
#[derive(Clone, Copy, Debug, PartialEq, Eq, Error)]
pub enum RecoverFault {
    /// An allocation was refused.
    #[error("no memory")]
    Memory,
    /// A call of the file failed.
    #[error("the log can't be read or written")]
    Failed,
    /// The bytes from this place on are damaged. The file is as it was.
    #[error("damaged at byte {at}")]
    Damaged { at: usize },
}

/// Why a record was not appended.
#[derive(Clone, Copy, Debug, PartialEq, Eq, Error)]
pub enum AppendFault {
    /// An allocation was refused. The log is as it was.
    #[error("no memory")]
    Memory,
    /// The record is longer than a record may be. The log is as it was.
    #[error("the record is too long")]
    TooLong,
    /// A call of the file failed, now or before. Nothing is appended any more.
    #[error("the log can't be written")]
    Ended,
}

/// Appends records to a log.
#[derive(Drop)]
pub struct LogWriter<F: LogFile + Drop> {
    file: F,
    check: Check,
    ended: bool,
}

/// A log that was taken up: its writer, and the records that stand in it.
#[derive(Drop)]
pub struct Recovered<F: LogFile + Drop> {
    pub writer: LogWriter<F>,
    pub records: Records,
    /// Where each record begins in the file, in bytes.
    pub starts: Vec<usize>,
}

// Appends bytes, and makes sure of all that the file has.
fn put<F: LogFile + Drop>(file: &mut F, piece: &[u8]) -> Result<(), Failed>
    ensures sure { OnOk result ((bytes : List ℕ) → F.holds file.old bytes → F.holds file.new (bytes ++ piece.now) × F.is_sure file.new (bytes ++ piece.now)) }
    ensures cause { HasCause (F.faults file.old) (F.faults file.new) result }
{
    file.append(piece)?;
    file.sync()
}

// Cuts a log off behind its records, writes a header where it has none, and makes sure of that.
fn settle<F: LogFile + Drop>(file: &mut F, len: usize) -> Result<(), Failed>
    ensures { OnOk result ((bytes : List ℕ) → F.holds file.old bytes → F.holds file.new (settled len bytes) × F.is_sure file.new (settled len bytes)) }
{
    file.cut(len)?;
    if len == 0 {
        return put(file, &HEADER);
    }
    file.sync()
}

impl<F: LogFile + Drop> LogWriter<F> {
    /// Appends a record, and answers once it is sure: only then may anybody hear of what it tells. The first fault of the
    /// file ends the writer for good.
    pub fn append(&mut self, alloc: Global, entries: &[Entry]) -> Result<(), AppendFault>
        requires some { 1 ≤ length entries.now }
        requires range { All IsEntryInRange entries.now }
        ensures sure { OnOk result ((records : List (List Entry)) → IsSureLog F.holds F.is_sure self.old.file self.old.check.0 records → IsSureLog F.holds F.is_sure self.new.file self.new.check.0 (records ++ entries.now ∷ [])) }
        ensures ended { self.old.ended ≡ true → result ≡ Err Ended }
        ensures ends { self.new.ended ≡ is_ended result }
        ensures cause { Explains self.old.ended (F.faults self.old.file) (F.faults self.new.file) result }
    {
        if self.ended {
            return Err(AppendFault::Ended);
        }
        match print_record(alloc, self.check, entries) {
            Ok(printed) => self.write(printed),
            Err(RecordFault::Memory) => Err(AppendFault::Memory),
            Err(RecordFault::TooLong) => Err(AppendFault::TooLong),
        }
    }

    fn write(&mut self, printed: PrintedRecord) -> Result<(), AppendFault>
        requires { self.old.ended ≡ false }
        ensures sure { OnOk result (((bytes : List ℕ) → F.holds self.old.file bytes → F.holds self.new.file (bytes ++ printed.bytes.items) × F.is_sure self.new.file (bytes ++ printed.bytes.items)) × (self.new.check ≡ printed.check)) }
        ensures ends { self.new.ended ≡ is_ended result }
        ensures cause { Explains false (F.faults self.old.file) (F.faults self.new.file) result }
    {
        if put(&mut self.file, &printed.bytes).is_err() {
            self.ended = true;
            return Err(AppendFault::Ended);
        }
        self.check = printed.check;
        Ok(())
    }
}

fn take_up<F: LogFile + Drop>(file: F, log: Log) -> Result<Recovered<F>, RecoverFault>
    ensures { IfOk result (λ r. ((bytes : List ℕ) → F.holds file bytes → F.holds r.writer.file (settled log.len bytes) × F.is_sure r.writer.file (settled log.len bytes)) × (r.writer.check ≡ log.check) × (r.writer.ended ≡ false) × (r.records ≡ log.records) × (r.starts ≡ log.starts)) }
{
    let mut file = file;
    if settle(&mut file, log.len).is_err() {
        return Err(RecoverFault::Failed);
    }
    let Log {
        records,
        starts,
        check,
        ..
    } = log;
    let writer = LogWriter {
        file,
        check,
        ended: false,
    };
    Ok(Recovered {
        writer,
        records,
        starts,
    })
}

/// Takes up the log of a file: reads it, cuts off what is torn, and makes sure of what is left, since what was read may
/// never have reached the disk. A file without a log gets the header of one. Where it is damaged nothing is written.
pub fn recover<F: LogFile + Drop>(alloc: Global, file: F) -> Result<Recovered<F>, RecoverFault>
    ensures sure { IfOk result (λ r. IsSureLog F.holds F.is_sure r.writer.file r.writer.check.0 r.records × (r.writer.ended ≡ false)) }
    ensures starts { IfOk result (λ r. r.starts.items ≡ record_starts r.records) }
{
    let mut file = file;
    let Ok(bytes) = file.read(alloc) else {
        return Err(RecoverFault::Failed);
    };
    match read_log(alloc, &bytes) {
        Ok(log) => take_up(file, log),
        Err(LogFault::Memory) => Err(RecoverFault::Memory),
        Err(LogFault::Damaged { at }) => Err(RecoverFault::Damaged { at }),
    }
}
