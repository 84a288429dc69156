//! Reading a log.

ghost use Rattle.std.specs.Prelude.{◌≡◌, ◌≤◌, length, take, true, bytes_eq};
ghost use Rattle.hk_log.specs.declared.checks.TheConstants.{HEADER};
ghost use Rattle.hk_log.specs.Logs.{has_no_header, is_torn, IsNext, IsScanned, IsLogRead};

use crate::checks::{Check, HEADER, check_of};
use crate::entry::{Record, Records};
use crate::fault::LogFault;
use crate::records::{holds_record, is_blank, is_cut_short, read_body, stands, told_length};
use hk_fields::FieldFault;
use std::alloc::Global;

/// What a log was read as.
#[derive(Drop)]
pub struct Log {
    /// The records, the first one first.
    pub records: Records,
    /// Where each of them begins in the file, in bytes.
    pub starts: Vec<usize>,
    /// How many bytes of the file they take, with the header. What stands behind is torn, and is to be cut off before
    /// anything is appended. 0 where the header is still to be written.
    pub len: usize,
    /// The last record's check, or the header where there is none: what the next record stands behind.
    pub check: Check,
}

// Whether not even the header was written whole.
#[tactic(auto, unfolding(crate::specs::Logs::has_no_header))]
fn has_no_header(file: &[u8]) -> bool
    ensures { result ≡ has_no_header file.now }
{
    if is_blank(file) {
        return true;
    }
    file.len() < 8 && file == &HEADER[..file.len()]
}

fn is_torn(place: usize, file: &[u8]) -> bool
    requires low { 7 ≤ place }
    requires high { place ≤ length file.now }
    ensures { result ≡ is_torn place file.now }
{
    let (_, rest) = file.split_at(place);
    if is_cut_short(rest) {
        let (_, behind) = file.split_at(place - 7);
        return !holds_record(behind);
    }
    false
}

#[derive(Drop)]
struct NextRecord {
    entries: Record,
    len: usize,
    check: Check,
}

// The right record that begins the bytes from this place on, behind this check.
fn read_next(
    alloc: Global,
    before: Check,
    place: usize,
    rest: &[u8],
) -> Result<Option<NextRecord>, LogFault>
    ensures { IsNext result before.0 place rest.now }
{
    if !stands(&before.0, rest) {
        return Ok(None);
    }
    let len = told_length(rest);
    let (_, behind) = rest.split_at(4);
    let (body, _) = behind.split_at(len);
    let check = check_of(&before.0, body);
    match read_body(alloc, body) {
        Ok(entries) => Ok(Some(NextRecord {
            entries,
            len: 12 + len,
            check,
        })),
        Err(FieldFault::Memory) => Err(LogFault::Memory),
        Err(FieldFault::Malformed) => Err(LogFault::Damaged { at: place }),
    }
}

// The records behind the header, and what stands behind them.
fn scan(alloc: Global, file: &[u8]) -> Result<Log, LogFault>
    requires long { 8 ≤ length file.now }
    requires header { bytes_eq HEADER (take 8 file.now) ≡ true }
    ensures { IsScanned result file.now }
{
    let mut records = Records::new(alloc);
    let mut starts = Vec::new(alloc);
    let mut check = Check(HEADER);
    let mut place = 8;
    loop {
        let (_, rest) = file.split_at(place);
        let Some(next) = read_next(alloc, check, place, rest)? else {
            break;
        };
        let NextRecord {
            entries,
            len,
            check: own,
        } = next;
        if records.push(entries).is_err() {
            return Err(LogFault::Memory);
        }
        if starts.push(place).is_err() {
            return Err(LogFault::Memory);
        }
        place += len;
        check = own;
    }
    if is_torn(place, file) {
        return Ok(Log {
            records,
            starts,
            len: place,
            check,
        });
    }
    Err(LogFault::Damaged { at: place })
}

/// Reads a log from the whole of its file, however a machine that stopped left it: the records that stand, where each
/// begins, and where they end; or the place of the first byte that is damaged. Nothing is written.
pub fn read_log(alloc: Global, file: &[u8]) -> Result<Log, LogFault>
    ensures { IsLogRead result file.now }
{
    if has_no_header(file) {
        return Ok(Log {
            records: Records::new(alloc),
            starts: Vec::new(alloc),
            len: 0,
            check: Check(HEADER),
        });
    }
    if !file.starts_with(&HEADER) {
        return Err(LogFault::Damaged { at: 0 });
    }
    scan(alloc, file)
}
