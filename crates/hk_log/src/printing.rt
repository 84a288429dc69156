//! Printing records.

ghost use Rattle.std.specs.Prelude.{◌≡◌, ◌++◌, ◌∷◌, ◌≤◌, length, OnOk, All};
ghost use Rattle.std.specs.Int.{w32, w64, to_be_bytes};
ghost use Rattle.std.specs.List.{flat_map};
ghost use Rattle.hk_fields.specs.Fields.{actor_bytes, host_bytes};
ghost use Rattle.hk_log.specs.Entries.{founding_bytes, change_bytes, entry_kind, entry_fields, entry_bytes, IsFounding, IsEntryValue, IsEntryInRange, IsEntry};
ghost use Rattle.hk_log.specs.Records.{body_bytes};
ghost use Rattle.hk_log.specs.Told.{IsPrinted};

use crate::checks::{Check, MAX_BODY_LEN, check_of};
use crate::entry::{Entry, Founding};
use crate::fault::RecordFault;
use crate::values::entry_is_value;
use hk_base::{Actor, Change, Memory};
use hk_fields::{
    Ticket, put, put_actor, put_byte, put_hosts, put_number16, put_number32, put_number64,
    put_ticket,
};
use hk_frame::print_letter;
use std::alloc::Global;

// Lease, skew and the hosts' tickets.
fn put_settings(out: &mut Vec<u8>, founding: &Founding) -> Result<(), Memory>
    ensures { OnOk result (out.new.items ≡ out.old.items ++ (to_be_bytes w32 founding.now.lease ++ (to_be_bytes w32 founding.now.skew ++ flat_map host_bytes founding.now.hosts))) }
{
    put_number32(out, founding.lease)?;
    put_number32(out, founding.skew)?;
    put_hosts(out, founding.hosts.as_slice())
}

fn put_founding(out: &mut Vec<u8>, founding: &Founding) -> Result<(), Memory>
    requires { IsFounding founding.now }
    ensures { OnOk result (out.new.items ≡ out.old.items ++ founding_bytes founding.now) }
{
    put_number64(out, founding.number)?;
    put_byte(out, founding.place)?;
    put_byte(out, founding.hosts.len() as u8)?;
    put_settings(out, founding)
}

fn put_change(out: &mut Vec<u8>, change: Change) -> Result<(), Memory>
    ensures { OnOk result (out.new.items ≡ out.old.items ++ change_bytes change) }
{
    match change {
        Change::Drop(node) => {
            put_byte(out, 0)?;
            put_number16(out, node.0)
        }
        Change::Add => {
            put_byte(out, 1)?;
            put_number16(out, 0)
        }
    }
}

fn put_proposed(out: &mut Vec<u8>, shard: u8, base: u64, change: Change) -> Result<(), Memory>
    ensures { OnOk result (out.new.items ≡ out.old.items ++ (shard ∷ (to_be_bytes w64 base ++ change_bytes change))) }
{
    put_byte(out, shard)?;
    put_number64(out, base)?;
    put_change(out, change)
}

fn put_bound(out: &mut Vec<u8>, actor: Actor, ticket: Ticket) -> Result<(), Memory>
    ensures { OnOk result (out.new.items ≡ out.old.items ++ (actor_bytes actor ++ ticket.0)) }
{
    put_actor(out, actor)?;
    put_ticket(out, ticket)
}

fn put_fields(out: &mut Vec<u8>, entry: &Entry) -> Result<(), Memory>
    requires { IsEntryInRange entry.now }
    ensures { OnOk result (out.new.items ≡ out.old.items ++ entry_fields entry.now) }
{
    match entry {
        Entry::Founded(founding) => put_founding(out, founding),
        Entry::Open => Ok(()),
        Entry::Propose {
            shard,
            base,
            change,
        } => put_proposed(out, *shard, *base, *change),
        Entry::Receive { shard, letter } => print_letter(*shard, letter, out),
        Entry::Bound { actor, ticket } => put_bound(out, *actor, *ticket),
    }
}

fn kind_of(entry: &Entry) -> u8
    ensures { result ≡ entry_kind entry.now }
{
    match entry {
        Entry::Founded(_) => 1,
        Entry::Open => 2,
        Entry::Propose { .. } => 3,
        Entry::Receive { .. } => 4,
        Entry::Bound { .. } => 5,
    }
}

fn put_entry(out: &mut Vec<u8>, entry: &Entry) -> Result<(), Memory>
    requires { IsEntryInRange entry.now }
    ensures printed { OnOk result (out.new.items ≡ out.old.items ++ entry_bytes entry.now) }
    ensures value { IsEntryValue entry.now }
{
    entry_is_value(entry);
    put_byte(out, kind_of(entry))?;
    put_fields(out, entry)
}

fn put_entries(out: &mut Vec<u8>, entries: &[Entry]) -> Result<(), Memory>
    requires { All IsEntryInRange entries.now }
    ensures printed { OnOk result (out.new.items ≡ out.old.items ++ body_bytes entries.now) }
    ensures are { OnOk result (All IsEntry entries.now) }
{
    for entry in entries {
        put_entry(out, entry)?;
    }
    Ok(())
}

fn put_frame(out: &mut Vec<u8>, len: u32, body: &[u8], check: Check) -> Result<(), Memory>
    ensures { OnOk result (out.new.items ≡ out.old.items ++ (to_be_bytes w32 len ++ (body.now ++ check.0))) }
{
    put_number32(out, len)?;
    put(out, body)?;
    put(out, &check.0)
}

/// A record as bytes.
#[derive(Drop)]
pub struct PrintedRecord {
    pub bytes: Vec<u8>,
    /// The check of the record, behind which the next one stands.
    pub check: Check,
}

/// The bytes of a record, to be appended to a log of which this is the last check, or the header where it has no record.
/// It is `TooLong` exactly where the entries take more than 1,048,576 bytes. What was logged is read again, by
/// `read_log`.
pub fn print_record(
    alloc: Global,
    before: Check,
    entries: &[Entry],
) -> Result<PrintedRecord, RecordFault>
    requires some { 1 ≤ length entries.now }
    requires range { All IsEntryInRange entries.now }
    ensures { IsPrinted result before.0 entries.now }
{
    let mut body = Vec::new(alloc);
    if put_entries(&mut body, entries).is_err() {
        return Err(RecordFault::Memory);
    }
    if MAX_BODY_LEN < body.len() {
        return Err(RecordFault::TooLong);
    }
    let check = check_of(&before.0, &body);
    let mut bytes = Vec::new(alloc);
    if put_frame(&mut bytes, body.len() as u32, &body, check).is_err() {
        return Err(RecordFault::Memory);
    }
    Ok(PrintedRecord { bytes, check })
}
