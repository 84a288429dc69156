//! Records, each read from the front of some bytes.

ghost use Rattle.std.specs.Prelude.{◌≡◌, ◌+◌, ◌≤◌, ◌<◌, length, take, drop, true, Bool, IsTrue};
ghost use Rattle.std.specs.Int.{w32, from_be_bytes};
ghost use Rattle.hk_log.specs.Logs.{told_length, stands_with, stands, stands_behind, holds_record, is_blank, ends_early, is_cut_short};
ghost use Rattle.hk_log.specs.Reading.{IsBodyRead};

use crate::checks::{MAX_BODY_LEN, check_of};
use crate::entry::{Entry, Record};
use crate::fields::entry;
use hk_fields::FieldFault;
use std::alloc::Global;

// The length of a body, as the bytes tell it.
pub fn told_length(bytes: &[u8]) -> usize
    requires { 4 ≤ length bytes.now }
    ensures exact { result ≡ told_length bytes.now }
{
    let (front, _) = bytes.split_at(4);
    u32::from_be_bytes([front[0], front[1], front[2], front[3]]) as usize
}

fn stands_with(len: usize, before: &[u8], bytes: &[u8]) -> bool
    requires { 13 ≤ length bytes.now }
    ensures exact { result ≡ stands_with len before.now bytes.now }
    ensures long { IsTrue result → 12 + len ≤ length bytes.now }
{
    if len < 1 {
        return false;
    }
    if MAX_BODY_LEN < len {
        return false;
    }
    if bytes.len() < 12 + len {
        return false;
    }
    let (_, rest) = bytes.split_at(4);
    let (body, rest) = rest.split_at(len);
    let (check, _) = rest.split_at(8);
    let right = check_of(before, body);
    check == right.0.as_slice()
}

// Whether a right record begins the bytes, behind this check.
#[tactic(auto, unfolding(crate::specs::Logs::stands))]
pub fn stands(before: &[u8], bytes: &[u8]) -> bool
    ensures exact { result ≡ stands before.now bytes.now }
    ensures long { IsTrue result → 12 + told_length bytes.now ≤ length bytes.now }
{
    if bytes.len() < 13 {
        return false;
    }
    stands_with(told_length(bytes), before, bytes)
}

fn stands_behind(bytes: &[u8]) -> bool
    ensures { result ≡ stands_behind bytes.now }
{
    if bytes.len() < 8 {
        return false;
    }
    let (before, rest) = bytes.split_at(8);
    stands(before, rest)
}

// Whether a right record stands anywhere in the bytes, behind the 8 bytes in front of it.
pub fn holds_record(bytes: &[u8]) -> bool
    ensures { result ≡ holds_record bytes.now }
{
    for place in 0..bytes.len() {
        let (_, rest) = bytes.split_at(place);
        if stands_behind(rest) {
            return true;
        }
    }
    false
}

// Whether the bytes are zeros alone.
pub fn is_blank(bytes: &[u8]) -> bool
    ensures { result ≡ is_blank bytes.now }
{
    bytes.iter().all(|byte| *byte == 0)
}

fn ends_early(len: usize, rest: &[u8]) -> bool
    ensures { result ≡ ends_early len rest.now }
{
    if len < 1 {
        return false;
    }
    if MAX_BODY_LEN < len {
        return false;
    }
    if rest.len() < 12 + len {
        return true;
    }
    let (_, behind) = rest.split_at(12 + len);
    is_blank(behind)
}

// Whether what stands behind the last right record was cut short.
#[tactic(auto, unfolding(crate::specs::Logs::is_cut_short))]
pub fn is_cut_short(rest: &[u8]) -> bool
    ensures { result ≡ is_cut_short rest.now }
{
    if rest.len() < 4 {
        return true;
    }
    let (_, behind) = rest.split_at(3);
    if is_blank(behind) {
        return true;
    }
    ends_early(told_length(rest), rest)
}

// The entries of a body, each of its bytes; or that no entries have it.
pub fn read_body(alloc: Global, body: &[u8]) -> Result<Record, FieldFault>
    ensures { IsBodyRead result body.now }
{
    let mut entries: Record = Record::new(alloc);
    let mut rest = body;
    while !rest.is_empty() {
        let (entry, after) = entry(alloc, rest)?;
        if entries.push(entry).is_err() {
            return Err(FieldFault::Memory);
        }
        rest = after;
    }
    Ok(entries)
}
