//! Reading frames.

ghost use Rattle.std.specs.Prelude.{◌≡◌, ◌++◌, ◌+◌, ◌≤◌, List, ℕ, length, take, drop};
ghost use Rattle.std.specs.Int.{w32, from_be_bytes};
ghost use Rattle.hk_frame.specs.Fields.{Gives, within, number_at, byte_at};
ghost use Rattle.hk_frame.specs.Frames.{frame};
ghost use Rattle.hk_frame.specs.Reading.{inv_at, body_at, kind_at, letter_at, fields_at};
ghost use Rattle.hk_frame.specs.Sendable.{IsSendable};
ghost use Rattle.hk_frame.specs.Told.{IsRead, IsReadAs, Tells, fault_of, told_of, frame_at};

use crate::fault::{FrameFault, Stop};
use crate::fields::{byte, byte_within, number64};
use crate::kind::{LetterKind, kind_named};
use crate::length::{MAX_LENGTH, MIN_LENGTH};
use crate::parts::{
    actor, after, ballot, content_of, flag, items, key, stamp, time, update_kind, view, vote,
};
use hk_base::{Body, Letter};
use std::alloc::Global;

#[tactic(auto, unfolding(crate::specs::Reading::inv_at))]
fn inv(alloc: Global, bytes: &[u8]) -> Result<(Body, &[u8]), Stop>
    ensures { Gives (λ x. (x.0, x.1.now)) result (inv_at bytes.now) }
{
    let (key, rest) = key(alloc, bytes)?;
    let (stamp, rest) = stamp(rest)?;
    let (update, rest) = byte_within(0, 2, rest)?;
    let (content, rest) = content_of(alloc, update, rest)?;
    let kind = update_kind(update);
    Ok((
        Body::Inv {
            key,
            stamp,
            kind,
            content,
        },
        rest,
    ))
}

#[tactic(auto, unfolding(crate::specs::Reading::body_at))]
fn ack(alloc: Global, bytes: &[u8]) -> Result<(Body, &[u8]), Stop>
    ensures { Gives (λ x. (x.0, x.1.now)) result (body_at LetterKind.Ack bytes.now) }
{
    let (key, rest) = key(alloc, bytes)?;
    let (update, rest) = stamp(rest)?;
    let (top, rest) = stamp(rest)?;
    Ok((
        Body::Ack {
            key,
            stamp: update,
            top,
        },
        rest,
    ))
}

#[tactic(auto, unfolding(crate::specs::Reading::body_at))]
fn val(alloc: Global, bytes: &[u8]) -> Result<(Body, &[u8]), Stop>
    ensures { Gives (λ x. (x.0, x.1.now)) result (body_at LetterKind.Val bytes.now) }
{
    let (key, rest) = key(alloc, bytes)?;
    let (stamp, rest) = stamp(rest)?;
    Ok((Body::Val { key, stamp }, rest))
}

#[tactic(auto, unfolding(crate::specs::Reading::body_at))]
fn copy_ask(alloc: Global, bytes: &[u8]) -> Result<(Body, &[u8]), Stop>
    ensures { Gives (λ x. (x.0, x.1.now)) result (body_at LetterKind.CopyAsk bytes.now) }
{
    let (after, rest) = after(alloc, bytes)?;
    let (room, rest) = byte_within(1, 64, rest)?;
    Ok((Body::CopyAsk { after, room }, rest))
}

#[tactic(auto, unfolding(crate::specs::Reading::body_at))]
fn copy_give(alloc: Global, bytes: &[u8]) -> Result<(Body, &[u8]), Stop>
    ensures { Gives (λ x. (x.0, x.1.now)) result (body_at LetterKind.CopyGive bytes.now) }
{
    let (after, rest) = after(alloc, bytes)?;
    let (done, rest) = flag(rest)?;
    let (items, rest) = items(alloc, rest)?;
    Ok((Body::CopyGive { after, done, items }, rest))
}

#[tactic(auto, unfolding(crate::specs::Reading::body_at))]
fn promise(alloc: Global, bytes: &[u8]) -> Result<(Body, &[u8]), Stop>
    ensures { Gives (λ x. (x.0, x.1.now)) result (body_at LetterKind.Promise bytes.now) }
{
    let (ballot, rest) = ballot(bytes)?;
    let (accepted, rest) = vote(alloc, rest)?;
    Ok((Body::Promise { ballot, accepted }, rest))
}

#[tactic(auto, unfolding(crate::specs::Reading::body_at))]
fn accept(alloc: Global, bytes: &[u8]) -> Result<(Body, &[u8]), Stop>
    ensures { Gives (λ x. (x.0, x.1.now)) result (body_at LetterKind.Accept bytes.now) }
{
    let (ballot, rest) = ballot(bytes)?;
    let (view, rest) = view(alloc, rest)?;
    Ok((Body::Accept { ballot, view }, rest))
}

// What a letter of this kind says.
#[tactic(auto, unfolding(crate::specs::Reading::body_at))]
fn body(alloc: Global, kind: LetterKind, bytes: &[u8]) -> Result<(Body, &[u8]), Stop>
    ensures { Gives (λ x. (x.0, x.1.now)) result (body_at kind bytes.now) }
{
    match kind {
        LetterKind::Inv => inv(alloc, bytes),
        LetterKind::Ack => ack(alloc, bytes),
        LetterKind::Val => val(alloc, bytes),
        LetterKind::CopyAsk => copy_ask(alloc, bytes),
        LetterKind::CopyGive => copy_give(alloc, bytes),
        LetterKind::LeaseAsk => {
            let (asked, rest) = time(bytes)?;
            Ok((Body::LeaseAsk { asked }, rest))
        }
        LetterKind::LeaseGive => {
            let (end, rest) = time(bytes)?;
            Ok((Body::LeaseGive { end }, rest))
        }
        LetterKind::Prepare => {
            let (ballot, rest) = ballot(bytes)?;
            Ok((Body::Prepare(ballot), rest))
        }
        LetterKind::Promise => promise(alloc, bytes),
        LetterKind::Accept => accept(alloc, bytes),
        LetterKind::Accepted => {
            let (ballot, rest) = ballot(bytes)?;
            Ok((Body::Accepted(ballot), rest))
        }
        LetterKind::Chosen => {
            let (view, rest) = view(alloc, bytes)?;
            Ok((Body::Chosen(view), rest))
        }
        LetterKind::Activate => {
            let (view, rest) = view(alloc, bytes)?;
            Ok((Body::Activate(view), rest))
        }
    }
}

#[tactic(auto, unfolding(crate::specs::Reading::kind_at))]
fn kind(bytes: &[u8]) -> Result<(LetterKind, &[u8]), Stop>
    ensures { Gives (λ x. (x.0, x.1.now)) result (kind_at bytes.now) }
{
    let (byte, rest) = byte(bytes)?;
    match kind_named(byte) {
        Some(kind) => Ok((kind, rest)),
        None => Err(Stop::Kind { kind: byte }),
    }
}

// The fields behind the length.
#[tactic(auto, unfolding(crate::specs::Reading::letter_at))]
fn letter(alloc: Global, bytes: &[u8]) -> Result<((u8, Letter), &[u8]), Stop>
    ensures { Gives (λ x. (x.0, x.1.now)) result (letter_at bytes.now) }
{
    let (kind, rest) = kind(bytes)?;
    let (shard, rest) = byte_within(0, 7, rest)?;
    let (epoch, rest) = number64(rest)?;
    let (from, rest) = actor(rest)?;
    let (to, rest) = actor(rest)?;
    let (body, rest) = body(alloc, kind, rest)?;
    Ok((
        (
            shard,
            Letter {
                epoch,
                from,
                to,
                body,
            },
        ),
        rest,
    ))
}

// All of them, and nothing behind.
#[tactic(auto, unfolding(crate::specs::Reading::fields_at))]
fn fields(alloc: Global, bytes: &[u8]) -> Result<(u8, Letter), Stop>
    ensures { Gives (λ x. x) result (fields_at bytes.now) }
{
    let (found, rest) = letter(alloc, bytes)?;
    if !rest.is_empty() {
        return Err(Stop::Length);
    }
    Ok(found)
}

// The length of what follows, as a frame tells it.
fn told_length(bytes: &[u8]) -> u32
    requires { 4 ≤ length bytes.now }
    ensures { result ≡ from_be_bytes w32 (take 4 bytes.now) }
{
    let (front, _) = bytes.split_at(4);
    u32::from_be_bytes([front[0], front[1], front[2], front[3]])
}

// The fault of the fields, told of a frame with this length.
fn fault_of(told: u32, stop: Stop) -> FrameFault
    ensures { result ≡ fault_of told stop }
{
    match stop {
        Stop::Memory => FrameFault::Memory,
        Stop::Kind { kind } => FrameFault::BadKind { kind },
        Stop::Length => FrameFault::BadLength { length: told },
        Stop::Field { left } => FrameFault::BadField {
            at: (4 + told as usize).saturating_sub(left),
        },
    }
}

// The letter whose frame begins the bytes, of which there are enough, and the frame's length.
fn read_whole(alloc: Global, told: u32, bytes: &[u8]) -> Result<((u8, Letter), usize), FrameFault>
    requires { 4 + told ≤ length bytes.now }
    ensures { Tells result (told_of told (fields_at (take told (drop 4 bytes.now)))) }
{
    let (_, rest) = bytes.split_at(4);
    let (front, _) = rest.split_at(told as usize);
    match fields(alloc, front) {
        Ok(found) => Ok((found, 4 + told as usize)),
        Err(stop) => Err(fault_of(told, stop)),
    }
}

fn read_frame(alloc: Global, bytes: &[u8]) -> Result<((u8, Letter), usize), FrameFault>
    ensures { Tells result (frame_at bytes.now) }
{
    if bytes.len() < 4 {
        return Err(FrameFault::Short { wanted: 4 });
    }
    let length = told_length(bytes);
    if length < MIN_LENGTH {
        return Err(FrameFault::BadLength { length });
    }
    if MAX_LENGTH < length {
        return Err(FrameFault::BadLength { length });
    }
    let wanted = 4 + length as usize;
    if bytes.len() < wanted {
        return Err(FrameFault::Short { wanted });
    }
    read_whole(alloc, length, bytes)
}

/// Reads the frame that begins the bytes: the shard, the letter, and how many bytes the frame takes. Keys and data are
/// copied once. The faults are told in this order: `Short` for the length, a length out of range, `Short` for the rest,
/// the kind, and then the fields from left to right, with what is left over at last.
pub fn read_letter(alloc: Global, bytes: &[u8]) -> Result<(u8, Letter, usize), FrameFault>
    // The letter whose frame begins the bytes; or the first fault.
    ensures exact { IsRead result bytes.now }
    // A letter whose frame begins the bytes is read, whatever follows, unless an allocation is refused.
    ensures only { (shard : ℕ) (letter : Letter) (rest : List ℕ) → IsSendable shard letter → bytes.now ≡ frame shard letter ++ rest → IsReadAs result shard letter }
{
    match read_frame(alloc, bytes) {
        Ok((found, len)) => {
            let (shard, letter) = found;
            Ok((shard, letter, len))
        }
        Err(fault) => Err(fault),
    }
}
