//! Fields, each read from the front of some bytes.

ghost use Rattle.std.specs.Prelude.{◌≡◌, ◌≤◌, IfOk};
ghost use Rattle.std.specs.Int.{w16, w32, w64};
ghost use Rattle.hk_fields.specs.Fields.{Gives, byte_at, number_at, within, bytes_at, text_at, ticket_at, actor_of, actor_at};

use crate::fault::FieldFault;
use crate::tickets::Ticket;
use hk_base::{Actor, NodeId};

/// One byte.
pub fn byte(bytes: &[u8]) -> Result<(u8, &[u8]), FieldFault>
    ensures { Gives (λ x. (x.0, x.1.now)) result (byte_at bytes.now) }
{
    match bytes.split_first() {
        Some((first, rest)) => Ok((*first, rest)),
        None => Err(FieldFault::Malformed),
    }
}

/// A number of 2 bytes.
pub fn number16(bytes: &[u8]) -> Result<(u16, &[u8]), FieldFault>
    ensures { Gives (λ x. (x.0, x.1.now)) result (number_at w16 bytes.now) }
{
    if bytes.len() < 2 {
        return Err(FieldFault::Malformed);
    }
    let (front, rest) = bytes.split_at(2);
    Ok((u16::from_be_bytes([front[0], front[1]]), rest))
}

/// A number of 4 bytes.
pub fn number32(bytes: &[u8]) -> Result<(u32, &[u8]), FieldFault>
    ensures { Gives (λ x. (x.0, x.1.now)) result (number_at w32 bytes.now) }
{
    if bytes.len() < 4 {
        return Err(FieldFault::Malformed);
    }
    let (front, rest) = bytes.split_at(4);
    let number = u32::from_be_bytes([front[0], front[1], front[2], front[3]]);
    Ok((number, rest))
}

/// A number of 8 bytes.
pub fn number64(bytes: &[u8]) -> Result<(u64, &[u8]), FieldFault>
    ensures { Gives (λ x. (x.0, x.1.now)) result (number_at w64 bytes.now) }
{
    if bytes.len() < 8 {
        return Err(FieldFault::Malformed);
    }
    let (front, rest) = bytes.split_at(8);
    let number = u64::from_be_bytes([
        front[0], front[1], front[2], front[3], front[4], front[5], front[6], front[7],
    ]);
    Ok((number, rest))
}

/// A byte from `least` to `most`.
pub fn byte_within(least: u8, most: u8, bytes: &[u8]) -> Result<(u8, &[u8]), FieldFault>
    ensures exact { Gives (λ x. (x.0, x.1.now)) result (within least most byte_at bytes.now) }
    ensures range { IfOk result (λ x. (least ≤ x.0) × (x.0 ≤ most)) }
{
    let (value, rest) = byte(bytes)?;
    if least <= value && value <= most {
        return Ok((value, rest));
    }
    Err(FieldFault::Malformed)
}

/// A number of 2 bytes, from `least` to `most`.
pub fn number16_within(least: u16, most: u16, bytes: &[u8]) -> Result<(u16, &[u8]), FieldFault>
    ensures exact { Gives (λ x. (x.0, x.1.now)) result (within least most (number_at w16) bytes.now) }
    ensures range { IfOk result (λ x. (least ≤ x.0) × (x.0 ≤ most)) }
{
    let (value, rest) = number16(bytes)?;
    if least <= value && value <= most {
        return Ok((value, rest));
    }
    Err(FieldFault::Malformed)
}

/// A number of 4 bytes, from `least` to `most`.
pub fn number32_within(least: u32, most: u32, bytes: &[u8]) -> Result<(u32, &[u8]), FieldFault>
    ensures exact { Gives (λ x. (x.0, x.1.now)) result (within least most (number_at w32) bytes.now) }
    ensures range { IfOk result (λ x. (least ≤ x.0) × (x.0 ≤ most)) }
{
    let (value, rest) = number32(bytes)?;
    if least <= value && value <= most {
        return Ok((value, rest));
    }
    Err(FieldFault::Malformed)
}

/// A number of 8 bytes, from `least` to `most`.
pub fn number64_within(least: u64, most: u64, bytes: &[u8]) -> Result<(u64, &[u8]), FieldFault>
    ensures exact { Gives (λ x. (x.0, x.1.now)) result (within least most (number_at w64) bytes.now) }
    ensures range { IfOk result (λ x. (least ≤ x.0) × (x.0 ≤ most)) }
{
    let (value, rest) = number64(bytes)?;
    if least <= value && value <= most {
        return Ok((value, rest));
    }
    Err(FieldFault::Malformed)
}

/// So many bytes, whatever they are.
pub fn take_bytes(len: usize, bytes: &[u8]) -> Result<(&[u8], &[u8]), FieldFault>
    ensures { Gives (λ x. (x.0.now, x.1.now)) result (bytes_at len bytes.now) }
{
    if bytes.len() < len {
        return Err(FieldFault::Malformed);
    }
    Ok(bytes.split_at(len))
}

/// A text of `least` to `most` bytes: its length in 1 byte, and its bytes, whatever they are.
#[tactic(auto, unfolding(crate::specs::Fields::text_at))]
pub fn text(least: u8, most: u8, bytes: &[u8]) -> Result<(&[u8], &[u8]), FieldFault>
    ensures { Gives (λ x. (x.0.now, x.1.now)) result (text_at least most bytes.now) }
{
    let (len, rest) = byte_within(least, most, bytes)?;
    take_bytes(len as usize, rest)
}

/// A ticket.
#[tactic(auto, unfolding(crate::specs::Fields::ticket_at))]
pub fn ticket(bytes: &[u8]) -> Result<(Ticket, &[u8]), FieldFault>
    ensures { Gives (λ x. (x.0, x.1.now)) result (ticket_at bytes.now) }
{
    match bytes.split_first_chunk::<16>() {
        Some((ticket, rest)) => Ok((Ticket(*ticket), rest)),
        None => Err(FieldFault::Malformed),
    }
}

#[tactic(auto, unfolding(crate::specs::Fields::actor_of))]
fn actor_of(class: u8, bytes: &[u8]) -> Result<(Actor, &[u8]), FieldFault>
    ensures { Gives (λ x. (x.0, x.1.now)) result (actor_of class bytes.now) }
{
    if class == 0 {
        let (node, rest) = number16(bytes)?;
        return Ok((Actor::Node(NodeId(node)), rest));
    }
    let (manager, rest) = number16_within(0, 8, bytes)?;
    Ok((Actor::Manager(manager as u8), rest))
}

/// An actor: a node, or a manager from 0 to 8.
#[tactic(auto, unfolding(crate::specs::Fields::actor_at))]
pub fn actor(bytes: &[u8]) -> Result<(Actor, &[u8]), FieldFault>
    ensures { Gives (λ x. (x.0, x.1.now)) result (actor_at bytes.now) }
{
    let (class, rest) = byte_within(0, 1, bytes)?;
    actor_of(class, rest)
}
