//! Responses, read from the front of some bytes.

ghost use Rattle.std.specs.Prelude.{◌≡◌};
ghost use Rattle.hk_fields.specs.Fields.{Gives, made, within, byte_at, many};
ghost use Rattle.hk_inside.specs.Reading.{counted_at, party_of, party_at, mark_of, flag_of, line_at, board_at, state_at, all_bytes, status_at, no_at, response_of, response_at};

use crate::board::{Board, BoardLine, BoardLines, Mark, Party};
use crate::fields::{kept, node, some_text, stage};
use crate::response::{ManagerState, Response};
use hk_base::Sequence;
use hk_fields::{
    FieldFault, byte, byte_within, host, number16, number16_within, number32, number64, ticket,
};
use std::alloc::Global;

#[tactic(auto, unfolding(crate::specs::Reading::party_of))]
fn party_of(class: u8, bytes: &[u8]) -> Result<(Party, &[u8]), FieldFault>
    ensures { Gives (λ x. (x.0, x.1.now)) result (party_of class bytes.now) }
{
    if class == 0 {
        let (node, rest) = node(bytes)?;
        return Ok((Party::Node(node), rest));
    }
    if class == 1 {
        let (place, rest) = number16_within(0, 8, bytes)?;
        return Ok((Party::Manager(place as u8), rest));
    }
    let (_, rest) = number16_within(0, 0, bytes)?;
    Ok((Party::Neither, rest))
}

#[tactic(auto, unfolding(crate::specs::Reading::party_at))]
fn party(bytes: &[u8]) -> Result<(Party, &[u8]), FieldFault>
    ensures { Gives (λ x. (x.0, x.1.now)) result (party_at bytes.now) }
{
    let (class, rest) = byte_within(0, 2, bytes)?;
    party_of(class, rest)
}

#[tactic(auto, unfolding(crate::specs::Reading::mark_of))]
fn mark_of(byte: u8) -> Mark
    ensures { result ≡ mark_of byte }
{
    match byte {
        0 => Mark::Bound,
        1 => Mark::Member,
        2 => Mark::ToLeave,
        _ => Mark::Out,
    }
}

fn mark(bytes: &[u8]) -> Result<(Mark, &[u8]), FieldFault>
    ensures { Gives (λ x. (x.0, x.1.now)) result (made mark_of (within 0 3 byte_at) bytes.now) }
{
    let (byte, rest) = byte_within(0, 3, bytes)?;
    Ok((mark_of(byte), rest))
}

#[tactic(auto, unfolding(crate::specs::Reading::flag_of))]
fn flag(bytes: &[u8]) -> Result<(bool, &[u8]), FieldFault>
    ensures { Gives (λ x. (x.0, x.1.now)) result (made flag_of (within 0 1 byte_at) bytes.now) }
{
    let (byte, rest) = byte_within(0, 1, bytes)?;
    Ok((byte != 0, rest))
}

#[tactic(auto, unfolding(crate::specs::Reading::line_at))]
fn line(alloc: Global, bytes: &[u8]) -> Result<(BoardLine, &[u8]), FieldFault>
    ensures { Gives (λ x. (x.0, x.1.now)) result (line_at bytes.now) }
{
    let (party, rest) = party(bytes)?;
    let (ticket, rest) = ticket(rest)?;
    let (mark, rest) = mark(rest)?;
    let (ready, rest) = flag(rest)?;
    let (inside, rest) = some_text(alloc, rest)?;
    Ok((
        BoardLine {
            party,
            ticket,
            mark,
            ready,
            inside,
        },
        rest,
    ))
}

fn many_lines(alloc: Global, count: u8, bytes: &[u8]) -> Result<(BoardLines, &[u8]), FieldFault>
    ensures { Gives (λ x. (x.0, x.1.now)) result (many line_at count bytes.now) }
{
    let mut lines = BoardLines::new(alloc);
    let mut rest = bytes;
    for _ in 0..count {
        let (line, after) = line(alloc, rest)?;
        if lines.push(line).is_err() {
            return Err(FieldFault::Memory);
        }
        rest = after;
    }
    Ok((lines, rest))
}

fn lines(alloc: Global, bytes: &[u8]) -> Result<(BoardLines, &[u8]), FieldFault>
    ensures { Gives (λ x. (x.0, x.1.now)) result (counted_at 0 255 line_at bytes.now) }
{
    let (count, rest) = byte_within(0, 255, bytes)?;
    many_lines(alloc, count, rest)
}

#[tactic(auto, unfolding(crate::specs::Reading::board_at))]
fn board(alloc: Global, bytes: &[u8]) -> Result<(Board, &[u8]), FieldFault>
    ensures { Gives (λ x. (x.0, x.1.now)) result (board_at bytes.now) }
{
    let (founding, rest) = number64(bytes)?;
    let (stage, rest) = stage(rest)?;
    let (records, rest) = number64(rest)?;
    let (managers_up, rest) = number16(rest)?;
    let (lines, rest) = lines(alloc, rest)?;
    Ok((
        Board {
            founding,
            stage,
            records,
            managers_up,
            lines,
        },
        rest,
    ))
}

#[tactic(auto, unfolding(crate::specs::Reading::state_at))]
fn state(bytes: &[u8]) -> Result<(ManagerState, &[u8]), FieldFault>
    ensures { Gives (λ x. (x.0, x.1.now)) result (state_at bytes.now) }
{
    let (founding, rest) = number64(bytes)?;
    let (stage, rest) = stage(rest)?;
    let (place, rest) = byte_within(0, 8, rest)?;
    let (tickets, rest) = host(rest)?;
    let (lease, rest) = number32(rest)?;
    let (skew, rest) = number32(rest)?;
    Ok((
        ManagerState {
            founding,
            stage,
            place,
            tickets,
            lease,
            skew,
        },
        rest,
    ))
}

// All that there is, and nothing behind.
fn rest_of(alloc: Global, bytes: &[u8]) -> Result<(Sequence<u8>, &[u8]), FieldFault>
    ensures { Gives (λ x. (x.0, x.1.now)) result (all_bytes bytes.now) }
{
    let text = kept(alloc, bytes)?;
    let (_, rest) = bytes.split_at(bytes.len());
    Ok((text, rest))
}

#[tactic(auto, unfolding(crate::specs::Reading::status_at))]
fn status(alloc: Global, bytes: &[u8]) -> Result<(Response, &[u8]), FieldFault>
    ensures { Gives (λ x. (x.0, x.1.now)) result (status_at bytes.now) }
{
    let (text, rest) = rest_of(alloc, bytes)?;
    Ok((Response::Status(text), rest))
}

#[tactic(auto, unfolding(crate::specs::Reading::no_at))]
fn no_of(alloc: Global, bytes: &[u8]) -> Result<(Response, &[u8]), FieldFault>
    ensures { Gives (λ x. (x.0, x.1.now)) result (no_at bytes.now) }
{
    let (code, rest) = byte_within(1, 12, bytes)?;
    let (text, rest) = rest_of(alloc, rest)?;
    Ok((Response::No { code, text }, rest))
}

#[tactic(auto, unfolding(crate::specs::Reading::response_of))]
fn response_of(alloc: Global, kind: u8, bytes: &[u8]) -> Result<(Response, &[u8]), FieldFault>
    ensures { Gives (λ x. (x.0, x.1.now)) result (response_of kind bytes.now) }
{
    match kind {
        128 => Ok((Response::Yes, bytes)),
        129 => {
            let (board, rest) = board(alloc, bytes)?;
            Ok((Response::Board(board), rest))
        }
        130 => {
            let (node, rest) = node(bytes)?;
            Ok((Response::Seated(node), rest))
        }
        132 => {
            let (state, rest) = state(bytes)?;
            Ok((Response::State(state), rest))
        }
        135 => status(alloc, bytes),
        143 => no_of(alloc, bytes),
        _ => Err(FieldFault::Malformed),
    }
}

// The response that the bytes are.
#[tactic(auto, unfolding(crate::specs::Reading::response_at))]
pub fn response(alloc: Global, bytes: &[u8]) -> Result<Response, FieldFault>
    ensures { Gives (λ x. x) result (response_at bytes.now) }
{
    let (kind, rest) = byte(bytes)?;
    let (response, rest) = response_of(alloc, kind, rest)?;
    if !rest.is_empty() {
        return Err(FieldFault::Malformed);
    }
    Ok(response)
}
