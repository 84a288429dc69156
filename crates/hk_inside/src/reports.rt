//! Reports, read from the front of some bytes.

ghost use Rattle.std.specs.Prelude.{◌≡◌};
ghost use Rattle.std.specs.Int.{w16, w32};
ghost use Rattle.hk_fields.specs.Fields.{Gives, made, within, byte_at, number_at, many};
ghost use Rattle.hk_inside.specs.Reading.{counted_at, some_node, node_state_of, place_of, place_at, some_age, who_at, shards_at, counts_at, seen_at, places_at, report_at};

use crate::fields::{node, some_text};
use crate::report::{Counts, NodeSeen, NodeState, NodesSeen, Report, ShardsTold, Text};
use hk_base::NodeId;
use hk_fields::{FieldFault, Ticket, byte, byte_within, number16, number32, number64, ticket};
use std::alloc::Global;

#[tactic(auto, unfolding(crate::specs::Reading::some_node))]
fn some_node(bytes: &[u8]) -> Result<(Option<NodeId>, &[u8]), FieldFault>
    ensures { Gives (λ x. (x.0, x.1.now)) result (made some_node (number_at w16) bytes.now) }
{
    let (number, rest) = number16(bytes)?;
    if number == u16::MAX {
        return Ok((None, rest));
    }
    Ok((Some(NodeId(number)), rest))
}

#[tactic(auto, unfolding(crate::specs::Reading::node_state_of))]
fn node_state_of(byte: u8) -> NodeState
    ensures { result ≡ node_state_of byte }
{
    match byte {
        0 => NodeState::Waiting,
        1 => NodeState::Seated,
        2 => NodeState::Copying,
        3 => NodeState::Ready,
        _ => NodeState::Leaving,
    }
}

fn node_state(bytes: &[u8]) -> Result<(NodeState, &[u8]), FieldFault>
    ensures { Gives (λ x. (x.0, x.1.now)) result (made node_state_of (within 0 4 byte_at) bytes.now) }
{
    let (byte, rest) = byte_within(0, 4, bytes)?;
    Ok((node_state_of(byte), rest))
}

#[tactic(auto, unfolding(crate::specs::Reading::place_of))]
fn place_of(byte: u8, bytes: &[u8]) -> Result<(Option<u8>, &[u8]), FieldFault>
    ensures { Gives (λ x. (x.0, x.1.now)) result (place_of byte bytes.now) }
{
    if byte == u8::MAX {
        return Ok((None, bytes));
    }
    if 8 < byte {
        return Err(FieldFault::Malformed);
    }
    Ok((Some(byte), bytes))
}

#[tactic(auto, unfolding(crate::specs::Reading::place_at))]
fn place(bytes: &[u8]) -> Result<(Option<u8>, &[u8]), FieldFault>
    ensures { Gives (λ x. (x.0, x.1.now)) result (place_at bytes.now) }
{
    let (byte, rest) = byte(bytes)?;
    place_of(byte, rest)
}

#[tactic(auto, unfolding(crate::specs::Reading::some_age))]
fn some_age(bytes: &[u8]) -> Result<(Option<u32>, &[u8]), FieldFault>
    ensures { Gives (λ x. (x.0, x.1.now)) result (made some_age (number_at w32) bytes.now) }
{
    let (age, rest) = number32(bytes)?;
    if age == u32::MAX {
        return Ok((None, rest));
    }
    Ok((Some(age), rest))
}

// The ticket, the node's number and its state, the manager's place, and its records.
type Who = (Ticket, (Option<NodeId>, (NodeState, (Option<u8>, u64))));

#[tactic(auto, unfolding(crate::specs::Reading::who_at))]
fn who(bytes: &[u8]) -> Result<(Who, &[u8]), FieldFault>
    ensures { Gives (λ x. (x.0, x.1.now)) result (who_at bytes.now) }
{
    let (ticket, rest) = ticket(bytes)?;
    let (node, rest) = some_node(rest)?;
    let (state, rest) = node_state(rest)?;
    let (manager, rest) = place(rest)?;
    let (records, rest) = number64(rest)?;
    Ok(((ticket, (node, (state, (manager, records)))), rest))
}

#[tactic(auto, unfolding(crate::specs::Reading::shards_at))]
fn shards(bytes: &[u8]) -> Result<(ShardsTold, &[u8]), FieldFault>
    ensures { Gives (λ x. (x.0, x.1.now)) result (shards_at bytes.now) }
{
    let (ready, rest) = byte_within(0, 8, bytes)?;
    let (least_epoch, rest) = number64(rest)?;
    let (least_lease_left, rest) = number32(rest)?;
    Ok((
        ShardsTold {
            ready,
            least_epoch,
            least_lease_left,
        },
        rest,
    ))
}

#[tactic(auto, unfolding(crate::specs::Reading::counts_at))]
fn counts(bytes: &[u8]) -> Result<(Counts, &[u8]), FieldFault>
    ensures { Gives (λ x. (x.0, x.1.now)) result (counts_at bytes.now) }
{
    let (keys, rest) = number64(bytes)?;
    let (bytes, rest) = number64(rest)?;
    let (gets, rest) = number64(rest)?;
    let (sets, rest) = number64(rest)?;
    let (busy, rest) = number64(rest)?;
    let (aborted, rest) = number64(rest)?;
    let (unknown, rest) = number64(rest)?;
    Ok((
        Counts {
            keys,
            bytes,
            gets,
            sets,
            busy,
            aborted,
            unknown,
        },
        rest,
    ))
}

#[tactic(auto, unfolding(crate::specs::Reading::seen_at))]
fn node_seen(bytes: &[u8]) -> Result<(NodeSeen, &[u8]), FieldFault>
    ensures { Gives (λ x. (x.0, x.1.now)) result (seen_at bytes.now) }
{
    let (node, rest) = node(bytes)?;
    let (age_of_ask, rest) = some_age(rest)?;
    let (unacknowledged, rest) = number32(rest)?;
    Ok((
        NodeSeen {
            node,
            age_of_ask,
            unacknowledged,
        },
        rest,
    ))
}

fn many_nodes(alloc: Global, count: u8, bytes: &[u8]) -> Result<(NodesSeen, &[u8]), FieldFault>
    ensures { Gives (λ x. (x.0, x.1.now)) result (many seen_at count bytes.now) }
{
    let mut nodes = NodesSeen::new(alloc);
    let mut rest = bytes;
    for _ in 0..count {
        let (node, after) = node_seen(rest)?;
        if nodes.push(node).is_err() {
            return Err(FieldFault::Memory);
        }
        rest = after;
    }
    Ok((nodes, rest))
}

fn nodes_seen(alloc: Global, bytes: &[u8]) -> Result<(NodesSeen, &[u8]), FieldFault>
    ensures { Gives (λ x. (x.0, x.1.now)) result (counted_at 0 255 seen_at bytes.now) }
{
    let (count, rest) = byte_within(0, 255, bytes)?;
    many_nodes(alloc, count, rest)
}

// The addresses, and the nodes that were seen.
type Places = (Text, (Text, NodesSeen));

#[tactic(auto, unfolding(crate::specs::Reading::places_at))]
fn places(alloc: Global, bytes: &[u8]) -> Result<(Places, &[u8]), FieldFault>
    ensures { Gives (λ x. (x.0, x.1.now)) result (places_at bytes.now) }
{
    let (inside, rest) = some_text(alloc, bytes)?;
    let (clients, rest) = some_text(alloc, rest)?;
    let (nodes, rest) = nodes_seen(alloc, rest)?;
    Ok(((inside, (clients, nodes)), rest))
}

#[tactic(auto, unfolding(crate::specs::Reading::report_at))]
pub fn report(alloc: Global, bytes: &[u8]) -> Result<(Report, &[u8]), FieldFault>
    ensures { Gives (λ x. (x.0, x.1.now)) result (report_at bytes.now) }
{
    let ((ticket, (node, (state, (manager, records)))), rest) = who(bytes)?;
    let (shards, rest) = shards(rest)?;
    let (counts, rest) = counts(rest)?;
    let ((inside, (clients, nodes)), rest) = places(alloc, rest)?;
    Ok((
        Report {
            ticket,
            node,
            state,
            manager,
            records,
            shards,
            counts,
            inside,
            clients,
            nodes,
        },
        rest,
    ))
}
