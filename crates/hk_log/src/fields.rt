//! The fields of entries, each read from the front of some bytes.

ghost use Rattle.std.specs.Prelude.{◌≡◌, ◌≤◌};
ghost use Rattle.hk_fields.specs.Fields.{Gives};
ghost use Rattle.hk_log.specs.Entries.{is_of_paxos};
ghost use Rattle.hk_log.specs.Fields.{settings_at, hosts_at, founding_at, change_of, change_at, proposed_at, received_at, bound_at, entry_of, entry_at};

use crate::entry::{Entry, Founding};
use hk_base::{Body, Change, NodeId};
use hk_fields::{
    FieldFault, FoundingHosts, actor, byte, byte_within, many_hosts, number16, number16_within,
    number32, number64, number64_within, ticket,
};
use hk_frame::{FrameFault, read_letter};
use std::alloc::Global;

#[tactic(auto, unfolding(crate::specs::Fields::settings_at))]
fn settings(
    alloc: Global,
    count: u8,
    bytes: &[u8],
) -> Result<((u32, (u32, FoundingHosts)), &[u8]), FieldFault>
    ensures { Gives (λ x. (x.0, x.1.now)) result (settings_at count bytes.now) }
{
    let (lease, rest) = number32(bytes)?;
    let (skew, rest) = number32(rest)?;
    let (hosts, rest) = many_hosts(alloc, count, rest)?;
    Ok(((lease, (skew, hosts)), rest))
}

#[tactic(auto, unfolding(crate::specs::Fields::hosts_at))]
fn hosts(
    alloc: Global,
    place: u8,
    bytes: &[u8],
) -> Result<((u8, (u32, (u32, FoundingHosts))), &[u8]), FieldFault>
    requires { place ≤ 8 }
    ensures { Gives (λ x. (x.0, x.1.now)) result (hosts_at place bytes.now) }
{
    let (count, rest) = byte_within(place + 1, 9, bytes)?;
    let (settings, rest) = settings(alloc, count, rest)?;
    Ok(((count, settings), rest))
}

#[tactic(auto, unfolding(crate::specs::Fields::founding_at))]
fn founding(alloc: Global, bytes: &[u8]) -> Result<(Founding, &[u8]), FieldFault>
    ensures { Gives (λ x. (x.0, x.1.now)) result (founding_at bytes.now) }
{
    let (number, rest) = number64_within(1, u64::MAX, bytes)?;
    let (place, rest) = byte_within(0, 8, rest)?;
    let ((_, (lease, (skew, hosts))), rest) = hosts(alloc, place, rest)?;
    Ok((
        Founding {
            number,
            place,
            lease,
            skew,
            hosts,
        },
        rest,
    ))
}

#[tactic(auto, unfolding(crate::specs::Fields::change_of))]
fn change_of(class: u8, bytes: &[u8]) -> Result<(Change, &[u8]), FieldFault>
    ensures { Gives (λ x. (x.0, x.1.now)) result (change_of class bytes.now) }
{
    if class == 0 {
        let (node, rest) = number16(bytes)?;
        return Ok((Change::Drop(NodeId(node)), rest));
    }
    let (_, rest) = number16_within(0, 0, bytes)?;
    Ok((Change::Add, rest))
}

#[tactic(auto, unfolding(crate::specs::Fields::change_at))]
fn change(bytes: &[u8]) -> Result<(Change, &[u8]), FieldFault>
    ensures { Gives (λ x. (x.0, x.1.now)) result (change_at bytes.now) }
{
    let (class, rest) = byte_within(0, 1, bytes)?;
    change_of(class, rest)
}

#[tactic(auto, unfolding(crate::specs::Fields::proposed_at))]
fn proposed(bytes: &[u8]) -> Result<(Entry, &[u8]), FieldFault>
    ensures { Gives (λ x. (x.0, x.1.now)) result (proposed_at bytes.now) }
{
    let (shard, rest) = byte_within(0, 7, bytes)?;
    let (base, rest) = number64(rest)?;
    let (change, rest) = change(rest)?;
    Ok((
        Entry::Propose {
            shard,
            base,
            change,
        },
        rest,
    ))
}

// Whether a letter is one of Paxos.
pub fn is_of_paxos(body: &Body) -> bool
    ensures { result ≡ is_of_paxos body.now }
{
    match body {
        Body::Prepare(_) => true,
        Body::Promise { .. } => true,
        Body::Accept { .. } => true,
        Body::Accepted(_) => true,
        Body::Chosen(_) => true,
        _ => false,
    }
}

#[tactic(auto, unfolding(crate::specs::Fields::received_at))]
fn received(alloc: Global, bytes: &[u8]) -> Result<(Entry, &[u8]), FieldFault>
    ensures { Gives (λ x. (x.0, x.1.now)) result (received_at bytes.now) }
{
    match read_letter(alloc, bytes) {
        Ok((shard, letter, len)) => {
            if !is_of_paxos(&letter.body) {
                return Err(FieldFault::Malformed);
            }
            let (_, rest) = bytes.split_at(len);
            Ok((Entry::Receive { shard, letter }, rest))
        }
        Err(FrameFault::Memory) => Err(FieldFault::Memory),
        Err(_) => Err(FieldFault::Malformed),
    }
}

#[tactic(auto, unfolding(crate::specs::Fields::bound_at))]
fn bound(bytes: &[u8]) -> Result<(Entry, &[u8]), FieldFault>
    ensures { Gives (λ x. (x.0, x.1.now)) result (bound_at bytes.now) }
{
    let (actor, rest) = actor(bytes)?;
    let (ticket, rest) = ticket(rest)?;
    Ok((Entry::Bound { actor, ticket }, rest))
}

#[tactic(auto, unfolding(crate::specs::Fields::entry_of))]
fn entry_of(alloc: Global, kind: u8, bytes: &[u8]) -> Result<(Entry, &[u8]), FieldFault>
    ensures { Gives (λ x. (x.0, x.1.now)) result (entry_of kind bytes.now) }
{
    match kind {
        1 => {
            let (founding, rest) = founding(alloc, bytes)?;
            Ok((Entry::Founded(founding), rest))
        }
        2 => Ok((Entry::Open, bytes)),
        3 => proposed(bytes),
        4 => received(alloc, bytes),
        5 => bound(bytes),
        _ => Err(FieldFault::Malformed),
    }
}

// The entry that begins the bytes.
#[tactic(auto, unfolding(crate::specs::Fields::entry_at))]
pub fn entry(alloc: Global, bytes: &[u8]) -> Result<(Entry, &[u8]), FieldFault>
    ensures { Gives (λ x. (x.0, x.1.now)) result (entry_at bytes.now) }
{
    let (kind, rest) = byte(bytes)?;
    entry_of(alloc, kind, rest)
}
