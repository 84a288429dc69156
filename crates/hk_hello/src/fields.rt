//! The fields of a hello, each read from the front of some bytes.

ghost use Rattle.std.specs.Prelude.{◌≡◌, IfOk};
ghost use Rattle.hk_fields.specs.Fields.{Gives};
ghost use Rattle.hk_hello.specs.Fields.{purpose_at, party_of, party_at, hosts_at, group_at, parties_at, home_at, terms_at, hello_at, proof_at, signed_at};

use crate::hello::{GroupName, Hello, HostsDigest, Party, Purpose, SignedHello};
use crate::mac::Proof;
use crate::ranges::is_name;
use hk_base::{Actor, Memory, NodeId};
use hk_fields::{
    FieldFault, Ticket, byte_within, number16, number16_within, number32, number64, text, ticket,
};
use std::alloc::Global;

#[tactic(auto, unfolding(crate::specs::Fields::purpose_at))]
fn purpose(bytes: &[u8]) -> Result<(Purpose, &[u8]), FieldFault>
    ensures { Gives (λ x. (x.0, x.1.now)) result (purpose_at bytes.now) }
{
    let (number, rest) = byte_within(0, 1, bytes)?;
    if number == 0 {
        return Ok((Purpose::Letters, rest));
    }
    Ok((Purpose::Requests, rest))
}

#[tactic(auto, unfolding(crate::specs::Fields::party_of))]
fn party_of(class: u8, bytes: &[u8]) -> Result<(Party, &[u8]), FieldFault>
    ensures { Gives (λ x. (x.0, x.1.now)) result (party_of class bytes.now) }
{
    if class == 0 {
        let (node, rest) = number16(bytes)?;
        return Ok((Party::Actor(Actor::Node(NodeId(node))), rest));
    }
    if class == 1 {
        let (manager, rest) = number16_within(0, 8, bytes)?;
        return Ok((Party::Actor(Actor::Manager(manager as u8)), rest));
    }
    let (_, rest) = number16_within(0, 0, bytes)?;
    Ok((Party::Neither, rest))
}

#[tactic(auto, unfolding(crate::specs::Fields::party_at))]
fn party(bytes: &[u8]) -> Result<(Party, &[u8]), FieldFault>
    ensures { Gives (λ x. (x.0, x.1.now)) result (party_at bytes.now) }
{
    let (class, rest) = byte_within(0, 2, bytes)?;
    party_of(class, rest)
}

#[tactic(auto, unfolding(crate::specs::Fields::hosts_at))]
fn hosts(bytes: &[u8]) -> Result<(HostsDigest, &[u8]), FieldFault>
    ensures { Gives (λ x. (x.0, x.1.now)) result (hosts_at bytes.now) }
{
    match bytes.split_first_chunk::<8>() {
        Some((hosts, rest)) => Ok((HostsDigest(*hosts), rest)),
        None => Err(FieldFault::Malformed),
    }
}

fn owned(alloc: Global, bytes: &[u8]) -> Result<GroupName, Memory>
    ensures { IfOk result (λ name. name ≡ bytes.now) }
{
    let mut name = Vec::new(alloc);
    name.extend_from_slice(bytes)?;
    Ok(GroupName::from_vec(name))
}

#[tactic(auto, unfolding(crate::specs::Fields::group_at))]
fn group(alloc: Global, bytes: &[u8]) -> Result<(GroupName, &[u8]), FieldFault>
    ensures { Gives (λ x. (x.0, x.1.now)) result (group_at bytes.now) }
{
    let (name, rest) = text(1, 32, bytes)?;
    if !is_name(name) {
        return Err(FieldFault::Malformed);
    }
    match owned(alloc, name) {
        Ok(name) => Ok((name, rest)),
        Err(_) => Err(FieldFault::Memory),
    }
}

#[tactic(auto, unfolding(crate::specs::Fields::parties_at))]
fn parties(bytes: &[u8]) -> Result<((Purpose, (Party, Party)), &[u8]), FieldFault>
    ensures { Gives (λ x. (x.0, x.1.now)) result (parties_at bytes.now) }
{
    let (purpose, rest) = purpose(bytes)?;
    let (from, rest) = party(rest)?;
    let (to, rest) = party(rest)?;
    Ok(((purpose, (from, to)), rest))
}

#[tactic(auto, unfolding(crate::specs::Fields::home_at))]
fn home(bytes: &[u8]) -> Result<((u64, (Ticket, HostsDigest)), &[u8]), FieldFault>
    ensures { Gives (λ x. (x.0, x.1.now)) result (home_at bytes.now) }
{
    let (founding, rest) = number64(bytes)?;
    let (ticket, rest) = ticket(rest)?;
    let (hosts, rest) = hosts(rest)?;
    Ok(((founding, (ticket, hosts)), rest))
}

#[tactic(auto, unfolding(crate::specs::Fields::terms_at))]
fn terms(alloc: Global, bytes: &[u8]) -> Result<((u32, (u32, GroupName)), &[u8]), FieldFault>
    ensures { Gives (λ x. (x.0, x.1.now)) result (terms_at bytes.now) }
{
    let (lease, rest) = number32(bytes)?;
    let (skew, rest) = number32(rest)?;
    let (group, rest) = group(alloc, rest)?;
    Ok(((lease, (skew, group)), rest))
}

#[tactic(auto, unfolding(crate::specs::Fields::hello_at))]
fn hello(alloc: Global, bytes: &[u8]) -> Result<(Hello, &[u8]), FieldFault>
    ensures { Gives (λ x. (x.0, x.1.now)) result (hello_at bytes.now) }
{
    let ((purpose, (from, to)), rest) = parties(bytes)?;
    let ((founding, (ticket, hosts)), rest) = home(rest)?;
    let ((lease, (skew, group)), rest) = terms(alloc, rest)?;
    Ok((
        Hello {
            purpose,
            from,
            to,
            founding,
            ticket,
            hosts,
            lease,
            skew,
            group,
        },
        rest,
    ))
}

#[tactic(auto, unfolding(crate::specs::Fields::proof_at))]
fn proof(bytes: &[u8]) -> Result<(Proof, &[u8]), FieldFault>
    ensures { Gives (λ x. (x.0, x.1.now)) result (proof_at bytes.now) }
{
    match bytes.split_first_chunk::<32>() {
        Some((proof, rest)) => Ok((Proof(*proof), rest)),
        None => Err(FieldFault::Malformed),
    }
}

// The hello and the proof that begin the bytes.
#[tactic(auto, unfolding(crate::specs::Fields::signed_at))]
pub fn signed(alloc: Global, bytes: &[u8]) -> Result<(SignedHello, &[u8]), FieldFault>
    ensures { Gives (λ x. (x.0, x.1.now)) result (signed_at bytes.now) }
{
    let (hello, rest) = hello(alloc, bytes)?;
    let (proof, rest) = proof(rest)?;
    Ok((SignedHello { hello, proof }, rest))
}
