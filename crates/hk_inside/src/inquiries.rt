//! Inquiries, read from the front of some bytes.

ghost use Rattle.std.specs.Prelude.{◌≡◌};
ghost use Rattle.hk_fields.specs.Fields.{Gives, host_at};
ghost use Rattle.hk_inside.specs.Reading.{counted_at, leaver_of, leaver_at, claim_at, found_at, inquiry_of, inquiry_at};

use crate::fields::{founding, node};
use crate::inquiry::{Inquiry, Leaver};
use crate::reports::report;
use hk_base::Actor;
use hk_fields::{FieldFault, FoundingHosts, actor, byte, byte_within, many_hosts, ticket};
use std::alloc::Global;

fn leaver_of(actor: Actor) -> Leaver
    ensures { result ≡ leaver_of actor }
{
    match actor {
        Actor::Node(node) => Leaver::Node(node),
        Actor::Manager(place) => Leaver::Host(place),
    }
}

#[tactic(auto, unfolding(crate::specs::Reading::leaver_at))]
fn leaver(bytes: &[u8]) -> Result<(Leaver, &[u8]), FieldFault>
    ensures { Gives (λ x. (x.0, x.1.now)) result (leaver_at bytes.now) }
{
    let (actor, rest) = actor(bytes)?;
    Ok((leaver_of(actor), rest))
}

#[tactic(auto, unfolding(crate::specs::Reading::claim_at))]
fn claim(bytes: &[u8]) -> Result<(Inquiry, &[u8]), FieldFault>
    ensures { Gives (λ x. (x.0, x.1.now)) result (claim_at bytes.now) }
{
    let (node, rest) = node(bytes)?;
    let (ticket, rest) = ticket(rest)?;
    Ok((Inquiry::Claim { node, ticket }, rest))
}

fn hosts(alloc: Global, bytes: &[u8]) -> Result<(FoundingHosts, &[u8]), FieldFault>
    ensures { Gives (λ x. (x.0, x.1.now)) result (counted_at 1 9 host_at bytes.now) }
{
    let (count, rest) = byte_within(1, 9, bytes)?;
    many_hosts(alloc, count, rest)
}

#[tactic(auto, unfolding(crate::specs::Reading::found_at))]
fn found(alloc: Global, bytes: &[u8]) -> Result<(Inquiry, &[u8]), FieldFault>
    ensures { Gives (λ x. (x.0, x.1.now)) result (found_at bytes.now) }
{
    let (founding, rest) = founding(bytes)?;
    let (hosts, rest) = hosts(alloc, rest)?;
    Ok((Inquiry::Found { founding, hosts }, rest))
}

#[tactic(auto, unfolding(crate::specs::Reading::inquiry_of))]
fn inquiry_of(alloc: Global, kind: u8, bytes: &[u8]) -> Result<(Inquiry, &[u8]), FieldFault>
    ensures { Gives (λ x. (x.0, x.1.now)) result (inquiry_of kind bytes.now) }
{
    match kind {
        1 => {
            let (report, rest) = report(alloc, bytes)?;
            Ok((Inquiry::Report(report), rest))
        }
        2 => {
            let (ticket, rest) = ticket(bytes)?;
            Ok((Inquiry::Seat(ticket), rest))
        }
        3 => claim(bytes),
        4 => {
            let (founding, rest) = founding(bytes)?;
            Ok((Inquiry::Look { founding }, rest))
        }
        5 => found(alloc, bytes),
        6 => {
            let (leaver, rest) = leaver(bytes)?;
            Ok((Inquiry::Leave(leaver), rest))
        }
        7 => Ok((Inquiry::Status, bytes)),
        _ => Err(FieldFault::Malformed),
    }
}

// The inquiry that the bytes are.
#[tactic(auto, unfolding(crate::specs::Reading::inquiry_at))]
pub fn inquiry(alloc: Global, bytes: &[u8]) -> Result<Inquiry, FieldFault>
    ensures { Gives (λ x. x) result (inquiry_at bytes.now) }
{
    let (kind, rest) = byte(bytes)?;
    let (inquiry, rest) = inquiry_of(alloc, kind, rest)?;
    if !rest.is_empty() {
        return Err(FieldFault::Malformed);
    }
    Ok(inquiry)
}
