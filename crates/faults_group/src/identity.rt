//! What the processes of a group are.

use hk_base::{Memory, Sequence};
use hk_fields::Ticket;
use hk_host_words::{GroupWords, NodeWords};
use hk_hosts::{Address, Hosts};
use hk_shared_state::Identity;
use std::alloc::Global;

/// So many hosts have managers at most.
pub const MOST_MANAGERS: usize = 9;

/// The terms of a group.
#[derive(Clone, Copy, Debug)]
pub struct GroupTerms {
    /// How many hosts have managers: 1, 3 or 5.
    pub managers: u8,
    /// How many hosts there are.
    pub hosts: usize,
    pub lease: u32,
    pub skew: u32,
}

fn address(alloc: Global, host: usize) -> Result<Address, Memory> {
    let digit = b'0'.saturating_add(u8::try_from(host).unwrap_or(0));
    Ok(Address {
        host: Sequence::from_vec([b'h', digit].to_vec(alloc)?),
        port: 11_400,
    })
}

/// A text of these bytes.
pub fn text_of(alloc: Global, bytes: &[u8]) -> Result<Sequence<u8>, Memory> {
    Ok(Sequence::from_vec(bytes.to_vec(alloc)?))
}

// The place of a host, if it has a manager.
fn place_of(terms: &GroupTerms, host: usize) -> Option<u8> {
    let place = u8::try_from(host).ok()?;
    if place < terms.managers {
        Some(place)
    } else {
        None
    }
}

// The words of the process of a host.
fn words_of(alloc: Global, terms: &GroupTerms, host: usize) -> Result<NodeWords, Memory> {
    let mut hosts = Hosts::new(alloc);
    for place in 0..terms.managers {
        hosts.push(address(alloc, usize::from(place))?)?;
    }
    let group = GroupWords {
        hosts,
        secret: text_of(alloc, b"secret")?,
        group: text_of(alloc, b"hermes")?,
    };
    Ok(NodeWords {
        group,
        at: place_of(terms, host),
        inside: address(alloc, host)?,
        listen: address(alloc, host)?,
        data: text_of(alloc, b"data")?,
        lease: terms.lease,
        skew: terms.skew,
        workers: 1,
    })
}

/// What the process of a host is, whose ticket was drawn.
pub fn identity_of(
    alloc: Global,
    terms: &GroupTerms,
    host: usize,
    ticket: Ticket,
) -> Result<Identity, Memory> {
    let words = words_of(alloc, terms, host)?;
    let secret = text_of(alloc, b"correct horse battery")?;
    match Identity::new(alloc, words, secret, ticket) {
        Ok(identity) => Ok(identity),
        Err(_) => Err(Memory),
    }
}
