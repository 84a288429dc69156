//! Which process words tell.

ghost use Rattle.std.specs.Prelude.{◌≡◌, ◌↔◌, map, IsTrue, IfOk};
ghost use Rattle.hk_hello.specs.Mac.{hosts_digest};
ghost use Rattle.hk_hosts.specs.Addresses.{address_text};
ghost use Rattle.hk_shared_state.specs.Fitting.{Fits, is_place_below};
ghost use Rattle.hk_shared_state.specs.Identities.{IsIdentityOf};

use crate::identity::Identity;
use hk_base::{Memory, Sequence};
use hk_fields::Ticket;
use hk_hello::{HostsDigest, hosts_digest, is_group_name};
use hk_host_words::{GroupWords, NodeWords};
use hk_hosts::Address;
use hk_inside::Text;
use std::alloc::Global;
use thiserror::Error;

/// Why a process is not what words say.
#[derive(Clone, Copy, Debug, PartialEq, Eq, Error)]
pub enum IdentityFault {
    /// An allocation was refused.
    #[error("no memory")]
    Memory,
    /// The words are not those of a process: one of their parts is out of its range.
    #[error("no process is so")]
    Unfit,
}

impl From<Memory> for IdentityFault {
    ghost use Rattle.std.specs.Prelude.{◌≡◌};
    ghost use Rattle.hk_shared_state.specs.declared.making.IdentityFault.TheVariants as faults;

    ghost from_gives = { λ memory result. result ≡ faults.Memory };

    fn from(_memory: Memory) -> IdentityFault
        ensures from_gives { result ≡ faults.Memory }
    {
        IdentityFault::Memory
    }
}

// The greatest number of hosts.
const MOST_HOSTS: usize = 9;

// The greatest length of a text, in bytes.
const MOST_TEXT: usize = 255;

fn is_place_below(place: Option<u8>, count: usize) -> bool
    ensures { result ≡ is_place_below count place }
{
    match place {
        Some(place) => usize::from(place) < count,
        None => true,
    }
}

// Whether a process may be so.
fn is_fit(group: &[u8], hosts: usize, place: Option<u8>, inside: &[u8], clients: &[u8]) -> bool
    ensures { IsTrue result ↔ Fits group.now hosts place inside.now clients.now }
{
    is_group_name(group)
        && hosts > 0
        && hosts <= MOST_HOSTS
        && is_place_below(place, hosts)
        && inside.len() <= MOST_TEXT
        && clients.len() <= MOST_TEXT
}

// An address as text, with its port.
fn text_of(alloc: Global, address: &Address) -> Result<Text, Memory>
    ensures { IfOk result (λ text. text ≡ address_text address.now) }
{
    let mut text = Vec::new(alloc);
    address.put(&mut text)?;
    Ok(Sequence::from_vec(text))
}

// The addresses as texts.
fn texts_of(alloc: Global, hosts: &[Address]) -> Result<Vec<Text>, Memory>
    ensures { IfOk result (λ texts. texts.items ≡ map address_text hosts.now) }
{
    let mut texts = Vec::new(alloc);
    for host in hosts {
        texts.push(text_of(alloc, host)?)?;
    }
    Ok(texts)
}

/// The digest of a group's hosts.
pub fn digest_of(alloc: Global, hosts: &[Address]) -> Result<HostsDigest, Memory>
    ensures { IfOk result (λ digest. digest.0 ≡ hosts_digest (map address_text hosts.now)) }
{
    let texts = texts_of(alloc, hosts)?;
    Ok(hosts_digest(&texts))
}

impl Identity {
    /// The process that words and a secret tell, with a ticket that was drawn for it.
    pub fn new(
        alloc: Global,
        words: NodeWords,
        secret: Sequence<u8>,
        ticket: Ticket,
    ) -> Result<Identity, IdentityFault>
        ensures { IsIdentityOf result words secret ticket }
    {
        let NodeWords {
            group,
            at,
            inside,
            listen,
            lease,
            skew,
            ..
        } = words;
        let GroupWords { hosts, group, .. } = group;
        let inside = text_of(alloc, &inside)?;
        let clients = text_of(alloc, &listen)?;
        if !is_fit(
            group.as_slice(),
            hosts.len(),
            at,
            inside.as_slice(),
            clients.as_slice(),
        ) {
            return Err(IdentityFault::Unfit);
        }
        let digest = digest_of(alloc, hosts.as_slice())?;
        Ok(Identity {
            secret,
            group,
            hosts,
            digest,
            lease,
            skew,
            place: at,
            ticket,
            inside,
            clients,
        })
    }
}
