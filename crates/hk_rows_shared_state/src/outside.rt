//! A process on the second of three hosts, as words tell it.

use hk_base::Sequence;
use hk_fields::Ticket;
use hk_host_words::{GroupWords, NodeWords};
use hk_hosts::{Address, Hosts};
use hk_shared_state::Identity;
use std::alloc::Global;
use std::process::Abort;

/// The ticket of the process.
pub(crate) const OWN: Ticket = Ticket([7; 16]);

pub(crate) fn bytes_of(rt: &impl Abort, alloc: Global, bytes: &[u8]) -> Sequence<u8> {
    Sequence::from_vec(bytes.to_vec(alloc).expect(rt, "memory"))
}

fn address(rt: &impl Abort, alloc: Global, host: &[u8], port: u16) -> Address {
    Address {
        host: bytes_of(rt, alloc, host),
        port,
    }
}

fn hosts(rt: &impl Abort, alloc: Global) -> Hosts {
    let mut hosts = Hosts::new(alloc);
    for name in [b"10.0.0.1", b"10.0.0.2", b"10.0.0.3"] {
        hosts
            .push(address(rt, alloc, name, 11_400))
            .expect(rt, "memory");
    }
    hosts
}

/// Words of a process at this place, with this name and lease.
pub(crate) fn words(
    rt: &impl Abort,
    alloc: Global,
    name: &[u8],
    at: Option<u8>,
    lease: u32,
) -> NodeWords {
    NodeWords {
        group: GroupWords {
            hosts: hosts(rt, alloc),
            secret: bytes_of(rt, alloc, b"secret"),
            group: bytes_of(rt, alloc, name),
        },
        at,
        inside: address(rt, alloc, b"10.0.0.2", 11_400),
        listen: address(rt, alloc, b"10.0.0.2", 11_211),
        data: bytes_of(rt, alloc, b"data"),
        lease,
        skew: 10,
        workers: 1,
    }
}

/// The process on the second host.
pub(crate) fn second(rt: &impl Abort, alloc: Global, lease: u32) -> Identity {
    let words = words(rt, alloc, b"hermes", Some(1), lease);
    let secret = bytes_of(rt, alloc, b"correct horse battery");
    Identity::new(alloc, words, secret, OWN).expect(rt, "memory")
}
