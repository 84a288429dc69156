//! What a process says of itself, and by which terms it goes.

ghost use Rattle.std.specs.Prelude.{◌≡◌, ◌≤◌, ◌/◌, length, max, slice_get, IfOk};
ghost use Rattle.std.specs.Option.{option_copied};
ghost use Rattle.hk_hello.specs.Hellos.{IsHelloInRange};
ghost use Rattle.hk_shared_state.specs.Identities.{hello_of, ours_of};

use crate::identity::Identity;
use hk_base::{Memory, Sequence};
use hk_fields::Ticket;
use hk_hello::{Hello, Ours, Party, Purpose, is_in_range};
use hk_hosts::Address;
use std::alloc::Global;

// The shortest beat, in milliseconds.
const LEAST_BEAT: u64 = 10;

// So many beats are in a lease.
const BEATS: u64 = 16;

fn copy_bytes(alloc: Global, bytes: &[u8]) -> Result<Sequence<u8>, Memory>
    ensures { IfOk result (λ copy. copy ≡ bytes.now) }
{
    let copy = bytes.to_vec(alloc)?;
    Ok(Sequence::from_vec(copy))
}

impl Identity {
    /// How often, in milliseconds, a process reports, renews its leases and sends again what waits: 16 times a lease, and
    /// not more often than each 10 ms.
    pub fn beat(&self) -> u64
        ensures { result ≡ max (self.now.lease / 16) 10 }
    {
        (u64::from(self.lease) / BEATS).max(LEAST_BEAT)
    }

    /// How many managers the group has, 1 to 9.
    pub fn managers(&self) -> u8
        ensures exact { result ≡ length self.now.hosts }
        ensures some { 1 ≤ result }
        ensures few { result ≤ 9 }
    {
        self.hosts.len() as u8
    }

    /// The address of the host of this place, if there is one.
    pub fn host(&self, place: u8) -> Option<&Address>
        ensures { option_copied result ≡ slice_get self.now.hosts place }
    {
        self.hosts.get(usize::from(place))
    }

    /// What this process says of itself where it dials. It is `Memory` too where an end is a manager of a place above 8,
    /// which no group has.
    pub fn hello(
        &self,
        alloc: Global,
        purpose: Purpose,
        from: Party,
        to: Party,
        founding: u64,
        ticket: Ticket,
    ) -> Result<Hello, Memory>
        ensures exact { IfOk result (λ hello. hello ≡ hello_of self.now purpose from to founding ticket) }
        ensures range { IfOk result IsHelloInRange }
    {
        let group = copy_bytes(alloc, self.group.as_slice())?;
        let hello = Hello {
            purpose,
            from,
            to,
            founding,
            ticket,
            hosts: self.digest,
            lease: self.lease,
            skew: self.skew,
            group,
        };
        if !is_in_range(&hello) {
            return Err(Memory);
        }
        Ok(hello)
    }

    /// What an acceptor of this process is of.
    pub fn ours(&self, alloc: Global) -> Result<Ours, Memory>
        ensures { IfOk result (λ ours. ours ≡ ours_of self.now) }
    {
        Ok(Ours {
            secret: copy_bytes(alloc, self.secret.as_slice())?,
            group: copy_bytes(alloc, self.group.as_slice())?,
            hosts: self.digest,
            lease: self.lease,
            skew: self.skew,
        })
    }
}
