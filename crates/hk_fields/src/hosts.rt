//! The tickets of a group's hosts, which its founding tells and its managers log.

ghost use Rattle.std.specs.Prelude.{◌≡◌, ◌++◌, OnOk, All};
ghost use Rattle.std.specs.List.{flat_map};
ghost use Rattle.hk_fields.specs.Fields.{Gives, many, IsTicket, host_bytes, IsHostValue, host_at};

use crate::fault::FieldFault;
use crate::printing::put_ticket;
use crate::reading::ticket;
use crate::tickets::Ticket;
use hk_base::{Memory, Sequence};
use std::alloc::Global;

/// The tickets of a host: its manager's, and its node's. A node that does not wait for a group has the ticket 0.
#[derive(Clone, Copy, Debug, PartialEq, Eq)]
pub struct HostTickets {
    pub manager: Ticket,
    pub node: Ticket,
}

/// The 1 to 9 hosts of a group, by their places, as it is founded.
pub type FoundingHosts = Sequence<HostTickets>;

/// The tickets of a host.
#[tactic(auto, unfolding(crate::specs::Fields::host_at))]
pub fn host(bytes: &[u8]) -> Result<(HostTickets, &[u8]), FieldFault>
    ensures { Gives (λ x. (x.0, x.1.now)) result (host_at bytes.now) }
{
    let (manager, rest) = ticket(bytes)?;
    let (node, rest) = ticket(rest)?;
    Ok((HostTickets { manager, node }, rest))
}

/// The tickets of so many hosts.
pub fn many_hosts(
    alloc: Global,
    count: u8,
    bytes: &[u8],
) -> Result<(FoundingHosts, &[u8]), FieldFault>
    ensures { Gives (λ x. (x.0, x.1.now)) result (many host_at count bytes.now) }
{
    let mut hosts = FoundingHosts::new(alloc);
    let mut rest = bytes;
    for _ in 0..count {
        let (host, after) = host(rest)?;
        if hosts.push(host).is_err() {
            return Err(FieldFault::Memory);
        }
        rest = after;
    }
    Ok((hosts, rest))
}

/// Puts the tickets of a host.
pub fn put_host(out: &mut Vec<u8>, host: &HostTickets) -> Result<(), Memory>
    ensures { OnOk result (out.new.items ≡ out.old.items ++ host_bytes host.now) }
{
    put_ticket(out, host.manager)?;
    put_ticket(out, host.node)
}

/// Puts the tickets of these hosts, one behind the other. How many there are is not told.
pub fn put_hosts(out: &mut Vec<u8>, hosts: &[HostTickets]) -> Result<(), Memory>
    ensures { OnOk result (out.new.items ≡ out.old.items ++ flat_map host_bytes hosts.now) }
{
    for host in hosts {
        put_host(out, host)?;
    }
    Ok(())
}

/// What the type of tickets keeps. It does nothing.
pub fn ticket_is_value(ticket: Ticket)
    ensures { IsTicket ticket }
{
    let _bytes = ticket.0;
}

/// What the type of a host's tickets keeps. It does nothing.
pub fn host_is_value(host: &HostTickets)
    ensures { IsHostValue host.now }
{
    ticket_is_value(host.manager);
    ticket_is_value(host.node);
}

/// What that keeps of each of these hosts. It does nothing.
pub fn hosts_are_values(hosts: &[HostTickets])
    ensures { All IsHostValue hosts.now }
{
    for host in hosts {
        host_is_value(host);
    }
}
