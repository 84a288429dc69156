//! The hosts of a group.

ghost use Rattle.std.specs.Prelude.{◌≡◌, ◌<◌, ◌≤◌, ◌++◌, ◌∷◌, [], length, MatchOption, OnOk};
ghost use Rattle.std.specs.Option.{IfSome};
ghost use Rattle.std.specs.List.{list_any};
ghost use Rattle.hk_hosts.specs.Addresses.{is_same};
ghost use Rattle.hk_hosts.specs.Lists.{entries, is_count, are_different, AreEntriesRead, IsHostsRead, IsAdded, hosts_text};

use crate::address::{Address, AddressFault, read_address};
use hk_base::{Memory, Sequence};
use std::alloc::Global;
use thiserror::Error;

/// The addresses of a group's hosts, by their places.
pub type Hosts = Sequence<Address>;

/// Why a list of hosts is not read.
#[derive(Clone, Copy, Debug, PartialEq, Eq, Error)]
pub enum HostsFault {
    /// An allocation was refused.
    #[error("no memory")]
    Memory,
    /// An entry is no address.
    #[error("an entry is no address")]
    Malformed,
    /// There are not 1, 3, 5, 7 or 9 of them.
    #[error("there must be 1, 3, 5, 7 or 9 hosts")]
    Count,
    /// Two are the same.
    #[error("two hosts have one address")]
    Twice,
}

// Whether a group may have so many hosts.
fn is_count(count: usize) -> bool
    ensures { result ≡ is_count count }
{
    count == 1 || count == 3 || count == 5 || count == 7 || count == 9
}

// Whether an address is one of these.
fn has(hosts: &[Address], address: &Address) -> bool
    ensures { result ≡ list_any (is_same address.now) hosts.now }
{
    hosts.iter().any(|host| address.is(host))
}

// Whether no two are the same.
fn are_different(hosts: &[Address]) -> bool
    ensures { result ≡ are_different hosts.now }
{
    let Some((first, rest)) = hosts.split_first() else {
        return true;
    };
    if has(rest, first) {
        return false;
    }
    are_different(rest)
}

// Puts the next address there.
fn add(alloc: Global, hosts: &mut Hosts, text: &str, usual: u16) -> Result<(), AddressFault>
    requires { 1 ≤ usual }
    ensures { IsAdded result hosts.old hosts.new usual text.now }
{
    let address = read_address(alloc, text, usual)?;
    match hosts.push(address) {
        Ok(()) => Ok(()),
        Err(_) => Err(AddressFault::Memory),
    }
}

// What stands before the first comma, and what behind it, if there is one.
fn split(text: &str) -> Option<(&str, &str)>
    ensures entries { MatchOption result (entries text.now ≡ text.now ∷ []) (λ parts. entries text.now ≡ parts.0.now ∷ entries parts.1.now) }
    ensures shorter { IfSome result (λ parts. length parts.1.now < length text.now) }
{
    text.split_once(',')
}

// The addresses that stand between commas.
fn read_entries(alloc: Global, text: &str, usual: u16) -> Result<Hosts, AddressFault>
    requires { 1 ≤ usual }
    ensures { AreEntriesRead result usual (entries text.now) }
{
    let mut hosts = Hosts::new(alloc);
    let mut left = text;
    while let Some((entry, rest)) = split(left) {
        match add(alloc, &mut hosts, entry, usual) {
            Ok(()) => {}
            Err(fault) => return Err(fault),
        }
        left = rest;
    }
    match add(alloc, &mut hosts, left, usual) {
        Ok(()) => Ok(hosts),
        Err(fault) => Err(fault),
    }
}

/// Reads the addresses of a group's hosts: 1, 3, 5, 7 or 9 that differ, with commas between them.
pub fn read_hosts(alloc: Global, text: &str, usual: u16) -> Result<Hosts, HostsFault>
    requires { 1 ≤ usual }
    ensures { IsHostsRead result usual text.now }
{
    match read_entries(alloc, text, usual) {
        Ok(hosts) => {
            if !is_count(hosts.len()) {
                return Err(HostsFault::Count);
            }
            if !are_different(hosts.as_slice()) {
                return Err(HostsFault::Twice);
            }
            Ok(hosts)
        }
        Err(AddressFault::Memory) => Err(HostsFault::Memory),
        Err(AddressFault::Malformed) => Err(HostsFault::Malformed),
    }
}

/// Puts the addresses behind other bytes, with commas between them, each with its port.
pub fn put_hosts(out: &mut Vec<u8>, hosts: &[Address]) -> Result<(), Memory>
    ensures { OnOk result (out.new.items ≡ out.old.items ++ hosts_text hosts.now) }
{
    let mut left = hosts;
    while let [first, rest @ ..] = left {
        first.put(out)?;
        if !rest.is_empty() {
            out.push(b',')?;
        }
        left = rest;
    }
    Ok(())
}
