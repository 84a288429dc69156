//! The address of a host.

ghost use Rattle.std.specs.Prelude.{◌≡◌, ◌≤◌, ◌++◌, option_copied, OnOk};
ghost use Rattle.hk_hosts.specs.Parts.{IsPortRead};
ghost use Rattle.hk_hosts.specs.Addresses.{IsAddressRead, IsParsed, address_text, is_same};

use crate::parts::{is_host, parts, port_len, read_port};
use hk_base::{Memory, Sequence};
use itoa::Buffer;
use std::alloc::Global;
use thiserror::Error;

/// The greatest length of an address as text, with its port, in bytes.
pub const MAX_ADDRESS_LEN: usize = 64;

/// Where a host is reached.
#[derive(Drop)]
pub struct Address {
    /// Letters, digits, `.` and `-`; or an IPv6 address in brackets.
    pub host: Sequence<u8>,
    /// 1 to 65,535.
    pub port: u16,
}

/// Why a text is not read.
#[derive(Clone, Copy, Debug, PartialEq, Eq, Error)]
pub enum AddressFault {
    /// An allocation was refused.
    #[error("no memory")]
    Memory,
    /// It is no address.
    #[error("no address")]
    Malformed,
}

impl Address {
    /// Puts the host, a colon and the port behind other bytes.
    pub fn put(&self, out: &mut Vec<u8>) -> Result<(), Memory>
        ensures { OnOk result (out.new.items ≡ out.old.items ++ address_text self.now) }
    {
        let mut buffer = Buffer::new();
        out.extend_from_slice(self.host.as_slice())?;
        out.push(b':')?;
        out.extend_from_slice(buffer.format(self.port).as_bytes())?;
        Ok(())
    }

    /// The host's name, or its IPv6 address without brackets, as the system takes it.
    pub fn bare_host(&self) -> Option<&str> {
        let host = str::from_utf8(self.host.as_slice()).ok()?;
        let Some(rest) = host.strip_prefix('[') else {
            return Some(host);
        };
        rest.strip_suffix(']')
    }

    /// Whether both are the same.
    pub fn is(&self, other: &Address) -> bool
        ensures { result ≡ is_same self.now other.now }
    {
        if self.port != other.port {
            return false;
        }
        self.host.as_slice() == other.host.as_slice()
    }
}

// The port of a text behind its host, or the usual one where it has none.
fn port_of(port: Option<&str>, usual: u16) -> Option<u16>
    requires { 1 ≤ usual }
    ensures { IsPortRead result (option_copied port.entry) usual }
{
    match port {
        Some(port) => read_port(port),
        None => Some(usual),
    }
}

// The host and the port of an address.
fn parse(text: &str, usual: u16) -> Option<(&str, u16)>
    requires { 1 ≤ usual }
    ensures { IsParsed result usual text.now }
{
    let (host, port) = parts(text);
    if !is_host(host) {
        return None;
    }
    let Some(port) = port_of(port, usual) else {
        return None;
    };
    if host.len() + 1 + port_len(port) > MAX_ADDRESS_LEN {
        return None;
    }
    Some((host, port))
}

/// Reads an address: `HOST:PORT`, or `HOST` alone, which has the usual port. With its port it is 64 bytes long at most.
pub fn read_address(alloc: Global, text: &str, usual: u16) -> Result<Address, AddressFault>
    requires { 1 ≤ usual }
    ensures { IsAddressRead result usual text.now }
{
    let Some((host, port)) = parse(text, usual) else {
        return Err(AddressFault::Malformed);
    };
    match host.as_bytes().to_vec(alloc) {
        Ok(host) => Ok(Address {
            host: Sequence::from_vec(host),
            port,
        }),
        Err(_) => Err(AddressFault::Memory),
    }
}
