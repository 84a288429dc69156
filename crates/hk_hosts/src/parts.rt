//! The parts of an address: its host, and its port.

ghost use Rattle.std.specs.Prelude.{◌≡◌, ◌≤◌, ◌<◌, ◌^◌, ◌≢◌, ℕ, length, decimal, option_copied, Decides, MatchOption};
ghost use Rattle.std.specs.List.{list_all};
ghost use Rattle.std.specs.declared.net.ipv6_addr.Ipv6Addr.{Ipv6Addr};
ghost use Rattle.std.specs.Net.Grammar.{IsIpv6Text};
ghost use Rattle.hk_hosts.specs.Addresses.{is_name_byte, is_name, IsBracketed, IsHost, IsPort};
ghost use Rattle.hk_hosts.specs.Parts.{AreParts};

use itoa::Buffer;
use std::net::Ipv6Addr;

fn is_name_byte(byte: u8) -> bool
    ensures { result ≡ is_name_byte byte }
{
    if byte.is_ascii_alphanumeric() {
        return true;
    }
    byte == b'.' || byte == b'-'
}

fn are_name_bytes(host: &[u8]) -> bool
    ensures { result ≡ list_all is_name_byte host.now }
{
    host.iter().all(|byte| is_name_byte(*byte))
}

fn is_name(host: &[u8]) -> bool
    ensures { result ≡ is_name host.now }
{
    if host.is_empty() {
        return false;
    }
    are_name_bytes(host)
}

fn is_ipv6(text: &str) -> bool
    ensures { Decides result ((ip : Ipv6Addr) × IsIpv6Text text.now ip) }
{
    text.parse::<Ipv6Addr>().is_ok()
}

fn is_bracketed(host: &str) -> bool
    ensures { Decides result (IsBracketed host.now) }
{
    let Some(rest) = host.strip_prefix('[') else {
        return false;
    };
    let Some(text) = rest.strip_suffix(']') else {
        return false;
    };
    is_ipv6(text)
}

// Whether a text is a host's name, or its IPv6 address in brackets.
pub fn is_host(host: &str) -> bool
    ensures { Decides result (IsHost host.now) }
{
    if is_name(host.as_bytes()) {
        return true;
    }
    is_bracketed(host)
}

// Whether digits are those of a port, with no zero in front.
fn is_printed(port: u16, digits: &str) -> bool
    ensures { Decides result (digits.now ≡ decimal port) }
{
    let mut buffer = Buffer::new();
    buffer.format(port) == digits
}

// The port that digits write, with no zero in front.
pub fn read_port(digits: &str) -> Option<u16>
    ensures { MatchOption result ((n : ℕ) → IsPort n → digits.now ≢ decimal n) (λ n. IsPort n × (digits.now ≡ decimal n)) }
{
    match digits.parse::<u16>() {
        Ok(port) => {
            if port == 0 {
                return None;
            }
            if !is_printed(port, digits) {
                return None;
            }
            Some(port)
        }
        Err(_) => None,
    }
}

// How many digits a port has.
pub fn port_len(port: u16) -> usize
    ensures exact { result ≡ length (decimal port) }
    ensures short { result ≤ 5 }
{
    let mut buffer = Buffer::new();
    buffer.format(port).len()
}

// What stands in front of the last colon, and what behind it. A bracket at the end belongs to the host, whose colons are
// its own.
pub fn parts(text: &str) -> (&str, Option<&str>)
    ensures { AreParts result.0.now (option_copied result.1) text.now }
{
    if text.ends_with(']') {
        return (text, None);
    }
    match text.rsplit_once(':') {
        Some((host, port)) => (host, Some(port)),
        None => (text, None),
    }
}
