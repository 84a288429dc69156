//! What the operator is told where a command does not do what it is for.

ghost use Rattle.std.specs.Prelude.{◌≡◌, ◌++◌, OnOk};
ghost use Rattle.hk_init.specs.Texts.{reason_text, host_text, unknown_text, fault_text};

use crate::fault::CommandFault;
use hk_base::Memory;
use hk_hello::HelloRefusal;
use hk_hosts::Address;

fn reason_text(reason: HelloRefusal) -> &'static [u8]
    ensures { result.now ≡ reason_text reason }
{
    match reason {
        HelloRefusal::AnotherSecret => b"another secret",
        HelloRefusal::AnotherGroup => b"another group",
        HelloRefusal::OtherHosts => b"other hosts",
        HelloRefusal::AnotherLeaseOrSkew => b"another lease or skew",
        HelloRefusal::AnotherFounding => b"another founding",
        HelloRefusal::NoSuchActor => b"no such actor",
        HelloRefusal::NumberTaken => b"number taken",
    }
}

// Puts the address of the host of a place, and these words, behind other bytes.
fn put_host(out: &mut Vec<u8>, hosts: &[Address], place: usize, words: &[u8]) -> Result<(), Memory>
    ensures { OnOk result (out.new.items ≡ out.old.items ++ (host_text hosts.now place ++ words.now)) }
{
    if let Some(host) = hosts.get(place) {
        host.put(out)?;
    }
    out.extend_from_slice(words)?;
    Ok(())
}

// Puts that the node of the host of a place is not known, behind other bytes.
fn put_unknown(out: &mut Vec<u8>, hosts: &[Address], place: usize) -> Result<(), Memory>
    ensures { OnOk result (out.new.items ≡ out.old.items ++ unknown_text hosts.now place) }
{
    out.extend_from_slice(b"the node of ")?;
    put_host(out, hosts, place, b" is not known")
}

/// Puts what the operator is told of a fault behind other bytes. The hosts are those of the command, by their places.
pub fn put_fault(out: &mut Vec<u8>, hosts: &[Address], fault: &CommandFault) -> Result<(), Memory>
    ensures { OnOk result (out.new.items ≡ out.old.items ++ fault_text hosts.now fault.now) }
{
    match fault {
        CommandFault::Memory => out.extend_from_slice(b"no memory")?,
        CommandFault::WriteFault => out.extend_from_slice(b"a write failed")?,
        CommandFault::Unreachable { place } => put_host(out, hosts, *place, b" does not answer")?,
        CommandFault::Denied { place, reason } => {
            put_host(out, hosts, *place, b" refused: ")?;
            out.extend_from_slice(reason_text(*reason))?;
        }
        CommandFault::Refused { text } => out.extend_from_slice(text.as_slice())?,
        CommandFault::OtherLease { place } => {
            put_host(out, hosts, *place, b" has another lease or skew")?;
        }
        CommandFault::NoNode => out.extend_from_slice(b"wait")?,
        CommandFault::Late => out.extend_from_slice(b"wait")?,
        CommandFault::NotOpen { place } => put_host(out, hosts, *place, b" has not opened")?,
        CommandFault::UnknownNode { place } => put_unknown(out, hosts, *place)?,
        CommandFault::StillMember => out.extend_from_slice(b"still a member")?,
    }
    Ok(())
}
