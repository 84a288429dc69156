//! What a process of a group is to be.

ghost use Rattle.std.specs.Prelude.{◌≡◌, ◌≤◌, length, decimal, None, option_copied};
ghost use Rattle.hk_host_words.specs.Reading.{IsReading, settings_of, AreNumbers, IsCopy};
ghost use Rattle.hk_host_words.specs.Words.{IsPlaceOf, AgreesWith, IsInsideOf, IsListenOf, IsNode};

use crate::fault::{HostMistake, WordsFault};
use crate::group::read_group;
use crate::names::OptionName;
use crate::settings::{Typed, value_of};
use crate::values::{Limits, read_host, read_number, read_path, read_place};
use crate::words::{CLIENT_PORT, INSIDE_PORT, NodeWords};
use hk_base::Sequence;
use hk_hosts::{Address, Hosts, MAX_ADDRESS_LEN, addresses_are_read_as_printed};
use itoa::Buffer;
use std::alloc::Global;

/// The folder where a process keeps what is its own, where no other is given.
pub(crate) const USUAL_DATA: &[u8] = b"hermes-data";

const LEASE: Limits = Limits {
    least: 200,
    most: 60_000,
    usual: 1_000,
};

const USUAL_SKEW: u32 = 10;

const WORKERS: Limits = Limits {
    least: 1,
    most: 8,
    usual: 1,
};

// The numbers of a process.
#[derive(Clone, Copy)]
struct Numbers {
    lease: u32,
    skew: u32,
    workers: u8,
}

fn read_numbers<'a>(typed: &[Typed<'a>]) -> Result<Numbers, WordsFault<'a>>
    ensures { IsReading (AreNumbers (settings_of typed.now)) result }
{
    let lease = read_number(OptionName::Lease, value_of(typed, OptionName::Lease), LEASE)?;
    let skews = Limits {
        least: 0,
        most: lease / 8,
        usual: USUAL_SKEW,
    };
    let skew = read_number(OptionName::Skew, value_of(typed, OptionName::Skew), skews)?;
    let workers = read_number(
        OptionName::Workers,
        value_of(typed, OptionName::Workers),
        WORKERS,
    )?;
    Ok(Numbers {
        lease,
        skew,
        workers: workers as u8,
    })
}

// The place of this host, if it is one of so many.
fn read_own_place<'a>(text: Option<&'a str>, count: usize) -> Result<Option<u8>, WordsFault<'a>>
    requires some { 1 ≤ count }
    requires few { count ≤ 9 }
    ensures { IsReading (IsPlaceOf count (option_copied text.entry)) result }
{
    let Some(text) = text else {
        return Ok(None);
    };
    let place = read_place(text, count)?;
    Ok(Some(place))
}

fn copy_host(alloc: Global, host: &[u8], port: u16) -> Result<Address, WordsFault<'static>>
    ensures { IsReading (IsCopy host.now port) result }
{
    match host.to_vec(alloc) {
        Ok(host) => Ok(Address {
            host: Sequence::from_vec(host),
            port,
        }),
        Err(_) => Err(WordsFault::Memory),
    }
}

fn copy_address(alloc: Global, address: &Address) -> Result<Address, WordsFault<'static>>
    ensures { IsReading (λ a. a ≡ address.now) result }
{
    copy_host(alloc, address.host.as_slice(), address.port)
}

// The entry of this host, with which what is given must agree. By the law that is called a text is of no second address.
fn read_entry<'a>(
    alloc: Global,
    entry: &Address,
    text: Option<&'a str>,
) -> Result<Address, WordsFault<'a>>
    ensures { IsReading (λ a. (a ≡ entry.now) × AgreesWith (option_copied text.entry) a) result }
{
    addresses_are_read_as_printed();
    let Some(text) = text else {
        return copy_address(alloc, entry);
    };
    let inside = read_host(alloc, OptionName::Inside, text, INSIDE_PORT)?;
    if !inside.is(entry) {
        return Err(WordsFault::Mistaken(HostMistake::OtherInside(text)));
    }
    Ok(inside)
}

// Where the other processes reach this one.
fn read_inside<'a>(
    alloc: Global,
    hosts: &Hosts,
    place: Option<u8>,
    text: Option<&'a str>,
) -> Result<Address, WordsFault<'a>>
    ensures { IsReading (IsInsideOf hosts.now place (option_copied text.entry)) result }
{
    let Some(place) = place else {
        let Some(text) = text else {
            return Err(WordsFault::Mistaken(HostMistake::Missing(OptionName::Inside)));
        };
        return read_host(alloc, OptionName::Inside, text, INSIDE_PORT);
    };
    match hosts.get(place as usize) {
        Some(entry) => read_entry(alloc, entry, text),
        None => Err(WordsFault::Mistaken(HostMistake::Missing(OptionName::Inside))),
    }
}

// How many digits a port has.
fn port_len(port: u16) -> usize
    ensures exact { result ≡ length (decimal port) }
    ensures short { result ≤ 5 }
{
    let mut buffer = Buffer::new();
    buffer.format(port).len()
}

// Where clients reach this process, where nothing is told.
fn usual_listen(alloc: Global, inside: &Address) -> Result<Address, WordsFault<'static>>
    ensures { IsReading (IsListenOf inside.now None) result }
{
    let host = inside.host.as_slice();
    if host.len() + 1 + port_len(CLIENT_PORT) > MAX_ADDRESS_LEN {
        return Err(WordsFault::Mistaken(HostMistake::LongListen));
    }
    copy_host(alloc, host, CLIENT_PORT)
}

// Where clients reach this process.
fn read_listen<'a>(
    alloc: Global,
    inside: &Address,
    text: Option<&'a str>,
) -> Result<Address, WordsFault<'a>>
    ensures { IsReading (IsListenOf inside.now (option_copied text.entry)) result }
{
    match text {
        Some(text) => read_host(alloc, OptionName::Listen, text, CLIENT_PORT),
        None => usual_listen(alloc, inside),
    }
}

/// The process that options name. By the law that is called a text is of one address, so what was read of them is all
/// that they say, and what does not fit that fits nothing.
pub(crate) fn read_node<'a>(alloc: Global, typed: &[Typed<'a>]) -> Result<NodeWords, WordsFault<'a>>
    ensures { IsReading (IsNode (settings_of typed.now)) result }
{
    addresses_are_read_as_printed();
    let Numbers {
        lease,
        skew,
        workers,
    } = read_numbers(typed)?;
    let data = read_path(
        alloc,
        OptionName::Data,
        value_of(typed, OptionName::Data),
        USUAL_DATA,
    )?;
    let group = read_group(alloc, typed, data.as_slice())?;
    let at = read_own_place(value_of(typed, OptionName::At), group.hosts.len())?;
    let inside = read_inside(alloc, &group.hosts, at, value_of(typed, OptionName::Inside))?;
    let listen = read_listen(alloc, &inside, value_of(typed, OptionName::Listen))?;
    Ok(NodeWords {
        group,
        at,
        inside,
        listen,
        data,
        lease,
        skew,
        workers,
    })
}
