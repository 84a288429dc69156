//! What options are given.

ghost use Rattle.std.specs.Prelude.{◌≡◌, ◌≢◌, ◌≤◌, ◌<◌, ◌^◌, ℕ, length, decimal, MatchOption, Decides, option_copied};
ghost use Rattle.std.specs.List.{list_all};
ghost use Rattle.hk_hosts.specs.Addresses.{IsTextOf};
ghost use Rattle.hk_host_words.specs.Reading.{IsReading};
ghost use Rattle.hk_host_words.specs.Words.{IsNumberOf, IsPlace, IsPathOf, is_group_byte, IsGroupNameOf};

use crate::fault::{HostMistake, WordsFault};
use crate::names::OptionName;
use hk_base::Sequence;
use hk_hosts::{Address, AddressFault, read_address};
use itoa::Buffer;
use std::alloc::Global;

// The name of a group where none is given.
const USUAL_GROUP: &[u8] = b"hermes";

// The greatest length of a group's name, in bytes.
const MAX_GROUP_LEN: usize = 32;

/// The numbers that an option may be given, and the one where it is not there.
#[derive(Clone, Copy)]
pub(crate) struct Limits {
    pub(crate) least: u32,
    pub(crate) most: u32,
    pub(crate) usual: u32,
}

// Whether digits are those of a number, with no spare zero.
fn is_printed(number: u32, digits: &str) -> bool
    ensures { Decides result (digits.now ≡ decimal number) }
{
    let mut buffer = Buffer::new();
    buffer.format(number) == digits
}

// The number that digits write, with no spare zero.
fn parse_number(digits: &str) -> Option<u32>
    ensures { MatchOption result ((n : ℕ) → n < 2 ^ 32 → digits.now ≢ decimal n) (λ n. (n < 2 ^ 32) × (digits.now ≡ decimal n)) }
{
    match digits.parse::<u32>() {
        Ok(number) => {
            if !is_printed(number, digits) {
                return None;
            }
            Some(number)
        }
        Err(_) => None,
    }
}

/// The number within limits that digits write, with no spare zero.
pub(crate) fn number_within(digits: &str, least: u32, most: u32) -> Option<u32>
    ensures { MatchOption result ((n : ℕ) → least ≤ n → n ≤ most → digits.now ≢ decimal n) (λ n. (digits.now ≡ decimal n) × (least ≤ n) × (n ≤ most)) }
{
    let number = parse_number(digits)?;
    if number < least {
        return None;
    }
    if number > most {
        return None;
    }
    Some(number)
}

/// The number that an option is given.
pub(crate) fn read_number<'a>(
    option: OptionName,
    text: Option<&'a str>,
    limits: Limits,
) -> Result<u32, WordsFault<'a>>
    ensures { IsReading (IsNumberOf limits.least limits.most limits.usual (option_copied text.entry)) result }
{
    let Some(text) = text else {
        return Ok(limits.usual);
    };
    let Limits { least, most, .. } = limits;
    match number_within(text, least, most) {
        Some(number) => Ok(number),
        None => Err(WordsFault::Mistaken(HostMistake::BadNumber {
            option,
            least,
            most,
            text,
        })),
    }
}

/// A copy of bytes.
pub(crate) fn to_sequence(alloc: Global, bytes: &[u8]) -> Result<Sequence<u8>, WordsFault<'static>>
    ensures { IsReading (λ made. made ≡ bytes.now) result }
{
    match bytes.to_vec(alloc) {
        Ok(bytes) => Ok(Sequence::from_vec(bytes)),
        Err(_) => Err(WordsFault::Memory),
    }
}

/// The name of a file or a folder that an option is given, or the usual one.
pub(crate) fn read_path<'a>(
    alloc: Global,
    option: OptionName,
    text: Option<&'a str>,
    usual: &[u8],
) -> Result<Sequence<u8>, WordsFault<'a>>
    ensures { IsReading (IsPathOf usual.now (option_copied text.entry)) result }
{
    let Some(text) = text else {
        return to_sequence(alloc, usual);
    };
    if text.is_empty() {
        return Err(WordsFault::Mistaken(HostMistake::BadValue(option, text)));
    }
    to_sequence(alloc, text.as_bytes())
}

fn is_group_byte(byte: u8) -> bool
    ensures { result ≡ is_group_byte byte }
{
    byte.is_ascii_lowercase() || byte.is_ascii_digit() || byte == b'-'
}

fn are_group_bytes(name: &[u8]) -> bool
    ensures { result ≡ list_all is_group_byte name.now }
{
    name.iter().all(|byte| is_group_byte(*byte))
}

/// The name of a group.
pub(crate) fn read_group_name<'a>(
    alloc: Global,
    text: Option<&'a str>,
) -> Result<Sequence<u8>, WordsFault<'a>>
    ensures { IsReading (IsGroupNameOf (option_copied text.entry)) result }
{
    let Some(text) = text else {
        return to_sequence(alloc, USUAL_GROUP);
    };
    if text.is_empty() || text.len() > MAX_GROUP_LEN || !are_group_bytes(text.as_bytes()) {
        return Err(WordsFault::Mistaken(HostMistake::BadValue(OptionName::Group, text)));
    }
    to_sequence(alloc, text.as_bytes())
}

/// An address that an option is given.
pub(crate) fn read_host<'a>(
    alloc: Global,
    option: OptionName,
    text: &'a str,
    usual: u16,
) -> Result<Address, WordsFault<'a>>
    requires { 1 ≤ usual }
    ensures { IsReading (IsTextOf usual text.now) result }
{
    match read_address(alloc, text, usual) {
        Ok(address) => Ok(address),
        Err(AddressFault::Memory) => Err(WordsFault::Memory),
        Err(AddressFault::Malformed) => {
            Err(WordsFault::Mistaken(HostMistake::BadValue(option, text)))
        }
    }
}

/// The place of a host among so many.
pub(crate) fn read_place<'a>(text: &'a str, count: usize) -> Result<u8, WordsFault<'a>>
    requires some { 1 ≤ count }
    requires few { count ≤ 9 }
    ensures { IsReading (IsPlace count text.now) result }
{
    match number_within(text, 0, count as u32 - 1) {
        Some(place) => Ok(place as u8),
        None => Err(WordsFault::Mistaken(HostMistake::BadValue(OptionName::At, text))),
    }
}
