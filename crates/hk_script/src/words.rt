//! The words of a line.

ghost use Rattle.std.specs.Prelude.{◌≡◌, ◌<◌, ◌≤◌, ◌+◌, ◌-◌, ◌*◌, ◌^◌, [], map, position, IfOk, OnOk, IfSome, length, nat_eq, nat_lt, true, None, Some, if◌then◌else◌};
ghost use Rattle.std.specs.Option.{option_map, SomeIff};
ghost use Rattle.std.specs.List.{list_all};
ghost use Rattle.std.specs.Char.{is_ascii_digit};
ghost use Rattle.std.specs.Str.Parse.{digits_value};
ghost use Rattle.hk_script.specs.Words.{is_plain};
ghost use Rattle.hk_script.specs.Parts.{fields, is_space, IsCut, is_text, number_of, has_spare_zero, digit_of, escape_of, escaped_at, byte_at, unspelled, bytes_of};

use hk_base::Memory;
use smallvec::SmallVec;
use std::alloc::{AllocError, Global};

/// The words of a line. So many are kept without an allocation, which is as many as an event has.
pub(crate) type Words<'a> = SmallVec<&'a [u8], 8>;

/// Puts the words between the spaces into an empty list.
pub(crate) fn split<'a>(words: &mut Words<'a>, line: &'a [u8]) -> Result<(), Memory>
    requires { words.old.items ≡ [] }
    ensures { OnOk result (map (λ w. w.now) words.new.items ≡ fields line.now) }
{
    let mut rest = line;
    while let Some((word, behind)) = cut(rest) {
        words.push(word)?;
        rest = behind;
    }
    words.push(rest)?;
    Ok(())
}

fn first_space(line: &[u8]) -> Option<usize>
    ensures { result ≡ position is_space line.now }
{
    line.iter().position(|b| *b == b' ')
}

/// The first word, and what stands behind the space that follows it.
pub(crate) fn cut(line: &[u8]) -> Option<(&[u8], &[u8])>
    ensures { IsCut result line.now }
{
    let at = first_space(line)?;
    let (word, _) = line.split_at(at);
    let (_, rest) = line.split_at(at + 1);
    Some((word, rest))
}

/// Whether a word is this text. The texts are constants of a few bytes: so this is some tests in place of a call.
#[inline(always)]
pub(crate) fn is(word: &[u8], text: &[u8]) -> bool
    ensures { result ≡ is_text word.now text.now }
{
    if word.len() != text.len() {
        return false;
    }
    for place in 0..word.len() {
        if word[place] != text[place] {
            return false;
        }
    }
    true
}

fn all_digits(word: &[u8]) -> bool
    ensures { result ≡ list_all is_ascii_digit word.now }
{
    word.iter().all(|b| b.is_ascii_digit())
}

fn has_spare_zero(word: &[u8]) -> bool
    requires { 0 < length word.now }
    ensures { result ≡ has_spare_zero word.now }
{
    if word.len() == 1 {
        false
    } else {
        word[0] == b'0'
    }
}

// What a digit more makes of a value, where that is below 2^64.
fn with_digit(value: u64, digit: u8) -> Option<u64>
    requires { is_ascii_digit digit ≡ true }
    ensures { SomeIff result (value * 10 + (digit - 48) < 2 ^ 64) (value * 10 + (digit - 48)) }
{
    let tens = value.checked_mul(10)?;
    tens.checked_add(u64::from(digit - b'0'))
}

// What digits are worth, where that is below 2^64.
fn value(digits: &[u8]) -> Option<u64>
    requires digits { list_all is_ascii_digit digits.now ≡ true }
    requires some { 0 < length digits.now }
    ensures { result ≡ (if nat_lt (digits_value 10 digits.now) (2 ^ 64) then Some (digits_value 10 digits.now) else None) }
{
    let mut value = 0;
    for digit in digits {
        value = with_digit(value, *digit)?;
    }
    Some(value)
}

/// The number that a word is, up to a limit.
#[tactic(auto, unfolding(crate::specs::Parts::number_of))]
pub(crate) fn number(limit: u64, word: &[u8]) -> Option<u64>
    ensures exact { result ≡ number_of limit word.now }
    ensures at_most { IfSome result (λ n. n ≤ limit) }
{
    if word.is_empty() {
        return None;
    }
    if !all_digits(word) {
        return None;
    }
    if has_spare_zero(word) {
        return None;
    }
    let n = value(word)?;
    if n <= limit { Some(n) } else { None }
}

pub(crate) fn is_plain(byte: u8) -> bool
    ensures { result ≡ is_plain byte }
{
    33 <= byte && byte <= 126 && byte != b'%'
}

#[tactic(auto, unfolding(crate::specs::Parts::digit_of))]
fn digit(byte: u8) -> Option<u8>
    ensures exact { result ≡ digit_of byte }
    ensures small { IfSome result (λ d. d < 16) }
{
    if b'0' <= byte && byte <= b'9' {
        return Some(byte - b'0');
    }
    if b'A' <= byte && byte <= b'F' {
        return Some(byte - 55);
    }
    None
}

#[tactic(auto, unfolding(crate::specs::Parts::escape_of))]
fn escape(high: u8, low: u8) -> Option<u8>
    ensures { result ≡ escape_of high low }
{
    let high = digit(high)?;
    let low = digit(low)?;
    let byte = 16 * high + low;
    if is_plain(byte) { None } else { Some(byte) }
}

#[tactic(auto, unfolding(crate::specs::Parts::escaped_at))]
fn escaped(bytes: &[u8]) -> Option<(u8, &[u8])>
    ensures { option_map (λ r. (r.0, r.1.now)) result ≡ escaped_at bytes.now }
{
    match bytes {
        [high, low, rest @ ..] => {
            let byte = escape(*high, *low)?;
            Some((byte, rest))
        }
        _ => None,
    }
}

// The byte that a word begins with, and what follows it.
#[tactic(auto, unfolding(crate::specs::Parts::byte_at))]
fn byte(first: u8, rest: &[u8]) -> Option<(u8, &[u8])>
    ensures { option_map (λ r. (r.0, r.1.now)) result ≡ byte_at first rest.now }
{
    if first == b'%' {
        return escaped(rest);
    }
    if is_plain(first) {
        Some((first, rest))
    } else {
        None
    }
}

fn unspelled(alloc: Global, word: &[u8]) -> Result<Option<Vec<u8>>, AllocError>
    ensures { IfOk result (λ o. option_map (λ v. v.items) o ≡ unspelled (length word.now) word.now) }
{
    let mut bytes = Vec::with_capacity(alloc, word.len())?;
    let mut rest = word;
    for _turn in 0..word.len() {
        let Some((first, others)) = rest.split_first() else {
            return Ok(Some(bytes));
        };
        let Some((byte, behind)) = byte(*first, others) else {
            return Ok(None);
        };
        bytes.push(byte)?;
        rest = behind;
    }
    if rest.is_empty() {
        Ok(Some(bytes))
    } else {
        Ok(None)
    }
}

/// Whether each byte stands for itself.
pub(crate) fn all_plain(word: &[u8]) -> bool
    ensures { result ≡ list_all is_plain word.now }
{
    word.iter().all(|byte| is_plain(*byte))
}

/// Whether a word has bytes that stand for themselves alone, so that it spells just those.
pub(crate) fn is_literal(word: &[u8]) -> bool
    ensures { result ≡ true → bytes_of word.now ≡ Some word.now }
{
    if word.is_empty() {
        return false;
    }
    if is(word, b"-") {
        return false;
    }
    all_plain(word)
}

/// The bytes that a word is.
#[tactic(auto, unfolding(crate::specs::Parts::bytes_of))]
pub(crate) fn bytes(alloc: Global, word: &[u8]) -> Result<Option<Vec<u8>>, AllocError>
    ensures { IfOk result (λ o. option_map (λ v. v.items) o ≡ bytes_of word.now) }
{
    if word.is_empty() {
        return Ok(None);
    }
    if is(word, b"-") {
        return Ok(Some(Vec::new(alloc)));
    }
    if is(word, b"%2D") {
        let dash = Vec::from_slice(alloc, b"-")?;
        return Ok(Some(dash));
    }
    unspelled(alloc, word)
}
