//! The options that words give.

ghost use Rattle.std.specs.Prelude.{◌≡◌, true, option_copied};
ghost use Rattle.std.specs.List.{list_any};
ghost use Rattle.hk_host_words.specs.Options.{AreSettings, is_of, are_once, are_taken, value_of};
ghost use Rattle.hk_host_words.specs.Reading.{texts, IsReadAs, IsReading, settings_of, AreParts, IsUndashed, next_of, Begins};

use crate::fault::{HostMistake, WordsFault};
use crate::names::{CommandName, OptionName, read_option_name};
use std::alloc::Global;

/// An option as it was typed, and the text that it is given.
#[derive(Clone, Copy)]
pub(crate) struct Typed<'a> {
    pub(crate) name: OptionName,
    pub(crate) value: &'a str,
}

/// A word behind its two dashes.
pub(crate) fn undashed(word: &str) -> Option<&str>
    ensures { IsUndashed result word.now }
{
    word.strip_prefix("--")
}

/// What stands in a text up to the first `=`, and behind that, if there is one.
pub(crate) fn parts(text: &str) -> (&str, Option<&str>)
    ensures { AreParts result.0.now (option_copied result.1) text.now }
{
    match text.split_once('=') {
        Some((name, value)) => (name, Some(value)),
        None => (text, None),
    }
}

// The option that words begin with, and the words behind it.
fn next_typed(words: &[String]) -> Result<(Typed<'_>, &[String]), WordsFault<'_>>
    ensures { IsReadAs next_of (Begins (texts words.now)) result }
{
    let Some((word, rest)) = words.split_first() else {
        return Err(WordsFault::Mistaken(HostMistake::NoCommand));
    };
    let word = word.as_str();
    let Some(text) = undashed(word) else {
        return Err(WordsFault::Mistaken(HostMistake::NoOption(word)));
    };
    let (name, value) = parts(text);
    let Some(name) = read_option_name(name) else {
        return Err(WordsFault::Mistaken(HostMistake::NoOption(word)));
    };
    if let Some(value) = value {
        return Ok((Typed { name, value }, rest));
    }
    match rest.split_first() {
        Some((value, rest)) => {
            let value = value.as_str();
            Ok((Typed { name, value }, rest))
        }
        None => Err(WordsFault::Mistaken(HostMistake::NoValue(name))),
    }
}

/// The options that words give, in their order.
pub(crate) fn read_typed<'a>(
    alloc: Global,
    words: &'a [String],
) -> Result<Vec<Typed<'a>>, WordsFault<'a>>
    ensures { IsReadAs (λ typed. settings_of typed.items) (λ settings. AreSettings settings (texts words.now)) result }
{
    let mut typed = Vec::new(alloc);
    let mut left = words;
    while !left.is_empty() {
        let (next, behind) = next_typed(left)?;
        if typed.push(next).is_err() {
            return Err(WordsFault::Memory);
        }
        left = behind;
    }
    Ok(typed)
}

// Whether an option is given there.
fn has(typed: &[Typed<'_>], name: OptionName) -> bool
    ensures { result ≡ list_any (is_of name) (settings_of typed.now) }
{
    let Some((first, rest)) = typed.split_first() else {
        return false;
    };
    if first.name.is(name) {
        return true;
    }
    has(rest, name)
}

/// That a command takes each of these options, and that none is given twice.
pub(crate) fn check<'a>(command: CommandName, typed: &[Typed<'a>]) -> Result<(), WordsFault<'a>>
    ensures { IsReading (λ _. (are_taken command (settings_of typed.now) ≡ true) × (are_once (settings_of typed.now) ≡ true)) result }
{
    let Some((first, rest)) = typed.split_first() else {
        return Ok(());
    };
    if !command.takes(first.name) {
        return Err(WordsFault::Mistaken(HostMistake::NotTaken(command, first.name)));
    }
    if has(rest, first.name) {
        return Err(WordsFault::Mistaken(HostMistake::Twice(first.name)));
    }
    check(command, rest)
}

/// What an option is given; None where it is not there.
pub(crate) fn value_of<'a>(typed: &[Typed<'a>], name: OptionName) -> Option<&'a str>
    ensures { option_copied result ≡ value_of name (settings_of typed.now) }
{
    let (first, rest) = typed.split_first()?;
    if first.name.is(name) {
        return Some(first.value);
    }
    value_of(rest, name)
}
