//! The first mistake in words.

use crate::limits::{Limits, limits_of};
use crate::mistake::Mistake;
use hk_script::read_number;

// The greatest port, and one more.
const PORTS: u64 = 65_536;

// An option as it stands in words.
#[derive(Clone, Copy)]
struct Given<'a> {
    name: &'a str,
    // The word that is its value; none where the words end.
    value: Option<&'a str>,
}

// The option that words begin with, and the words behind it. None where the first word is no option's.
fn next_given(words: &[String]) -> Option<(Given<'_>, &[String])> {
    let (word, rest) = words.split_first()?;
    let name = word.as_str().strip_prefix("--")?;
    if let Some((name, value)) = name.split_once('=') {
        let value = Some(value);
        return Some((Given { name, value }, rest));
    }
    match rest.split_first() {
        Some((value, rest)) => {
            let value = Some(value.as_str());
            Some((Given { name, value }, rest))
        }
        None => Some((Given { name, value: None }, rest)),
    }
}

// The limits of the option of this name.
fn find_limits(options: &'static [Limits], name: &str) -> Option<Limits> {
    options.iter().find(|option| option.name == name).copied()
}

// The number that an option's value is, if it may be that.
fn read_value<'a>(option: Limits, given: Given<'a>) -> Result<u64, Mistake<'a>> {
    let Some(word) = given.value else {
        return Err(Mistake::NoValue(option));
    };
    match read_number(option.most, word.as_bytes()) {
        Some(value) if option.least <= value => Ok(value),
        _ => Err(Mistake::BadValue { option, word }),
    }
}

// The value of an option. It must be there once.
fn value_of<'a>(
    command: &'a str,
    options: &'a [String],
    wanted: Limits,
) -> Result<u64, Mistake<'a>> {
    let mut found = None;
    let mut rest = options;
    for _turn in 0..options.len() {
        let Some((given, behind)) = next_given(rest) else {
            break;
        };
        rest = behind;
        if given.name == wanted.name {
            if found.is_some() {
                return Err(Mistake::Twice(wanted));
            }
            found = Some(read_value(wanted, given)?);
        }
    }
    found.ok_or(Mistake::Missing {
        command,
        option: wanted,
    })
}

// The first word at which no option of the command stands, or of which the value is none.
fn find_word<'a>(
    command: &'a str,
    options: &'a [String],
    limits: &'static [Limits],
) -> Option<Mistake<'a>> {
    let mut rest = options;
    for _turn in 0..options.len() {
        let (word, _) = rest.split_first()?;
        let word = word.as_str();
        let Some((given, behind)) = next_given(rest) else {
            return Some(Mistake::NoOption { command, word });
        };
        let Some(option) = find_limits(limits, given.name) else {
            return Some(Mistake::NoOption { command, word });
        };
        if let Err(mistake) = read_value(option, given) {
            return Some(mistake);
        }
        rest = behind;
    }
    None
}

// An option that is not there once.
fn find_lack<'a>(
    command: &'a str,
    options: &'a [String],
    limits: &'static [Limits],
) -> Option<Mistake<'a>> {
    for wanted in limits {
        if let Err(mistake) = value_of(command, options, *wanted) {
            return Some(mistake);
        }
    }
    None
}

// What does not go together in the options of `peer`, each of which is within its limits.
fn find_strife<'a>(options: &'a [String]) -> Option<Mistake<'a>> {
    let limits = limits_of("peer")?;
    let number = |name: &str| value_of("peer", options, find_limits(limits, name)?).ok();
    let (id, nodes, port) = (number("id")?, number("nodes")?, number("port")?);
    if id >= nodes {
        return Some(Mistake::NoSuchNode { id, nodes });
    }
    if port.saturating_add(nodes) > PORTS {
        return Some(Mistake::NoPort { port, nodes });
    }
    None
}

/// The first mistake in words that are no command; none where they are one.
pub fn first_mistake(words: &[String]) -> Option<Mistake<'_>> {
    let Some((command, options)) = words.split_first() else {
        return Some(Mistake::NoWords);
    };
    let command = command.as_str();
    let Some(limits) = limits_of(command) else {
        return Some(Mistake::NoCommand(command));
    };
    if let Some(mistake) = find_word(command, options, limits) {
        return Some(mistake);
    }
    if let Some(mistake) = find_lack(command, options, limits) {
        return Some(mistake);
    }
    if command == "peer" {
        return find_strife(options);
    }
    None
}
