//! The options of a command.

ghost use Rattle.std.specs.Prelude.{◌≡◌, ◌<◌, ◌≤◌, ◌^◌, map, length, position, string_bytes, IfSome, Some, None};
ghost use Rattle.std.specs.Option.{option_map};
ghost use Rattle.hk_cli.specs.Words.{option};
ghost use Rattle.hk_cli.specs.Options.{undashed, is_equals, option_at, option_count, value_of};

use hk_script::read_number;

// A word behind its two dashes.
#[tactic(auto, unfolding(crate::specs::Options::undashed))]
fn undashed(word: &[u8]) -> Option<&[u8]>
    ensures { option_map (λ n. n.now) result ≡ undashed word.now }
{
    match word {
        [a, b, name @ ..] => {
            if *a != b'-' {
                return None;
            }
            if *b != b'-' {
                return None;
            }
            Some(name)
        }
        _ => None,
    }
}

fn first_equals(name: &[u8]) -> Option<usize>
    ensures { result ≡ position is_equals name.now }
{
    name.iter().position(|b| *b == b'=')
}

// The name of the option that words begin with, its value, and the words behind it.
#[tactic(auto, unfolding(crate::specs::Options::option_at, crate::specs::Options::named_at))]
fn first_option(words: &[String]) -> Option<(&[u8], u64, &[String])>
    ensures { option_map (λ r. (option r.0.now r.1, map (λ w. string_bytes w) r.2.now)) result ≡ option_at (map (λ w. string_bytes w) words.now) }
{
    let (word, rest) = words.split_first()?;
    let name = undashed(word.as_bytes())?;
    match first_equals(name) {
        Some(at) => {
            let (front, _) = name.split_at(at);
            let (_, digits) = name.split_at(at + 1);
            let value = read_number(u64::MAX, digits)?;
            Some((front, value, rest))
        }
        None => {
            let (digits, rest) = rest.split_first()?;
            let value = read_number(u64::MAX, digits.as_bytes())?;
            Some((name, value, rest))
        }
    }
}

/// How many options words are; None where they are something else.
pub(crate) fn option_count(words: &[String]) -> Option<usize>
    ensures { result ≡ option_count (length words.now) (map (λ w. string_bytes w) words.now) }
{
    let mut rest = words;
    let mut count = 0;
    for _turn in 0..words.len() {
        if rest.is_empty() {
            return Some(count);
        }
        let (_name, _value, behind) = first_option(rest)?;
        rest = behind;
        count += 1;
    }
    if rest.is_empty() { Some(count) } else { None }
}

/// The value of the first option of this name.
pub(crate) fn value_of(words: &[String], name: &[u8]) -> Option<u64>
    ensures { result ≡ value_of name.now (length words.now) (map (λ w. string_bytes w) words.now) }
{
    let mut rest = words;
    for _turn in 0..words.len() {
        if rest.is_empty() {
            return None;
        }
        let (first, value, behind) = first_option(rest)?;
        if first == name {
            return Some(value);
        }
        rest = behind;
    }
    None
}
