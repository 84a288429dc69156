//! How much a process of a group tells.

ghost use Rattle.std.specs.Prelude.{◌≡◌, false, IfSome};
ghost use Rattle.hk_host_words.specs.Verbosities.{word_of, is_usual, Stands, IsTakenOut};

use crate::settings::{parts, undashed};

/// Which lines a process writes for its operator.
#[derive(Clone, Copy, Debug, PartialEq, Eq)]
pub enum Verbosity {
    /// Errors alone.
    Quiet,
    /// What an operator must know.
    Usual,
    /// More than that, and with each line its time and its level.
    Verbose,
}

// What a word tells, if it is one of these.
fn told_by(word: &str) -> Option<Verbosity>
    ensures word { IfSome result (λ verbosity. word.now ≡ word_of verbosity) }
    ensures unusual { IfSome result (λ verbosity. is_usual verbosity ≡ false) }
{
    match word {
        "-q" => Some(Verbosity::Quiet),
        "-v" => Some(Verbosity::Verbose),
        _ => None,
    }
}

// Whether a word is an option whose value is the word behind it.
fn is_parted(word: &str) -> bool {
    match undashed(word) {
        Some(text) => {
            let (_, value) = parts(text);
            value.is_none()
        }
        None => false,
    }
}

// Where the first word of these stands that is no option's value, and what it tells.
fn find(words: &[String]) -> Option<(usize, Verbosity)>
    ensures stands { IfSome result (λ found. Stands found.1 found.0 words.now) }
    ensures unusual { IfSome result (λ found. is_usual found.1 ≡ false) }
{
    let mut is_value = false;
    for place in 0..words.len() {
        let word = words[place].as_str();
        if is_value {
            is_value = false;
        } else if let Some(verbosity) = told_by(word) {
            return Some((place, verbosity));
        } else {
            is_value = is_parted(word);
        }
    }
    None
}

/// Takes `-q` or `-v` out of words, the first that is no option's value, and gives what it tells. Without such a word
/// they stay as they are.
pub fn take_verbosity(words: &mut Vec<String>) -> Verbosity
    ensures { IsTakenOut result words.old.items words.new.items }
{
    match find(words.as_slice()) {
        Some((place, verbosity)) => {
            let _taken = words.remove(place);
            verbosity
        }
        None => Verbosity::Usual,
    }
}
