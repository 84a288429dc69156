//! The letters that were sent, by their marks.

ghost use Rattle.std.specs.Prelude.{◌≡◌, ◌+◌, ◌∷◌, [], IfOk, OnOk};
ghost use Rattle.std.specs.Option.{option_copied};
ghost use Rattle.std.specs.List.{find as first_of};
ghost use Rattle.hk_assemble.specs.SentLetters.{is_same, found, with_sent, with_letter, with_letters};

use crate::mark::{Mark, mark_of};
use hk_base::{Letter, Memory, Sequence};
use hk_merge::same_letter;
use std::alloc::Global;
use std::collections::BTreeMap;

/// The first copy of a letter that was sent, with its number and the ticket of the entry that sent it.
#[derive(Drop)]
pub struct Sent {
    pub letter: Letter,
    pub number: u64,
    pub ticket: u64,
}

/// The first copies of all letters that were sent, by their marks.
pub type SentLetters = BTreeMap<Mark, Sequence<Sent>>;

fn find_in<'s>(bucket: &'s [Sent], letter: &Letter) -> Option<&'s Sent>
    ensures { option_copied result ≡ first_of (is_same letter.now) bucket.now }
{
    bucket.iter().find(|sent| same_letter(&sent.letter, letter))
}

/// The first copy of the letter.
pub fn find<'s>(sent: &'s SentLetters, letter: &Letter) -> Option<&'s Sent>
    ensures { option_copied result ≡ found sent.now.entries letter.now }
{
    match sent.get(&mark_of(letter)) {
        Some(bucket) => find_in(bucket.as_slice(), letter),
        None => None,
    }
}

// Puts it behind the others of its mark.
fn put(sent: &mut SentLetters, alloc: Global, first: Sent) -> Result<(), Memory>
    ensures { OnOk result (sent.new.entries ≡ with_sent sent.old.entries first) }
{
    let mark = mark_of(&first.letter);
    if let Some(bucket) = sent.get_mut(&mark) {
        return bucket.push(first);
    }
    let mut bucket = Sequence::new(alloc);
    bucket.push(first)?;
    sent.insert(mark, bucket)?;
    Ok(())
}

// A letter that is sent: only the first copy is kept.
fn note(
    sent: &mut SentLetters,
    alloc: Global,
    letter: &Letter,
    number: u64,
    ticket: u64,
) -> Result<(), Memory>
    ensures { OnOk result (sent.new.entries ≡ with_letter sent.old.entries (record { letter = letter.now; number = number; ticket = ticket })) }
{
    if find(sent, letter).is_some() {
        return Ok(());
    }
    let letter = letter.share(alloc)?;
    put(
        sent,
        alloc,
        Sent {
            letter,
            number,
            ticket,
        },
    )
}

// A number beyond 64 bits is want of memory.
fn number_of(first: u64, place: usize) -> Result<u64, Memory>
    ensures { IfOk result (λ number. number ≡ first + place) }
{
    match first.checked_add(place as u64) {
        Some(number) => Ok(number),
        None => Err(Memory),
    }
}

/// Notes the letters that an entry of the ticket sends, of which the first one has that number.
pub fn note_letters(
    sent: &mut SentLetters,
    alloc: Global,
    first: u64,
    ticket: u64,
    letters: &[Letter],
) -> Result<(), Memory>
    ensures { OnOk result (sent.new.entries ≡ with_letters sent.old.entries first ticket letters.now) }
{
    for (place, letter) in letters.iter().enumerate() {
        let number = number_of(first, place)?;
        note(sent, alloc, letter, number, ticket)?;
    }
    Ok(())
}
