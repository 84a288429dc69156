//! Notes against what their Reads were answered.

ghost use Rattle.std.specs.Prelude.{◌≡◌, ◌↔◌, Some, IfOk, IsTrue};
ghost use Rattle.std.specs.Option.{option_copied};
ghost use Rattle.hk_assemble.specs.declared.gap.Gap.TheVariants as G;
ghost use Rattle.hk_assemble.specs.Assembly.{kept_at};
ghost use Rattle.hk_assemble.specs.Checking.{IsChecked, AreChecked};

use crate::assembly::Kept;
use crate::gap::Gap;
use hk_base::{Answer, Memory};
use hk_merge::{Note, same_answer, sameness_is_equality};

// What is told of a note that was told something else.
fn wrong_note(note: &Note, kept: Option<&Answer>) -> Result<Gap, Memory>
    ensures { IfOk result (λ gap. gap ≡ G.Note note.now.call note.now.ticket note.now.answer (option_copied kept.entry)) }
{
    let told = note.answer.share()?;
    let kept = match kept {
        Some(answer) => Some(answer.share()?),
        None => None,
    };
    Ok(Gap::Note {
        call: note.call,
        ticket: note.ticket,
        told,
        kept,
    })
}

// Whether the note was told that.
fn is_right(note: &Note, kept: Option<&Answer>) -> bool
    ensures { IsTrue result ↔ (option_copied kept.entry ≡ Some note.now.answer) }
{
    sameness_is_equality();
    match kept {
        Some(answer) => same_answer(answer, &note.answer),
        None => false,
    }
}

fn check_note(kept: &Kept, listed: u64, note: &Note) -> Result<(), Gap>
    ensures { IsChecked result (kept_at listed kept.now.entries) note.now }
{
    let answer = kept.get(&listed);
    if is_right(note, answer) {
        return Ok(());
    }
    let gap = wrong_note(note, answer)?;
    Err(gap)
}

/// Looks whether each note was told what its Read was answered.
pub fn check_notes(kept: &Kept, notes: &[Note]) -> Result<(), Gap>
    ensures { AreChecked result kept.now.entries notes.now }
{
    for (listed, note) in notes.iter().enumerate() {
        check_note(kept, listed as u64, note)?;
    }
    Ok(())
}
