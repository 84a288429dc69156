//! The lines of an event that was made.

ghost use Rattle.std.specs.Prelude.{◌≡◌, ◌++◌, OnOk};
ghost use Rattle.hk_drill.specs.Shown.{shown_text};

use hk_base::Memory;
use hk_transcript::{put_call, put_letters, put_replies, put_view_line};
use hk_world::Shown;

/// The lines of an event of this number that was accepted. It is `Memory` too where a letter's number passes 2^64 - 1.
#[tactic(auto, unfolding(crate::specs::Shown::shown_text))]
pub(crate) fn put_shown(out: &mut Vec<u8>, number: u64, shown: &Shown) -> Result<(), Memory>
    ensures { OnOk result (out.new.items ≡ out.old.items ++ shown_text number shown.now) }
{
    put_call(out, number, shown.call)?;
    put_view_line(out, number, &shown.view, shown.chosen, shown.installed)?;
    put_letters(out, number, shown.first_letter, shown.letters.as_slice())?;
    put_replies(out, number, shown.replies.as_slice())
}
