//! A key with its history and its order.

ghost use Rattle.std.specs.Prelude.{◌≡◌, ◌++◌, OnOk};
ghost use Rattle.hk_drill.specs.Keys.{tag_text, entry_text, order_text};
ghost use Rattle.hk_drill.specs.Marks.{mark_text, marks_text, marked_text};

use hk_base::{Key, Memory};
use hk_history::Entry;
use hk_safety::Mark;
use hk_script::{put_text, put_word};
use hk_transcript::put_named;

fn put_mark(out: &mut Vec<u8>, mark: Mark) -> Result<(), Memory>
    ensures { OnOk result (out.new.items ≡ out.old.items ++ mark_text mark) }
{
    match mark {
        Mark::Call(call) => put_named(out, b" c", call.0),
        Mark::Reply(call) => put_named(out, b" r", call.0),
    }
}

fn put_history(out: &mut Vec<u8>, history: &[Mark]) -> Result<(), Memory>
    ensures { OnOk result (out.new.items ≡ out.old.items ++ marks_text history.now) }
{
    for mark in history {
        put_mark(out, *mark)?;
    }
    Ok(())
}

// The tag of a call that changed the register.
fn put_tag(out: &mut Vec<u8>, tag: Option<u64>) -> Result<(), Memory>
    ensures { OnOk result (out.new.items ≡ out.old.items ++ tag_text tag) }
{
    match tag {
        None => Ok(()),
        Some(tag) => put_named(out, b"@", tag),
    }
}

fn put_entry(out: &mut Vec<u8>, entry: &Entry) -> Result<(), Memory>
    ensures { OnOk result (out.new.items ≡ out.old.items ++ entry_text entry.now) }
{
    put_named(out, b" ", entry.call.0)?;
    put_tag(out, entry.tag)
}

pub(crate) fn put_order(out: &mut Vec<u8>, order: &[Entry]) -> Result<(), Memory>
    ensures { OnOk result (out.new.items ≡ out.old.items ++ order_text order.now) }
{
    for entry in order {
        put_entry(out, entry)?;
    }
    Ok(())
}

/// A key with its history, by its marks, and its order.
#[tactic(auto, unfolding(crate::specs::Marks::marked_text))]
pub(crate) fn put_key(
    out: &mut Vec<u8>,
    key: &Key,
    history: &[Mark],
    order: &[Entry],
) -> Result<(), Memory>
    ensures { OnOk result (out.new.items ≡ out.old.items ++ marked_text key.now history.now order.now) }
{
    put_text(out, b"key ")?;
    put_word(out, key.bytes())?;
    put_text(out, b"\nhistory")?;
    put_history(out, history)?;
    put_text(out, b"\norder")?;
    put_order(out, order)?;
    put_text(out, b"\n")
}
