//! The joint order of a run, and its batches.

ghost use Rattle.std.specs.Prelude.{◌≡◌, ◌++◌, OnOk};
ghost use Rattle.hk_drill.specs.Together.{batch_text, together_line, together_text, joined_text};

use crate::keys::put_order;
use hk_base::{CallNo, Memory};
use hk_history::Entry;
use hk_joint::BatchCalls;
use hk_script::put_text;
use hk_transcript::put_named;

fn put_batch(out: &mut Vec<u8>, calls: &[CallNo]) -> Result<(), Memory>
    ensures { OnOk result (out.new.items ≡ out.old.items ++ batch_text calls.now) }
{
    for call in calls {
        put_named(out, b" ", call.0)?;
    }
    Ok(())
}

#[tactic(auto, unfolding(crate::specs::Together::together_line))]
fn put_together(out: &mut Vec<u8>, calls: &[CallNo]) -> Result<(), Memory>
    ensures { OnOk result (out.new.items ≡ out.old.items ++ together_line calls.now) }
{
    put_text(out, b"together")?;
    put_batch(out, calls)?;
    put_text(out, b"\n")
}

fn put_batches(out: &mut Vec<u8>, batches: &[BatchCalls]) -> Result<(), Memory>
    ensures { OnOk result (out.new.items ≡ out.old.items ++ together_text batches.now) }
{
    for batch in batches {
        put_together(out, batch.as_slice())?;
    }
    Ok(())
}

/// An order of the calls on all keys, and the calls of each batch.
#[tactic(auto, unfolding(crate::specs::Together::joined_text))]
pub(crate) fn put_joined(
    out: &mut Vec<u8>,
    order: &[Entry],
    batches: &[BatchCalls],
) -> Result<(), Memory>
    ensures { OnOk result (out.new.items ≡ out.old.items ++ joined_text order.now batches.now) }
{
    put_text(out, b"joint")?;
    put_order(out, order)?;
    put_text(out, b"\n")?;
    put_batches(out, batches)
}
