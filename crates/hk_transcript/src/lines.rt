//! The lines of an event, but those of letters, and the last line.

ghost use Rattle.std.specs.Prelude.{◌≡◌, ◌++◌, OnOk, Some, None};
ghost use Rattle.hk_transcript.specs.Text.{refused_text, reply_text, replies_text, call_text, view_line_text, end_text};

use crate::answers::{put_answer, put_refusal};
use crate::views::put_view;
use hk_base::{CallNo, Memory, NodeId, Reply, View};
use hk_event::Refused;
use hk_script::{put_number, put_text};

/// The line of a call that was made, if one was.
pub fn put_call(out: &mut Vec<u8>, number: u64, call: Option<CallNo>) -> Result<(), Memory>
    ensures { OnOk result (out.new.items ≡ out.old.items ++ call_text number call) }
{
    match call {
        None => Ok(()),
        Some(call) => {
            put_number(out, number)?;
            put_text(out, b" call ")?;
            put_number(out, call.0)?;
            put_text(out, b"\n")
        }
    }
}

fn put_agreed(out: &mut Vec<u8>, number: u64, view: &View) -> Result<(), Memory>
    ensures { OnOk result (out.new.items ≡ out.old.items ++ view_line_text number (Some view.now) None None) }
{
    put_number(out, number)?;
    put_text(out, b" view ")?;
    put_view(out, view)?;
    put_text(out, b"\n")
}

fn put_installed(out: &mut Vec<u8>, number: u64, view: &View, node: NodeId) -> Result<(), Memory>
    ensures { OnOk result (out.new.items ≡ out.old.items ++ view_line_text number (Some view.now) None (Some node)) }
{
    put_number(out, number)?;
    put_text(out, b" installed ")?;
    put_number(out, u64::from(node.0))?;
    put_text(out, b" ")?;
    put_number(out, view.epoch)?;
    put_text(out, b"\n")
}

fn put_chosen(out: &mut Vec<u8>, number: u64, view: &View, manager: u8) -> Result<(), Memory>
    ensures { OnOk result (out.new.items ≡ out.old.items ++ view_line_text number (Some view.now) (Some manager) None) }
{
    put_number(out, number)?;
    put_text(out, b" chosen m")?;
    put_number(out, u64::from(manager))?;
    put_text(out, b" ")?;
    put_view(out, view)?;
    put_text(out, b"\n")
}

/// The line of a view that was agreed, that the manager `chosen` now holds, or that the node `installed` has; none without a view.
pub fn put_view_line(
    out: &mut Vec<u8>,
    number: u64,
    view: &Option<View>,
    chosen: Option<u8>,
    installed: Option<NodeId>,
) -> Result<(), Memory>
    ensures { OnOk result (out.new.items ≡ out.old.items ++ view_line_text number view.now chosen installed) }
{
    match view {
        None => Ok(()),
        Some(view) => match chosen {
            Some(manager) => put_chosen(out, number, view, manager),
            None => match installed {
                None => put_agreed(out, number, view),
                Some(node) => put_installed(out, number, view, node),
            },
        },
    }
}

#[tactic(auto, unfolding(crate::specs::Text::reply_text))]
fn put_reply(out: &mut Vec<u8>, number: u64, reply: &Reply) -> Result<(), Memory>
    ensures { OnOk result (out.new.items ≡ out.old.items ++ reply_text number reply.now) }
{
    put_number(out, number)?;
    put_text(out, b" reply ")?;
    put_number(out, reply.call.0)?;
    put_text(out, b" ")?;
    put_answer(out, &reply.answer)?;
    put_text(out, b"\n")
}

/// The lines of calls that were answered.
pub fn put_replies(out: &mut Vec<u8>, number: u64, replies: &[Reply]) -> Result<(), Memory>
    ensures { OnOk result (out.new.items ≡ out.old.items ++ replies_text number replies.now) }
{
    for reply in replies {
        put_reply(out, number, reply)?;
    }
    Ok(())
}

/// The line of an event that was refused.
#[tactic(auto, unfolding(crate::specs::Text::refused_text))]
pub fn put_refused(out: &mut Vec<u8>, number: u64, refused: Refused) -> Result<(), Memory>
    ensures { OnOk result (out.new.items ≡ out.old.items ++ refused_text number refused) }
{
    put_number(out, number)?;
    put_text(out, b" refused ")?;
    put_refusal(out, refused)?;
    put_text(out, b"\n")
}

/// The last line of a script that went to its end.
#[tactic(auto, unfolding(crate::specs::Text::end_text))]
pub fn put_end(out: &mut Vec<u8>, events: u64, calls: u64, letters: u64) -> Result<(), Memory>
    ensures { OnOk result (out.new.items ≡ out.old.items ++ end_text events calls letters) }
{
    put_text(out, b"end ")?;
    put_number(out, events)?;
    put_text(out, b" ")?;
    put_number(out, calls)?;
    put_text(out, b" ")?;
    put_number(out, letters)?;
    put_text(out, b"\n")
}
