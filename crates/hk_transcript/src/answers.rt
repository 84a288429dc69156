//! The words of an answer, and of a refusal.

ghost use Rattle.std.specs.Prelude.{◌≡◌, ◌++◌, OnOk, codes, decimal};
ghost use Rattle.hk_base.specs.declared.call.Answer.TheVariants.{Found};
ghost use Rattle.hk_transcript.specs.Text.{stamp_text, state_text, why_text, answer_text, refusal_text};

use crate::parts::{put_named, put_stamp};
use hk_base::{Answer, Content, Memory, Stamp, State, Why};
use hk_event::Refused;
use hk_script::{put_number, put_text, put_word};

fn put_state(out: &mut Vec<u8>, state: State) -> Result<(), Memory>
    ensures { OnOk result (out.new.items ≡ out.old.items ++ state_text state) }
{
    match state {
        State::Valid => put_text(out, b"valid"),
        State::Invalid => put_text(out, b"invalid"),
        State::Write => put_text(out, b"write"),
        State::Replay => put_text(out, b"replay"),
        State::Trans => put_text(out, b"trans"),
    }
}

// Why a call is refused for now.
fn put_why(out: &mut Vec<u8>, why: Why) -> Result<(), Memory>
    ensures { OnOk result (out.new.items ≡ out.old.items ++ why_text why) }
{
    match why {
        Why::Lease { end, now } => {
            put_named(out, b"lease ", end)?;
            put_named(out, b" ", now)
        }
        Why::Row { state, stamp } => {
            put_state(out, state)?;
            put_text(out, b" ")?;
            put_stamp(out, stamp)
        }
    }
}

#[tactic(auto, unfolding(crate::specs::Text::answer_text))]
fn put_found(out: &mut Vec<u8>, content: &Content, tag: u64) -> Result<(), Memory>
    ensures { OnOk result (out.new.items ≡ out.old.items ++ answer_text (Found content.now tag)) }
{
    put_named(out, b"found ", u64::from(content.flags))?;
    put_named(out, b" ", tag)?;
    put_text(out, b" ")?;
    put_word(out, content.bytes.bytes())
}

fn put_stamped(out: &mut Vec<u8>, name: &[u8], stamp: Stamp) -> Result<(), Memory>
    ensures { OnOk result (out.new.items ≡ out.old.items ++ (name.now ++ stamp_text stamp)) }
{
    put_text(out, name)?;
    put_stamp(out, stamp)
}

/// Puts the words of an answer behind what is there. After `Memory` a front of them may stand there.
#[tactic(auto, unfolding(crate::specs::Text::answer_text))]
pub fn put_answer(out: &mut Vec<u8>, answer: &Answer) -> Result<(), Memory>
    ensures { OnOk result (out.new.items ≡ out.old.items ++ answer_text answer.now) }
{
    match answer {
        Answer::Found { content, tag } => put_found(out, content, *tag),
        Answer::Missing => put_text(out, b"missing"),
        Answer::Stored => put_text(out, b"stored"),
        Answer::Number(number) => put_named(out, b"number ", *number),
        Answer::Exists => put_text(out, b"exists"),
        Answer::NotFound => put_text(out, b"not-found"),
        Answer::NotNumber => put_text(out, b"not-number"),
        Answer::NotStored => put_text(out, b"not-stored"),
        Answer::Deleted => put_text(out, b"deleted"),
        Answer::Busy(why) => {
            put_text(out, b"busy ")?;
            put_why(out, *why)
        }
        Answer::Aborted(stamp) => put_stamped(out, b"aborted ", *stamp),
        Answer::Exhausted(stamp) => put_stamped(out, b"exhausted ", *stamp),
    }
}

fn put_two(out: &mut Vec<u8>, name: &[u8], first: u64, second: u64) -> Result<(), Memory>
    ensures { OnOk result (out.new.items ≡ out.old.items ++ (name.now ++ decimal first ++ codes " " ++ decimal second)) }
{
    put_named(out, name, first)?;
    put_named(out, b" ", second)
}

#[tactic(auto, unfolding(crate::specs::Text::refusal_text))]
pub(crate) fn put_refusal(out: &mut Vec<u8>, refused: Refused) -> Result<(), Memory>
    ensures { OnOk result (out.new.items ≡ out.old.items ++ refusal_text refused) }
{
    match refused {
        Refused::NoActor => put_text(out, b"no-actor"),
        Refused::Crashed => put_text(out, b"crashed"),
        Refused::NoLetter => put_text(out, b"no-letter"),
        Refused::Skew { to, other } => put_two(out, b"skew ", to, other),
        Refused::ClockFalls { clock } => put_named(out, b"clock-falls ", clock),
        Refused::LeaseRuns { node, end } => put_two(out, b"lease-runs ", u64::from(node.0), end),
        Refused::Managed => put_text(out, b"managed"),
        Refused::NoView => put_text(out, b"no-view"),
        Refused::NotMember => put_text(out, b"not-member"),
        Refused::Behind { held } => put_named(out, b"behind ", held),
        Refused::NoSuchMember => put_text(out, b"no-such-member"),
        Refused::LastMember => put_text(out, b"last-member"),
        Refused::Full => put_text(out, b"full"),
        Refused::NoNumbers => put_text(out, b"no-numbers"),
        Refused::NotPast { node, end } => put_two(out, b"not-past ", u64::from(node.0), end),
        Refused::Started => put_text(out, b"started"),
    }
}
