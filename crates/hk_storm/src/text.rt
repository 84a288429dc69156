//! The lines that a storm writes.

ghost use Rattle.std.specs.Prelude.{◌≡◌, ◌++◌, OnOk, codes, decimal};
ghost use Rattle.hk_assemble.specs.declared.gap.Gap.TheVariants as G;
ghost use Rattle.hk_storm.specs.Text.{request_line, outcomes_line, sent_text, kept_text, gap_line, unlike_line, report_text};

use crate::compare::Unlike;
use crate::opts::StormOpts;
use crate::outcomes::Outcomes;
use crate::report::Report;
use hk_assemble::Gap;
use hk_base::{Answer, CallNo, Memory, NodeId};
use hk_script::{put_number, put_text};
use hk_transcript::put_answer;

fn put_request(out: &mut Vec<u8>, opts: &StormOpts) -> Result<(), Memory>
    ensures { OnOk result (out.new.items ≡ out.old.items ++ request_line opts.now) }
{
    put_text(out, b"storm ")?;
    put_number(out, u64::from(opts.nodes))?;
    put_text(out, b" ")?;
    put_number(out, u64::from(opts.workers))?;
    put_text(out, b" ")?;
    put_number(out, u64::from(opts.calls))?;
    put_text(out, b"\n")
}

fn put_outcomes(out: &mut Vec<u8>, outcomes: &Outcomes) -> Result<(), Memory>
    ensures { OnOk result (out.new.items ≡ out.old.items ++ outcomes_line outcomes.now) }
{
    put_text(out, b"answered ")?;
    put_number(out, outcomes.answered)?;
    put_text(out, b" busy ")?;
    put_number(out, outcomes.busy)?;
    put_text(out, b" aborted ")?;
    put_number(out, outcomes.aborted)?;
    put_text(out, b" open ")?;
    put_number(out, outcomes.unanswered)?;
    put_text(out, b" legal\n")
}

fn put_sent(out: &mut Vec<u8>, sent: Option<u64>) -> Result<(), Memory>
    ensures { OnOk result (out.new.items ≡ out.old.items ++ sent_text sent) }
{
    match sent {
        Some(ticket) => put_number(out, ticket),
        None => put_text(out, b"none"),
    }
}

fn put_kept(out: &mut Vec<u8>, kept: &Option<Answer>) -> Result<(), Memory>
    ensures { OnOk result (out.new.items ≡ out.old.items ++ kept_text kept.now) }
{
    match kept {
        Some(answer) => put_answer(out, answer),
        None => put_text(out, b"none"),
    }
}

fn put_letter(out: &mut Vec<u8>, taken: u64, sent: Option<u64>) -> Result<(), Memory>
    ensures { OnOk result (out.new.items ≡ out.old.items ++ gap_line (G.Letter taken sent)) }
{
    put_text(out, b"gap letter ")?;
    put_number(out, taken)?;
    put_text(out, b" ")?;
    put_sent(out, sent)?;
    put_text(out, b"\n")
}

fn put_entry(out: &mut Vec<u8>, node: NodeId, ticket: u64) -> Result<(), Memory>
    ensures { OnOk result (out.new.items ≡ out.old.items ++ (codes "gap entry " ++ decimal node.0 ++ codes " " ++ decimal ticket ++ codes "\n")) }
{
    put_text(out, b"gap entry ")?;
    put_number(out, u64::from(node.0))?;
    put_text(out, b" ")?;
    put_number(out, ticket)?;
    put_text(out, b"\n")
}

fn put_note(
    out: &mut Vec<u8>,
    call: CallNo,
    ticket: u64,
    told: &Answer,
    kept: &Option<Answer>,
) -> Result<(), Memory>
    ensures { OnOk result (out.new.items ≡ out.old.items ++ gap_line (G.Note call ticket told.now kept.now)) }
{
    put_text(out, b"gap note ")?;
    put_number(out, call.0)?;
    put_text(out, b" ")?;
    put_number(out, ticket)?;
    put_text(out, b" ")?;
    put_answer(out, told)?;
    put_text(out, b" ")?;
    put_kept(out, kept)?;
    put_text(out, b"\n")
}

fn put_gap(out: &mut Vec<u8>, gap: &Gap) -> Result<(), Memory>
    ensures { OnOk result (out.new.items ≡ out.old.items ++ gap_line gap.now) }
{
    match gap {
        Gap::Memory => Ok(()),
        Gap::Letter { taken, sent } => put_letter(out, *taken, *sent),
        Gap::Entry { node, ticket, .. } => put_entry(out, *node, *ticket),
        Gap::Note {
            call,
            ticket,
            told,
            kept,
        } => put_note(out, *call, *ticket, told, kept),
    }
}

fn put_unlike(out: &mut Vec<u8>, unlike: &Unlike) -> Result<(), Memory>
    ensures { OnOk result (out.new.items ≡ out.old.items ++ unlike_line unlike.now) }
{
    put_text(out, b"gap calls ")?;
    put_number(out, unlike.call)?;
    put_text(out, b" ")?;
    put_number(out, unlike.drawn)?;
    put_text(out, b" ")?;
    put_number(out, unlike.made)?;
    put_text(out, b"\n")
}

fn put_legal(out: &mut Vec<u8>, opts: &StormOpts, outcomes: &Outcomes) -> Result<(), Memory>
    ensures { OnOk result (out.new.items ≡ out.old.items ++ (request_line opts.now ++ outcomes_line outcomes.now)) }
{
    put_request(out, opts)?;
    put_outcomes(out, outcomes)
}

/// Puts the text of a report behind what is there.
#[tactic(auto, unfolding(crate::specs::Text::report_text))]
pub(crate) fn put_report(out: &mut Vec<u8>, opts: &StormOpts, report: &Report) -> Result<(), Memory>
    ensures { OnOk result (out.new.items ≡ out.old.items ++ report_text opts.now report.now) }
{
    match report {
        Report::Legal(outcomes) => put_legal(out, opts, outcomes),
        Report::Unfit(gap) => put_gap(out, gap),
        Report::Unasked(unlike) => put_unlike(out, unlike),
    }
}
