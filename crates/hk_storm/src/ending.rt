//! The end of a storm.

ghost use Rattle.std.specs.Prelude.{◌≡◌, ◌≤◌, IfOk};
ghost use Rattle.hk_outside.specs.Causes.{Rose};
ghost use Rattle.hk_storm.specs.Storm.{IsStorm, AreGroups};
ghost use Rattle.hk_storm.specs.Text.{report_text};
ghost use Rattle.hk_storm.specs.Concluded.{IsReport, status_of, IsConcluded, IsText};

use crate::groups::{StormGroup, StormGroups};
use crate::opts::StormOpts;
use crate::report::{Report, report_on};
use crate::text::put_report;
use hk_base::Memory;
use hk_outside::{Sink, Status, write_all};
use std::alloc::Global;

/// A status, and the text to be written before it is told.
#[derive(Drop)]
struct Conclusion {
    status: Status,
    text: Vec<u8>,
}

fn status_of(report: &Report) -> Status
    ensures { result ≡ status_of report.now }
{
    match report {
        Report::Legal(_) => Status::Done,
        Report::Unfit(_) => Status::Gap,
        Report::Unasked(_) => Status::Gap,
    }
}

fn conclusion_of(
    alloc: Global,
    opts: &StormOpts,
    groups: &[StormGroup],
) -> Result<Conclusion, Memory>
    requires storm { IsStorm opts.now }
    requires groups { AreGroups opts.now.nodes groups.now }
    ensures { IfOk result (λ c. IsText c.status c.text.items opts.now groups.now) }
{
    let report = report_on(alloc, opts, groups)?;
    let mut text = Vec::new(alloc);
    put_report(&mut text, opts, &report)?;
    Ok(Conclusion {
        status: status_of(&report),
        text,
    })
}

/// Puts the journals and notes of a storm together, and writes what they come to. Done: each group came to a run, the calls of the runs are just the drawn ones, and each key's
/// order is legal; two lines tell the calls by what became of them. Gap: an entry or a note is in no run, or the calls are others, and a line names it.
pub fn conclude<K: Sink>(
    alloc: Global,
    opts: &StormOpts,
    groups: &StormGroups,
    sink: &mut K,
) -> Status
    requires storm { IsStorm opts.now }
    requires groups { AreGroups opts.now.nodes groups.now }
    ensures exact { IsConcluded result opts.now groups.now (K.held sink.old) (K.held sink.new) }
    ensures write_fault { result ≡ Status.WriteFault → Rose (K.faults sink.old) (K.faults sink.new) }
    ensures later { K.faults sink.old ≤ K.faults sink.new }
{
    let Ok(conclusion) = conclusion_of(alloc, opts, groups.as_slice()) else {
        return Status::Memory;
    };
    match write_all(sink, conclusion.text.as_slice()) {
        Ok(()) => conclusion.status,
        Err(_) => Status::WriteFault,
    }
}
