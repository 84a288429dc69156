//! What journals and notes come to.

ghost use Rattle.std.specs.Prelude.{◌≡◌, List, IfOk};
ghost use Rattle.hk_storm.specs.declared.groups.StormGroup.{StormGroup};
ghost use Rattle.hk_storm.specs.declared.report.Report.TheVariants.{Unfit};
ghost use Rattle.hk_script.specs.Drawn.{group_of};
ghost use Rattle.hk_storm.specs.Storm.{IsStorm, AreGroups};
ghost use Rattle.hk_assemble.specs.Single.{IsTelling};
ghost use Rattle.hk_storm.specs.Concluded.{AreAssembled, EachRun, IsReport};

use crate::calls::all_calls;
use crate::compare::{Unlike, compare};
use crate::draw::draw_calls;
use crate::follow::follow_all;
use crate::groups::StormGroup;
use crate::opts::StormOpts;
use crate::outcomes::{Outcomes, count_outcomes};
use hk_assemble::Gap;
use hk_base::Memory;
use hk_event::Header;
use hk_safety::{Run, runs_are_legal};
use std::alloc::Global;

/// What journals and notes come to.
#[derive(Drop)]
pub enum Report {
    /// Runs of just the drawn calls, whose orders are legal.
    Legal(Outcomes),
    /// An entry or a note that no run can have.
    Unfit(Gap),
    /// Runs of other calls.
    Unasked(Unlike),
}

// A group whose leases end at the limit of the clocks, which stay together.
fn header_of(opts: &StormOpts) -> Header
    ensures { result ≡ group_of opts.now.nodes }
{
    Header {
        nodes: opts.nodes,
        managers: 0,
        lease: 1_000_000_000_000,
        skew: 0,
    }
}

// What the runs of all groups come to.
fn report_runs(alloc: Global, opts: &StormOpts, runs: &[Run]) -> Result<Report, Memory>
    requires storm { IsStorm opts.now }
    requires runs { EachRun runs.now }
    ensures { (groups : List StormGroup) → AreAssembled (group_of opts.now.nodes) groups runs.now → IfOk result (λ report. IsReport report opts.now groups) }
{
    runs_are_legal();
    let drawn = draw_calls(alloc, opts)?;
    let made = all_calls(alloc, runs)?;
    if let Some(unlike) = compare(alloc, drawn.as_slice(), made.as_slice())? {
        return Ok(Report::Unasked(unlike));
    }
    let outcomes = count_outcomes(alloc, runs)?;
    Ok(Report::Legal(outcomes))
}

// Why a group comes to no run, unless memory was wanting.
fn unfit(gap: Gap) -> Result<Report, Memory>
    ensures { IfOk result (λ report. (report ≡ Unfit gap) × IsTelling gap) }
{
    match gap {
        Gap::Memory => Err(Memory),
        gap => Ok(Report::Unfit(gap)),
    }
}

/// What the groups come to.
pub(crate) fn report_on(
    alloc: Global,
    opts: &StormOpts,
    groups: &[StormGroup],
) -> Result<Report, Memory>
    requires storm { IsStorm opts.now }
    requires groups { AreGroups opts.now.nodes groups.now }
    ensures { IfOk result (λ report. IsReport report opts.now groups.now) }
{
    match follow_all(alloc, header_of(opts), groups) {
        Ok(runs) => report_runs(alloc, opts, runs.as_slice()),
        Err(gap) => unfit(gap),
    }
}
