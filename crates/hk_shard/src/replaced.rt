//! What steps replaced at their node.

ghost use Rattle.std.specs.Prelude.{◌≡◌, IfOk};
ghost use Rattle.hk_shard.specs.Replaced.{replaced_of};

use hk_base::{Memory, Sequence, copy_view, share_key};
use hk_key::Row;
use hk_node::{NodeOut, PriorRow, PriorRows, Report, Undo};
use std::alloc::Global;

/// What a step replaced at its node, by which it is undone.
#[derive(Drop)]
pub struct Replaced {
    pub report: Report,
    pub undo: Undo,
}

fn copy_row(alloc: Global, row: &Option<Row>) -> Result<Option<Row>, Memory>
    ensures { IfOk result (λ same. same ≡ row.now) }
{
    match row {
        Some(row) => {
            let same = row.copy(alloc)?;
            Ok(Some(same))
        }
        None => Ok(None),
    }
}

fn copy_prior(alloc: Global, prior: &PriorRow) -> Result<PriorRow, Memory>
    ensures { IfOk result (λ same. same ≡ prior.now) }
{
    let key = prior.key.share()?;
    let row = copy_row(alloc, &prior.row)?;
    Ok(PriorRow { key, row })
}

fn copy_rows(alloc: Global, rows: &[PriorRow]) -> Result<PriorRows, Memory>
    ensures { IfOk result (λ same. same ≡ rows.now) }
{
    let mut same = Vec::with_capacity(alloc, rows.len())?;
    for prior in rows {
        let prior = copy_prior(alloc, prior)?;
        same.push(prior)?;
    }
    Ok(Sequence::from_vec(same))
}

fn copy_report(alloc: Global, report: &Report) -> Result<Report, Memory>
    ensures { IfOk result (λ same. same ≡ report.now) }
{
    let rows = copy_rows(alloc, report.rows.as_slice())?;
    Ok(Report {
        epoch: report.epoch,
        readied: report.readied,
        rows,
    })
}

fn copy_numbers(alloc: Global, numbers: &Sequence<u64>) -> Result<Sequence<u64>, Memory>
    ensures { IfOk result (λ same. same ≡ numbers.now) }
{
    let same = numbers.as_slice().to_vec(alloc)?;
    Ok(Sequence::from_vec(same))
}

fn copy_undo(alloc: Global, undo: &Undo) -> Result<Undo, Memory>
    ensures { IfOk result (λ same. same ≡ undo.now) }
{
    match undo {
        Undo::Nothing => Ok(Undo::Nothing),
        Undo::Clock(now) => Ok(Undo::Clock(*now)),
        Undo::Lease(end) => Ok(Undo::Lease(*end)),
        Undo::Granted { granted, ends } => {
            let ends = copy_numbers(alloc, ends)?;
            Ok(Undo::Granted {
                granted: *granted,
                ends,
            })
        }
        Undo::Activated(activated) => {
            let activated = copy_numbers(alloc, activated)?;
            Ok(Undo::Activated(activated))
        }
        Undo::View { view, activated } => {
            let view = copy_view(alloc, view)?;
            let activated = copy_numbers(alloc, activated)?;
            Ok(Undo::View { view, activated })
        }
        Undo::Cursor(cursor) => {
            let cursor = share_key(cursor)?;
            Ok(Undo::Cursor(cursor))
        }
    }
}

/// What the step that gave this replaced.
pub(crate) fn replaced_of(alloc: Global, out: &NodeOut) -> Result<Replaced, Memory>
    ensures { IfOk result (λ replaced. replaced ≡ replaced_of out.now) }
{
    let report = copy_report(alloc, &out.report)?;
    let undo = copy_undo(alloc, &out.undo)?;
    Ok(Replaced { report, undo })
}

fn share(alloc: Global, replaced: &Replaced) -> Result<Replaced, Memory>
    ensures { IfOk result (λ same. same ≡ replaced.now) }
{
    let report = copy_report(alloc, &replaced.report)?;
    let undo = copy_undo(alloc, &replaced.undo)?;
    Ok(Replaced { report, undo })
}

/// The same of all these steps.
pub(crate) fn share_all(alloc: Global, replaced: &[Replaced]) -> Result<Vec<Replaced>, Memory>
    ensures { IfOk result (λ same. same.items ≡ replaced.now) }
{
    let mut same = Vec::with_capacity(alloc, replaced.len())?;
    for one in replaced {
        let one = share(alloc, one)?;
        same.push(one)?;
    }
    Ok(same)
}

/// Drops two of them at most, the last ones.
pub(crate) fn let_go(spent: &mut Vec<Replaced>) {
    let left = spent.len().saturating_sub(2);
    spent.truncate(left);
}
