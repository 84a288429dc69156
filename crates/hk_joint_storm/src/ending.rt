//! The end of a storm of joint reads.

ghost use Rattle.std.specs.Prelude.{◌≡◌, ◌≤◌, IfOk};
ghost use Rattle.hk_outside.specs.Causes.{Rose};
ghost use Rattle.hk_joint_storm.specs.Gaps.{first_gap};
ghost use Rattle.hk_joint_storm.specs.Concluded.{IsPast, IsConcluded, text_for};

use crate::gaps::{JointFounds, JointGap, first_gap};
use crate::text::text;
use hk_base::Memory;
use hk_journal::Journal;
use hk_node::Node;
use hk_outside::{Sink, Status, write_all};
use hk_place::Changes;
use std::alloc::Global;

/// The first gap, if there is one, and the text that is written before the status is told.
#[derive(Drop)]
struct Conclusion {
    gap: Option<JointGap>,
    text: Vec<u8>,
}

fn conclusion_of(
    alloc: Global,
    workers: u8,
    reads: u32,
    base: &Node,
    journal: &Journal,
    founds: &JointFounds,
) -> Result<Conclusion, Memory>
    requires { IsPast (record { base = base.now; journal = journal.now }) }
    ensures gap { IfOk result (λ c. c.gap ≡ first_gap (record { base = base.now; journal = journal.now }) founds.now) }
    ensures text { IfOk result (λ c. c.text.items ≡ text_for workers reads (record { base = base.now; journal = journal.now }) founds.now) }
{
    let changes = Changes::of(alloc, base, journal)?;
    let gap = first_gap(&changes, founds.as_slice())?;
    let text = text(alloc, workers, reads, founds.len() as u64, gap)?;
    Ok(Conclusion { gap, text })
}

/// Places each read by the journal, and writes what they come to: `workers` and `reads` are what the storm was asked for. Done: each read has a place; two lines tell how many were
/// found. Gap: one has none, and a line tells of the first. WriteFault: the sink failed, or took nothing of a piece.
pub fn conclude_joint<K: Sink>(
    alloc: Global,
    workers: u8,
    reads: u32,
    base: &Node,
    journal: &Journal,
    founds: &JointFounds,
    sink: &mut K,
) -> Status
    requires { IsPast (record { base = base.now; journal = journal.now }) }
    ensures exact { IsConcluded result workers reads (record { base = base.now; journal = journal.now }) founds.now (K.held sink.old) (K.held sink.new) }
    ensures write_fault { result ≡ Status.WriteFault → Rose (K.faults sink.old) (K.faults sink.new) }
    ensures later { K.faults sink.old ≤ K.faults sink.new }
{
    let Ok(conclusion) = conclusion_of(alloc, workers, reads, base, journal, founds) else {
        return Status::Memory;
    };
    if write_all(sink, conclusion.text.as_slice()).is_err() {
        return Status::WriteFault;
    }
    match conclusion.gap {
        Some(_) => Status::Gap,
        None => Status::Done,
    }
}
