//! The end of a step.

ghost use Rattle.std.specs.Prelude.{◌≡◌, ◌≢◌, [], true, None, IfOk, OnOk, OnErr};
ghost use Rattle.hk_key.specs.Same.{is_same_row};
ghost use Rattle.hk_node.specs.Rows.{find_row};
ghost use Rattle.hk_node.specs.Index.{IsGrown, IsRelisted};
ghost use Rattle.hk_node.specs.Sound.{IsNode};
ghost use Rattle.hk_node.specs.Stepped.{idle, row_step};
ghost use Rattle.hk_node.specs.Calls.{answers};
ghost use Rattle.hk_node.specs.Report.{IsMade, rows_report};
ghost use Rattle.hk_node.specs.Outs.{IsOutOf, IsOutOfRow};

use super::{Node, epoch_in};
use crate::out::{NodeOut, StepReplies, post_sent, replies};
use crate::put::{change_row, drop_closed_row, list_opened, list_row, put_first};
use crate::report::{PriorRows, Report, Undo};
use hk_base::{Answer, CallNo, Key, Letters, Memory, NodeId, Reply, View};
use hk_key::{BoxedRow, Out, Row};
use std::alloc::Global;
use std::collections::BTreeSet;

/// Puts the row that a step made in place of the one that stands at the key, and tells what the step did.
pub(super) fn put_stepped(
    place: &mut BoxedRow,
    index: &mut BTreeSet<Key>,
    alloc: Global,
    id: NodeId,
    view: &View,
    key: &Key,
    row: Row,
    out: Out,
) -> Result<NodeOut, Memory>
    requires same { is_same_row place.old row ≡ true → row ≡ place.old }
    ensures row { OnOk result (place.new ≡ row) }
    ensures told { IfOk result (IsOutOfRow id view.now key.now place.old (record { row = row; out = out })) }
    ensures listed { OnOk result (IsRelisted key.now place.old row index.old.keys index.new.keys) }
    ensures err { OnErr result (place.new ≡ place.old) }
    ensures grown { OnErr result (IsGrown index.old.keys index.new.keys) }
{
    let mut letters = Letters::new(alloc);
    post_sent(&mut letters, id, view, key, &row, &out.send)?;
    let replies = replies(key, out.reply);
    let old = place.get().state;
    let new = row.state;
    list_opened(index, key, old, &row)?;
    let rows = change_row(place, alloc, key, row)?;
    drop_closed_row(index, key, old, new);
    Ok(NodeOut {
        letters,
        replies,
        installed: None,
        report: Report {
            epoch: view.epoch,
            readied: false,
            rows,
        },
        undo: Undo::Nothing,
    })
}

impl Node {
    /// Letters are sent and calls are answered, and something beside rows is replaced, or nothing.
    pub(super) fn tells(
        &self,
        alloc: Global,
        letters: Letters,
        replies: StepReplies,
        undo: Undo,
    ) -> NodeOut
        ensures letters { result.letters ≡ letters }
        ensures replies { result.replies ≡ replies }
        ensures installed { result.installed ≡ None }
        ensures report { result.report ≡ rows_report self.now [] }
        ensures undo { result.undo ≡ undo }
        ensures node { IsNode self.now }
    {
        NodeOut {
            letters,
            replies,
            installed: None,
            report: Report {
                epoch: epoch_in(&self.view),
                readied: false,
                rows: PriorRows::new(alloc),
            },
            undo,
        }
    }

    /// Something beside rows is replaced, or nothing, and nothing is sent or answered. It takes no memory.
    pub(super) fn replaces(&self, alloc: Global, undo: Undo) -> NodeOut
        ensures letters { result.letters ≡ [] }
        ensures replies { result.replies ≡ [] }
        ensures installed { result.installed ≡ None }
        ensures report { result.report ≡ rows_report self.now [] }
        ensures undo { result.undo ≡ undo }
        ensures node { IsNode self.now }
    {
        self.tells(alloc, Letters::new(alloc), StepReplies::nothing(), undo)
    }

    /// Nothing happens. It takes no memory.
    pub(super) fn idle(&self, alloc: Global) -> NodeOut
        ensures { IsOutOf result self.now (idle self.now) }
    {
        self.replaces(alloc, Undo::Nothing)
    }

    /// A call is answered at once, and nothing changes.
    pub(super) fn answers(&self, alloc: Global, key: &Key, call: CallNo, answer: Answer) -> NodeOut
        ensures { IsOutOf result self.now (answers self.now key.now call answer) }
    {
        let told = StepReplies::one(Reply { call, answer });
        self.tells(alloc, Letters::new(alloc), told, Undo::Nothing)
    }

    /// The first row of a key made a step: its letters and its reply are made, and last it is put in its place.
    pub(super) fn finish(
        &mut self,
        alloc: Global,
        key: &Key,
        row: Row,
        out: Out,
    ) -> Result<NodeOut, Memory>
        requires seen { self.old.view ≢ None }
        requires node { IsNode (row_step self.old key.now (record { row = row; out = out })).node }
        requires made { IsMade self.old.rows key.now row }
        requires none { find_row key.now self.old.rows ≡ None }
        ensures node { OnOk result (self.new ≡ (row_step self.old key.now (record { row = row; out = out })).node) }
        ensures out { IfOk result (λ told. IsOutOf told self.old (row_step self.old key.now (record { row = row; out = out }))) }
        ensures err { OnErr result (self.new ≡ self.old) }
    {
        let Some(view) = &self.view else {
            unreachable!()
        };
        let epoch = self.epoch();
        let mut letters = Letters::new(alloc);
        post_sent(&mut letters, self.id, view, key, &row, &out.send)?;
        let replies = replies(key, out.reply);
        list_row(&mut self.index, key, &row)?;
        let rows = put_first(&mut self.rows, alloc, key, row)?;
        Ok(NodeOut {
            letters,
            replies,
            installed: None,
            report: Report {
                epoch,
                readied: false,
                rows,
            },
            undo: Undo::Nothing,
        })
    }
}
