//! A joiner takes copied rows.

ghost use Rattle.std.specs.Prelude.{◌≡◌, ◌++◌, ◌∷◌, [], true, IfOk, OnOk, OnErr, All};
ghost use Rattle.std.specs.Option.{option_or};
ghost use Rattle.std.specs.List.{AllByRecursion};
ghost use Rattle.std.specs.List.Sorted.{IsStrictlySortedBy};
ghost use Rattle.std.specs.Map.{keys_of};
ghost use Rattle.hk_base.specs.Range.{IsWithin, IsBatch};
ghost use Rattle.hk_copy.specs.Batches.{key_cmp, last_key};
ghost use Rattle.hk_node.specs.Rows.{find_row, put_row};
ghost use Rattle.hk_node.specs.Node.{is_other};
ghost use Rattle.hk_node.specs.Copies.{is_next, takes_copy};
ghost use Rattle.hk_node.specs.Copying.{IsQuiet, IsMerge, change_of, put_change, row_now, put_rows, prior_of};
ghost use Rattle.hk_node.specs.Outs.{IsOutOf};

use super::Node;
use crate::out::{NodeOut, StepReplies};
use crate::put::{give_rows_back, list_rows, swap_row};
use crate::report::{PriorRow, PriorRows, Report, Undo};
use hk_base::{CopyItem, CopyItems, Key, Letters, Memory, NodeId, share_key};
use hk_key::{BoxedRow, Row};
use std::alloc::Global;
use std::collections::BTreeMap;
use std::mem;

fn is_next(after: &Option<Key>, cursor: &Option<Key>) -> bool
    ensures { result ≡ is_next after.now cursor.now }
{
    match (after, cursor) {
        (Some(after), Some(cursor)) => after.cmp(cursor).is_eq(),
        (None, None) => true,
        (Some(_), None) | (None, Some(_)) => false,
    }
}

// The cursor behind the items.
fn next_cursor(items: &CopyItems, cursor: &Option<Key>) -> Result<Option<Key>, Memory>
    ensures { IfOk result (λ next. next ≡ option_or (last_key items.now) cursor.now) }
{
    match items.as_slice().last() {
        Some(item) => {
            let key = item.key.share()?;
            Ok(Some(key))
        }
        None => share_key(cursor),
    }
}

// What the item makes of the row, where it changes it.
fn changed(alloc: Global, row: &Row, item: &CopyItem) -> Result<Option<Row>, Memory>
    requires quiet { IsQuiet row.now }
    requires within { IsWithin item.now.stamp }
    ensures { IfOk result (λ new. new ≡ change_of row.now item.now) }
{
    let mut new = row.copy(alloc)?;
    let item = item.share()?;
    new.on_copy(item);
    if row.is_same(&new) {
        Ok(None)
    } else {
        Ok(Some(new))
    }
}

// What the item makes of the row of its key: one that items before it made, or the one that was there.
fn change(
    alloc: Global,
    changes: &BTreeMap<Key, BoxedRow>,
    rows: &BTreeMap<Key, BoxedRow>,
    item: &CopyItem,
) -> Result<Option<Row>, Memory>
    requires quiet { IsQuiet (row_now item.now.key changes.now.entries rows.now.entries) }
    requires within { IsWithin item.now.stamp }
    ensures { IfOk result (λ new. new ≡ change_of (row_now item.now.key changes.now.entries rows.now.entries) item.now) }
{
    if let Some(row) = changes.get(&item.key) {
        return changed(alloc, row.get(), item);
    }
    match rows.get(&item.key) {
        Some(row) => changed(alloc, row.get(), item),
        None => changed(alloc, &Row::first(), item),
    }
}

fn put_change(
    changes: &mut BTreeMap<Key, BoxedRow>,
    alloc: Global,
    key: &Key,
    row: Option<Row>,
) -> Result<(), Memory>
    ensures { OnOk result (changes.new.entries ≡ put_change row key.now changes.old.entries) }
{
    if let Some(row) = row {
        let key = key.share()?;
        let row = BoxedRow::new(alloc, row)?;
        changes.insert(key, row)?;
    }
    Ok(())
}

// The rows that the items change, by key.
fn merge(
    alloc: Global,
    rows: &BTreeMap<Key, BoxedRow>,
    items: &CopyItems,
) -> Result<BTreeMap<Key, BoxedRow>, Memory>
    requires rising { IsStrictlySortedBy key_cmp (keys_of rows.now.entries) }
    requires quiet { AllByRecursion (λ r. IsQuiet r.1) rows.now.entries }
    requires within { All (λ item. IsWithin item.stamp) items.now }
    ensures { IfOk result (λ changes. IsMerge items.now rows.now.entries changes.entries) }
{
    let mut changes = BTreeMap::new(alloc);
    for item in items.as_slice() {
        let row = change(alloc, &changes, rows, item)?;
        put_change(&mut changes, alloc, &item.key, row)?;
    }
    Ok(changes)
}

// Puts a row in its place. What it took the place of comes behind the prior rows.
fn put_next(
    rows: &mut BTreeMap<Key, BoxedRow>,
    prior: &mut Vec<PriorRow>,
    key: Key,
    row: BoxedRow,
) -> Result<(), Memory>
    ensures put { OnOk result (rows.new.entries ≡ put_row key row rows.old.entries) }
    ensures prior { OnOk result (prior.new.items ≡ prior.old.items ++ record { key = key; row = find_row key rows.old.entries } ∷ []) }
    ensures stay { OnErr result (rows.new.entries ≡ rows.old.entries) }
    ensures kept { OnErr result (prior.new.items ≡ prior.old.items) }
{
    prior.reserve(1)?;
    if rows.contains_key(&key) {
        let old = swap_row(rows, &key, row.into_inner());
        prior.push_reserved(PriorRow {
            key,
            row: Some(old),
        });
        return Ok(());
    }
    let name = key.share()?;
    rows.insert(name, row)?;
    prior.push_reserved(PriorRow { key, row: None });
    Ok(())
}

// Puts rows in their places, in the order of their keys, and tells what they took the place of.
fn put_all(
    rows: &mut BTreeMap<Key, BoxedRow>,
    alloc: Global,
    changes: BTreeMap<Key, BoxedRow>,
) -> Result<Vec<PriorRow>, Memory>
    requires ordered { IsStrictlySortedBy key_cmp (keys_of rows.old.entries) }
    requires rising { IsStrictlySortedBy key_cmp (keys_of changes.entries) }
    ensures put { OnOk result (rows.new.entries ≡ put_rows changes.entries rows.old.entries) }
    ensures prior { IfOk result (λ prior. prior.items ≡ prior_of changes.entries rows.old.entries) }
    ensures err { OnErr result (rows.new.entries ≡ rows.old.entries) }
{
    let mut changes = changes;
    let mut prior = Vec::new(alloc);
    while let Some((key, row)) = changes.pop_first() {
        if let Err(fault) = put_next(rows, &mut prior, key, row) {
            give_rows_back(rows, prior);
            return Err(fault);
        }
    }
    Ok(prior)
}

impl Node {
    /// Takes a batch of rows behind its cursor, where it is not ready. Any other is dropped.
    pub(super) fn take_copy(
        &mut self,
        alloc: Global,
        from: NodeId,
        after: &Option<Key>,
        done: bool,
        items: &CopyItems,
    ) -> Result<NodeOut, Memory>
        requires batch { IsBatch items.now }
        requires other { is_other self.old from ≡ true }
        ensures node { OnOk result (self.new ≡ (takes_copy self.old after.now done items.now).node) }
        ensures out { IfOk result (λ out. IsOutOf out self.old (takes_copy self.old after.now done items.now)) }
        ensures err { OnErr result (self.new ≡ self.old) }
    {
        if self.ready {
            return Ok(self.idle(alloc));
        }
        if !is_next(after, &self.cursor) {
            return Ok(self.idle(alloc));
        }
        let epoch = self.epoch();
        let next = next_cursor(items, &self.cursor)?;
        let changes = merge(alloc, &self.rows, items)?;
        list_rows(&mut self.index, &changes)?;
        let prior = put_all(&mut self.rows, alloc, changes)?;
        let cursor = mem::replace(&mut self.cursor, next);
        self.ready = done;
        Ok(NodeOut {
            letters: Letters::new(alloc),
            replies: StepReplies::nothing(),
            installed: None,
            report: Report {
                epoch,
                readied: done,
                rows: PriorRows::from_vec(prior),
            },
            undo: Undo::Cursor(cursor),
        })
    }
}
