//! What a node that installs a view makes of its rows.

ghost use Rattle.std.specs.Prelude.{◌≡◌, ◌++◌, ◌∷◌, [], Some, None, true, map, IfOk, OnOk, if◌then◌else◌};
ghost use Rattle.hk_key.specs.Same.{is_same_row};
ghost use Rattle.std.specs.List.{AllByRecursion, flat_map};
ghost use Rattle.std.specs.List.Sorted.{IsStrictlySortedBy};
ghost use Rattle.std.specs.Map.{keys_of};
ghost use Rattle.hk_copy.specs.Batches.{key_cmp};
ghost use Rattle.hk_node.specs.Copies.{is_valid};
ghost use Rattle.hk_node.specs.Index.{at_key, HasOpen};
ghost use Rattle.hk_node.specs.Viewed.{IsFitRow, view_letters, view_told, view_new, view_old};

use crate::out::post_sent;
use crate::report::{PriorRow, PriorRows};
use hk_base::{Key, Letters, Memory, NodeId, Replies, View};
use hk_key::{BoxedRow, Row};
use std::alloc::Global;
use std::collections::{BTreeMap, BTreeSet};

/// What was made of rows so far.
#[derive(Drop)]
pub(crate) struct Viewed {
    pub letters: Letters,
    pub replies: Replies,
    /// The rows that are new.
    pub fresh: PriorRows,
    /// Those in whose places they go.
    pub prior: PriorRows,
}

// Notes a row that is new, where it is.
fn note_row(
    viewed: &mut Viewed,
    alloc: Global,
    key: &Key,
    before: &Row,
    after: Row,
) -> Result<(), Memory>
    ensures letters { viewed.new.letters ≡ viewed.old.letters }
    ensures replies { viewed.new.replies ≡ viewed.old.replies }
    ensures fresh { OnOk result (viewed.new.fresh ≡ viewed.old.fresh ++ (if is_same_row before.now after then [] else record { key = key.now; row = Some after } ∷ [])) }
    ensures prior { OnOk result (viewed.new.prior ≡ viewed.old.prior ++ (if is_same_row before.now after then [] else record { key = key.now; row = Some before.now } ∷ [])) }
{
    if before.is_same(&after) {
        return Ok(());
    }
    let name = key.share()?;
    viewed.fresh.push(PriorRow {
        key: name,
        row: Some(after),
    })?;
    let name = key.share()?;
    let row = before.copy(alloc)?;
    viewed.prior.push(PriorRow {
        key: name,
        row: Some(row),
    })
}

// One row's step.
fn view_row(
    viewed: &mut Viewed,
    alloc: Global,
    id: NodeId,
    view: &View,
    key: &Key,
    row: &Row,
) -> Result<(), Memory>
    requires { IsFitRow (key.now, row.now) }
    ensures letters { OnOk result (viewed.new.letters ≡ viewed.old.letters ++ view_letters id view.now (key.now, row.now)) }
    ensures replies { OnOk result (viewed.new.replies ≡ viewed.old.replies ++ map (λ t. t.1) (view_told id view.now (key.now, row.now))) }
    ensures fresh { OnOk result (viewed.new.fresh ≡ viewed.old.fresh ++ view_new id view.now (key.now, row.now)) }
    ensures prior { OnOk result (viewed.new.prior ≡ viewed.old.prior ++ view_old id view.now (key.now, row.now)) }
{
    if row.pending.is_none() {
        return Ok(());
    }
    let mut after = row.copy(alloc)?;
    let out = after.on_view(id, view);
    post_sent(&mut viewed.letters, id, view, key, &after, &out.send)?;
    if let Some(reply) = out.reply {
        viewed.replies.push(reply)?;
    }
    note_row(viewed, alloc, key, row, after)
}

// The step of the row of a key, if there is one.
fn view_at(
    viewed: &mut Viewed,
    alloc: Global,
    id: NodeId,
    view: &View,
    rows: &BTreeMap<Key, BoxedRow>,
    key: &Key,
) -> Result<(), Memory>
    requires { AllByRecursion IsFitRow rows.now.entries }
    ensures letters { OnOk result (viewed.new.letters ≡ viewed.old.letters ++ at_key (view_letters id view.now) rows.now.entries key.now) }
    ensures replies { OnOk result (viewed.new.replies ≡ viewed.old.replies ++ map (λ t. t.1) (at_key (view_told id view.now) rows.now.entries key.now)) }
    ensures fresh { OnOk result (viewed.new.fresh ≡ viewed.old.fresh ++ at_key (view_new id view.now) rows.now.entries key.now) }
    ensures prior { OnOk result (viewed.new.prior ≡ viewed.old.prior ++ at_key (view_old id view.now) rows.now.entries key.now) }
{
    match rows.get(key) {
        Some(row) => view_row(viewed, alloc, id, view, key, row.get()),
        None => Ok(()),
    }
}

// The steps of the rows of these keys.
fn view_keys(
    rows: &BTreeMap<Key, BoxedRow>,
    keys: &BTreeSet<Key>,
    alloc: Global,
    id: NodeId,
    view: &View,
) -> Result<Viewed, Memory>
    requires { AllByRecursion IsFitRow rows.now.entries }
    ensures ordered { IsStrictlySortedBy key_cmp keys.now.keys }
    ensures letters { IfOk result (λ viewed. viewed.letters ≡ flat_map (at_key (view_letters id view.now) rows.now.entries) keys.now.keys) }
    ensures replies { IfOk result (λ viewed. viewed.replies ≡ map (λ t. t.1) (flat_map (at_key (view_told id view.now) rows.now.entries) keys.now.keys)) }
    ensures fresh { IfOk result (λ viewed. viewed.fresh ≡ flat_map (at_key (view_new id view.now) rows.now.entries) keys.now.keys) }
    ensures prior { IfOk result (λ viewed. viewed.prior ≡ flat_map (at_key (view_old id view.now) rows.now.entries) keys.now.keys) }
{
    let mut viewed = Viewed {
        letters: Letters::new(alloc),
        replies: Replies::new(alloc),
        fresh: PriorRows::new(alloc),
        prior: PriorRows::new(alloc),
    };
    for key in keys.iter() {
        view_at(&mut viewed, alloc, id, view, rows, key)?;
    }
    Ok(viewed)
}

/// The steps of all rows, with no change to them: a row whose key is not among these makes none.
pub(crate) fn view_rows(
    rows: &BTreeMap<Key, BoxedRow>,
    keys: &BTreeSet<Key>,
    alloc: Global,
    id: NodeId,
    view: &View,
) -> Result<Viewed, Memory>
    requires fit { AllByRecursion IsFitRow rows.now.entries }
    requires rest { AllByRecursion (λ r. is_valid r.1.state ≡ true → r.1.pending ≡ None) rows.now.entries }
    requires ordered { IsStrictlySortedBy key_cmp (keys_of rows.now.entries) }
    requires has { HasOpen keys.now.keys rows.now.entries }
    ensures letters { IfOk result (λ viewed. viewed.letters ≡ flat_map (view_letters id view.now) rows.now.entries) }
    ensures replies { IfOk result (λ viewed. viewed.replies ≡ map (λ t. t.1) (flat_map (view_told id view.now) rows.now.entries)) }
    ensures fresh { IfOk result (λ viewed. viewed.fresh ≡ flat_map (view_new id view.now) rows.now.entries) }
    ensures prior { IfOk result (λ viewed. viewed.prior ≡ flat_map (view_old id view.now) rows.now.entries) }
{
    view_keys(rows, keys, alloc, id, view)
}
