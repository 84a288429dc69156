//! The rows of a node, put in their places, and the index of those that are open: the keys of rows that are not Valid, and
//! maybe of some that became Valid since.

ghost use Rattle.std.specs.Prelude.{◌≡◌, ◌≢◌, ◌∷◌, [], ℕ, List, true, false, Some, None, IsSome, IfOk, OnOk, OnErr, map};
ghost use Rattle.std.specs.Option.{option_copied};
ghost use Rattle.std.specs.List.{AllByRecursion, filter, find};
ghost use Rattle.std.specs.List.Sorted.{IsStrictlySortedBy};
ghost use Rattle.std.specs.Map.{keys_of};
ghost use Rattle.hk_copy.specs.Batches.{key_cmp};
ghost use Rattle.hk_key.specs.Same.{is_same_row};
ghost use Rattle.hk_node.specs.Rows.{find_row, put_row, with_row};
ghost use Rattle.hk_node.specs.Report.{IsMade, row_rolled_back, rows_rolled_back, changed_by, prior_of_row};
ghost use Rattle.hk_node.specs.Copies.{is_valid};
ghost use Rattle.hk_node.specs.Open.{is_behind, next_open};
ghost use Rattle.hk_node.specs.Index.{is_listed, is_open_at, HasOpen, IsGrown};

use crate::report::{PriorRow, PriorRows};
use hk_base::{Key, Memory, State};
use hk_key::{BoxedRow, Row};
use std::alloc::Global;
use std::collections::{BTreeMap, BTreeSet};
use std::ops::Bound;

/// Puts a row in place of the one that is there, which is given.
pub(crate) fn swap_row(rows: &mut BTreeMap<Key, BoxedRow>, key: &Key, row: Row) -> Row
    requires { IsSome (find_row key.now rows.old.entries) }
    ensures put { rows.new.entries ≡ put_row key.now row rows.old.entries }
    ensures prior { Some result ≡ find_row key.now rows.old.entries }
{
    match rows.get_mut(key) {
        Some(place) => place.replace(row),
        None => unreachable!(),
    }
}

// Puts a row at a key that has none.
fn add_row(
    rows: &mut BTreeMap<Key, BoxedRow>,
    alloc: Global,
    key: &Key,
    row: Row,
) -> Result<PriorRows, Memory>
    requires { find_row key.now rows.old.entries ≡ None }
    ensures put { OnOk result (rows.new.entries ≡ put_row key.now row rows.old.entries) }
    ensures prior { IfOk result (λ prior. prior ≡ record { key = key.now; row = find_row key.now rows.old.entries } ∷ []) }
    ensures err { OnErr result (rows.new.entries ≡ rows.old.entries) }
{
    let mut prior = PriorRows::new(alloc);
    let name = key.share()?;
    prior.push(PriorRow {
        key: name,
        row: None,
    })?;
    let name = key.share()?;
    let row = BoxedRow::new(alloc, row)?;
    rows.insert(name, row)?;
    Ok(prior)
}

/// Puts the row that a step made of a key that has none, where it is not the first row still. What it took the place of is
/// given.
pub(crate) fn put_first(
    rows: &mut BTreeMap<Key, BoxedRow>,
    alloc: Global,
    key: &Key,
    row: Row,
) -> Result<PriorRows, Memory>
    requires ordered { IsStrictlySortedBy key_cmp (keys_of rows.old.entries) }
    requires made { IsMade rows.old.entries key.now row }
    requires none { find_row key.now rows.old.entries ≡ None }
    ensures put { OnOk result (rows.new.entries ≡ with_row key.now row rows.old.entries) }
    ensures prior { IfOk result (λ prior. prior ≡ changed_by key.now row rows.old.entries) }
    ensures err { OnErr result (rows.new.entries ≡ rows.old.entries) }
{
    if Row::first().is_same(&row) {
        return Ok(PriorRows::new(alloc));
    }
    add_row(rows, alloc, key, row)
}

/// Puts a row that a step made in place of the one that stands there, where that is not the same. What it took the place
/// of is given.
pub(crate) fn change_row(
    place: &mut BoxedRow,
    alloc: Global,
    key: &Key,
    row: Row,
) -> Result<PriorRows, Memory>
    requires same { is_same_row place.old row ≡ true → row ≡ place.old }
    ensures row { OnOk result (place.new ≡ row) }
    ensures prior { IfOk result (λ prior. prior ≡ prior_of_row key.now place.old row) }
    ensures err { OnErr result (place.new ≡ place.old) }
{
    if place.get().is_same(&row) {
        return Ok(PriorRows::new(alloc));
    }
    let name = key.share()?;
    let mut prior = Vec::with_capacity(alloc, 1)?;
    let row = place.replace(row);
    prior.push_reserved(PriorRow {
        key: name,
        row: Some(row),
    });
    Ok(PriorRows::from_vec(prior))
}

// Gives one row back.
fn give_row_back(rows: &mut BTreeMap<Key, BoxedRow>, prior: PriorRow)
    requires { IsSome (find_row prior.key rows.old.entries) }
    ensures { rows.new.entries ≡ row_rolled_back prior.key prior.row rows.old.entries }
{
    let PriorRow { key, row } = prior;
    match row {
        Some(row) => {
            swap_row(rows, &key, row);
        }
        None => {
            rows.remove(&key);
        }
    }
}

/// Gives prior rows back, from the last to the first.
pub(crate) fn give_rows_back(rows: &mut BTreeMap<Key, BoxedRow>, prior: Vec<PriorRow>)
    requires rising { IsStrictlySortedBy key_cmp (map (λ f. f.key) prior.items) }
    requires there { AllByRecursion (λ f. IsSome (find_row f.key rows.old.entries)) prior.items }
    ensures { rows.new.entries ≡ rows_rolled_back prior.items rows.old.entries }
{
    let mut prior = prior;
    while let Some(last) = prior.pop() {
        give_row_back(rows, last);
    }
}

/// Whether a row in this state is Valid.
pub(crate) fn is_valid(state: State) -> bool
    ensures { result ≡ is_valid state }
{
    state == State::Valid
}

// Whether the key has a row that is open.
fn is_open_at(rows: &BTreeMap<Key, BoxedRow>, key: &Key) -> bool
    ensures { result ≡ is_open_at rows.now.entries key.now }
{
    match rows.get(key) {
        Some(row) => !is_valid(row.get().state),
        None => false,
    }
}

// Adds a key.
fn add(keys: &mut BTreeSet<Key>, key: &Key) -> Result<(), Memory>
    ensures listed { OnOk result (is_listed key.now keys.new.keys ≡ true) }
    ensures grown { IsGrown keys.old.keys keys.new.keys }
{
    let key = key.share()?;
    keys.insert(key)?;
    Ok(())
}

/// Lists the key of a row that is to be put, where the row is open.
pub(crate) fn list_row(keys: &mut BTreeSet<Key>, key: &Key, row: &Row) -> Result<(), Memory>
    ensures listed { OnOk result (is_valid row.now.state ≡ false → is_listed key.now keys.new.keys ≡ true) }
    ensures grown { IsGrown keys.old.keys keys.new.keys }
{
    if is_valid(row.state) {
        return Ok(());
    }
    add(keys, key)
}

/// Lists the key of a row that is to be put in place of one in this state, where the step opens the row: the key of one that was
/// open is listed already.
pub(crate) fn list_opened(
    keys: &mut BTreeSet<Key>,
    key: &Key,
    old: State,
    row: &Row,
) -> Result<(), Memory>
    ensures listed { OnOk result (is_valid old ≡ true → is_valid row.now.state ≡ false → is_listed key.now keys.new.keys ≡ true) }
    ensures grown { IsGrown keys.old.keys keys.new.keys }
{
    if is_valid(old) {
        return list_row(keys, key, row);
    }
    Ok(())
}

/// Drops the key of a row that a step closed, which was in the one state and is in the other.
pub(crate) fn drop_closed_row(keys: &mut BTreeSet<Key>, key: &Key, old: State, new: State)
    ensures others { (other : List ℕ) → other ≢ key.now → is_listed other keys.old.keys ≡ true → is_listed other keys.new.keys ≡ true }
    ensures open { is_valid new ≡ false → keys.new.keys ≡ keys.old.keys }
{
    if is_valid(new) && !is_valid(old) {
        keys.remove(key);
    }
}

/// Lists the keys of all these rows that are open.
pub(crate) fn list_rows(
    keys: &mut BTreeSet<Key>,
    rows: &BTreeMap<Key, BoxedRow>,
) -> Result<(), Memory>
    ensures listed { OnOk result (HasOpen keys.new.keys rows.now.entries) }
    ensures grown { IsGrown keys.old.keys keys.new.keys }
{
    for (key, row) in rows.iter() {
        list_row(keys, key, row.get())?;
    }
    Ok(())
}

// Drops the keys of rows that are open no longer.
fn drop_closed(keys: &mut BTreeSet<Key>, rows: &BTreeMap<Key, BoxedRow>)
    ensures { keys.new.keys ≡ filter (is_open_at rows.now.entries) keys.old.keys }
{
    keys.retain(|key| is_open_at(rows, key));
}

/// Makes the index whole, and drops the keys of rows that are open no longer.
pub(crate) fn mend(
    keys: &mut BTreeSet<Key>,
    whole: bool,
    rows: &BTreeMap<Key, BoxedRow>,
) -> Result<(), Memory>
    requires { whole ≡ true → HasOpen keys.old.keys rows.now.entries }
    ensures ok { OnOk result (HasOpen keys.new.keys rows.now.entries) }
    ensures err { OnErr result (whole ≡ true → HasOpen keys.new.keys rows.now.entries) }
{
    if whole {
        drop_closed(keys, rows);
        return Ok(());
    }
    list_rows(keys, rows)?;
    drop_closed(keys, rows);
    Ok(())
}

// The first listed key whose row is open.
fn first_open<'a>(keys: &'a BTreeSet<Key>, rows: &BTreeMap<Key, BoxedRow>) -> Option<&'a Key>
    ensures first { option_copied result ≡ find (is_open_at rows.now.entries) keys.now.keys }
    ensures ordered { IsStrictlySortedBy key_cmp keys.now.keys }
{
    for key in keys.iter() {
        if is_open_at(rows, key) {
            return Some(key);
        }
    }
    None
}

// The first one behind a key.
fn open_behind<'a>(
    keys: &'a BTreeSet<Key>,
    rows: &BTreeMap<Key, BoxedRow>,
    after: &Key,
) -> Option<&'a Key>
    ensures first { option_copied result ≡ find (is_open_at rows.now.entries) (filter (is_behind (Some after.now)) keys.now.keys) }
    ensures ordered { IsStrictlySortedBy key_cmp keys.now.keys }
{
    for key in keys.range((Bound::Excluded(after), Bound::Unbounded)) {
        if is_open_at(rows, key) {
            return Some(key);
        }
    }
    None
}

/// The least key behind this one, or of all, whose row is open, by an index that is whole.
pub(crate) fn next_listed<'a>(
    keys: &'a BTreeSet<Key>,
    rows: &BTreeMap<Key, BoxedRow>,
    after: Option<&Key>,
) -> Option<&'a Key>
    requires ordered { IsStrictlySortedBy key_cmp (keys_of rows.now.entries) }
    requires whole { HasOpen keys.now.keys rows.now.entries }
    ensures { option_copied result ≡ next_open (option_copied after.entry) rows.now.entries }
{
    match after {
        Some(after) => open_behind(keys, rows, after),
        None => first_open(keys, rows),
    }
}
