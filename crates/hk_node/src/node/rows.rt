//! The rows of a node as they are copied.

ghost use Rattle.std.specs.Prelude.{◌≡◌, Some, None};
ghost use Rattle.std.specs.Option.{option_copied};
ghost use Rattle.hk_copy.specs.Batches.{next_key, rows_after};
ghost use Rattle.hk_node.specs.Copies.{copies_of};
ghost use Rattle.hk_node.specs.Open.{is_open_behind, next_open};

use super::Node;
use crate::put::{is_valid, next_listed};
use hk_base::{CopyItem, Key, Memory, share_content};
use hk_copy::Rows;
use hk_key::{BoxedRow, Row};
use std::collections::BTreeMap;
use std::ops::Bound;

// The least key of all.
fn first_key(rows: &BTreeMap<Key, BoxedRow>) -> Option<&Key>
    ensures { option_copied result ≡ next_key (rows_after None (copies_of rows.now.entries)) }
{
    match rows.first_key_value() {
        Some((key, _)) => Some(key),
        None => None,
    }
}

// The least key that is greater than this one.
fn key_behind<'a>(rows: &'a BTreeMap<Key, BoxedRow>, key: &Key) -> Option<&'a Key>
    ensures { option_copied result ≡ next_key (rows_after (Some key.now) (copies_of rows.now.entries)) }
{
    match rows.range((Bound::Excluded(key), Bound::Unbounded)).next() {
        Some((key, _)) => Some(key),
        None => None,
    }
}

fn next_key<'a>(rows: &'a BTreeMap<Key, BoxedRow>, after: Option<&Key>) -> Option<&'a Key>
    ensures { option_copied result ≡ next_key (rows_after (option_copied after.entry) (copies_of rows.now.entries)) }
{
    match after {
        Some(key) => key_behind(rows, key),
        None => first_key(rows),
    }
}

fn is_open_behind(after: Option<&Key>, key: &Key, row: &Row) -> bool
    ensures { result ≡ is_open_behind (option_copied after.entry) (key.now, row.now) }
{
    match after {
        Some(after) => after.cmp(key).is_lt() && !is_valid(row.state),
        None => !is_valid(row.state),
    }
}

// The least key behind this one, or of all, whose row is not Valid.
fn next_open<'a>(rows: &'a BTreeMap<Key, BoxedRow>, after: Option<&Key>) -> Option<&'a Key>
    ensures { option_copied result ≡ next_open (option_copied after.entry) rows.now.entries }
{
    for (key, row) in rows.iter() {
        if is_open_behind(after, key, row.get()) {
            return Some(key);
        }
    }
    None
}

impl Rows for Node {
    ghost rows = { λ node. copies_of node.rows };

    fn after(&self, key: Option<&Key>) -> Option<&Key> {
        next_key(&self.rows, key)
    }

    fn item(&self, key: &Key) -> Result<CopyItem, Memory> {
        let Some(row) = self.rows.get(key) else {
            unreachable!()
        };
        let row = row.get();
        let key = key.share()?;
        let content = share_content(&row.content)?;
        Ok(CopyItem {
            key,
            stamp: row.stamp,
            kind: row.kind,
            valid: is_valid(row.state),
            content,
        })
    }
}

impl Node {
    /// The least key greater than the given one, or the least of all, whose row is not Valid. None exactly where there is
    /// none.
    pub fn open(&self, after: Option<&Key>) -> Option<&Key>
        ensures { option_copied result ≡ next_open (option_copied after.entry) self.now.rows }
    {
        if self.whole {
            next_listed(&self.index, &self.rows, after)
        } else {
            next_open(&self.rows, after)
        }
    }

    /// The least key with a row that is greater than the given one, or the least of all.
    pub fn after(&self, key: Option<&Key>) -> Option<&Key>
        ensures { option_copied result ≡ next_key (rows_after (option_copied key.entry) (copies_of self.now.rows)) }
    {
        next_key(&self.rows, key)
    }
}
