//! Rows in memory.

ghost use Rattle.std.specs.Prelude.{◌≡◌, ◌++◌, ◌∷◌, [], IfOk, IsSome, Some, OnOk, OnErr, find};
ghost use Rattle.std.specs.Option.{option_copied};
ghost use Rattle.std.specs.Ordering.{is_eq, is_lt};
ghost use Rattle.hk_copy.specs.Batches.{IsRising, is_after, key_cmp, last_key, next_key, row_at, rows_after};

use crate::rows::Rows;
use hk_base::{CopyItem, Key, Memory};
use std::alloc::Global;
use std::marker::Model;
use thiserror::Error;

/// Why a row is not taken.
#[derive(Clone, Copy, Debug, PartialEq, Eq, Error)]
pub enum PushFault {
    /// An allocation was refused.
    #[error("no memory")]
    Memory,
    /// Its key is not above the last one.
    #[error("the key is not above the last one")]
    NotBehind,
}

/// Rows that stand in memory. Contracts see them in the order of their keys.
#[derive(Drop)]
pub struct MemoryRows {
    rows: Vec<CopyItem>,
}

impl Model for MemoryRows {
    ghost use Rattle.std.specs.Prelude.{List};
    ghost use Rattle.hk_base.specs.declared.letter.CopyItem.{CopyItem};

    ghost Value = { List CopyItem };

    ghost use Rattle.hk_copy.specs.Batches.{IsRising};

    ghost view = { λ r. r.rows.items };

    ghost invariant = { λ r. IsRising r.rows.items };
}

// Whether the row is behind the key; each is behind the start.
fn is_behind(key: Option<&Key>, row: &CopyItem) -> bool
    ensures { result ≡ is_after (option_copied key.entry) row.now }
{
    match key {
        Some(key) => key.cmp(&row.key).is_lt(),
        None => true,
    }
}

// The first row behind the key.
fn first_behind<'a>(rows: &'a [CopyItem], key: Option<&Key>) -> Option<&'a CopyItem>
    ensures { option_copied result ≡ find (is_after (option_copied key.entry)) rows.now }
{
    rows.iter().find(|row| is_behind(key, row))
}

// The key of the last row.
#[tactic(auto, using(crate::proofs::Pushed::last_is))]
fn last_key(rows: &[CopyItem]) -> Option<&Key>
    ensures { option_copied result ≡ last_key rows.now }
{
    let row = rows.last()?;
    Some(&row.key)
}

// The row of the key.
fn row_of<'a>(rows: &'a [CopyItem], key: &Key) -> Option<&'a CopyItem>
    ensures { option_copied result ≡ row_at key.now rows.now }
{
    rows.iter().find(|row| key.cmp(&row.key).is_eq())
}

impl Rows for MemoryRows {
    ghost rows = { λ r. r };

    #[tactic(auto, using(crate::proofs::Nexts::next_of_filter))]
    fn after(&self, key: Option<&Key>) -> Option<&Key> {
        let row = first_behind(self.rows.as_slice(), key)?;
        Some(&row.key)
    }

    fn item(&self, key: &Key) -> Result<CopyItem, Memory> {
        let Some(row) = row_of(self.rows.as_slice(), key) else {
            unreachable!()
        };
        row.share()
    }
}

impl MemoryRows {
    ghost use Rattle.hk_copy.specs.Pushes.{IsPushTold};

    /// No rows. It takes no memory.
    pub fn new(alloc: Global) -> MemoryRows
        ensures { result ≡ [] }
    {
        MemoryRows {
            rows: Vec::new(alloc),
        }
    }

    /// Puts a row behind the others. After an error they are as before.
    #[tactic(auto, using(crate::proofs::Pushed::rising_push))]
    pub fn push(&mut self, item: CopyItem) -> Result<(), PushFault>
        ensures told { IsPushTold result self.old item }
        ensures ok { OnOk result (self.new ≡ self.old ++ item ∷ []) }
        ensures err { OnErr result (self.new ≡ self.old) }
    {
        if !is_behind(last_key(self.rows.as_slice()), &item) {
            return Err(PushFault::NotBehind);
        }
        match self.rows.push(item) {
            Ok(()) => Ok(()),
            Err(_) => Err(PushFault::Memory),
        }
    }
}
