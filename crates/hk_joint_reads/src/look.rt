//! What the two loads of a key's cell showed.

ghost use Rattle.std.specs.Prelude.{◌≡◌, List, length, IfOk};
ghost use Rattle.std.specs.List.{AllByRecursion};
ghost use Rattle.hk_snap.specs.declared.rule.Publication.{Publication};
ghost use Rattle.hk_snap.specs.Snapshots.{cell_of, last_shown, IsRising};
ghost use Rattle.hk_snap.specs.Ends.{names, seen_at, Loads};
ghost use Rattle.hk_joint_reads.specs.Reads.{LoadsEach, shown_of, ticket_of, tickets_of, looks_of};

use hk_base::{Key, Memory};
use hk_snap::{SnapReader, Snapshot, cell_of};
use std::alloc::Global;
use std::sync::Wait;

/// A key, with what its cell showed of it at its two loads: the ticket at the first, the snapshot at the second.
#[derive(Drop)]
pub struct KeyLoads {
    pub key: Key,
    pub first: Option<u64>,
    pub second: Option<Snapshot>,
}

// The snapshot that the last load showed, where it is the key's.
fn shown_of(alloc: Global, reader: &SnapReader, key: &Key) -> Result<Option<Snapshot>, Memory>
    ensures { IfOk result (λ shown. shown ≡ shown_of key.now reader.now.shown) }
{
    let Some(shown) = reader.shown(alloc)? else {
        return Ok(None);
    };
    if shown.key == *key {
        Ok(Some(shown))
    } else {
        Ok(None)
    }
}

fn ticket_of(alloc: Global, reader: &SnapReader, key: &Key) -> Result<Option<u64>, Memory>
    ensures { IfOk result (λ ticket. ticket ≡ ticket_of key.now reader.now.shown) }
{
    match shown_of(alloc, reader, key)? {
        Some(shown) => Ok(Some(shown.ticket)),
        None => Ok(None),
    }
}

// Loads the key's cell.
fn look_first<R: Wait>(
    rt: &R,
    alloc: Global,
    reader: &mut SnapReader,
    key: &Key,
) -> Result<Option<u64>, Memory>
    ensures loads { Loads reader.old (cell_of key.now) reader.new }
    ensures shown { reader.new.shown ≡ last_shown (seen_at reader.new.ends (cell_of key.now)) }
    ensures ticket { IfOk result (λ ticket. ticket ≡ ticket_of key.now reader.new.shown) }
{
    reader.load(rt, cell_of(key));
    ticket_of(alloc, reader, key)
}

/// Loads each key's cell once, and gives the tickets that showed.
pub(crate) fn load_first<R: Wait>(
    rt: &R,
    alloc: Global,
    reader: &mut SnapReader,
    keys: &[Key],
) -> Result<Vec<Option<u64>>, Memory>
    ensures loads { IfOk result (λ tickets. (first : List (List Publication)) × LoadsEach reader.old keys.now first reader.new × (tickets.items ≡ tickets_of keys.now first)) }
    ensures same { names reader.new.ends ≡ names reader.old.ends }
{
    let mut tickets = Vec::new(alloc);
    for key in keys {
        tickets.push(look_first(rt, alloc, reader, key)?)?;
    }
    Ok(tickets)
}

// Loads the key's cell again.
fn look_again<R: Wait>(
    rt: &R,
    alloc: Global,
    reader: &mut SnapReader,
    key: &Key,
    first: Option<u64>,
) -> Result<KeyLoads, Memory>
    ensures loads { Loads reader.old (cell_of key.now) reader.new }
    ensures shown { reader.new.shown ≡ last_shown (seen_at reader.new.ends (cell_of key.now)) }
    ensures rising { IsRising (seen_at reader.new.ends (cell_of key.now)) }
    ensures look { IfOk result (λ look. look ≡ record { key = key.now; first = first; second = shown_of key.now reader.new.shown }) }
{
    reader.load(rt, cell_of(key));
    let second = shown_of(alloc, reader, key)?;
    let key = key.share()?;
    Ok(KeyLoads { key, first, second })
}

/// Loads each key's cell again.
pub(crate) fn load_again<R: Wait>(
    rt: &R,
    alloc: Global,
    reader: &mut SnapReader,
    keys: &[Key],
    first: &[Option<u64>],
) -> Result<Vec<KeyLoads>, Memory>
    requires { length first.now ≡ length keys.now }
    ensures loads { IfOk result (λ looks. (second : List (List Publication)) × LoadsEach reader.old keys.now second reader.new × (looks.items ≡ looks_of keys.now first.now second) × AllByRecursion IsRising second) }
    ensures same { names reader.new.ends ≡ names reader.old.ends }
{
    let mut looks = Vec::new(alloc);
    for at in 0..keys.len() {
        looks.push(look_again(rt, alloc, reader, &keys[at], first[at])?)?;
    }
    Ok(looks)
}
