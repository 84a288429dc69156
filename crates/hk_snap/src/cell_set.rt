//! The 32 cells of a shard: its one writer, and its readers.

ghost use Rattle.std.specs.Prelude.{◌≡◌, ℕ, ◌+◌, ◌*◌, ◌<◌, ◌≤◌, List, [], length, map, take, drop, Option, Some, None, IfOk, OnErr};
ghost use Rattle.std.specs.List.{AllByRecursion};
ghost use Rattle.hk_base.specs.Range.{IsWithin};
ghost use Rattle.hk_snap.specs.Snapshots.{cell_of, published, last_shown, glance_of, shown_content, IsNext, IsRising};
ghost use Rattle.hk_snap.specs.Locals.{local_of};
ghost use mathlib.Core.List.{IsPrefix};
ghost use Rattle.hk_snap.specs.Ends.{names, at, seen_at, with_publication, looked, noted, Loads, another, joined_ends, writing_end};

use crate::ends::{CellReader, CellWriter};
use crate::local::Local;
use crate::room::Room;
use crate::rule::Words;
use crate::snapshot::{Glance, Snapshot};
use crate::words::no_words;
use hk_base::{CallNo, Content, Key, Memory};
use hk_key::Row;
use std::alloc::Global;
use std::marker::Model;
use std::sync::Wait;

/// How many cells a shard has.
pub const CELLS: usize = 32;

/// The cell in which a key's row is published: the sum of its bytes, divided by `SHARDS`, modulo `CELLS`. So keys of one shard
/// are spread over all its cells.
pub fn cell_of(key: &Key) -> u8
    ensures cell { result ≡ cell_of key.now }
    ensures below { result < 32 }
{
    let cell = key.byte_sum() / 8 % 32;
    cell as u8
}

/// Publishes in all cells of a shard. Contracts see, for each cell, the whole list of what was published in it.
#[derive(Drop)]
pub struct SnapWriter {
    ends: Vec<CellWriter>,
    /// Where the words of a row are made before they are stored.
    room: Words,
}

impl Model for SnapWriter {
    ghost use Rattle.std.specs.Prelude.{◌≡◌, List, length};
    ghost use Rattle.hk_snap.specs.Ends.{End};

    ghost Value = { List End };

    ghost view = { λ w. w.ends.items };

    ghost invariant = { λ w. length w.ends.items ≡ 32 };
}

/// Reads the cells of a shard, without a lock. Contracts see, for each cell, what it has seen of the cell's list, which is a
/// beginning of it; and what the last load found.
#[derive(Drop)]
pub struct SnapReader {
    ends: Vec<CellReader>,
    room: Room,
}

impl Model for SnapReader {
    ghost use Rattle.std.specs.Prelude.{◌≡◌, length};
    ghost use Rattle.hk_snap.specs.Ends.{Reader};

    ghost Value = { Reader };

    ghost view = { λ r. record { ends = r.ends.items; shown = r.room } };

    ghost invariant = { λ r. length r.ends.items ≡ 32 };
}

impl SnapWriter {
    /// Publishes a row in its key's cell, by one store: with the ticket of the step that changed it, and the call that the step
    /// was for. Its stamp is within the version limit. Tickets rise in each cell, and equal ones by key.
    pub fn publish<R: Wait>(
        &mut self,
        rt: &R,
        key: &Key,
        row: &Row,
        ticket: u64,
        call: Option<CallNo>,
    )
        requires next { IsNext (seen_at self.old (cell_of key.now)) (published key.now row.now ticket call) }
        requires within { IsWithin row.now.stamp }
        ensures { self.new ≡ with_publication self.old (published key.now row.now ticket call) }
    {
        let cell = cell_of(key);
        self.ends[usize::from(cell)].publish(rt, &mut self.room, key, row, ticket, call);
    }

    /// By one load the reader has seen all of a cell's list, also what the cell doesn't show. The reader is of the same cells.
    pub fn meet<R: Wait>(&mut self, rt: &R, cell: u8, reader: &mut SnapReader) -> Result<(), Memory>
        requires cell { cell < 32 }
        requires same { names reader.old.ends ≡ names self.old }
        ensures same { self.new ≡ self.old }
        ensures met { IfOk result (λ _. reader.new ≡ looked reader.old cell (seen_at self.old cell)) }
        ensures grown { IfOk result (λ _. Loads reader.old cell reader.new) }
        ensures err { OnErr result (reader.new ≡ reader.old) }
    {
        let at = usize::from(cell);
        self.ends[at].meet(rt, &mut reader.ends[at], &mut reader.room);
        Ok(())
    }

    /// The same, but the reader shows what it showed before: no word of the cell is read. It costs one load, and takes no memory.
    pub fn see(&mut self, cell: u8, reader: &mut SnapReader)
        requires cell { cell < 32 }
        requires same { names reader.old.ends ≡ names self.old }
        ensures same { self.new ≡ self.old }
        ensures seen { reader.new ≡ noted reader.old cell (seen_at self.old cell) }
        ensures grown { IsPrefix (seen_at reader.old.ends cell) (seen_at self.old cell) }
    {
        let at = usize::from(cell);
        self.ends[at].see(&mut reader.ends[at]);
    }
}

impl SnapReader {
    /// Loads a cell, by one load into the reader's own room. The room grows with the rows that it holds: where there is no memory for the data of one, the
    /// load is made all the same, and only who asks for that data is told Memory.
    pub fn load<R: Wait>(&mut self, rt: &R, cell: u8)
        requires { cell < 32 }
        ensures loaded { Loads self.old cell self.new }
        ensures shown { self.new.shown ≡ last_shown (seen_at self.new.ends cell) }
        ensures rising { IsRising (seen_at self.new.ends cell) }
    {
        self.ends[usize::from(cell)].load(rt, &mut self.room);
    }

    /// What the last load found, or the last meeting: the row that was published last in that cell. None where nothing was
    /// published in it, or nothing was loaded yet.
    pub fn shown(&self, alloc: Global) -> Result<Option<Snapshot>, Memory>
        ensures { IfOk result (λ shown. shown ≡ self.now.shown) }
    {
        self.room.shown(alloc)
    }

    /// What the last load found of the key, beside its content. None where it found another key, or none. It takes no memory.
    pub fn glance(&self, key: &Key) -> Option<Glance>
        ensures { result ≡ glance_of self.now.shown key.now }
    {
        self.room.glance(key)
    }

    /// The content that the last load found. None where it found none, or one with more than 1,000 bytes of data.
    pub fn content(&self, alloc: Global) -> Result<Option<Content>, Memory>
        ensures { IfOk result (λ content. content ≡ shown_content self.now.shown) }
    {
        self.room.content(alloc)
    }

    // What a read of the key is told from what the last load found.
    pub(crate) fn local(
        &self,
        alloc: Global,
        key: &Key,
        end: u64,
        now: u64,
        skew: u64,
    ) -> Result<Local, Memory>
        ensures { IfOk result (λ local. local ≡ local_of self.now.shown key.now end now skew) }
    {
        self.room.local(alloc, key, end, now, skew)
    }

    /// Another reader of the same cells, which has seen what this one has seen. It has loaded nothing.
    pub fn split<R: Wait>(&mut self, _rt: &R, alloc: Global) -> Result<SnapReader, Memory>
        ensures same { self.new ≡ self.old }
        ensures reader { IfOk result (λ r. r ≡ record { ends = map another self.old.ends; shown = None }) }
    {
        let ends = split_all(alloc, &mut self.ends)?;
        let room = Room::new(alloc)?;
        Ok(SnapReader { ends, room })
    }

    /// Takes in another reader of the same cells. Of what the two have seen of a cell the longer stays; one is a beginning of the
    /// other.
    pub fn join<R: Wait>(&mut self, _rt: &R, other: SnapReader)
        requires { names other.ends ≡ names self.old.ends }
        ensures { self.new ≡ record { ends = joined_ends self.old.ends other.ends; shown = self.old.shown } }
    {
        let SnapReader { ends, room } = other;
        drop(room);
        join_all(&mut self.ends, ends);
    }
}

// A reader of each cell that has seen as much.
fn split_all(alloc: Global, ends: &mut Vec<CellReader>) -> Result<Vec<CellReader>, Memory>
    ensures same { ends.new.items ≡ ends.old.items }
    ensures all { IfOk result (λ v. v.items ≡ map another ends.old.items) }
{
    let mut all = Vec::new(alloc);
    for k in 0..ends.len() {
        all.push(ends[k].split()?)?;
    }
    Ok(all)
}

// Each end takes in the other of its cell.
fn join_all(ends: &mut Vec<CellReader>, mut others: Vec<CellReader>)
    requires { names others.items ≡ names ends.old.items }
    ensures all { ends.new.items ≡ joined_ends ends.old.items others.items }
    ensures long { length ends.new.items ≡ length ends.old.items }
{
    while let Some(other) = others.pop() {
        let at = others.len();
        ends[at].join(other);
    }
}

// As many writers as are asked for.
fn writers(alloc: Global, count: usize) -> Result<Vec<CellWriter>, Memory>
    ensures { IfOk result (λ v. (length v.items ≡ count) × ((cell : ℕ) → seen_at v.items cell ≡ [])) }
{
    let mut all = Vec::new(alloc);
    for _k in 0..count {
        all.push(CellWriter::new(alloc)?)?;
    }
    Ok(all)
}

// A reader of each cell.
fn readers(alloc: Global, ends: &mut Vec<CellWriter>) -> Result<Vec<CellReader>, Memory>
    ensures same { ends.new.items ≡ ends.old.items }
    ensures all { IfOk result (λ v. v.items ≡ map another ends.old.items) }
{
    let mut all = Vec::new(alloc);
    for k in 0..ends.len() {
        all.push(ends[k].reader()?)?;
    }
    Ok(all)
}

/// The cells of a shard, with nothing published: the one writer, and a reader.
pub fn cells<R: Wait>(_rt: &R, alloc: Global) -> Result<(SnapWriter, SnapReader), Memory>
    ensures nothing { IfOk result (λ made. (length made.0 ≡ 32) × ((cell : ℕ) → seen_at made.0 cell ≡ [])) }
    ensures reader { IfOk result (λ made. made.1 ≡ record { ends = map another made.0; shown = None }) }
{
    let mut writers = writers(alloc, CELLS)?;
    let readers = readers(alloc, &mut writers)?;
    let room = Room::new(alloc)?;
    Ok((
        SnapWriter {
            ends: writers,
            room: no_words(),
        },
        SnapReader {
            ends: readers,
            room,
        },
    ))
}
