//! The steps of a cell, on the bare cell and its passes.

ghost use Rattle.std.specs.Prelude.{◌≡◌, ◌+◌, ◌++◌, ◌∷◌, [], true, false, IfOk};
ghost use Rattle.std.specs.List.{AllByRecursion};
ghost use mathlib.Core.List.{IsPrefix};
ghost use Rattle.crossbeam_utils.specs.Seq.{cell_view};
ghost use Rattle.hk_snap.specs.Snapshots.{snapshot_of, published, last_shown, IsNext, IsRising};
ghost use Rattle.hk_snap.specs.Layout.{words_of, words_at};
ghost use Rattle.hk_snap.specs.Rule.{reader, joined, met, opening, with_published, IsInRange, Adds, Loaded};

use crate::rule::{
    Cell, CellPass, Claims, Compares, Loads, Longer, Meets, Picked, Publishes, Reads, Whole, Words,
};
use crate::words::no_words;
use hk_base::Memory;
use std::alloc::Global;
use std::sync::Wait;

// A cell with nothing published.
pub(crate) fn cell(alloc: Global) -> Result<(Cell, CellPass), Memory>
    ensures { IfOk result (λ c. (c.1.table_id ≡ c.0.table.shared.table_id) × (cell_view c.1 ≡ opening)) }
{
    let made = Cell::ruled(alloc, &no_words())?;
    Ok(made)
}

// Publishes what the caller picked, which the words in use show: one store.
pub(crate) fn put<P: Picked, R: Wait>(rt: &R, cell: &Cell, pass: &mut CellPass, words: &Words)
    requires cell { pass.old.table_id ≡ cell.now.table.shared.table_id }
    requires publishes { (cell_view pass.old).publishes ≡ true }
    requires words { IsPrefix (words_of (snapshot_of P.publication)) words.now }
    requires next { IsNext (cell_view pass.old).seen P.publication }
    requires range { IsInRange P.publication }
    ensures cell { (pass.new.table_id ≡ pass.old.table_id) × (pass.new.id ≡ pass.old.id) }
    ensures added { Adds P.publication (cell_view pass.old) [] [] (cell_view pass.new) }
{
    cell.store_as::<Publishes<P>, R>(rt, pass, words);
}

// One load.
pub(crate) fn load<R: Wait>(rt: &R, cell: &Cell, pass: &mut CellPass, room: &mut Words)
    requires cell { pass.old.table_id ≡ cell.now.table.shared.table_id }
    ensures cell { pass.new.table_id ≡ pass.old.table_id }
    ensures loaded { Loaded (cell_view pass.old) room.new room.new (cell_view pass.new) }
{
    cell.load_as::<Loads, R>(rt, pass, room);
}

// A reader's pass that has seen as much.
pub(crate) fn split(cell: &Cell, pass: &mut CellPass) -> CellPass
    requires cell { pass.old.table_id ≡ cell.now.table.shared.table_id }
    ensures same { (pass.new.table_id ≡ pass.old.table_id) × (cell_view pass.new ≡ cell_view pass.old) }
    ensures new { (result.table_id ≡ pass.old.table_id) × (cell_view result ≡ reader (cell_view pass.old).seen 0) }
{
    cell.split_pass::<Reads>(pass)
}

// Of what two readers' passes have seen the longer stays.
pub(crate) fn join(cell: &Cell, pass: &mut CellPass, mut other: CellPass)
    requires cell { (pass.old.table_id ≡ cell.now.table.shared.table_id) × (other.table_id ≡ pass.old.table_id) }
    requires reads { ((cell_view pass.old).publishes ≡ false) × ((cell_view other).publishes ≡ false) }
    ensures cell { pass.new.table_id ≡ pass.old.table_id }
    ensures joined { cell_view pass.new ≡ joined (cell_view pass.old) (cell_view other) }
{
    let whole = cell.split_pass::<Whole>(&mut other);
    cell.join_pass::<Longer>(pass, whole);
}

// The reader's pass has seen what the writer's pass has. What it had seen goes to the writer's pass as a claim, and the load
// tells that it is a beginning of the whole.
pub(crate) fn meet<R: Wait>(
    rt: &R,
    cell: &Cell,
    writer: &mut CellPass,
    reader: &mut CellPass,
    room: &mut Words,
)
    requires cell { (writer.old.table_id ≡ cell.now.table.shared.table_id) × (reader.old.table_id ≡ writer.old.table_id) }
    requires publishes { ((cell_view writer.old).publishes ≡ true) × ((cell_view reader.old).publishes ≡ false) }
    ensures cell { (writer.new.table_id ≡ writer.old.table_id) × (reader.new.table_id ≡ reader.old.table_id) }
    ensures seen { ((cell_view writer.new).seen ≡ (cell_view writer.old).seen) × ((cell_view writer.new).publishes ≡ (cell_view writer.old).publishes) }
    ensures met { cell_view reader.new ≡ met (cell_view reader.old) (cell_view writer.old) }
    ensures grown { IsPrefix (cell_view reader.old).seen (cell_view writer.old).seen }
    ensures words { IsPrefix (words_at (last_shown (cell_view writer.old).seen)) room.new }
    ensures list { IsRising (cell_view writer.old).seen × AllByRecursion IsInRange (cell_view writer.old).seen }
{
    let claim = cell.split_pass::<Reads>(reader);
    cell.join_pass::<Claims>(writer, claim);
    cell.load_as::<Compares, R>(rt, writer, room);
    let seen = cell.split_pass::<Reads>(writer);
    cell.join_pass::<Meets>(reader, seen);
}

// The same with no word read, by one load of the cell's version.
pub(crate) fn see(cell: &Cell, writer: &mut CellPass, reader: &mut CellPass)
    requires cell { (writer.old.table_id ≡ cell.now.table.shared.table_id) × (reader.old.table_id ≡ writer.old.table_id) }
    requires publishes { ((cell_view writer.old).publishes ≡ true) × ((cell_view reader.old).publishes ≡ false) }
    ensures cell { (writer.new.table_id ≡ writer.old.table_id) × (reader.new.table_id ≡ reader.old.table_id) }
    ensures seen { ((cell_view writer.new).seen ≡ (cell_view writer.old).seen) × ((cell_view writer.new).publishes ≡ (cell_view writer.old).publishes) }
    ensures met { cell_view reader.new ≡ met (cell_view reader.old) (cell_view writer.old) }
    ensures grown { IsPrefix (cell_view reader.old).seen (cell_view writer.old).seen }
    ensures list { IsRising (cell_view writer.old).seen × AllByRecursion IsInRange (cell_view writer.old).seen }
{
    let claim = cell.split_pass::<Reads>(reader);
    cell.join_pass::<Claims>(writer, claim);
    cell.note_as::<Compares>(writer);
    let seen = cell.split_pass::<Reads>(writer);
    cell.join_pass::<Meets>(reader, seen);
}
