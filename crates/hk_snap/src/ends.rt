//! The two ends of one cell.

ghost use Rattle.std.specs.Prelude.{◌≡◌, ◌+◌, ◌++◌, ◌∷◌, [], true, false, None, IfOk, Option};
ghost use mathlib.Core.List.{IsPrefix};
ghost use Rattle.crossbeam_utils.specs.Seq.{cell_view};
ghost use Rattle.hk_base.specs.Range.{IsWithin};
ghost use Rattle.hk_snap.specs.Snapshots.{published, last_shown, IsNext, IsRising};
ghost use Rattle.hk_snap.specs.Rule.{longer, Adds};
ghost use Rattle.hk_snap.specs.Ends.{writing_end, another};

use crate::room::Room;
use crate::rule::{Cell, CellPass, Picked, Words};
use crate::steps::{cell, join, load, meet, put, see, split};
use crate::words::{no_words, show_row};
use hk_base::{CallNo, Key, Memory};
use hk_key::Row;
use std::alloc::Global;
use std::marker::{Brand, Model};
use std::sync::{Arc, Wait};

// Stores the words of the row that the caller picked. They are made in the room.
fn store<P: Picked, R: Wait>(
    rt: &R,
    cell: &Cell,
    pass: &mut CellPass,
    room: &mut Words,
    key: &Key,
    row: &Row,
    ticket: u64,
    call: Option<CallNo>,
)
    requires cell { pass.old.table_id ≡ cell.now.table.shared.table_id }
    requires publishes { (cell_view pass.old).publishes ≡ true }
    requires picked { P.publication ≡ published key.now row.now ticket call }
    requires next { IsNext (cell_view pass.old).seen P.publication }
    requires within { IsWithin row.now.stamp }
    ensures cell { pass.new.table_id ≡ pass.old.table_id }
    ensures added { Adds P.publication (cell_view pass.old) [] [] (cell_view pass.new) }
{
    show_row(room, key, row, ticket);
    put::<P, R>(rt, cell, pass, room);
}

/// The end that publishes.
#[derive(Drop)]
pub struct CellWriter {
    cell: Arc<Cell>,
    pass: CellPass,
}

impl Model for CellWriter {
    ghost use Rattle.std.specs.Prelude.{◌≡◌, true};
    ghost use Rattle.std.specs.Arc.{arc_value};
    ghost use Rattle.crossbeam_utils.specs.Seq.{cell_view};
    ghost use Rattle.hk_snap.specs.Snapshots.{IsRising};
    ghost use Rattle.hk_snap.specs.Ends.{End, writing_end};

    ghost Value = { End };

    ghost view = { λ w. writing_end (arc_value w.cell).table.shared.table_id (cell_view w.pass).seen };

    ghost invariant = { λ w. (w.pass.table_id ≡ (arc_value w.cell).table.shared.table_id) × ((cell_view w.pass).publishes ≡ true) × IsRising (cell_view w.pass).seen };
}

/// An end that reads.
#[derive(Drop)]
pub struct CellReader {
    cell: Arc<Cell>,
    pass: CellPass,
}

impl Model for CellReader {
    ghost use Rattle.std.specs.Prelude.{◌≡◌, false};
    ghost use Rattle.std.specs.Arc.{arc_value};
    ghost use Rattle.crossbeam_utils.specs.Seq.{cell_view};
    ghost use Rattle.hk_snap.specs.Ends.{End, end_of};

    ghost Value = { End };

    ghost view = { λ r. end_of (arc_value r.cell).table.shared.table_id (cell_view r.pass) };

    ghost invariant = { λ r. (r.pass.table_id ≡ (arc_value r.cell).table.shared.table_id) × ((cell_view r.pass).publishes ≡ false) };
}

impl CellWriter {
    // A cell with nothing published.
    pub(crate) fn new(alloc: Global) -> Result<CellWriter, Memory>
        ensures { IfOk result (λ w. w ≡ writing_end w.name []) }
    {
        let (cell, pass) = cell(alloc)?;
        let cell = Arc::new(alloc, cell)?;
        Ok(CellWriter { cell, pass })
    }

    // Publishes the row: one store. Its words are made in the room.
    pub(crate) fn publish<R: Wait>(
        &mut self,
        rt: &R,
        room: &mut Words,
        key: &Key,
        row: &Row,
        ticket: u64,
        call: Option<CallNo>,
    )
        requires next { IsNext self.old.seen (published key.now row.now ticket call) }
        requires within { IsWithin row.now.stamp }
        ensures { self.new ≡ writing_end self.old.name (self.old.seen ++ published key.now row.now ticket call ∷ []) }
    {
        store::<Brand, R>(rt, &self.cell, &mut self.pass, room, key, row, ticket, call);
    }

    // A reader that has seen all.
    pub(crate) fn reader(&mut self) -> Result<CellReader, Memory>
        ensures same { self.new ≡ self.old }
        ensures reader { IfOk result (λ r. r ≡ another self.old) }
    {
        let cell = Arc::try_clone(&self.cell)?;
        let pass = split(&cell, &mut self.pass);
        Ok(CellReader { cell, pass })
    }

    // The reader has seen all: one load.
    pub(crate) fn meet<R: Wait>(&mut self, rt: &R, reader: &mut CellReader, room: &mut Room)
        requires { reader.old.name ≡ self.old.name }
        ensures same { self.new ≡ self.old }
        ensures told { reader.new ≡ record { name = reader.old.name; seen = self.old.seen; loads = reader.old.loads + 1 } }
        ensures grown { IsPrefix reader.old.seen self.old.seen }
        ensures shown { room.new ≡ last_shown self.old.seen }
    {
        let mut words = no_words();
        meet(rt, &self.cell, &mut self.pass, &mut reader.pass, &mut words);
        room.keep(&words, split(&self.cell, &mut self.pass));
    }

    // The same with no word read.
    pub(crate) fn see(&mut self, reader: &mut CellReader)
        requires { reader.old.name ≡ self.old.name }
        ensures same { self.new ≡ self.old }
        ensures told { reader.new ≡ record { name = reader.old.name; seen = self.old.seen; loads = reader.old.loads + 1 } }
        ensures grown { IsPrefix reader.old.seen self.old.seen }
    {
        see(&self.cell, &mut self.pass, &mut reader.pass);
    }
}

impl CellReader {
    // One load.
    pub(crate) fn load<R: Wait>(&mut self, rt: &R, room: &mut Room)
        ensures name { self.new.name ≡ self.old.name }
        ensures seen { IsPrefix self.old.seen self.new.seen }
        ensures shown { room.new ≡ last_shown self.new.seen }
        ensures rising { IsRising self.new.seen }
        ensures loads { self.new.loads ≡ self.old.loads + 1 }
    {
        let mut words = no_words();
        load(rt, &self.cell, &mut self.pass, &mut words);
        room.keep(&words, split(&self.cell, &mut self.pass));
    }

    // A reader that has seen as much.
    pub(crate) fn split(&mut self) -> Result<CellReader, Memory>
        ensures same { self.new ≡ self.old }
        ensures reader { IfOk result (λ r. r ≡ another self.old) }
    {
        let cell = Arc::try_clone(&self.cell)?;
        let pass = split(&cell, &mut self.pass);
        Ok(CellReader { cell, pass })
    }

    // Keeps the longer of what the two have seen.
    pub(crate) fn join(&mut self, other: CellReader)
        requires { other.name ≡ self.old.name }
        ensures { self.new ≡ record { name = self.old.name; seen = longer self.old.seen other.seen; loads = self.old.loads } }
    {
        let CellReader { cell: _, pass } = other;
        join(&self.cell, &mut self.pass, pass);
    }
}
