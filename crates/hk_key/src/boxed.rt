//! Pending updates and rows in memory of their own.

ghost use Rattle.std.specs.Prelude.{◌≡◌, ◌<◌, [], false, length, IfOk};
ghost use Rattle.std.specs.Borrow.{Lends, sem};
ghost use Rattle.hk_key.specs.contracts.boxed.BoxedRow.{the_row};
ghost use Rattle.hk_key.specs.contracts.row.Row as of_row;

use crate::row::{Pending, Row};
use hk_base::{Memory, NodeId};
use std::alloc::Global;
use std::marker::Model;
use std::mem;

/// A pending update in memory of its own, so that a row without one is small. Contracts see the update.
#[derive(Drop)]
pub struct BoxedPending {
    update: Box<Pending>,
}

impl Model for BoxedPending {
    ghost use Rattle.hk_key.specs.declared.row.Pending.{Pending};

    ghost Value = { Pending };

    ghost view = { λ b. b.update.value };
}

impl BoxedPending {
    ghost use Rattle.hk_key.specs.Notes.{is_noted, note_in};
    ghost use Rattle.hk_key.specs.declared.acks.TheConstants.{MAX_ACKS};

    /// The update in memory of its own.
    pub fn new(alloc: Global, update: Pending) -> Result<BoxedPending, Memory>
        ensures { IfOk result (λ boxed. boxed ≡ update) }
    {
        let update = Box::new(alloc, update)?;
        Ok(BoxedPending { update })
    }

    /// The update.
    pub fn get(&self) -> &Pending
        ensures { result.now ≡ self.now }
    {
        &*self.update
    }

    /// The update, taken out.
    pub fn into_inner(self) -> Pending
        ensures { result ≡ self }
    {
        let BoxedPending { update } = self;
        Box::into_inner(update)
    }

    /// Notes an acknowledgement of the node, as [`crate::Acks::note`] does.
    pub fn note(&mut self, node: NodeId, exact: bool)
        requires room { is_noted node self.old.acks ≡ false → length self.old.acks < MAX_ACKS }
        ensures { self.new ≡ record self.old { acks = note_in node exact self.old.acks } }
    {
        let update = &mut *self.update;
        update.acks.note(node, exact);
    }

    /// Drops all notes, and keeps the room.
    pub fn clear_notes(&mut self)
        ensures { self.new ≡ record self.old { acks = [] } }
    {
        let update = &mut *self.update;
        update.acks.clear();
    }
}

/// A row in memory of its own, so that a map with room for more rows is small. Contracts see the row.
#[derive(Drop)]
pub struct BoxedRow {
    row: Box<Row>,
}

impl Model for BoxedRow {
    ghost use Rattle.hk_key.specs.declared.row.Row.{Row};

    ghost Value = { Row };

    ghost view = { λ b. b.row.value };
}

impl BoxedRow {
    /// The row in memory of its own.
    pub fn new(alloc: Global, row: Row) -> Result<BoxedRow, Memory>
        ensures { IfOk result (λ boxed. boxed ≡ row) }
    {
        let row = Box::new(alloc, row)?;
        Ok(BoxedRow { row })
    }

    /// The row.
    pub fn get(&self) -> &Row
        ensures { result.now ≡ self.now }
    {
        &*self.row
    }

    /// The row, for a step in place.
    pub fn get_mut(&mut self) -> &mut Row
        ensures row { result.now ≡ self.old }
        ensures* lends { sem 𝓛 (Lends the_row of_row.the_row self.entry result (λ row. row)) }
    {
        &mut *self.row
    }

    /// Puts a row in place of this one, which it gives.
    pub fn replace(&mut self, row: Row) -> Row
        ensures new { self.new ≡ row }
        ensures old { result ≡ self.old }
    {
        mem::replace(&mut *self.row, row)
    }

    /// The row, taken out.
    pub fn into_inner(self) -> Row
        ensures { result ≡ self }
    {
        let BoxedRow { row } = self;
        Box::into_inner(row)
    }
}
