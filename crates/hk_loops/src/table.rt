//! The connections of an event loop, by their places.

use crate::cell::Cell;
use hk_base::Memory;
use hk_hosts::PromptConnection;
use std::alloc::Global;
use std::sync::Arc;

/// The connections of a loop. A place that one left is given to the next.
#[derive(Drop)]
pub(crate) struct Table<N: Drop, W: Drop> {
    cells: Vec<Option<Arc<Cell<N, W>>>>,
    free: Vec<usize>,
}

impl<N: PromptConnection + Drop, W: Drop> Table<N, W> {
    /// There are none.
    pub(crate) fn new(alloc: Global) -> Table<N, W> {
        Table {
            cells: Vec::new(alloc),
            free: Vec::new(alloc),
        }
    }

    // A place for one more.
    fn place(&mut self) -> Result<usize, Memory> {
        if let Some(place) = self.free.pop() {
            return Ok(place);
        }
        let place = self.cells.len();
        // So that each place can be given back without memory.
        self.free.reserve(1)?;
        self.cells.push(None)?;
        Ok(place)
    }

    fn keep(&mut self, place: usize, cell: Arc<Cell<N, W>>) {
        if let Some(at) = self.cells.get_mut(place) {
            *at = Some(cell);
        }
    }

    /// Keeps the connection, and gives its place.
    pub(crate) fn put(&mut self, alloc: Global, conn: N) -> Result<usize, Memory> {
        let place = self.place()?;
        match new_cell(alloc, place, conn) {
            Ok(cell) => {
                self.keep(place, cell);
                Ok(place)
            }
            Err(memory) => {
                self.end(place);
                Err(memory)
            }
        }
    }

    /// The connection at this place, if one is there and there is memory to share it.
    pub(crate) fn cell(&self, place: usize) -> Option<Arc<Cell<N, W>>> {
        match self.cells.get(place) {
            Some(Some(cell)) => Arc::try_clone(cell).ok(),
            Some(None) => None,
            None => None,
        }
    }

    /// No connection is at this place any more.
    pub(crate) fn end(&mut self, place: usize) {
        if let Some(at) = self.cells.get_mut(place) {
            *at = None;
            // There is room: it was made as the place was.
            let _ = self.free.push(place);
        }
    }
}

fn new_cell<N: PromptConnection + Drop, W: Drop>(
    alloc: Global,
    place: usize,
    conn: N,
) -> Result<Arc<Cell<N, W>>, Memory> {
    let cell = Cell::new(alloc, place, conn)?;
    Ok(Arc::new(alloc, cell)?)
}
