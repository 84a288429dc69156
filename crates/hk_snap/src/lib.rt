//! What a shard shows of its keys and of its lease to readers that take no lock.
//!
//! A shard publishes each row that it changes, in one of 32 *cells*: a cell shows the row that was published last among its
//! keys. Behind the cell stands the list of all that was ever published in it. No code keeps that list; contracts know it. A
//! [`SnapReader`] has seen a beginning of each cell's list, which each load makes longer or leaves, and what it shows is the last
//! row of what it has seen. The one [`SnapWriter`] has seen the whole, and by [`SnapWriter::meet`] a reader has too. A row's call
//! and data above 1,000 bytes stand in the list alone, and not in the cell.
//!
//! A *lease cell* shows the end of the shard's lease and the clock of its node. Neither falls. [`read_local`] answers a read from
//! the two, with one load each.
//!
//! The caller publishes in the order of the tickets, and in one ticket in the order of the keys. It brings together only a
//! reader and a writer, or two readers, of the same cells.
//!
//! What is proved. What a reader has seen of a cell's list begins with all that it had seen before, and what it shows
//! is the last of it (`loaded`, `shown`). A publication is added with its whole row (`publish`). Where two readers are
//! joined the longer list stays (`join`). Where a load finds no memory for a row's data, its key, state and stamp are
//! shown, and who asks for more is told Memory. `read_local` tells exactly what its two loads and a reading of the
//! clock show (`told`, `local_of`).
//!
//! What no clause says: in which order it loads the lease, loads the row and reads the clock. A test has a clock that
//! raises the lease when it is read.
#![tactic(auto)]

mod cell_set;
mod ends;
mod lease;
mod lease_rule;
mod lease_steps;
mod local;
mod pack;
mod room;
mod rule;
mod snapshot;
mod steps;
mod words;

pub use cell_set::{CELLS, SnapReader, SnapWriter, cell_of, cells};
pub use lease::{LeaseCell, LeaseKeeper, lease_cell};
pub use local::{Local, is_past, read_local};
pub use rule::Publication;
pub use snapshot::{Glance, MAX_SMALL_LEN, Shape, Snapshot};
