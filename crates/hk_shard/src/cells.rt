//! The cells of a shard that is to be made.

ghost use Rattle.std.specs.Prelude.{IfOk};

use hk_base::Memory;
use hk_snap::{LeaseCell, LeaseKeeper, SnapReader, SnapWriter, cells, lease_cell};
use std::alloc::Global;
use std::marker::Model;
use std::sync::Wait;

/// The cells of a shard that is to be made. They show nothing yet. Who has them can tell which they are before it is known of which node the shard is.
#[derive(Drop)]
pub struct ShardCells {
    pub(crate) writer: SnapWriter,
    /// A reader of the cells that has loaded nothing.
    pub(crate) reader: SnapReader,
    pub(crate) keeper: LeaseKeeper,
    /// One that looks at the lease cell.
    pub(crate) lease: LeaseCell,
}

impl Model for ShardCells {
    ghost use Rattle.std.specs.Prelude.{◌≡◌, ℕ, [], length, None};
    ghost use Rattle.hk_snap.specs.Ends.{seen_at};
    ghost use Rattle.hk_snap.specs.Leases.{kept_lease};
    ghost use Rattle.hk_shard.specs.Shard.{CellsState, unseen};

    ghost Value = { CellsState };

    ghost view = { λ c. record { ends = c.writer; lease = c.keeper } };

    ghost invariant = { λ c.
        (length c.writer ≡ 32)
        × ((cell : ℕ) → seen_at c.writer cell ≡ [])
        × (c.keeper ≡ kept_lease c.keeper.name 0 0)
        × (c.reader ≡ record { ends = unseen c.writer; shown = None })
        × (c.lease.name ≡ c.keeper.name) };
}

impl ShardCells {
    /// Cells that show nothing.
    pub fn new<R: Wait>(rt: &R, alloc: Global) -> Result<ShardCells, Memory> {
        let (writer, reader) = cells(rt, alloc)?;
        let (keeper, lease) = lease_cell(rt, alloc, 0, 0)?;
        Ok(ShardCells {
            writer,
            reader,
            keeper,
            lease,
        })
    }
}
