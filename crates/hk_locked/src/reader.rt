//! What reads a shard without its lock.

ghost use Rattle.std.specs.Prelude.{◌≡◌, ◌≤◌, ◌<◌, ◌+◌, ℕ, false, length, IsTrue, IfOk};
ghost use Rattle.std.specs.Option.{IfSome};
ghost use Rattle.hk_locked.specs.Steps.{IsGrown, Reads, SeesLease};
ghost use Rattle.hk_snap.specs.Ends.{names};
ghost use Rattle.hk_locked.specs.Places.{shard_names, node_names};

use crate::places::Places;
use hk_base::{Key, Memory, NodeId};
use hk_outside::Clock;
use hk_snap::{CELLS, LeaseCell, Local, SnapReader, cell_of, read_local};
use std::alloc::Global;
use std::marker::{Model, PhantomData};
use std::sync::Wait;

// So many reads go past a cell that showed another key.
const PASSES: u8 = 15;

/// Reads what a shard shows: its cells and its lease cell. Contracts see which shard of which node it is, the node's skew, and what it has seen. It is of the
/// cells that the list of names has for this shard.
#[derive(Drop)]
pub struct ShardReader<P: Places> {
    pub(crate) node: NodeId,
    pub(crate) number: u8,
    pub(crate) skew: u64,
    pub(crate) cells: SnapReader,
    pub(crate) lease: LeaseCell,
    // A reading of a clock to which the shard was ticked, and which was seen of it since.
    pub(crate) ticked: u64,
    // For each cell, how many more reads are to go past it.
    passes: [u8; CELLS],
    of: PhantomData<P>,
}

impl<P: Places> Model for ShardReader<P> {
    ghost use Rattle.std.specs.Prelude.{◌≡◌, ◌≤◌};
    ghost use Rattle.hk_locked.specs.Locked.{ReaderState, IsReader};

    ghost Value = { ReaderState };

    ghost view = { λ r. record { node = r.node; number = r.number; skew = r.skew; cells = r.cells; lease = r.lease } };

    ghost invariant = { λ r. IsReader P.places (record { node = r.node; number = r.number; skew = r.skew; cells = r.cells; lease = r.lease }) × (r.ticked ≤ r.lease.now) };
}

impl<P: Places> ShardReader<P> {
    /// A reader of the shard of this number of this node.
    pub(crate) fn new(
        node: NodeId,
        number: u8,
        skew: u64,
        cells: SnapReader,
        lease: LeaseCell,
    ) -> ShardReader<P>
        requires cells { names cells.ends ≡ (shard_names P.places node number).cells }
        requires long { length cells.ends ≡ 32 }
        requires lease { lease.name ≡ (shard_names P.places node number).lease }
        requires skew { skew ≡ (node_names P.places node).skew }
        ensures { result ≡ record { node = node; number = number; skew = skew; cells = cells; lease = lease } }
    {
        ShardReader {
            node,
            number,
            skew,
            cells,
            lease,
            ticked: 0,
            passes: [0; CELLS],
            of: PhantomData,
        }
    }

    /// Its shard's node.
    pub fn node(&self) -> NodeId
        ensures { result ≡ self.now.node }
    {
        self.node
    }

    /// The number of its shard.
    pub fn number(&self) -> u8
        ensures { result ≡ self.now.number }
    {
        self.number
    }

    /// The last reading to which the shard was ticked with this reader, in milliseconds, 0 before there was one. The clock that it has seen is not below.
    pub fn ticked(&self) -> u64
        ensures { result ≤ self.now.lease.now }
    {
        self.ticked
    }

    /// Whether a read is to look at the key's cell. It counts the reads that go past it.
    pub fn looks_at_cell(&mut self, key: &Key) -> bool
        ensures { self.new ≡ self.old }
    {
        let cell = usize::from(cell_of(key));
        let left = self.passes[cell];
        self.passes[cell] = left.saturating_sub(1);
        left == 0
    }

    /// The key's cell showed another key, or too little: the next reads go past it.
    pub fn pass_cell(&mut self, key: &Key)
        ensures { self.new ≡ self.old }
    {
        self.passes[usize::from(cell_of(key))] = PASSES;
    }

    /// The end of the shard's lease, in milliseconds, by one load of its cell.
    pub fn lease_end<R: Wait>(&mut self, rt: &R) -> u64
        ensures end { result ≡ self.new.lease.end }
        ensures looked { SeesLease self.old self.new }
    {
        self.lease.end(rt)
    }

    /// Whether a lease that ends at `end` is sure to run at a reading of the clock: the reading, with the skew, is not past the end.
    pub fn is_within(&self, end: u64, now: u64) -> bool
        ensures within { IsTrue result → now + self.now.skew ≤ end }
        ensures past { result ≡ false → end < now + self.now.skew }
    {
        match now.checked_add(self.skew) {
            Some(latest) => latest <= end,
            None => false,
        }
    }

    /// Answers a read of the key from what the shard shows, without its lock: by one load of the lease, one of the key's cell, and then a reading of the clock.
    pub fn read_local<C: Clock, R: Wait>(
        &mut self,
        rt: &R,
        alloc: Global,
        clock: &C,
        key: &Key,
    ) -> Result<Local, Memory>
        ensures told { IfOk result (λ local. (now : ℕ) × IfSome (C.reading clock.now) (λ time. now ≡ time) × Reads key.now now self.old self.new local) }
        ensures grown { IsGrown key.now self.old self.new }
    {
        read_local(
            rt,
            alloc,
            &mut self.cells,
            &mut self.lease,
            clock,
            self.skew,
            key,
        )
    }

    /// What reads the cells, and what looks at the lease cell.
    pub fn into_cells(self) -> (SnapReader, LeaseCell) {
        let ShardReader { cells, lease, .. } = self;
        (cells, lease)
    }
}
