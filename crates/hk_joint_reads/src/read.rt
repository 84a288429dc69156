//! A read of several keys.

ghost use Rattle.std.specs.Prelude.{◌≡◌, IfOk};
ghost use Rattle.hk_snap.specs.Ends.{names};
ghost use Rattle.hk_snap.specs.Leases.{Looks};
ghost use Rattle.hk_joint_reads.specs.Reads.{IsJointRead};

use crate::judge::judge;
use crate::look::{load_again, load_first};
use hk_base::{Key, Memory, Sequence, Why};
use hk_outside::Clock;
use hk_snap::{LeaseCell, SnapReader, Snapshot};
use std::alloc::Global;
use std::sync::Wait;

/// What cells showed of keys, in the order of the keys.
pub type Snapshots = Sequence<Snapshot>;

/// What a read of several keys is told.
#[derive(Drop)]
pub enum Joint {
    /// What each key's cell showed, and showed at both of its loads.
    Found(Snapshots),
    /// The key's cell shows another key, or none.
    Elsewhere { key: Key },
    /// The key's row was published anew between its loads.
    Moved { key: Key, first: u64, second: u64 },
    /// The lease may be over, or a key is not Valid. It may be asked again.
    Busy(Why),
    /// The key's data is more than a cell shows.
    Large { key: Key },
}

/// Reads several keys of one shard from their cells and from the shard's lease cell: the lease is loaded first, then each key's cell once, then each again, and
/// the clock is read last. It takes no lock. `skew` is by how many milliseconds clocks may differ. The keys are distinct.
///
/// Elsewhere comes exactly where one of a key's two loads shows another key or none. Else Moved exactly where a key's loads show different tickets; else Busy as
/// for a read of one key; else Large exactly where a key's data is above 1,000 bytes; else Found. Each check is told at the first key for which it holds.
pub fn read_joint<C: Clock, R: Wait>(
    rt: &R,
    alloc: Global,
    reader: &mut SnapReader,
    lease: &mut LeaseCell,
    clock: &C,
    skew: u64,
    keys: &[Key],
) -> Result<Joint, Memory>
    ensures lease { Looks lease.old lease.new }
    ensures read { IfOk result (λ joint. IsJointRead reader.old reader.new keys.now lease.new.end skew (C.reading clock.now) joint) }
    ensures same { names reader.new.ends ≡ names reader.old.ends }
{
    let end = lease.end(rt);
    let first = load_first(rt, alloc, reader, keys)?;
    let looks = load_again(rt, alloc, reader, keys, first.as_slice())?;
    let now = clock.now();
    judge(alloc, looks.as_slice(), end, now, skew)
}
