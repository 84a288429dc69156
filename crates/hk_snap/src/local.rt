//! Reads that are answered from what a shard shows.

ghost use Rattle.std.specs.Prelude.{◌≡◌, ℕ, ◌+◌, nat_lt, Some, IfOk, IfSome, slice_index};
ghost use Rattle.hk_snap.specs.Snapshots.{cell_of};
ghost use Rattle.hk_snap.specs.Layout.{shown_in, AreWords, small_in, state_numbered, shape_numbered};
ghost use Rattle.hk_snap.specs.Ends.{Loads};
ghost use Rattle.hk_snap.specs.Leases.{Looks};
ghost use Rattle.hk_snap.specs.Locals.{local_of, of_row, of_shape};

use crate::cell_set::{SnapReader, cell_of};
use crate::lease::LeaseCell;
use crate::words::{content_in, shows_key, stamp_in, state_in};
use hk_base::{Content, Key, Memory, State, Why};
use hk_outside::Clock;
use std::alloc::Global;
use std::sync::Wait;

/// What a read is told from what a shard shows.
#[derive(Drop)]
pub enum Local {
    /// The key's content, its tag, and the ticket of the step that left it.
    Found {
        content: Content,
        tag: u64,
        ticket: u64,
    },
    /// The key holds nothing, since the step with this ticket.
    Missing {
        ticket: u64,
    },
    /// The lease may be over, or the key is not Valid. It may be asked again.
    Busy(Why),
    /// The key is Valid, and its data is more than a cell shows.
    Large,
    /// The key's cell shows another key, or none.
    Elsewhere,
}

/// Whether a lease that ends at `end` may be over.
pub fn is_past(end: u64, now: u64, skew: u64) -> bool
    ensures { result ≡ nat_lt end (now + skew) }
{
    match now.checked_add(skew) {
        Some(latest) => end < latest,
        None => true,
    }
}

// What is told of a Valid row.
fn of_shape(alloc: Global, words: &[u64]) -> Result<Local, Memory>
    requires { AreWords words.now }
    ensures { IfOk result (λ local. local ≡ of_shape (record { version = slice_index words.now 3; node = slice_index words.now 4 }) (slice_index words.now 5) (shape_numbered (slice_index words.now 1) (slice_index words.now 6) (small_in words.now))) }
{
    if words[1] == 1 {
        let content = content_in(alloc, words)?;
        return Ok(Local::Found {
            content,
            tag: stamp_in(words).tag(),
            ticket: words[5],
        });
    }
    if words[1] == 2 {
        return Ok(Local::Large);
    }
    Ok(Local::Missing { ticket: words[5] })
}

// What is told of the row that the words show.
fn of_row(alloc: Global, words: &[u64]) -> Result<Local, Memory>
    requires { AreWords words.now }
    ensures { IfOk result (λ local. local ≡ of_row (state_numbered (slice_index words.now 2)) (record { version = slice_index words.now 3; node = slice_index words.now 4 }) (slice_index words.now 5) (shape_numbered (slice_index words.now 1) (slice_index words.now 6) (small_in words.now))) }
{
    match state_in(words) {
        State::Valid => of_shape(alloc, words),
        state => Ok(Local::Busy(Why::Row {
            state,
            stamp: stamp_in(words),
        })),
    }
}

// What is told from the words of the key's cell, and from the lease's end and the clock.
#[tactic(auto, unfolding(crate::specs::Layout::shown_in))]
pub(crate) fn local_of(
    alloc: Global,
    words: &[u64],
    key: &[u8],
    end: u64,
    now: u64,
    skew: u64,
) -> Result<Local, Memory>
    requires { AreWords words.now }
    ensures { IfOk result (λ local. local ≡ local_of (shown_in words.now) key.now end now skew) }
{
    if words[1] == 0 {
        return Ok(Local::Elsewhere);
    }
    if !shows_key(words, key) {
        return Ok(Local::Elsewhere);
    }
    if is_past(end, now, skew) {
        return Ok(Local::Busy(Why::Lease { end, now }));
    }
    of_row(alloc, words)
}

/// Answers a read of the key from its cell and from the lease cell of the same shard, with one load each: the lease first, then the
/// row, and then the clock is read. It takes no lock, and no memory but for the content that it gives. `skew` is by how many
/// milliseconds clocks may differ.
///
/// Elsewhere comes exactly where the cell shows another key or none. Else Busy with the lease comes exactly where the clock's
/// reading and the skew pass the end; else Busy with the row exactly where the row is not Valid; else Large exactly where its
/// data is above 1,000 bytes; else Missing exactly where it holds nothing; else Found.
pub fn read_local<C: Clock, R: Wait>(
    rt: &R,
    alloc: Global,
    reader: &mut SnapReader,
    lease: &mut LeaseCell,
    clock: &C,
    skew: u64,
    key: &Key,
) -> Result<Local, Memory>
    ensures row { Loads reader.old (cell_of key.now) reader.new }
    ensures lease { Looks lease.old lease.new }
    ensures told { IfOk result (λ local. (now : ℕ) × IfSome (C.reading clock.now) (λ time. now ≡ time) × (local ≡ local_of reader.new.shown key.now lease.new.end now skew)) }
{
    let end = lease.end(rt);
    reader.load(rt, cell_of(key));
    let now = clock.now();
    reader.local(alloc, key, end, now, skew)
}
