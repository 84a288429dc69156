//! What an ask needs before it is made: a lease that serves, and memory that is left for what it brings.

ghost use Rattle.std.specs.Prelude.{◌≡◌, ◌<◌, length};

use crate::completion::Unheard;
use hk_base::{Key, Op};
use hk_link::Bell;
use hk_locked::Places;
use hk_outside::Clock;
use hk_shard::shard_of;
use hk_snap::LeaseCell;
use hk_worker::{Patience, Post};
use std::alloc::Global;
use std::sync::{Arc, Wait};

// So long, in milliseconds, a desk waits at least for a lease that serves.
const LEASE_WAIT: u64 = 1_000;

// So many bytes are kept back for what must go on where memory is short: reads, deletes, and connections, which take what they need of it.
const RESERVE: usize = 8 * 1_048_576;

// After so many bytes a desk looks whether they are left.
const BYTES_A_LOOK: usize = 65_536;

// What a key takes beside its data, about.
const BESIDE: usize = 1_024;

// In pieces of these sizes the bytes are looked for, where they are not left in one. Smaller pieces count for nothing.
const PIECES: [usize; 7] = [4_194_304, 1_048_576, 262_144, 65_536, 16_384, 4_096, 1_024];

// There are no more pieces than this.
const MOST_PIECES: usize = RESERVE / 1_024;

/// What a desk has to know of leases.
#[derive(Clone, Copy)]
pub(crate) struct LeaseTerms {
    /// Whether leases have to be asked for.
    pub(crate) asked: bool,
    /// How long a lease is, in milliseconds.
    pub(crate) length: u64,
    /// By how many milliseconds two clocks may differ.
    pub(crate) skew: u64,
}

impl LeaseTerms {
    // For how many milliseconds a new lease serves. One no longer than the skew serves nothing.
    fn serves(self) -> u64 {
        self.length.saturating_sub(self.skew)
    }

    // Whether a lease is worth waiting for.
    fn is_asked(self) -> bool {
        self.asked && self.serves() > 0
    }

    // Whether less is left of that than has gone.
    fn is_short(self, left: u64) -> bool {
        left < self.serves().saturating_sub(left)
    }

    // Whether a step that is made where so much of it is left finds it serving, though its thread may have to wait for its turn: a sixteenth of what a new one has.
    fn is_enough(self, left: u64) -> bool {
        left >= self.serves() / 16
    }

    // How long a desk waits for a lease that serves, in milliseconds.
    fn wait(self) -> u64 {
        self.length.saturating_mul(2).max(LEASE_WAIT)
    }
}

/// The leases of a node's shards, as a desk there sees them.
#[derive(Drop)]
pub(crate) struct Leases<C: Drop> {
    pub(crate) clock: Arc<C>,
    pub(crate) terms: LeaseTerms,
    /// Of each shard, shard 0 first.
    pub(crate) cells: Vec<LeaseCell>,
    /// Wakes the workers of the node.
    pub(crate) bell: Arc<Bell>,
    /// Before this time of its clock the desk waits for no lease: it did so in vain.
    pub(crate) out_until: u64,
    pub(crate) ghost eight: { length cells.items ≡ 8 },
}

impl<C: Clock + Drop> Leases<C> {
    // For how many milliseconds the lease of a shard is still sure to serve; None where it serves no longer.
    fn left<R: Wait>(&mut self, rt: &R, shard: u8) -> Option<u64>
        requires { shard < 8 }
    {
        let end = self.cells[usize::from(shard)].end(rt);
        end.checked_sub(self.clock.now().saturating_add(self.terms.skew))
    }

    // Has the workers ask for a lease where so much of it is left.
    fn ask_if_short<R: Wait>(&self, rt: &R, left: Option<u64>) {
        if self.terms.is_short(left.unwrap_or(0)) {
            self.bell.ring(rt, 1);
        }
    }

    // Whether so much of a lease is enough for a step.
    fn is_enough(&self, left: Option<u64>) -> bool {
        match left {
            Some(left) => self.terms.is_enough(left),
            None => false,
        }
    }

    // Whether the desk waits no more.
    fn is_over(&self, until: u64) -> bool {
        let now = self.clock.now();
        now < self.out_until || now >= until
    }

    // Notes whether a lease was found that serves. Where none was, the desk waits for none for as long as it has waited.
    fn note(&mut self, serves: bool) {
        if serves {
            self.out_until = 0;
            return;
        }
        let now = self.clock.now();
        if now >= self.out_until {
            self.out_until = now.saturating_add(self.terms.wait());
        }
    }

    // Waits until enough is left of the lease of the shard, behind each step that is made there, and gives whether it serves. Before it waits it rings for the letters of
    // asks that were begun.
    fn wait_for<R: Wait, P: Places>(
        &mut self,
        rt: &R,
        post: &Post<Unheard, P>,
        shard: u8,
        until: u64,
    ) -> bool
        requires { shard < 8 }
    {
        let steps = post.shards().steps_at(shard);
        let mut patience = Patience::new(self.terms.wait());
        let mut asks = true;
        for _ in rt.forever() {
            let seen = steps.seen();
            let left = self.left(rt, shard);
            if asks {
                self.ask_if_short(rt, left);
            }
            if self.is_enough(left) || patience.is_over() || self.is_over(until) {
                return left.is_some();
            }
            post.ring(rt);
            patience.wait(rt, steps, seen);
            asks = patience.is_to_ask();
        }
        unreachable!()
    }

    /// Has the lease of the key's shard asked for where it is near its end, and waits a while where it serves no longer.
    pub(crate) fn keep<R: Wait, P: Places>(
        &mut self,
        rt: &R,
        post: &Post<Unheard, P>,
        key: &Key,
        until: u64,
    ) {
        if self.terms.is_asked() {
            let serves = self.wait_for(rt, post, shard_of(key), until);
            self.note(serves);
        }
    }

    /// By this time of its clock a desk that can't begin anything gives up. Where there is nothing to wait for it is 0.
    pub(crate) fn until(&self) -> u64 {
        if !self.terms.is_asked() {
            return 0;
        }
        self.clock.now().saturating_add(self.terms.wait())
    }

    /// Whether what came too late for a lease is to be asked again.
    pub(crate) fn is_to_go_on(&self, until: u64) -> bool {
        self.terms.is_asked() && !self.is_over(until)
    }
}

/// How many bytes of data an operation brings.
pub(crate) fn data_in(op: &Op) -> usize {
    match op {
        Op::Write(content) => content.bytes.bytes().len(),
        Op::Cas { content, .. } => content.bytes.bytes().len(),
        Op::Add(content) => content.bytes.bytes().len(),
        Op::Replace(content) => content.bytes.bytes().len(),
        _ => 0,
    }
}

// Takes pieces of a size until so many bytes are had, or one is refused. It gives how many bytes are wanted yet.
fn take(alloc: Global, size: usize, bytes: usize, taken: &mut Vec<Vec<u8>>) -> usize {
    let mut wanted = bytes;
    for _ in 0..MOST_PIECES {
        if wanted == 0 {
            return 0;
        }
        let Ok(piece) = Vec::with_capacity(alloc, size) else {
            return wanted;
        };
        if taken.push(piece).is_err() {
            return wanted;
        }
        wanted = wanted.saturating_sub(size);
    }
    wanted
}

// Whether the reserve is left in pieces: what deletes gave back lies between what others hold, and makes no large one.
fn is_left_in_pieces(alloc: Global) -> bool {
    let mut taken = Vec::new(alloc);
    let mut wanted = RESERVE;
    for size in PIECES {
        wanted = take(alloc, size, wanted, &mut taken);
    }
    wanted == 0
}

// Whether the reserve is left. In one piece it is looked for first, since that takes nothing where it fails.
fn is_reserve_left(alloc: Global) -> bool {
    Vec::<u8>::with_capacity(alloc, RESERVE).is_ok() || is_left_in_pieces(alloc)
}

/// Has the thread that calls it get memory of its own. The system gives that with a thread's first request, and can't where memory is short: a thread that has to
/// go on then makes one as it begins.
pub(crate) fn begin_memory(alloc: Global) {
    let _ = Vec::<u8>::with_capacity(alloc, 1);
}

/// Looks whether memory is left before more is stored.
#[derive(Drop)]
pub(crate) struct Reserve {
    alloc: Global,
    // so many bytes were stored since the last look
    stored: usize,
}

impl Reserve {
    pub(crate) fn new(alloc: Global) -> Reserve {
        Reserve { alloc, stored: 0 }
    }

    /// Whether so many bytes of data more may be stored. What brings none may always be done, so that memory can be given back.
    pub(crate) fn is_left(&mut self, bytes: usize) -> bool {
        if bytes == 0 {
            return true;
        }
        self.stored = self.stored.saturating_add(bytes).saturating_add(BESIDE);
        if self.stored < BYTES_A_LOOK {
            return true;
        }
        let is_left = is_reserve_left(self.alloc);
        if is_left {
            self.stored = 0;
        }
        is_left
    }
}
