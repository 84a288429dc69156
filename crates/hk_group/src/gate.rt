//! What ends the loops, and what they wait for.

use hk_link::Bell;
use hk_overseer::Gate;
use std::sync::atomic::{AtomicBool, AtomicU64, Ordering};
use std::sync::{Arc, Wait};

/// Whether the loops are to end. It is told once.
#[derive(Drop)]
pub struct Ending {
    told: AtomicBool,
}

impl Ending {
    /// Nothing was told yet.
    pub fn new() -> Ending {
        Ending {
            told: AtomicBool::new(false),
        }
    }

    /// The loops are to end. Whoever sleeps has to be woken.
    pub fn tell(&self) {
        self.told.store(true, Ordering::SeqCst);
    }

    /// Whether it was told.
    pub fn is_told(&self) -> bool {
        self.told.load(Ordering::SeqCst)
    }
}

// So often a loop tries to claim a ring that others claim too.
const TRIES: u32 = 64;

/// The rings of a bell, each of which is claimed once, by one of the loops that wait at it. The bell is rung once for each parcel, behind its put or behind the last
/// of several, so as many turns as there were rings take all parcels.
#[derive(Drop)]
pub(crate) struct Rings {
    bell: Arc<Bell>,
    claimed: AtomicU64,
}

impl Rings {
    /// The rings of a bell that was not rung.
    pub(crate) fn new(bell: Arc<Bell>) -> Rings {
        Rings {
            bell,
            claimed: AtomicU64::new(0),
        }
    }

    // Claims a ring, if one is left.
    fn claim(&self) -> bool {
        for _ in 0..TRIES {
            let claimed = self.claimed.load(Ordering::SeqCst);
            if claimed == self.bell.rings() {
                return false;
            }
            let next = claimed.wrapping_add(1);
            if self
                .claimed
                .compare_exchange(claimed, next, Ordering::SeqCst, Ordering::SeqCst)
                .is_ok()
            {
                return true;
            }
        }
        false
    }

    // Waits for one more ring than `heard`, unless one of those is left.
    fn wait<R: Wait>(&self, rt: &R, heard: u64) {
        if self.claimed.load(Ordering::SeqCst) == heard {
            self.bell.wait(rt, heard);
        }
    }
}

/// Lets a loop make a turn for each ring that it claims, and for each that it was granted beside, until the ending is told. It keeps all parcels.
#[derive(Drop)]
pub(crate) struct Open {
    ending: Arc<Ending>,
    rings: Arc<Rings>,
    granted: u64,
    closed: bool,
}

impl Open {
    pub(crate) fn new(ending: Arc<Ending>, rings: Arc<Rings>) -> Open {
        Open {
            ending,
            rings,
            granted: 0,
            closed: false,
        }
    }

    /// Whether the loop is to end.
    pub(crate) fn is_over(&self) -> bool {
        self.ending.is_told()
    }

    /// So many turns may be made beside.
    pub(crate) fn grant(&mut self, turns: u64) {
        self.granted = turns;
    }

    /// Waits until there is a turn to be made, or the loop is to end. Another loop may claim the ring of the ending, so that is looked at behind the rings so far.
    pub(crate) fn wait<R: Wait>(&self, rt: &R) {
        let heard = self.rings.bell.rings();
        if self.granted == 0 && !self.is_over() {
            self.rings.wait(rt, heard);
        }
    }

    // Takes one of the turns that were granted, if one is left.
    fn take_granted(&mut self) -> bool {
        let is_left = self.granted > 0;
        self.granted = self.granted.saturating_sub(1);
        is_left
    }

    // Whether a turn may be made.
    fn is_open(&mut self) -> bool {
        if self.ending.is_told() {
            return false;
        }
        if self.rings.claim() {
            return true;
        }
        self.take_granted()
    }
}

impl Gate for Open {
    ghost closed = { λ gate. gate.closed };

    fn pass(&mut self, _turn: u64) -> bool {
        let is_open = self.is_open();
        self.closed = !is_open;
        is_open
    }

    fn keeps(&mut self) -> bool {
        true
    }

    // Behind the last ring the loop sleeps. To let other threads go first would give a whole slice of a full machine away, in the midst of what is waited for.
    fn rest(&self) {}
}
