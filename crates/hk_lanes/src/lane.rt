//! A way on which any thread sends.

use hk_base::{Memory, frame_length};
use hk_link::{Bell, Inlet, Parcel};
use hk_peer::{PromptCarrier, Prompted};
use std::alloc::Global;
use std::mem;
use std::sync::atomic::{AtomicBool, AtomicU64, Ordering};
use std::sync::{Arc, Mutex, Wait};

// So many parcels leave together at most, and no more once their frames have so many bytes.
const PARCELS: u32 = 256;

const BYTES: usize = 65_536;

// So often a thread sends what others put meanwhile. Then the lane's own thread goes on.
const ROUNDS: u32 = 8;

// What waits to be sent, and who carries it.
#[derive(Drop)]
struct Freight<C: Drop> {
    inlet: Inlet,
    carrier: C,
    // taken off the link, and not sent yet
    batch: Vec<Parcel>,
    // the carrier keeps something of what was sent
    keeps: bool,
}

// How far a thread came that does not wait.
enum Progress {
    // Nothing waits.
    Clear,
    // Some was sent.
    More,
    // The rest would have to wait.
    Stuck,
}

// Adds parcels that wait, until the batch is full.
fn take_batch<R: Wait>(rt: &R, inlet: &mut Inlet, batch: &mut Vec<Parcel>) {
    let mut bytes: usize = 0;
    for _ in 0..PARCELS {
        let Some(parcel) = inlet.take(rt) else {
            return;
        };
        bytes = bytes.saturating_add(frame_length(&parcel.letter));
        if batch.push(parcel).is_err() || bytes >= BYTES {
            return;
        }
    }
}

impl<C: PromptCarrier + Drop> Freight<C> {
    // Nothing waits yet but what is in the link.
    fn new(alloc: Global, inlet: Inlet, carrier: C) -> Freight<C> {
        Freight {
            inlet,
            carrier,
            batch: Vec::new(alloc),
            keeps: false,
        }
    }

    fn into_carrier(self) -> C {
        let Freight { carrier, .. } = self;
        carrier
    }

    // Sends a batch of what waits, unless that would wait.
    fn send_some<R: Wait>(&mut self, rt: &R) -> Progress {
        take_batch(rt, &mut self.inlet, &mut self.batch);
        if self.batch.is_empty() {
            return Progress::Clear;
        }
        match self.carrier.forward_now(self.batch.as_slice()) {
            Prompted::Sent => {
                self.batch.clear();
                Progress::More
            }
            Prompted::Kept => {
                self.batch.clear();
                self.keeps = true;
                Progress::Stuck
            }
            Prompted::Unsent => Progress::Stuck,
        }
    }

    // Sends a batch of what waits, however long that takes. Gives whether there was any.
    fn send_patiently<R: Wait>(&mut self, rt: &R) -> bool {
        take_batch(rt, &mut self.inlet, &mut self.batch);
        if self.batch.is_empty() && !self.keeps {
            return false;
        }
        self.carrier.forward(self.batch.as_slice());
        self.batch.clear();
        self.keeps = false;
        true
    }
}

// Sends a batch of what waits on a lane, unless that would wait.
fn send_some<R: Wait, C: PromptCarrier + Drop>(
    rt: &R,
    freight: &mut Option<Freight<C>>,
) -> Progress {
    match freight {
        Some(freight) => freight.send_some(rt),
        None => Progress::Clear,
    }
}

// Sends a batch of what waits on a lane, however long that takes. Gives whether there was any.
fn send_patiently<R: Wait, C: PromptCarrier + Drop>(
    rt: &R,
    freight: &mut Option<Freight<C>>,
) -> bool {
    match freight {
        Some(freight) => freight.send_patiently(rt),
        None => false,
    }
}

/// A way to another actor on which any thread sends, one at a time. It may be given another actor to lead to.
#[derive(Drop)]
pub struct Lane<C: Drop> {
    // So many asked that what waits be sent since it was clear. Who finds none before it sends, and sees to it for those that come meanwhile.
    wanted: AtomicU64,
    // Who sent left it to the lane's own thread.
    is_left: AtomicBool,
    // Wakes that thread.
    bell: Arc<Bell>,
    // It leads nowhere.
    is_free: AtomicBool,
    freight: Mutex<Option<Freight<C>>>,
}

impl<C: PromptCarrier + Drop> Lane<C> {
    /// A lane over a link, of which this is the one inlet. The bell wakes its own thread: parcels that are put for that to send ring it.
    pub fn new(alloc: Global, inlet: Inlet, bell: Arc<Bell>, carrier: C) -> Lane<C> {
        Lane {
            wanted: AtomicU64::new(0),
            is_left: AtomicBool::new(false),
            bell,
            is_free: AtomicBool::new(false),
            freight: Mutex::new(Some(Freight::new(alloc, inlet, carrier))),
        }
    }

    /// A lane that leads nowhere yet. The bell wakes its own thread.
    pub fn free(bell: Arc<Bell>) -> Lane<C> {
        Lane {
            wanted: AtomicU64::new(0),
            is_left: AtomicBool::new(false),
            bell,
            is_free: AtomicBool::new(true),
            freight: Mutex::new(None),
        }
    }

    /// Whether it leads nowhere.
    pub fn is_free(&self) -> bool {
        self.is_free.load(Ordering::SeqCst)
    }

    /// It leads by this carrier from now on, over a link of which this is the one inlet. It led nowhere.
    pub fn begin<R: Wait>(&self, rt: &R, alloc: Global, inlet: Inlet, carrier: C) {
        let mut guard = self.freight.lock(rt);
        *guard = Some(Freight::new(alloc, inlet, carrier));
        self.is_free.store(false, Ordering::SeqCst);
    }

    /// It leads nowhere from now on; what still waits is lost. It gives the carrier that it had. Where a thread sends, it waits for that.
    pub fn end<R: Wait>(&self, rt: &R) -> Option<C> {
        self.is_free.store(true, Ordering::SeqCst);
        let mut guard = self.freight.lock(rt);
        match mem::replace(&mut *guard, None) {
            Some(freight) => Some(freight.into_carrier()),
            None => None,
        }
    }

    /// What wakes the lane's own thread.
    pub fn bell(&self) -> &Arc<Bell> {
        &self.bell
    }

    // Asks that what waits be sent, and gives whether the caller is to send it.
    fn claim(&self) -> bool {
        self.wanted.fetch_add(1, Ordering::SeqCst) == 0
    }

    fn wanted(&self) -> u64 {
        self.wanted.load(Ordering::SeqCst)
    }

    // Gives the lane up, unless somebody asked since it was wanted so often.
    fn is_given_up(&self, wanted: u64) -> bool {
        self.wanted
            .compare_exchange(wanted, 0, Ordering::SeqCst, Ordering::SeqCst)
            .is_ok()
    }

    // Sends what waits, and gives whether the lane was given up then.
    fn send_now<R: Wait>(&self, rt: &R) -> bool {
        let mut guard = self.freight.lock(rt);
        let freight = &mut *guard;
        for _ in 0..ROUNDS {
            let wanted = self.wanted();
            match send_some(rt, freight) {
                Progress::Clear => {
                    if self.is_given_up(wanted) {
                        return true;
                    }
                }
                Progress::More => {}
                Progress::Stuck => return false,
            }
        }
        false
    }

    /// Sends what was put, or leaves that to whoever sends already. It does not wait for the other end.
    pub fn send<R: Wait>(&self, rt: &R) {
        if self.is_free() || !self.claim() {
            return;
        }
        if !self.send_now(rt) {
            self.is_left.store(true, Ordering::SeqCst);
            self.bell.ring(rt, 1);
        }
    }

    /// Sends what was put, or what was left, however long it takes, unless another thread sends.
    pub(crate) fn send_left<R: Wait>(&self, rt: &R) {
        let is_left = self.is_left.swap(false, Ordering::SeqCst);
        if !is_left && !self.claim() {
            return;
        }
        let mut guard = self.freight.lock(rt);
        let freight = &mut *guard;
        for _ in rt.forever() {
            let wanted = self.wanted();
            if !send_patiently(rt, freight) && self.is_given_up(wanted) {
                return;
            }
        }
    }
}

/// The lanes from one actor.
#[derive(Drop)]
pub struct Lanes<C: Drop> {
    lanes: Vec<Arc<Lane<C>>>,
}

impl<C: PromptCarrier + Drop> Lanes<C> {
    /// No lanes yet.
    pub fn new(alloc: Global) -> Lanes<C> {
        Lanes {
            lanes: Vec::new(alloc),
        }
    }

    /// One lane more.
    pub fn push(&mut self, lane: Arc<Lane<C>>) -> Result<(), Memory> {
        self.lanes.push(lane)?;
        Ok(())
    }

    /// Sends what was put into each.
    pub fn send<R: Wait>(&self, rt: &R) {
        for lane in &self.lanes {
            lane.send(rt);
        }
    }
}
