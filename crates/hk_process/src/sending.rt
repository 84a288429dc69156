//! The job that sends what is for one other actor.

use crossbeam_utils::sync::WaitGroup;
use hk_base::{Memory, frame_length};
use hk_group::{Ending, SendQueue};
use hk_link::{Bell, Inlet, Parcel};
use hk_outside::Job;
use hk_peer::Carrier;
use std::alloc::Global;
use std::sync::{Arc, Wait};

// So many parcels leave together at most, and no more once their frames have so many bytes.
const PARCELS: u32 = 256;

const BYTES: usize = 65_536;

/// The loops that send, one for each queue, and what ends them once all that was put is sent.
#[derive(Drop)]
pub struct Sending {
    ending: Arc<Ending>,
    // Those of the queues.
    bells: Vec<Arc<Bell>>,
    // Held by each loop until it has ended.
    jobs: WaitGroup,
}

impl Sending {
    /// No loop was started yet.
    pub fn new(alloc: Global) -> Result<Sending, Memory> {
        Ok(Sending {
            ending: Arc::new(alloc, Ending::new())?,
            bells: Vec::new(alloc),
            jobs: WaitGroup::new(alloc)?,
        })
    }

    /// The loop over a queue: what is put there it gives to the carrier. It is started by whoever has the job run.
    pub fn job<R: Wait + Drop, C: Drop>(
        &mut self,
        rt: R,
        alloc: Global,
        carrier: C,
        queue: SendQueue,
    ) -> Result<SendJob<R, C>, Memory> {
        self.bells.push(Arc::try_clone(&queue.bell)?)?;
        Ok(SendJob {
            rt,
            alloc,
            carrier,
            queue,
            ending: Arc::try_clone(&self.ending)?,
            jobs: self.jobs.clone()?,
        })
    }

    /// Has the loops end once nothing waits to be sent, and returns when they have. A loop whose carrier has no connection then ends with what still waits.
    pub fn end<R: Wait>(self, rt: &R) {
        let Sending {
            ending,
            bells,
            jobs,
        } = self;
        ending.tell();
        for bell in &bells {
            bell.wake_all(rt);
        }
        jobs.wait(rt);
    }
}

/// Sends what is put into one queue, as long as its [`Sending`] has not ended. It sleeps while nothing is.
#[derive(Drop)]
pub struct SendJob<R: Wait + Drop, C: Drop> {
    rt: R,
    alloc: Global,
    carrier: C,
    queue: SendQueue,
    ending: Arc<Ending>,
    // Left when the job is over.
    jobs: WaitGroup,
}

// Adds parcels that wait, until the batch is full.
fn take_batch<R: Wait>(rt: &R, inlet: &mut Inlet, batch: &mut Vec<Parcel>) {
    let mut bytes: usize = 0;
    for _ in 0..PARCELS {
        let Some(parcel) = inlet.take(rt) else {
            return;
        };
        bytes = bytes.saturating_add(frame_length(&parcel.letter));
        if batch.push(parcel).is_err() || bytes >= BYTES {
            return;
        }
    }
}

// Sends all that waits, and gives whether more is to be sent then. Once the ending was told it stops where some could not be sent: each further try may last as
// long, and nobody waits for it.
fn send_waiting<R: Wait, C: Carrier>(
    rt: &R,
    carrier: &mut C,
    inlet: &mut Inlet,
    ending: &Ending,
    batch: &mut Vec<Parcel>,
) -> bool {
    for _ in rt.forever() {
        take_batch(rt, inlet, batch);
        if batch.is_empty() {
            return true;
        }
        carrier.forward(batch.as_slice());
        batch.clear();
        if ending.is_told() && !carrier.is_connected() {
            return false;
        }
    }
    unreachable!()
}

// Sends what is put until the ending was told and nothing waits any more. It sleeps in between.
fn go_on<R: Wait, C: Carrier>(
    rt: &R,
    carrier: &mut C,
    inlet: &mut Inlet,
    bell: &Bell,
    ending: &Ending,
    batch: &mut Vec<Parcel>,
) {
    for _ in rt.forever() {
        let heard = bell.rings();
        let is_last = ending.is_told();
        let goes_on = send_waiting(rt, carrier, inlet, ending, batch);
        if is_last || !goes_on {
            return;
        }
        bell.wait(rt, heard);
    }
}

impl<R: Wait + Send + Drop + 'static, C: Carrier + Send + Drop + 'static> Job for SendJob<R, C> {
    fn run(self) {
        let SendJob {
            rt,
            alloc,
            mut carrier,
            queue,
            ending,
            jobs,
        } = self;
        let SendQueue {
            mut inlet,
            bell,
            ..
        } = queue;
        let mut batch = Vec::new(alloc);
        go_on(&rt, &mut carrier, &mut inlet, &bell, &ending, &mut batch);
        drop(carrier);
        drop(jobs);
    }
}
