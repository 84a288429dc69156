//! A worker of a storm.

use crate::gate::StormGate;
use crate::quiet::Quiet;
use hk_locked::Places;
use hk_worker::{Post, work};
use std::sync::Wait;
use std::sync::atomic::AtomicBool;

// So many turns a worker makes before its walk over the open keys begins anew: what is on its way is not to be sent again at once.
const TURNS: u64 = 256;

/// A worker's post, and its number among all workers.
#[derive(Drop)]
pub(crate) struct StormWorker<P: Places> {
    pub(crate) number: u8,
    pub(crate) post: Post<Quiet, P>,
}

impl<P: Places> StormWorker<P> {
    /// Makes turns until all callers have ended.
    pub(crate) fn work_on<R: Wait>(mut self, rt: &R, start: u64, ended: &AtomicBool) {
        let mut gate = StormGate::new(start, self.number, ended);
        for _ in rt.forever() {
            if work(rt, &mut self.post, &mut gate, TURNS) < TURNS {
                break;
            }
        }
    }
}
