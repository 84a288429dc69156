//! The thread of a lane.

use crate::lane::Lane;
use hk_outside::Job;
use hk_peer::PromptCarrier;
use std::sync::{Arc, Wait};

/// Sends on a lane what others put for it, and what they left since it would have had to wait. It sleeps in between, and never ends.
#[derive(Drop)]
pub struct LaneJob<R: Wait + Drop, C: Drop> {
    pub rt: R,
    pub lane: Arc<Lane<C>>,
}

impl<R: Wait + Send + Drop + 'static, C: PromptCarrier + Send + Drop + 'static> Job
    for LaneJob<R, C> {
    fn run(self) {
        let LaneJob { rt, lane } = self;
        for _ in rt.forever() {
            let heard = lane.bell().rings();
            lane.send_left(&rt);
            lane.bell().wait(&rt, heard);
        }
    }
}
