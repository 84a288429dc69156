//! The steps of what a thread reads, and what the node says to them.

use crate::lane::Lanes;
use hk_group::Reader;
use hk_locked::Places;
use hk_peer::{PromptCarrier, Taker};
use std::sync::{Arc, Wait};

/// Makes the steps of the parcels that one thread reads, and sends what the node says to them: together for all that one read brought.
#[derive(Drop)]
pub(crate) struct LaneReader<R: Wait + Drop, P: Places, X: Drop> {
    pub(crate) rt: R,
    pub(crate) reader: Reader<R, P>,
    pub(crate) lanes: Arc<Lanes<X>>,
}

impl<R: Wait + Drop, P: Places, X: PromptCarrier + Drop> Taker for LaneReader<R, P, X> {
    fn take(&mut self) {
        self.reader.step();
        self.lanes.send(&self.rt);
    }
}
