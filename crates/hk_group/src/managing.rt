//! The job of a manager number.

use crate::gate::Open;
use crate::lines::ROOM;
use crate::needs::begin_memory;
use crossbeam_utils::sync::WaitGroup;
use hk_outside::{Clock, Job};
use hk_overseer::{ManagerPost, oversee};
use std::alloc::Global;
use std::sync::{Arc, Wait};

/// The loop over the managers of one number.
#[derive(Drop)]
pub(crate) struct ManageJob<R: Wait + Drop, C: Drop> {
    pub(crate) rt: R,
    pub(crate) alloc: Global,
    pub(crate) post: ManagerPost,
    pub(crate) clock: Arc<C>,
    pub(crate) gate: Open,
    /// Left when the job is over.
    pub(crate) jobs: WaitGroup,
}

// Makes a turn for each ring until the ending is told. It sleeps in between.
fn go_on<R: Wait, C: Clock>(
    rt: &R,
    alloc: Global,
    post: &mut ManagerPost,
    clock: &C,
    gate: &mut Open,
) {
    for _ in rt.forever() {
        oversee(rt, alloc, post, clock, gate, ROOM as u64);
        if gate.is_over() {
            return;
        }
        gate.wait(rt);
    }
}

impl<R: Wait + Send + Drop + 'static, C: Clock + Send + Sync + Drop + 'static> Job
    for ManageJob<R, C> {
    fn run(self) {
        let ManageJob {
            rt,
            alloc,
            mut post,
            clock,
            mut gate,
            jobs,
        } = self;
        begin_memory(alloc);
        go_on(&rt, alloc, &mut post, &*clock, &mut gate);
        drop(post);
        drop(jobs);
    }
}
