//! The job of one connection.

use crate::desks::Desks;
use crate::make_job::MakeJob;
use crossbeam_utils::sync::WaitGroup;
use hk_base::Memory;
use hk_outside::{Connection, Job};
use std::sync::Arc;

/// The job of a client's connection, with what makes its desk.
#[derive(Drop)]
pub struct ConnJob<N: Drop, K: Drop> {
    conn: N,
    desks: Arc<K>,
    number: u32,
    // Left when the job is over.
    group: WaitGroup,
}

/// Makes the jobs of clients: each is served at a desk of its own. All jobs are of this group until they are over.
#[derive(Drop)]
pub struct ConnJobs<'a, K> {
    pub desks: &'a Arc<K>,
    pub group: &'a WaitGroup,
}

impl<'a, N: Connection + Send + Drop + 'static, K: Desks + Send + Sync + Drop + 'static> MakeJob<N>
    for ConnJobs<'a, K> {
    type ConnJob = ConnJob<N, K>;

    fn make_job(&self, conn: N, number: u32) -> Result<ConnJob<N, K>, Memory> {
        let desks = self.desks.clone()?;
        let group = self.group.clone()?;
        Ok(ConnJob {
            conn,
            desks,
            number,
            group,
        })
    }
}

impl<N: Connection + Send + Drop + 'static, K: Desks + Send + Sync + Drop + 'static> Job
    for ConnJob<N, K> {
    // Serves the connection to its end. One for whose desk there is no memory is closed.
    fn run(self) {
        let ConnJob {
            mut conn,
            desks,
            number,
            group,
        } = self;
        desks.serve(&mut conn, number);
        drop(conn);
        drop(group);
    }
}
