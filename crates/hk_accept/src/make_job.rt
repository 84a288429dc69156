//! What makes the jobs of connections.

use hk_base::Memory;
use hk_outside::Job;

/// Makes the job of each connection that comes.
pub trait MakeJob<N> {
    type ConnJob: Job;

    /// The job of a connection that comes behind so many others. One for whose job there is no memory is closed.
    fn make_job(&self, conn: N, number: u32) -> Result<Self::ConnJob, Memory>;
}
