//! What serves each connection at a desk of its own.

use hk_base::Memory;
use hk_conn::serve_connection;
use hk_outside::{Connection, Desk};
use std::alloc::Global;

// How often one key of one request is asked, while it is busy.
const PATIENCE: u32 = 64;

/// Makes a desk for each connection, and serves the connection there, from any thread.
pub trait Desks {
    /// Serves the connection of this number to its end. The first connection has the number 0.
    fn serve<N: Connection>(&self, conn: &mut N, number: u32);
}

/// Serves a connection to its end at the desk that was made for it. One for which there was no memory serves nothing.
pub fn serve_at<N: Connection, D: Desk + Drop>(
    alloc: Global,
    conn: &mut N,
    desk: Result<D, Memory>,
) {
    if let Ok(mut desk) = desk {
        serve_connection(alloc, conn, &mut desk, PATIENCE);
    }
}
