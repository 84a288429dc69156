//! Where letters to the node of this process go in.

use hk_outside::Source;
use hk_peer::Course;

/// Lets the letters of connections in to the node of this process.
pub trait NodeEntry {
    /// Takes the letters of a connection, as [`hk_peer::serve_peer`] does, to its end. Where the process has no node yet, or there is no memory for it, none is taken.
    fn serve<N: Source>(&self, conn: &mut N, course: Course);
}
