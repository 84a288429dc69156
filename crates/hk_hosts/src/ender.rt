//! What ends a connection from another thread.

use std::net::{Shutdown, TcpStream};
use std::sync::Arc;
use std::sync::atomic::{AtomicU64, Ordering};

/// Ends a connection from another thread: a read or a write of it that waits returns, as do all later ones, as where the other
/// end has ended it.
#[derive(Drop)]
pub enum Ender {
    /// The connection is in memory, where nothing waits.
    Nothing,
    /// Ends a connection over TCP.
    Stream(Arc<TcpStream>),
    /// Counts how often it was to end.
    Counted(Arc<AtomicU64>),
}

impl Ender {
    /// Ends the connection. Where it has ended before, nothing is done.
    pub fn end(&self) {
        match self {
            Ender::Nothing => {}
            Ender::Stream(stream) => {
                let _ = stream.shutdown(Shutdown::Both);
            }
            Ender::Counted(count) => {
                count.fetch_add(1, Ordering::SeqCst);
            }
        }
    }
}
