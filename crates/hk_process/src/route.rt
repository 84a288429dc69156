//! The way to a node by connections that are dialled.

ghost use Rattle.hk_peer.specs.Parcels.{frames_of};
ghost use Rattle.hk_peer.specs.Sending.{DialsFor};
ghost use Rattle.hk_process.specs.Sending.{HasWhole, IsSentOn, IsForwarded};

use hk_link::Parcel;
use hk_outside::{Connection, Dial};
use hk_peer::{Carrier, SendFault, send_parcels};
use std::alloc::Global;
use std::mem;

/// Leads to whoever serves a port. It dials where it has no connection, and drops one on which writing failed.
#[derive(Drop)]
pub(crate) struct Route<D: Dial + Drop> {
    pub(crate) alloc: Global,
    pub(crate) dialer: D,
    pub(crate) port: u16,
    pub(crate) conn: Option<D::Conn>,
}

// Sends parcels on a connection, and gives it back unless a frame of theirs may have been cut.
fn send_on<C: Connection + Drop>(alloc: Global, mut conn: C, batch: &[Parcel]) -> Option<C>
    ensures { IsSentOn C.Sink.held C.Sink.faults (frames_of batch.now) conn result }
{
    match send_parcels(alloc, &mut conn, batch) {
        Ok(()) => Some(conn),
        Err(SendFault::Memory) => Some(conn),
        Err(SendFault::WriteFault) => None,
    }
}

impl<D: Dial + Drop> Carrier for Route<D> {
    // What `hk_peer::forward` does, of several, and drops a connection on which writing failed. A job can't call
    // what is generic in a dialer, since the dialer's connections may change threads.
    fn forward(&mut self, batch: &[Parcel])
        ensures forwarded { IsForwarded D.Conn.Sink.held D.Conn.Source.faults D.Conn.Sink.faults (frames_of batch.now) self.old.conn self.new.conn (D.faults self.old.dialer) (D.faults self.new.dialer) }
        ensures whole { HasWhole D.Conn.Sink.held D.Conn.Source.faults D.Conn.Sink.faults (frames_of batch.now) self.old.conn self.new.conn }
        ensures port { DialsFor self.old.conn (D.ports self.old.dialer) (D.ports self.new.dialer) self.old.port }
    {
        if let Some(conn) = mem::replace(&mut self.conn, None) {
            self.conn = send_on(self.alloc, conn, batch);
            return;
        }
        let Ok(dialled) = self.dialer.dial(self.port) else {
            return;
        };
        self.conn = send_on(self.alloc, dialled, batch);
    }

    fn is_connected(&self) -> bool {
        self.conn.is_some()
    }
}
