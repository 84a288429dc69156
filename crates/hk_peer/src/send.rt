//! Sending parcels to peers.

ghost use Rattle.std.specs.Prelude.{◌≡◌, ◌≤◌, Err};
ghost use Rattle.hk_outside.specs.Causes.{Rose};
ghost use Rattle.hk_peer.specs.Parcels.{frame_of};
ghost use Rattle.hk_peer.specs.Sending.{Sends, IsWritten, Forwards, DialsFor};

use hk_frame::print_letter;
use hk_link::Parcel;
use hk_outside::{Connection, Dial, Sink, write_all};
use std::alloc::Global;
use thiserror::Error;

/// Why a parcel was not sent.
#[derive(Clone, Copy, Debug, PartialEq, Eq, Error)]
pub enum SendFault {
    /// An allocation was refused. Nothing was written.
    #[error("no memory")]
    Memory,
    /// Writing failed, or none of a piece was taken: the count of the sink's faults rose. A front of the frame was written.
    #[error("a write failed")]
    WriteFault,
}

/// Why a parcel was not forwarded.
#[derive(Clone, Copy, Debug, PartialEq, Eq, Error)]
pub enum ForwardFault {
    /// An allocation was refused. Nothing was written.
    #[error("no memory")]
    Memory,
    /// There was no connection, and none could be had: the count of the dialer's faults rose.
    #[error("no connection could be had")]
    DialFault,
    /// Writing failed, or none of a piece was taken: the count of the connection's faults rose. A front of the frame was written.
    #[error("a write failed")]
    WriteFault,
}

/// Writes the frame of a parcel.
pub fn send_parcel<K: Sink>(alloc: Global, sink: &mut K, parcel: &Parcel) -> Result<(), SendFault>
    ensures sent { Sends result (frame_of parcel.now) (K.held sink.old) (K.held sink.new) }
    ensures later { K.faults sink.old ≤ K.faults sink.new }
    ensures write_fault { result ≡ Err SendFault.WriteFault → Rose (K.faults sink.old) (K.faults sink.new) }
{
    let mut frame = Vec::new(alloc);
    if print_letter(parcel.shard, &parcel.letter, &mut frame).is_err() {
        return Err(SendFault::Memory);
    }
    match write_all(sink, frame.as_slice()) {
        Ok(()) => Ok(()),
        Err(_) => Err(SendFault::WriteFault),
    }
}

/// Sends a parcel on the connection, which is dialled first, at this port and once, where there is none.
///
/// The connection stays, also after a fault of writing: whoever called drops it then.
pub fn forward<D: Dial>(
    alloc: Global,
    dialer: &mut D,
    port: u16,
    conn: &mut Option<D::Conn>,
    parcel: &Parcel,
) -> Result<(), ForwardFault>
    ensures forwarded { Forwards D.Conn.Sink.held D.Conn.Source.faults D.Conn.Sink.faults result (frame_of parcel.now) conn.old conn.new }
    ensures port { DialsFor conn.old (D.ports dialer.old) (D.ports dialer.new) port }
    ensures later { D.faults dialer.old ≤ D.faults dialer.new }
    ensures dial_fault { result ≡ Err ForwardFault.DialFault → Rose (D.faults dialer.old) (D.faults dialer.new) }
{
    if let Some(held) = conn {
        return write_parcel(alloc, held, parcel);
    }
    let Ok(mut dialled) = dialer.dial(port) else {
        return Err(ForwardFault::DialFault);
    };
    let result = write_parcel(alloc, &mut dialled, parcel);
    *conn = Some(dialled);
    result
}

fn write_parcel<C: Connection>(
    alloc: Global,
    conn: &mut C,
    parcel: &Parcel,
) -> Result<(), ForwardFault>
    ensures { IsWritten C.Sink.held C.Sink.faults result (frame_of parcel.now) conn.old conn.new }
{
    match send_parcel(alloc, conn, parcel) {
        Ok(()) => Ok(()),
        Err(SendFault::Memory) => Err(ForwardFault::Memory),
        Err(SendFault::WriteFault) => Err(ForwardFault::WriteFault),
    }
}
