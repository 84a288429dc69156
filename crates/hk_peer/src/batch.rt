//! Sending several parcels at once.

ghost use Rattle.std.specs.Prelude.{◌≡◌, ◌≤◌, Err, IfOk};
ghost use Rattle.hk_outside.specs.Causes.{Rose};
ghost use Rattle.hk_peer.specs.Sending.{Sends, IsWritten};
ghost use Rattle.hk_peer.specs.Parcels.{frames_of};

use crate::send::{ForwardFault, SendFault};
use hk_base::{Memory, frame_length};
use hk_frame::print_letter;
use hk_link::Parcel;
use hk_outside::{Connection, Sink, write_all};
use std::alloc::Global;

// How many bytes the frames of these parcels take.
fn frames_length(parcels: &[Parcel]) -> usize {
    let mut all: usize = 0;
    for parcel in parcels {
        all = all.saturating_add(frame_length(&parcel.letter));
    }
    all
}

// The frames of these parcels, one behind the other.
fn print_frames(alloc: Global, parcels: &[Parcel]) -> Result<Vec<u8>, Memory>
    ensures { IfOk result (λ frames. frames.items ≡ frames_of parcels.now) }
{
    let mut frames = Vec::with_capacity(alloc, frames_length(parcels))?;
    for parcel in parcels {
        print_letter(parcel.shard, &parcel.letter, &mut frames)?;
    }
    Ok(frames)
}

/// Writes the frames of these parcels, in their order and in one write where the sink takes them, as [`crate::send_parcel`] writes one.
pub fn send_parcels<K: Sink>(
    alloc: Global,
    sink: &mut K,
    parcels: &[Parcel],
) -> Result<(), SendFault>
    ensures sent { Sends result (frames_of parcels.now) (K.held sink.old) (K.held sink.new) }
    ensures later { K.faults sink.old ≤ K.faults sink.new }
    ensures write_fault { result ≡ Err SendFault.WriteFault → Rose (K.faults sink.old) (K.faults sink.new) }
{
    let Ok(frames) = print_frames(alloc, parcels) else {
        return Err(SendFault::Memory);
    };
    match write_all(sink, frames.as_slice()) {
        Ok(()) => Ok(()),
        Err(_) => Err(SendFault::WriteFault),
    }
}

/// Sends these parcels on a connection that there is, in their order and in one write where it takes them, as [`crate::forward`] sends one.
pub fn write_parcels<C: Connection>(
    alloc: Global,
    conn: &mut C,
    parcels: &[Parcel],
) -> Result<(), ForwardFault>
    ensures { IsWritten C.Sink.held C.Sink.faults result (frames_of parcels.now) conn.old conn.new }
{
    match send_parcels(alloc, conn, parcels) {
        Ok(()) => Ok(()),
        Err(SendFault::Memory) => Err(ForwardFault::Memory),
        Err(SendFault::WriteFault) => Err(ForwardFault::WriteFault),
    }
}
