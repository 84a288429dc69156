//! What a cutter of frames gives.

use hk_frame::FrameFault;
use hk_link::Parcel;

/// What is next of the bytes that came.
#[derive(Drop)]
pub enum PeerStep {
    /// The parcel whose frame they begin with. The frame is gone from them.
    Parcel(Parcel),
    /// They end within a frame.
    Need,
    /// No frame can begin them, whatever comes: the first fault, a `BadKind`, `BadLength` or `BadField`. It stays so.
    Bad(FrameFault),
}
