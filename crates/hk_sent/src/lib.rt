//! That every letter which a node or a manager sends is in range whole, so that it has a frame and may be a parcel.
//!
//! The parts of a letter are in range by the laws of `hk_node` and `hk_manager`. A letter also fits a frame, as long as the keys
//! and data of a batch are at most 2,097,152 bytes together; and a batch is cut so. Both is `IsSent`, which
//! `steps_send_in_range` gives of each letter of every step. `parcel` makes a parcel of such a letter, and tests nothing.
//!
//! Nothing runs `parcel`. Its contract fixes what it gives.
#![tactic(auto)]

mod laws;
mod parcels;

pub use laws::steps_send_in_range;
pub use parcels::parcel;
