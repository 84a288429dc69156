//! How a group stands, as lines.
//!
//! [`print_status`] gives the text by which a manager answers who asks how the group stands. It is a line for the
//! group, one for each manager, one for each view that shards hold, one for each node, one for each node that waits for
//! another to acknowledge, one for each process that has no number yet, and `lost` where no member is ready. A line is
//! words and fields, each with a space in front, and a hyphen stands for what is not known. (The line of a node is
//! broken here.)
//!
//! ```text
//! group hermes founding=3f9c27b1d04e8a65 stage=open lease=1000 skew=10
//! manager 2 10.0.0.3:11400 up=31 records=40
//! view shards=0-2,5 epoch=4 members=0,1,3 next=4
//! node 3 10.0.0.3:11400 copying manager=2 clients=10.0.0.3:11211 shards=3 epoch=4 lease=871 keys=41200
//!     bytes=4532000 gets=0 sets=0 busy=0 aborted=0 unknown=0
//! waits 3 for=1 ms=1200
//! waiting 10.0.0.4:11400
//! lost
//! ```
//!
//! What is proved: the text is just that of `specs/Lines.antt`, byte for byte, whatever is told; or an allocation was
//! refused. That of a group within limits (`specs/Limits.antt`) has at most 65,000 bytes, so that it fits a response.
//!
//! Its caller owes a name and addresses without spaces and line feeds, and the managers and nodes in the order in which
//! they are to stand. No clause says what the figures mean: they are as they were told.
#![tactic(auto)]

mod laws;
mod lines;
mod status;
mod views;
mod words;

pub use laws::{equal_views_share_a_line, small_statuses_fit};
pub use lines::print_status;
pub use status::{GroupStatus, ManagerLine, NodeLine, NodeShown, NodeTold, WaitLine};
