//! What the processes of a group ask its managers, and what these answer, as bytes, both ways.
//!
//! An [`Inquiry`] and a [`Response`] each stand in a *frame*: the length of what follows, in 4 bytes, a kind in 1, and the fields, which
//! `specs/Messages.antt` defines by cases. `print_inquiry` and `print_response` give a frame. `read_inquiry` and `read_response` read the frame that
//! begins some bytes, whatever they are: they give a message exactly where the bytes begin with its frame, and else tell that bytes are wanting, by the
//! length alone, or that no message begins so. At most 65,539 bytes are ever wanted, and a message takes memory for what stands there alone.
//!
//! The laws: no frame begins another, nothing begins both with an inquiry and with a response, and of each front of a frame it is told that bytes are
//! wanting.
//!
//! Its caller owes the printers a message in range: texts of at most 255 bytes and lists of at most 255 items, managers 0 to 8, foundings that are not 0.
#![tactic(auto)]

mod board;
mod fault;
mod fields;
mod frames;
mod inquiries;
mod inquiry;
mod printing;
mod refusal;
mod report;
mod reports;
mod response;
mod responses;
mod values;

ghost use Rattle.hk_inside.specs.Messages.{inquiry_frame, IsInquiry, response_frame, IsResponse};
ghost use Rattle.hk_inside.specs.Laws.{NoneBegins, NoneIsBoth, FrontsAreShort};

pub use board::{Board, BoardLine, BoardLines, Mark, Party, Stage};
pub use fault::{MessageFault, PrintFault};
pub use frames::{MAX_LEN, print_inquiry, print_response, read_inquiry, read_response};
pub use hk_fields::{FoundingHosts, HostTickets};
pub use inquiry::{Inquiry, Leaver};
pub use refusal::ManagerRefusal;
pub use report::{Counts, NodeSeen, NodeState, NodesSeen, Report, ShardsTold, Text};
pub use response::{ManagerState, Response};

/// No frame of an inquiry begins another, and so with responses; and nothing begins both with an inquiry and with a response.
pub fn messages_stand_apart()
    ensures inquiries { NoneBegins inquiry_frame IsInquiry }
    ensures responses { NoneBegins response_frame IsResponse }
    ensures both { NoneIsBoth }
{}

/// Of a message that has not come whole it is told that bytes are wanting, and never more than it has.
pub fn fronts_are_short()
    ensures inquiries { FrontsAreShort inquiry_frame IsInquiry }
    ensures responses { FrontsAreShort response_frame IsResponse }
{}
