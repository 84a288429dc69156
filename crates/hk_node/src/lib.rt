//! One replica of a group: a node, with its view, its lease, its clock and its rows, and what it does with a call, a
//! letter or an order of its operator.
//!
//! A node is a machine without threads: an event in, letters and replies out. What each event does is a definition,
//! `specs/Steps.antt`, over the table of one row that `hk_key` has; [`Node::step`] equals it, or answers that memory is
//! wanting and leaves the node as it was. Beside its letters and replies a step reports what it did to the node: the rows
//! that changed, each with the one before. All that watch a node read that, and by it a step is undone.
//!
//! What is proved. The node afterwards, its letters, its replies, the view that was installed and its report are those
//! of `node_step` (`node`, `out`); want of memory leaves the node as it was (`err`), and does not come where an event
//! takes none (`sure`). `Node::open` gives exactly the next key whose row is not Valid. Where a node has managers, its
//! lease ends at the greatest end that a majority of them granted, and it installs a view that a majority activated.
//! Over every step (`steps_keep_nodes`): a node stays one; its letters are in range; an event that names a key changes
//! no other row; the stamp of a row, where it is of a node below 65,536, never falls. A report has just the rows that
//! changed (`reports_are_exact`). A call is answered once or waits on (`calls_wait_or_are_answered`), and what is told
//! was waited for (`told_were_waiting`).
#![tactic(auto)]

mod event;
mod heard;
mod laws;
mod node;
mod out;
mod put;
mod report;
mod viewed;

pub use event::NodeEvent;
pub use laws::{
    calls_raise_stamps, calls_wait_or_are_answered, reports_are_exact, steps_keep_nodes,
    told_were_waiting,
};
pub use node::Node;
pub use out::{NodeOut, ReplyList, StepReplies};
pub use report::{PriorRow, PriorRows, Report, Undo};
