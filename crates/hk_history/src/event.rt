//! What happened to one key, and an order of its calls.

use hk_base::{Answer, CallNo, Op, Sequence};

/// A call that began, or a reply that was given.
#[derive(PartialEq, Eq, Drop)]
pub enum Event {
    Call { no: CallNo, op: Op },
    Reply { no: CallNo, answer: Answer },
}

/// A history: the events of one key, the first one first.
pub type Items = Sequence<Event>;

/// A call in an order. It has a tag exactly where it changed the register, and then that is the register's new tag.
#[derive(Clone, Copy, Debug, PartialEq, Eq)]
pub struct Entry {
    pub call: CallNo,
    pub tag: Option<u64>,
}

/// An order of calls, the first one first.
pub type Entries = Sequence<Entry>;
