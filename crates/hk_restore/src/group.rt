//! What a log is read by, and what it gives.

use hk_base::Sequence;
use hk_durable::Managers;
use hk_log::Founding;
use hk_roll::Binding;

/// What a host was started with, which its log must agree with.
#[derive(Clone, Copy, Debug, PartialEq, Eq)]
pub struct Terms {
    /// Its place among the hosts, counted from 0.
    pub place: u8,
    /// How many hosts there are, each with a manager: at most 9.
    pub managers: u8,
    /// The length of a lease in milliseconds.
    pub lease: u32,
    /// How far clocks may jump, in milliseconds.
    pub skew: u32,
}

/// Which numbers were bound to which processes, in the order in which they were.
pub type Bindings = Sequence<Binding>;

/// The group that a log is of.
#[derive(Drop)]
pub struct RestoredGroup {
    /// What it was founded with.
    pub founding: Founding,
    pub is_open: bool,
    /// What was bound behind the founding, which itself binds its hosts.
    pub bindings: Bindings,
    /// This host's manager, in each of the eight shards.
    pub managers: Managers,
}

/// What a process begins with that finds a log.
#[derive(Drop)]
pub struct Restored {
    /// The group, if one was founded.
    pub group: Option<RestoredGroup>,
    /// How many records the log has.
    pub records: u64,
}
