//! The commands of a group over hosts.

use hk_base::Sequence;
use hk_hosts::{Address, Hosts};
use hk_inside::Leaver;

/// The usual port of the processes of a group for one another.
pub const INSIDE_PORT: u16 = 11_400;

/// The usual port for clients.
pub const CLIENT_PORT: u16 = 11_211;

/// Which group it is.
#[derive(Drop)]
pub struct GroupWords {
    /// Its hosts, by their places; the usual port is [`INSIDE_PORT`].
    pub hosts: Hosts,
    /// The name of the file whose first line is the secret.
    pub secret: Sequence<u8>,
    /// Its name: 1 to 32 of a-z, 0-9 and `-`.
    pub group: Sequence<u8>,
}

/// What a process of a group is to be.
#[derive(Drop)]
pub struct NodeWords {
    pub group: GroupWords,
    /// The place of its host among the hosts, below their number; None where it is to have no manager.
    pub at: Option<u8>,
    /// Where the other processes reach it: the entry of its place, where it has one.
    pub inside: Address,
    /// Where clients reach it; the usual port is [`CLIENT_PORT`].
    pub listen: Address,
    /// The name of the folder that keeps what is its own.
    pub data: Sequence<u8>,
    /// The length of leases, 200 to 60,000 ms.
    pub lease: u32,
    /// By how much the rates of two clocks may differ over a lease, 0 ms to an eighth of the lease.
    pub skew: u32,
    /// 1 to 8.
    pub workers: u8,
}

/// What the program is to do for a group over hosts.
#[derive(Drop)]
pub enum HostCommand {
    /// Run a process of the group.
    Node(NodeWords),
    /// Found the group.
    Init(GroupWords),
    /// Tell how it stands.
    Status(GroupWords),
    /// Let a node leave it: the node of a number, 0 to 65,535, or of the host of a place, below the number of hosts.
    Leave { group: GroupWords, who: Leaver },
}
