//! What a hello says.

use crate::mac::Proof;
use hk_base::{Actor, Sequence};
use hk_fields::Ticket;

/// What a connection is for.
#[derive(Clone, Copy, Debug, PartialEq, Eq)]
pub enum Purpose {
    /// Letters from one actor to another.
    Letters,
    /// Requests of a process to a manager.
    Requests,
}

/// An end of a connection.
#[derive(Clone, Copy, Debug, PartialEq, Eq)]
pub enum Party {
    Actor(Actor),
    /// Neither a node nor a manager: a command, or a process whose group is not founded.
    Neither,
}

/// What tells the list of a group's hosts from others: the first 8 bytes of its SHA-256.
#[derive(Clone, Copy, Debug, PartialEq, Eq)]
pub struct HostsDigest(pub [u8; 8]);

/// The name of a group: 1 to 32 of `a` to `z`, digits and hyphens.
pub type GroupName = Sequence<u8>;

/// What a dialler says of itself.
#[derive(Drop)]
pub struct Hello {
    pub purpose: Purpose,
    /// Who dials.
    pub from: Party,
    /// Who is dialled.
    pub to: Party,
    /// The number of the dialler's founding, 0 unless it is open.
    pub founding: u64,
    /// The ticket of the dialler's process, 0 of a command.
    pub ticket: Ticket,
    /// The digest of the dialler's hosts.
    pub hosts: HostsDigest,
    /// The length of a lease in milliseconds, 0 of a command.
    pub lease: u32,
    /// How far clocks may jump, in milliseconds, 0 of a command.
    pub skew: u32,
    /// The name of the dialler's group.
    pub group: GroupName,
}

/// A hello, and the proof that its dialler knows the secret.
#[derive(Drop)]
pub struct SignedHello {
    pub hello: Hello,
    pub proof: Proof,
}
