//! What a process is.

ghost use Rattle.std.specs.Prelude.{◌≡◌, ◌≤◌, true, length};
ghost use Rattle.hk_hello.specs.Hellos.{IsGroupName};
ghost use Rattle.hk_inside.specs.Parts.{IsText};
ghost use Rattle.hk_shared_state.specs.Fitting.{is_place_below};

use hk_base::Sequence;
use hk_fields::Ticket;
use hk_hello::{GroupName, HostsDigest};
use hk_hosts::Hosts;
use hk_inside::Text;

/// What a process is. None of it changes while it runs.
#[derive(Drop)]
pub struct Identity {
    /// What all of its group know, and nobody else.
    pub secret: Sequence<u8>,
    /// The name of its group: 1 to 32 of `a` to `z`, digits and hyphens.
    pub group: GroupName,
    /// The hosts of its group, by their places: 1 to 9.
    pub hosts: Hosts,
    /// The digest of these.
    pub digest: HostsDigest,
    /// The length of a lease in milliseconds.
    pub lease: u32,
    /// How far clocks may jump, in milliseconds.
    pub skew: u32,
    /// The place of this host among those, if it has a manager.
    pub place: Option<u8>,
    /// The ticket of the process, which is its node's.
    pub ticket: Ticket,
    /// The address at which other processes reach it, at most 255 bytes.
    pub inside: Text,
    /// The address at which clients reach it, at most 255 bytes.
    pub clients: Text,
    pub ghost group_is: { IsGroupName group },
    pub ghost some: { 1 ≤ length hosts },
    pub ghost few: { length hosts ≤ 9 },
    pub ghost place_is: { is_place_below (length hosts) place ≡ true },
    pub ghost inside_is: { IsText inside },
    pub ghost clients_is: { IsText clients },
}
