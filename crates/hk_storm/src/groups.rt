//! What the threads of a storm leave.

ghost use Rattle.std.specs.Prelude.{◌≡◌, ◌↔◌, IsTrue};
ghost use Rattle.hk_storm.specs.Storm.{IsGroup, AreGroups};

use hk_assemble::tickets_rise;
use hk_base::Sequence;
use hk_merge::{Journals, Notes};

/// What is left of the shards of one number: a journal for each node, and the notes of the reads that took no lock.
#[derive(Drop)]
pub struct StormGroup {
    pub journals: Journals,
    pub notes: Notes,
}

/// What is left of all shards, by their numbers.
pub type StormGroups = Sequence<StormGroup>;

fn is_group(nodes: u8, group: &StormGroup) -> bool
    ensures { IsTrue result ↔ IsGroup nodes group.now }
{
    group.journals.len() == usize::from(nodes) && tickets_rise(group.journals.as_slice())
}

/// Whether there is a journal for each of so many nodes, and the tickets of each rise.
pub fn are_groups(nodes: u8, groups: &[StormGroup]) -> bool
    ensures { IsTrue result ↔ AreGroups nodes groups.now }
{
    for group in groups {
        if !is_group(nodes, group) {
            return false;
        }
    }
    true
}
