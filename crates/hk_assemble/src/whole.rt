//! The whole run.

ghost use Rattle.std.specs.Prelude.{◌≡◌, length};
ghost use Rattle.hk_world.specs.Sound.{IsHeader};
ghost use Rattle.hk_base.specs.declared.stamp.NodeId.{NodeId};
ghost use Rattle.hk_merge.specs.Merged.{Rises, journal_of};
ghost use Rattle.hk_assemble.specs.Assembled.{IsAssembled};

use crate::assembly::follow;
use crate::checking::check_notes;
use crate::gap::Gap;
use hk_event::Header;
use hk_merge::{Journals, Notes, kept_is_shown, merge, merge_is_merged};
use hk_safety::Run;
use std::alloc::Global;

/// The run of the journals and notes of one shard number, or why there is none. Entries are looked at first, by their tickets and then their nodes; then the notes, as they are
/// listed. The first that fails is told.
pub fn assemble(
    alloc: Global,
    header: Header,
    journals: &Journals,
    notes: &Notes,
) -> Result<Run, Gap>
    requires header { IsHeader header }
    requires alone { header.managers ≡ 0 }
    requires whole { length journals.now ≡ header.nodes }
    requires rising { (node : NodeId) → Rises (journal_of journals.now node) }
    ensures { IsAssembled result header journals.now notes.now }
{
    merge_is_merged();
    kept_is_shown();
    let slots = merge(alloc, journals.as_slice(), notes.as_slice())?;
    let assembly = follow(alloc, header, &slots)?;
    check_notes(&assembly.kept, notes.as_slice())?;
    Ok(assembly.run)
}
