//! Whether the tickets of journals rise.

ghost use Rattle.std.specs.Prelude.{◌≡◌, ◌↔◌, None, IsTrue};
ghost use Rattle.std.specs.List.{list_all};
ghost use Rattle.hk_base.specs.declared.stamp.NodeId.{NodeId};
ghost use Rattle.hk_merge.specs.Merged.{Rises, journal_of};
ghost use Rattle.hk_assemble.specs.Rising.{is_above, rises_above};

use hk_journal::{Journal, JournalEntry};

fn is_above(last: Option<u64>, ticket: u64) -> bool
    ensures { result ≡ is_above last ticket }
{
    match last {
        Some(last) => last < ticket,
        None => true,
    }
}

fn rises(journal: &[JournalEntry]) -> bool
    ensures { result ≡ rises_above None journal.now }
{
    let mut last = None;
    for entry in journal {
        if !is_above(last, entry.ticket) {
            return false;
        }
        last = Some(entry.ticket);
    }
    true
}

fn all_rise(journals: &[Journal]) -> bool
    ensures { result ≡ list_all (rises_above None) journals.now }
{
    journals.iter().all(|journal| rises(journal.as_slice()))
}

/// Whether the tickets of each journal rise, as [`crate::assemble`] asks.
pub fn tickets_rise(journals: &[Journal]) -> bool
    ensures { IsTrue result ↔ ((node : NodeId) → Rises (journal_of journals.now node)) }
{
    all_rise(journals)
}
