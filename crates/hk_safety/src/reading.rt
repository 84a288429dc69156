//! Reading what is kept of a key.

ghost use Rattle.std.specs.Prelude.{◌≡◌, ◌++◌, map, IfOk, OnOk};
ghost use Rattle.std.specs.List.Sorted.{IsStrictlySortedBy};
ghost use Rattle.std.specs.Map.{keys_of};
ghost use Rattle.std.specs.Ordering.{nat_cmp};
ghost use Rattle.hk_safety.specs.Marks.{mark_of};
ghost use Rattle.hk_safety.specs.Kept.{kept_order, is_complete, update_entry, look_entry, entries_at};

use crate::evidence::Evidence;
use crate::key_run::{AtStamp, KeyRun, ReadOnlyCalls};
use crate::marked::Mark;
use hk_base::Memory;
use hk_history::{Entries, Entry};
use std::alloc::Global;

// Whether the update is complete.
fn is_complete(evidence: &Evidence) -> bool
    ensures { result ≡ is_complete evidence.now }
{
    match evidence {
        Evidence::Complete { .. } => true,
        Evidence::Covers(_) => false,
    }
}

// Puts the update of the stamp behind the others, if it is complete.
fn put_update(order: &mut Entries, stamp: u64, at: &AtStamp) -> Result<(), Memory>
    ensures { OnOk result (order.new ≡ order.old ++ update_entry (is_complete at.now.evidence) stamp at.now.update) }
{
    if let Some(call) = at.update {
        if is_complete(&at.evidence) {
            order.push(Entry {
                call,
                tag: Some(stamp),
            })?;
        }
    }
    Ok(())
}

// Puts the calls that found the stamp behind the others.
fn put_looks(order: &mut Entries, read_only: &ReadOnlyCalls) -> Result<(), Memory>
    ensures { OnOk result (order.new ≡ order.old ++ map look_entry read_only.now) }
{
    for look in read_only.as_slice() {
        order.push(Entry {
            call: look.call,
            tag: None,
        })?;
    }
    Ok(())
}

fn put_stamp(order: &mut Entries, stamp: u64, at: &AtStamp) -> Result<(), Memory>
    ensures { OnOk result (order.new ≡ order.old ++ entries_at (stamp, at.now)) }
{
    put_update(order, stamp, at)?;
    put_looks(order, &at.read_only)
}

impl KeyRun {
    /// A mark of each event of the history of the key.
    pub(crate) fn marks(&self) -> &[Mark]
        ensures { result.now ≡ map mark_of self.now.items }
    {
        self.items.marks()
    }

    /// The order of the key.
    pub(crate) fn order(&self, alloc: Global) -> Result<Entries, Memory>
        ensures exact { IfOk result (λ order. order ≡ kept_order self.now) }
        // The stamps rise, on which it rests that this is the printed order.
        ensures ordered { IsStrictlySortedBy nat_cmp (keys_of self.now.stamps) }
    {
        let mut order = Entries::new(alloc);
        for (stamp, at) in self.stamps.iter() {
            put_stamp(&mut order, *stamp, at)?;
        }
        Ok(order)
    }
}
