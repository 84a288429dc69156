//! The moment of a stamp.

ghost use Rattle.std.specs.Prelude.{◌≡◌, IfSome};
ghost use Rattle.std.specs.List.Sorted.{IsStrictlySortedBy};
ghost use Rattle.std.specs.Map.{keys_of};
ghost use Rattle.std.specs.Ordering.{nat_cmp};
ghost use Rattle.hk_safety.specs.Placed.{completion, earlier, earliest, stamps_from, kept_moment};

use crate::evidence::Evidence;
use crate::key_run::{AtStamp, KeyRun};
use std::collections::BTreeMap;

// The event that completed the update, if it is complete.
fn completion(evidence: &Evidence) -> Option<u64>
    ensures { result ≡ completion evidence.now }
{
    match evidence {
        Evidence::Complete { event } => Some(*event),
        Evidence::Covers(_) => None,
    }
}

// The earlier of an event and the one that completed the update, if it is complete.
fn earlier(event: u64, evidence: &Evidence) -> u64
    ensures { result ≡ earlier event evidence.now }
{
    match completion(evidence) {
        Some(other) => event.min(other),
        None => event,
    }
}

// The earliest of an event and of those that completed the updates of the stamps from this tag on.
fn earliest_from(stamps: &BTreeMap<u64, AtStamp>, tag: u64, event: u64) -> u64
    ensures exact { result ≡ earliest event (stamps_from tag stamps.now.entries) }
    ensures ordered { IsStrictlySortedBy nat_cmp (keys_of stamps.now.entries) }
{
    let mut earliest = event;
    for (_tag, at) in stamps.range(tag..) {
        earliest = earlier(earliest, &at.evidence);
    }
    earliest
}

impl KeyRun {
    /// The number of the first event after which an update of the key with this tag or a later one is complete; None where that of this tag is not.
    pub(crate) fn moment(&self, tag: u64) -> Option<u64>
        ensures exact { result ≡ kept_moment tag self.now }
        // The stamps rise, on which it rests that this is the moment.
        ensures ordered { IfSome result (λ event. IsStrictlySortedBy nat_cmp (keys_of self.now.stamps)) }
    {
        if tag == 0 {
            return None;
        }
        let at = self.stamps.get(&tag)?;
        let event = completion(&at.evidence)?;
        Some(earliest_from(&self.stamps, tag, event))
    }
}
