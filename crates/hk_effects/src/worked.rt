//! Worlds worked by hand, in which each effect of the register is seen.

ghost use Rattle.hk_effects.specs.Worked.{ValKept, LeftInvalid, Countered, Replayed, PendingInstalled, LeftAlone, ViewBegun, Joined, CopiedValid, Passed, EachOccurs};

/// What the key has of these worlds after each event is what the event's effects make of it, and each of the 22 effects occurs: two
/// writes at once, one of which waits for the other, or is left Invalid; two increments, of which one is given up; a replay after a
/// crash; a write that waits while views change, agreed from outside or by managers; and joiners that copy the key, or have it already.
pub fn each_effect_shows()
    ensures kept { ValKept }
    ensures left_invalid { LeftInvalid }
    ensures countered { Countered }
    ensures replayed { Replayed }
    ensures pending { PendingInstalled }
    ensures alone { LeftAlone }
    ensures begun { ViewBegun }
    ensures joined { Joined }
    ensures copied { CopiedValid }
    ensures passed { Passed }
    ensures each { EachOccurs }
{}
