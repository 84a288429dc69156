//! Laws of reads, and of merged runs.

ghost use Rattle.hk_merge.specs.Reads.{ReadsAreAnswered, ReadsAreOfTheRow, OthersStay};
ghost use Rattle.hk_merge.specs.Aside.{EventsKeepAside, AsidesKeepReads};
ghost use Rattle.hk_merge.specs.Single.{MergedIsSingle, EarlyRuleFails};
ghost use Rattle.hk_merge.specs.Same.{SameIsEqual, SameListsAreEqual, SameAnswersAreEqual};
ghost use Rattle.hk_merge.specs.Shows.{KeptIsShown};
ghost use Rattle.hk_merge.specs.Serving.{ServingStays, FoundersServe, MergedAreAccepted};
ghost use Rattle.hk_merge.specs.Placed.{MergedAreMerged};
ghost use Rattle.hk_merge.specs.Merged.{NotesStandBetween, NotesAreKept};

/// A Read is answered at once and leaves its node. What it is answered depends on the lease, the clock and the row of its key. At a ready
/// node of a group without managers a call, a letter, a resend and a replay leave all but the row of the key that they name.
pub fn reads_leave()
    ensures read { ReadsAreAnswered }
    ensures row { ReadsAreOfTheRow }
    ensures others { OthersStay }
{}

/// Over events of which none but Reads act at the node on the key, a Read of the key there would be answered the same.
pub fn reads_stand()
    ensures step { EventsKeepAside }
    ensures list { AsidesKeepReads }
{
    reads_leave();
}

/// A note stands behind its snapshot's entry and before each later entry of its key at its node.
pub fn notes_stand_between()
    ensures { NotesStandBetween }
{}

/// The Read of a note at its place is answered as one directly behind its snapshot's entry would be.
pub fn notes_are_kept()
    ensures { NotesAreKept }
{
    reads_stand();
}

/// Every founder of a group without managers serves, serves on in a merged run, and what happens there is accepted.
pub fn serving_stays()
    ensures founders { FoundersServe }
    ensures stays { ServingStays }
    ensures accepted { MergedAreAccepted }
{
    reads_stand();
}

/// What a founded note's Read shows at its place is what is kept of it: the answer of a Read directly behind its snapshot's entry.
pub fn kept_is_shown()
    ensures { KeptIsShown }
{
    reads_leave();
    serving_stays();
    notes_are_kept();
}

/// The merged list is one list; and a note that stood behind an entry of its own ticket could stand behind its key's next entry.
pub fn merged_is_single()
    ensures single { MergedIsSingle }
    ensures early { EarlyRuleFails }
{}

/// Where the tickets of each journal rise, what is made by putting each item in its place is the merged list.
pub fn merge_is_merged()
    ensures { MergedAreMerged }
{}

/// The tests of sameness tell just equal letters, and replies with equal answers.
pub fn sameness_is_equality()
    ensures letter { SameIsEqual }
    ensures letters { SameListsAreEqual }
    ensures answers { SameAnswersAreEqual }
{}
