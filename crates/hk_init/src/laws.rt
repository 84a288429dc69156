//! The laws of `init`, over the definition of what it does.

ghost use Rattle.hk_init.specs.Laws.{FoundsWhatIsReserved, FoundedMeansAllOpen};

/// FOUND is sent only to managers that are reserved and agree, in time and with what they told; and a group is founded
/// only where all of its managers told that they are open.
pub fn foundings_are_of_what_was_reserved()
    ensures reserved { FoundsWhatIsReserved }
    ensures opened { FoundedMeansAllOpen }
{}
