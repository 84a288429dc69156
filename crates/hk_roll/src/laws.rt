//! The laws of rolls, over the definitions of [`crate::Roll::seat`] and [`crate::Roll::claim`].

ghost use Rattle.hk_roll.specs.Worked.{NewcomersGetTheirOwn, AnothersClaimIsRefused, MinorityChanges, OldNumbersStayUnbound};
ghost use Rattle.hk_roll.specs.Laws.{NamesWhomMostTell, BindsByTheRule, AnswersTellTheRoll, FoundingBindsPlaces, ManagersStay, LogTellsTheRoll, OneHolder, HoldersStay, OneHolderIsTold};

/// A ticket is named exactly where more than half of the managers told it.
pub fn boards_name_whom_most_tell()
    ensures { NamesWhomMostTell }
{}

/// A manager binds only a number that no shard has given or whose node is a member of all, and only one that is unbound or that a majority's boards bind to the
/// asker; and whom it answers so has the number in its roll.
pub fn numbers_are_bound_by_the_rule()
    ensures rule { BindsByTheRule }
    ensures answers { AnswersTellTheRoll }
{}

/// A founding binds the places of its hosts, and those of managers for good.
pub fn foundings_bind_the_places()
    ensures places { FoundingBindsPlaces }
    ensures stay { ManagersStay }
{}

/// A manager that begins again from its log has just the roll that it had.
pub fn rolls_are_made_again()
    ensures { LogTellsTheRoll }
{}

/// Whatever newcomers do at once, however late boards come and how often, and whoever begins again: one ticket at most is ever bound to a number by a majority,
/// and told so by one, and those that bind it do so for good.
pub fn a_number_has_one_holder()
    ensures one { OneHolder }
    ensures stays { HoldersStay }
    ensures told { OneHolderIsTold }
{}

/// What two newcomers at once come to, by runs that are worked out.
pub fn two_newcomers_at_once()
    ensures own { NewcomersGetTheirOwn }
    ensures refused { AnothersClaimIsRefused }
    ensures changes { MinorityChanges }
    ensures unbound { OldNumbersStayUnbound }
{}
