//! The laws of what is kept, and of what a keeper hears of it.

ghost use Rattle.hk_reports.specs.Laws.{ReportIsLast, OthersStay, BitsAreManagersUp, UpAsTheKeeperSays, LastAskCounts, OtherShardsStay, OtherNumbersStay, KnowsBoundAndMembers, KnownOnce, VainForTenMinutes, ReadyIsNotInVain, LostIsNotInVain, OwnIsNotInVain, MostRecordsStay};

/// A report takes the place of its ticket's last one, and of no other where there is room.
pub fn the_last_report_counts()
    ensures last { ReportIsLast }
    ensures others { OthersStay }
{}

/// The bit of a manager is set exactly where that is up, and it is so for the keeper too.
pub fn bits_are_managers_that_are_up()
    ensures bits { BitsAreManagersUp }
    ensures keeper { UpAsTheKeeperSays }
{}

/// What is heard of a node in a shard is its last ask there, whatever else is asked where there is room.
pub fn the_last_ask_counts()
    ensures last { LastAskCounts }
    ensures shards { OtherShardsStay }
    ensures numbers { OtherNumbersStay }
{}

/// A keeper hears of the nodes that are bound or members, and of no other, and of each once.
pub fn bound_nodes_and_members_are_heard()
    ensures just { KnowsBoundAndMembers }
    ensures once { KnownOnce }
{}

/// An address was seated in vain for ten minutes, or until a process there is ready or the number is another one's; but not for
/// the process to which the number was given.
pub fn an_address_is_in_vain_for_ten_minutes()
    ensures until { VainForTenMinutes }
    ensures ready { ReadyIsNotInVain }
    ensures lost { LostIsNotInVain }
    ensures own { OwnIsNotInVain }
{}

/// Of a manager's log the most records are known that its reports told.
pub fn the_most_records_are_known()
    ensures { MostRecordsStay }
{}
