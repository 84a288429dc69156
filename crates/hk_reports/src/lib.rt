//! What a manager was told by the processes of its group, and what its keeper hears of it.
//!
//! Each process reports at each beat how it stands, and each node asks for leases. [`Reports`] keeps the last report of
//! each process and the last asks of each node's number, by shards; and what the manager noted of itself: when it bound
//! a number, to which address it gave one, and what it proposed. From these [`Reports::heard`] makes what `hk_keeper`
//! decides by. [`Reports::managers_up`] and [`Reports::most_records`] are told on boards, by
//! [`Reports::was_lately_in_vain`] a newcomer is answered, and by [`Reports::ready_at`] it is known how long nobody was ready.
//!
//! It has no clock: its caller hands in the readings, in milliseconds, of one that does not go back, and shards 0 to 7.
//! The age of what came at a reading that is not behind is 0. At most 64 reports, numbers and addresses are kept,
//! whoever reports. Where there is no room, that one goes of which nothing came for the longest time: a node whose
//! number is forgotten so counts as silent for longer than it was, and as one that never asked.
//!
//! What is proved. Each call gives just what a definition of `specs/Reports.antt` makes of the lists that are kept,
//! and on want of memory all stays as it was. No list is ever longer than 64, and none has two reports of one ticket.
//! [`Reports::heard`] is `heard_by` of `specs/Hearing.antt`, field by field. A report is the last one of its ticket,
//! and with room takes no other's place (`ReportIsLast`, `OthersStay`). The bit of a manager is set exactly where that
//! is up, as the keeper takes it to be (`BitsAreManagersUp`, `UpAsTheKeeperSays`). What is heard of a node in a shard
//! is its last ask there (`LastAskCounts`, `OtherShardsStay`, `OtherNumbersStay`). The nodes that are heard of are
//! those that are bound and the members of the views, each once (`KnowsBoundAndMembers`, `KnownOnce`). An address was
//! seated in vain for ten minutes, or until a process there is ready or the number is bound to another one
//! (`VainForTenMinutes`, `ReadyIsNotInVain`, `LostIsNotInVain`); but not for the process to which the number was given
//! (`OwnIsNotInVain`). Of a manager's log the most records are known that were told (`MostRecordsStay`).
//!
//! What no clause says: that what is reported is true, and that a report of a number or of a manager's place comes from
//! who has it. Of two processes that say the same, the one counts that reported last.
#![tactic(auto)]

mod hearing;
mod kept;
mod laws;
mod reports;
mod steps;

pub use kept::{AskCame, Came, NumberKept, Proposed, SeatGiven};
pub use laws::{
    an_address_is_in_vain_for_ten_minutes, bits_are_managers_that_are_up,
    bound_nodes_and_members_are_heard, the_last_ask_counts, the_last_report_counts,
    the_most_records_are_known,
};
pub use reports::{IN_VAIN_FOR, MOST_PROCESSES, Reports};
