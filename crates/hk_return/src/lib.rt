//! Why a manager may stop and return.
//!
//! A manager keeps a log of what Paxos says: its proposals, and the letters of Paxos that it took. Each batch of steps
//! is one record, and no letter of a batch goes out before its record is on the disk. Grants are not logged, nor is the
//! clock: that would cost a write for each. So a manager that returns makes the steps of its log anew, and is what it
//! was but for two things. Its clock begins anew. And for each member of each view that it came to hold by its log it
//! notes an until, as if it granted it a lease at that moment: whatever it granted in its earlier lives, by letters
//! that went out, went to members of those views and ends sooner. Then it refuses to let a view begin, by the rule that
//! it has.
//!
//! Two things follow, each over a machine of its own. Leases: in every run in which managers stop and return, a view
//! that a majority lets begin leaves out no live node whose lease still runs. Of clocks it needs one direction of the
//! rate, within one life of a manager at a time, with the skew anew in each: while both run, from one moment of a life
//! to a later one, a manager's clock goes by at most eleven tenths of what the node's goes by, and the skew. Between
//! two lives its clock may do what it will; but the reading to which it adds the wait at its return must come behind
//! the last step of the life before. Agreement: as others see them, managers that return agree as managers that never
//! stop, whatever their logs lose of what was not synced.
//!
//! The crate has laws alone. Trusted are the disk, that it gives back what it was told to keep, whole and in order, and
//! behind it at most some first records of what was written since; that one process at a time has a log; and the
//! clocks.
//!
//! What is proved. Of *the log* (`specs/Log.antt`), at each moment of every run of a process, however often it stops
//! (`logs_are_replayed`): by its log a manager is what it is, but for clock and untils; from whatever first records a
//! stop leaves behind the synced ones, it is made one that it was behind a batch; each letter that went out is of a
//! step of a synced batch (`replay`). The manager that returns has for each member of each view that it came to hold by
//! its log an until no earlier than that of a lease granted then (`returned`), and so for each node to which a letter
//! that ever went out granted a lease (`covered`). Asks of these nodes, whose answers go nowhere, note just that
//! (`asks`).
//!
//! Of *agreement* (`specs/Group.antt`), with unsynced steps and their letters lost at each stop: there is a council in
//! which nobody stops, which agrees, has these managers but for clocks and untils, learned each view that they hold or
//! held by their logs, and sent each letter that went out (`returning_managers_agree`).
//!
//! Of *leases* (`specs/Machine.antt`), `returned_managers_let_views_end`: each view that any node has installed
//! (`installed`), and each for which a majority sent ACTIVATE (`letters`). Premises: the views are one for each epoch
//! and leave a node out for good; nodes with a lease from the start are members of the first view; of clocks
//! `IsPacedForLeases` (`specs/Lives.antt`): the rate as above, a node runs once and its clock never falls, all clocks
//! read 1 at least, and founders and managers in their first lives run from the first moment on.
//!
//! Worked runs: a manager stops in the midst of an instance of Paxos (`a_log_is_lost_in_part`); one returns, grants and
//! lets a view begin (`a_manager_returns`); one that notes nothing, or only the view at the end of its log, is not safe
//! (`a_manager_that_forgets_is_not_safe`); where the disk lost what was synced, an until for a view that comes again
//! soon keeps the next one from beginning (`a_view_may_come_again`): the law never needs this event, `Note`, and it
//! does not help a manager that skips the lost view.
//!
//! What no clause says: that worlds with returns are both machines at once. That a program's turns are batches of these
//! steps says `hk_durable`, and `hk_managing` has the loop that makes them.
#![tactic(auto)]

mod law;

pub use law::{
    a_log_is_lost_in_part, a_manager_returns, a_manager_that_forgets_is_not_safe,
    a_view_may_come_again, logs_are_replayed, returned_managers_let_views_end,
    returning_managers_agree,
};
