//! What the threads of a storm did, as runs.
//!
//! A storm's threads make calls at the desks of nodes. Each shard of each node keeps a journal, and each read that took
//! no lock is noted. [`conclude`] puts the journals and the notes of each shard number together into a run, looks
//! whether the calls of these runs are just those that were drawn, and counts them by what became of them. That the
//! order of each key in each run is legal is proved, and stands in the contract of `conclude`. The caller owes what
//! [`are_groups`] tests, and the limits of [`StormOpts`].
//!
//! What is proved (`IsConcluded`). Done: each group comes to its run, the calls of the runs are just the drawn ones,
//! each as often, by node, key and operation, and the two lines tell how many were answered, busy, aborted or have no
//! reply, by the first reply to each; these add up to the calls (`AreLegal`). Gap: the line names what `assemble` tells
//! of the first group that comes to no run, or the first drawn call that stands another number of times in the runs,
//! with both numbers, or else that other calls stand there too (`IsFirstUnfit`, `IsUnlike`). At WriteFault the sink's
//! faults rose and a front was written; at Memory nothing was. `draw_calls` gives the drawn calls, `is_storm` and
//! `are_groups` are true just where what `conclude` asks for holds, and which parcels a [`StormGate`] keeps is exact
//! (`kept_drawn`). `storm` tells what `conclude` does of eight groups (`IsStormed`).
//!
//! The word `legal` is no finding of its own: by the law of all runs (`runs_are_legal` of `hk_safety`) each order of a
//! run is legal, and no checker looks at it again.
//!
//! What no clause says: that the journals and notes are those of the storm's threads, and how fresh a read without a
//! lock is. A note's rule forgives one of long ago.
#![tactic(auto)]

mod caller;
mod calls;
mod compare;
mod crew;
mod draw;
mod ending;
mod follow;
mod founding;
mod gate;
mod groups;
mod losses;
mod opts;
mod outcomes;
mod quiet;
mod report;
mod running;
mod seat;
mod storming;
mod tally;
mod text;
mod wiring;
mod worker;
mod written;

pub use calls::StormCall;
pub use compare::Unlike;
pub use draw::draw_calls;
pub use ending::conclude;
pub use gate::StormGate;
pub use groups::{StormGroup, StormGroups, are_groups};
pub use losses::Losses;
pub use opts::{StormOpts, is_storm};
pub use outcomes::Outcomes;
pub use report::Report;
pub use storming::storm;
