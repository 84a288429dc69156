//! Where several keys of a shard stood together.
//!
//! A reader of several cells finds of each key the row that was published last, and the ticket of the step that published
//! it. Each cell has a rule of its own, so that the cells showed these rows at one moment is not known from them. The
//! journal of the node decides it: [`place`] makes its steps again, and looks whether the rows that were found stood in
//! the node together, at the greatest of their tickets. [`Changes`] keeps of a journal which step changed which row, so
//! that many reads are placed by look-ups alone.
//!
//! The caller gives a journal that is a replay from its base, and whose events are such as a node may be given: a shard's
//! base and journal are.
//!
//! What is proved. `place` answers the greatest of their tickets exactly where for each key the last step up to it that
//! changed its row is the snapshot's (`last_change`), and else `NoPlace` with the first key for which it is another one
//! or none, and with both tickets (`place_of`). Of no snapshots the place is 0. `Changes` tells the same of each key and
//! moment (`of`, `last_change`, `place`). The commands use these; [`place`] is run by tests alone.
//!
//! What a place means (`joint_reads_are_cuts`): whatever readers of a shard's cells were shown, each at any time, where
//! it has a place by the shard's base and journal there is one state of the node, that behind the journal's steps up to
//! the place, in which the row of each key is what its snapshot shows: a consistent cut. A row that was published before
//! the journal began has no place by it, since the journal does not have its step: a caller that keeps earlier journals
//! may place by all of them, joined (`hk_journal`, `journals_are_joined`).
//!
//! What no clause says here: that the cells showed these rows at one moment.
#![tactic(auto)]

mod changes;
mod laws;
mod placing;

pub use changes::Changes;
pub use laws::joint_reads_are_cuts;
pub use placing::{PlaceFault, place};
