//! The commands `init`, `status` and `leave`, over whoever asks the managers of a group's hosts.
//!
//! [`init`] founds a group: it asks each host to LOOK, and where all managers are reserved for its founding it sends FOUND
//! to each with the tickets that they told, within 5 s of the first LOOK. Then it asks them for STATUS, round by round,
//! until in one round all tell that they are open. To LOOK again would reserve them, and so keep them from opening.
//! [`status`] writes what the first host tells that answers; that all is lost it writes only where a majority of the hosts
//! answers that know of the group, and all of these tell it. [`leave`] asks all hosts to have a node leave, round by round, until none of them has it
//! leave any more, since they know no such member. The node of a host it looks up before, by STATUS, once. All run over an [`AskHost`], which asks the manager of the
//! host of a place, reads a clock and rests.
//!
//! What is proved is said of what a command did and was told, in order (`specs/Deeds.antt`). `specs/Init.antt` says by
//! cases what `init` does and how it ends (`Inits`), over its parts in `specs/Phases.antt`: each refusal comes exactly
//! where it is said there, and what was written is exactly the line of the answer. The laws say the same of each FOUND: it
//! was sent behind a LOOK of this founding that each host answered by STATE, where all have one lease and one skew and the
//! node of one waits, with just the tickets that they told, right behind a reading less than 5 s after the one before the
//! first LOOK (`FoundsWhatIsReserved`). And where a group is told to be founded, all of its managers told, in one round,
//! that they are open with this founding (`FoundedMeansAllOpen`). What `leave` does and how it ends is that of `specs/Leaving.antt`.
//!
//! Its caller owes it a founding that is not 0 and that nobody else draws, the name of the group, and the number of its
//! hosts, 1 to 9.
//!
//! What no clause says: how long a call takes; that all managers are open in the end, and what a status tells, which rests on them; and, where
//! memory was wanting, for which want.
#![tactic(auto)]

mod asking;
mod command;
mod fault;
mod founds;
mod laws;
mod leaves;
mod lines;
mod looks;
mod lookup;
mod opens;
mod texts;

pub use asking::AskHost;
pub use command::{init, leave, status};
pub use fault::{CommandFault, NoAnswer};
pub use founds::FOUND_WITHIN;
pub use laws::foundings_are_of_what_was_reserved;
pub use leaves::{LEAVE_REST, LEAVE_ROUNDS};
pub use opens::{REST, ROUNDS};
pub use texts::put_fault;
