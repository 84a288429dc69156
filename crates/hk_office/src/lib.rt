//! What a host's manager answers, what it logs before it answers, and what it wishes.
//!
//! The manager of a host has eight cores, which agree on views and grant leases, and beside them an [`Office`]: how
//! the group was founded and opens, to whom numbers are bound, what processes told, who is to leave, and which
//! changes of views it wishes. It is founded of [`hk_stage::Opening`], [`hk_roll::Roll`], [`hk_reports::Reports`] and
//! [`hk_keeper::Heard`], and puts together what these have apart.
//!
//! [`Office::answer`] takes an inquiry and gives its answer, and what has to be in the log first.
//! [`Office::hear_board`] and [`Office::tick`] give what has to be in the log where it opens so. [`Office::intents`]
//! tells at each beat what the cores are to do, and [`Office::asks_seen`] how long ago nodes asked them for leases, for the
//! reports to other managers. [`Office::status`] tells how the group stands, for who asks that.
//!
//! Its caller hands in readings of a clock that does not go back, the views that the cores hold, and what boards told
//! of a number that is claimed. It makes sure what is to be logged before it gives the answer, and before it calls
//! the office again: where the log does not take it, nothing of this manager is told any more, since the office is
//! behind the step already. It notes each ask for a lease that a core took, and each view that a core let begin.
//!
//! What is proved. Each call makes just what `specs/` has by cases of what comes (`inquired`, `board_heard`,
//! `ticked`, `intended`), and gives just what it has of a status (`status_told`) and of asks (`asks_seen`). These stand on the definitions of the
//! crates below and say nothing of them anew. Where memory is wanting, all is as it was but what was heard: a report may
//! have been taken, and a number may be noted as bound or as given at this reading. What a step logs makes of the log's
//! stage and roll just those behind the step (`LogTellsTheOffice`), so a process that begins by its log stands by all
//! that was answered. Who is told that a number is its own has it in the roll (`AnswersAreBound`). Before the group is
//! open nothing is bound but by FOUND, and nothing is to be done (`NothingBeforeItIsOpen`). Of an inquiry that names no
//! founding out of range (`HasFoundingInRange`), what is logged may stand in a log, and what is answered in a frame
//! (`StaysInRange`).
//!
//! What no clause says: the text of a refusal beside its code. That lines of a board name the processes that are
//! meant rests on tickets that differ.
#![tactic(auto)]

mod answer;
mod asks;
mod board;
mod founding;
mod laws;
mod leaving;
mod marks;
mod numbers;
mod office;
mod refusal;
mod response;
mod seating;
mod stages;
mod telling;
mod wishing;

pub use answer::{OfficeAnswer, OfficeStep, has_founding_in_range};
pub use laws::{
    answers_are_bound, answers_stay_in_range, nothing_before_it_is_open, offices_are_made_again,
};
pub use office::{GroupLog, Leave, Office};
pub use refusal::OfficeRefusal;
pub use telling::Acting;
pub use wishing::Wished;
