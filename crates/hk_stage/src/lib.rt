//! How a group is founded, as one of its managers sees it.
//!
//! The managers of a group are fixed by its hosts' list, and only the number of its *founding* has to be agreed on. The
//! command `init` draws it, asks each manager to *look* at it, and once all are *reserved* for it sends it to each. A
//! manager logs it, and *opens* once it has heard from the others that they were founded so too. Before, it takes no
//! letter and sends none, so nothing of a founding that was cut short is ever seen.
//!
//! [`Opening`] is what a manager knows of this, and [`Opening::step`] what an event makes of it, as `specs/Opening.antt` has it by cases. The caller hands in
//! the readings of a clock that does not go back while its process runs. It writes what a step logs, and only then takes the step and answers.
//!
//! What is proved. An open manager stays so with its founding (`OpenForGood`). One opens only by boards of its own
//! founding while it is reserved for none, or alone (`OpensByItsOwn`). A founding is logged only where FOUND tells it
//! to a manager that is reserved for just this one (`FoundWhileReserved`), and what a step logs tells the stage behind
//! it (`LogTellsTheStage`). Whatever a founding that was cut short left at a manager that is not open: once it is
//! reserved for no other, LOOK, FOUND within 10 s and then boards by which each other manager tells the new founding
//! open it, whatever boards come between (`CanBeFoundedAnew`).
//!
//! Of *the group* of at most 9 managers (`specs/Group.antt`), in every run, with boards that are lost, late or taken
//! again, processes that end and begin with what their logs tell, and `init` typed by anybody at any moment: never are
//! two managers open with different foundings (`NeverTwo`); where one is open with a founding, there is an open one
//! that each other one told that founding, so all were founded with it, each at some moment (`OpenMeansAllFounded`). It
//! needs no clock but each manager's own, which does not go back within a life.
//!
//! What no clause says: that a founded group is opened in the end. That rests on `init` and on boards that come.
#![tactic(auto)]

mod event;
mod laws;
mod opening;
mod stage;

pub use event::{Board, Logged, StageAnswer, StageEvent, StageRefusal};
pub use laws::{
    foundings_are_logged, foundings_can_be_made_again, managers_open_by_their_own_founding,
    two_foundings_never_open,
};
pub use opening::{Opening, OpeningStep, RESERVED_FOR, Reservation};
pub use stage::Stage;
