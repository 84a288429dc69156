//! Who is where in a group, as the managers' boards tell it.
//!
//! Each process asks each manager for its board at each beat, and keeps the last one that came of each, in [`Boards`].
//! More than half of all managers are a *majority*, also where of some no board came. By majorities of the last boards
//! it tells which process holds a node's number and where that one is reached, who was left out, whether the group is
//! another one by now, and, to a process whose own manager is not open, with which founding the group is and to which
//! tickets its managers are bound. One manager's word is taken alone for an address, for whom a newcomer asks first, for
//! who is ready, and for how many records the own manager once had.
//!
//! A board counts where its manager is open, with the founding that is asked for. A line binds a node's number to its
//! ticket, whatever mark it has, but for that of one that was left out. Of that one a manager tells it by the number, or
//! in the line without a number that it has for a process which reports by a number that is bound to no such process
//! there: a process has one number for as long as it runs.
//!
//! What is proved. Each answer is that of its definition over the list of the last boards (`specs/Holders.antt`,
//! `specs/Managers.antt`). A process is told as the holder of a number exactly where a majority's boards bind it
//! (`HeldByMost`), and whichever boards came to two processes, and however old they are, both never take different ones
//! for the holder (`OneHolderIsHeard`), over the runs of a group's managers that `hk_roll` defines. Each holder has an
//! address, that of the newest board which binds the number to it (`HoldersAreReached`).
//!
//! Its caller owes a place for each board that is the one of the manager that sent it, and readings of one clock. No
//! clause says that a board is new: an old one of a manager that is not heard any more stays the last one.
#![tactic(auto)]

mod boards;
mod heard;
mod holders;
mod laws;
mod managers;
mod nodes;
mod told;

pub use boards::Boards;
pub use heard::HeardBoard;
pub use laws::{holders_are_reached, holders_are_told_by_most, processes_agree_on_holders};
pub use told::TicketsTold;
