//! A whole group with every letter ever sent: what a script drives, and what the promises speak of.
//!
//! A world is a machine without threads. An event names an actor, a node or a manager, and what happens to it: a call, a letter
//! that is taken, a tick of its clock, a crash, a view. [`World::step`] makes it, or refuses it by name and changes nothing. Any
//! letter ever sent may be taken, at any time, any number of times, or never: so a loss is a letter that is never taken, a repeat
//! one that is taken again. Clocks of live actors run apart by one part in ten and the skew at most (`hk_clocks`). A group with
//! managers agrees on its views and grants its leases by itself; in one without, they are events. What each event does is a
//! definition, `specs/Steps.antt`. The caller owes times up to `MAX_TIME`, a header within its limits, and nothing else.
//!
//! What is proved. `step` makes exactly the step of `world_step`, or tells exactly its refusal, or finds no memory;
//! after the last two the world is as it was (`IsStepOf`). What it shows has the node that acted, with the report of
//! its step. Every world is sound (`worlds_stay_sound`), and worlds worked by hand are computed from the definitions
//! (`worked_worlds`).
#![tactic(auto)]

mod fault;
mod laws;
mod process;
mod shown;
mod worked;
mod world;

pub use fault::WorldFault;
pub use laws::worlds_stay_sound;
pub use process::{ManagerProcess, Process};
pub use shown::{Acted, Shown};
pub use worked::worked_worlds;
pub use world::World;
