//! The clocks of the live actors of a group, which need not agree, but run apart by at most a rate.
//!
//! While two actors are live, a thousand milliseconds of the one may be eleven hundred of the other, and a *skew* is allowed
//! beside. So for each ordered pair there is a *lead*: how far the first clock ran ahead of eleven tenths of the second, counted
//! from the moment that was best for it, in thousandths of a millisecond. It is 0 from when both are live. [`Clocks::tick`] and
//! [`Clocks::tick_all`] refuse what would take a lead above a thousand times the skew, and that is exactly what would not keep the
//! rate.
//!
//! Times are milliseconds, up to `MAX_TIME`, which the caller owes. That it starts no actor again after a stop is the caller's
//! matter too: an actor that starts is taken for a new one.
//!
//! What is proved. Each call makes exactly the step of `clock_step`, or tells exactly why not, or finds no memory;
//! after these the clocks are as they were (`IsStepOf`). Where no clock falls the leads decide the rate
//! (`leads_decide`). The clocks of every run keep it (`run_paced`). What a rise is refused for is exactly what would
//! not keep it, and the first actor that would be left behind is told (`refused_exactly`, `first_left_told`).
//!
//! A world's step makes a step of its clocks. That the world keeps the rate, and that it refuses a rise exactly where the rate
//! would not be kept, are laws of `hk_managed`.
#![tactic(auto)]

mod clocks;
mod fault;
mod laws;
mod leads;
mod pace;
mod rise;
mod values;

pub use clocks::Clocks;
pub use fault::ClockFault;
pub use laws::{first_left_told, leads_decide, refused_exactly, run_paced, stop_undoes_start};
pub use leads::Leads;
pub use pace::Pace;
pub use rise::Rise;
