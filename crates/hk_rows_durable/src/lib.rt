//! The tests of managers that keep a log, and of what a log gives.
#![tactic(auto)]

#[cfg(test)]
mod restored;
#[cfg(test)]
mod turns;
