//! The tests of the commands `init`, `status` and `leave`, over a group of three in memory whose managers are founded and open as real ones do.
#![tactic(auto)]

#[cfg(test)]
mod commands;
#[cfg(test)]
mod group;
#[cfg(test)]
mod leaves;
#[cfg(test)]
mod lookups;
#[cfg(test)]
mod texts;
