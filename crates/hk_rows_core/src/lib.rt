//! The tests of what a group is made of: keys and letters, rows, batches, clocks, nodes, worlds, their runs and scripts.
#![tactic(auto)]

#[cfg(test)]
mod base;
#[cfg(test)]
mod clocks;
#[cfg(test)]
mod copy;
#[cfg(test)]
mod key;
#[cfg(test)]
mod node;
#[cfg(test)]
mod run;
#[cfg(test)]
mod script;
#[cfg(test)]
mod values;
#[cfg(test)]
mod world;
