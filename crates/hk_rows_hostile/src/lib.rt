//! The tests of what goes wrong, over the outside in memory: reads and writes that fail, bytes that are cut off, too long or no frame, and letters
//! from outside a group. Each case has its answer.
#![tactic(auto)]

#[cfg(test)]
mod connection;
#[cfg(test)]
mod drill;
#[cfg(test)]
mod frame;
#[cfg(test)]
mod node;
