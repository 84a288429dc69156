//! Examples of workers at the shards of a node.
#![tactic(auto)]

mod gates;
#[cfg(test)]
mod nodes;
mod quiet;
#[cfg(test)]
mod workers;
