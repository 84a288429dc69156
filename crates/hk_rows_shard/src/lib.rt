//! The tests of shards and of what they show.
#![tactic(auto)]

#[cfg(test)]
mod cells;
#[cfg(test)]
mod joint;
