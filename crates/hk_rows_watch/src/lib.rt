//! The tests of watches: over a shard in one thread, and beside a writer in another.
#![tactic(auto)]

#[cfg(test)]
mod watch;
#[cfg(test)]
mod watching;
