//! The tests of logs: one by hand, both ways, cut and damaged; and the file of a log on a disk.
#![tactic(auto)]

#[cfg(test)]
mod disk;
#[cfg(test)]
mod logs;
