//! The tests of the words of commands of a group over hosts.
#![tactic(auto)]

#[cfg(test)]
mod commands;
#[cfg(test)]
mod secrets;
#[cfg(test)]
mod verbosities;
