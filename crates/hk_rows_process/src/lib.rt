//! The tests of nodes in processes of their own, through the top call.
#![tactic(auto)]

#[cfg(test)]
mod command;
#[cfg(test)]
mod meeting;
#[cfg(test)]
mod seen;
