//! The tests of peers: what frames put, in whatever pieces they come, and what is sent.
#![tactic(auto)]

#[cfg(test)]
mod outside;
#[cfg(test)]
mod send;
#[cfg(test)]
mod serve;
#[cfg(test)]
mod turns;
