//! The tests of what carries bytes: the outside, requests, frames, links and connections.
#![tactic(auto)]

#[cfg(test)]
mod callback;
#[cfg(test)]
mod conn;
#[cfg(test)]
mod frame;
#[cfg(test)]
mod link;
#[cfg(test)]
mod outside;
#[cfg(test)]
mod overlap;
#[cfg(test)]
mod pieces;
#[cfg(test)]
mod request;
