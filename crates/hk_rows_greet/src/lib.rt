//! The tests of greetings and requests over connections: who is taken, who is told why not, and that no byte is lost.
#![tactic(auto)]

#[cfg(test)]
mod accepting;
#[cfg(test)]
mod dialling;
#[cfg(test)]
mod outside;
#[cfg(test)]
mod requests;
