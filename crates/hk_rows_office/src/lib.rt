//! The tests of what a manager keeps of what it is told, what it tells of nodes that asked it and of who is out, who may leave, and when it tells that all is lost.
#![tactic(auto)]

#[cfg(test)]
mod asks;
#[cfg(test)]
mod leaving;
#[cfg(test)]
mod lost;
#[cfg(test)]
mod reports;
#[cfg(test)]
mod unbound;
