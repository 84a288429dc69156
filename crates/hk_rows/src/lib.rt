//! The tests that cross crates, most of them tables: what goes in, and what must come out.
#![tactic(auto)]

#[cfg(test)]
mod drill;
#[cfg(test)]
mod keys;
#[cfg(test)]
mod leases;
#[cfg(test)]
mod lines;
#[cfg(test)]
mod orders;
#[cfg(test)]
mod paxos;
#[cfg(test)]
mod replies;
#[cfg(test)]
mod requests;
#[cfg(test)]
mod storms;
#[cfg(test)]
mod turns;
#[cfg(test)]
mod usage;
