//! Tests of the manager of a host.
#![tactic(auto)]

#[cfg(test)]
mod answers;
#[cfg(test)]
mod begin;
#[cfg(test)]
mod looks;
#[cfg(test)]
mod relays;
#[cfg(test)]
mod turns;
