//! The tests of what the threads of a process share: what it is, whom it knows, what waits for its manager, and when
//! a refusal is told, who is gone, and what lines for the operator are.
#![tactic(auto)]

#[cfg(test)]
mod identities;
#[cfg(test)]
mod mailboxes;
#[cfg(test)]
mod notices;
#[cfg(test)]
mod outside;
#[cfg(test)]
mod seeking;
#[cfg(test)]
mod shared_states;
#[cfg(test)]
mod standings;
#[cfg(test)]
mod telling;
