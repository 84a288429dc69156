//! The tests of a process's connections with others: when it dials again, what it writes behind which greeting, what it
//! takes of whom, and which connection ends which.
#![tactic(auto)]

#[cfg(test)]
mod asking;
#[cfg(test)]
mod channels;
#[cfg(test)]
mod entering;
#[cfg(test)]
mod incoming_conns;
#[cfg(test)]
mod outside;
#[cfg(test)]
mod retries;
