//! The tests of event loops: turns of a connection, whatever pieces and pauses it has.
#![tactic(auto)]

#[cfg(test)]
mod cuts;
#[cfg(test)]
mod ends;
#[cfg(test)]
mod limits;
#[cfg(test)]
mod others;
#[cfg(test)]
mod paused;
#[cfg(test)]
mod turns;
