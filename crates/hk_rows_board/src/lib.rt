//! The tests of what processes know of their group by managers' boards, and of the lines that tell how a group stands.
#![tactic(auto)]

#[cfg(test)]
mod boards;
#[cfg(test)]
mod status;
