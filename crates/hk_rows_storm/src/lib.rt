//! The tests of storms: journals and notes as one run.
#![tactic(auto)]

#[cfg(test)]
mod assemble;
#[cfg(test)]
mod conclude;
#[cfg(test)]
mod storm;
