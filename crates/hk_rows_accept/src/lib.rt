//! Connections that are served by jobs of their own.
#![tactic(auto)]

#[cfg(test)]
mod counted;
#[cfg(test)]
mod failing;
#[cfg(test)]
mod groups;
#[cfg(test)]
mod jobs;
#[cfg(test)]
mod meeting;
#[cfg(test)]
mod talking;
