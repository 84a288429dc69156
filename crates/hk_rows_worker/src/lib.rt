//! Examples of desks at the shards of a node.
#![tactic(auto)]

#[cfg(test)]
mod clock_desks;
mod completing;
#[cfg(test)]
mod conns;
#[cfg(test)]
mod desks;
#[cfg(test)]
mod founding;
#[cfg(test)]
mod late;
