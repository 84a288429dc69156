//! The tests of groups over hosts: what stands on the wire, how a group is founded, who holds a number, and what a manager wishes.
#![tactic(auto)]

#[cfg(test)]
mod founding;
#[cfg(test)]
mod hellos;
#[cfg(test)]
mod hosts;
#[cfg(test)]
mod inquiries;
#[cfg(test)]
mod rolls;
#[cfg(test)]
mod wishes;
