//! A shard of the only node of a group, and writes to its keys.
//!
//! Commands and tests that look at one shard begin here: [`lone_shard`] founds it, and [`write`] makes one step of it.
//!
//! What is proved. `lone_shard` is a shard of that node at which nothing has happened. `write` makes just that step
//! (`written`), and after want of memory the shard is as it was (`err`).
#![tactic(auto)]

mod founding;
mod writing;

pub use founding::lone_shard;
pub use writing::{content_of, key_of, write};
