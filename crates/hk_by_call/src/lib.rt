//! What is kept for calls, by their numbers, until they are answered.
//!
//! Most calls are answered before another one comes. So the newest stands beside a map until another one comes, and what
//! is asked of it, or written in its place, costs no search. Callers see one list, in rising order of the numbers, and
//! not where an entry stands.
//!
//! A caller keeps nothing more for a call that has something already, as `get` tells.
//!
//! What is proved. `get` and `get_mut` find just what is kept for the call, and what is written through `get_mut` stands
//! in its place alone. `insert` puts the entry at its place, and where it finds no memory nothing has changed and what
//! was to be kept comes back (`exact`, `err`, `back`). `remove` takes out what it gives (`exact`, `value`). All others
//! stay (`others`). That the newest stands beside the map no clause says: it is for speed alone.
#![tactic(auto)]

mod by_call;

pub use by_call::ByCall;
