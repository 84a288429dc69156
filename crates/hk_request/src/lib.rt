//! The requests of the memcached text protocol, in the profile of this store.
//!
//! A line is read as its words, which spaces part. It is a request, or the head of a store whose block of data comes
//! behind it; else it is refused for its first fault. A refused store tells how long its block is, so that a block is
//! never taken for commands. The grammar is `IsHead` in `specs/Grammar.antt`; the tests, in their order, stand in
//! `specs/Reading.antt`. `read_request` meets both.
//!
//! | Line | Words |
//! |---|---|
//! | `get` or `gets`, then one key or more | 2 or more |
//! | `set`, `add` or `replace`, then `KEY FLAGS EXPTIME BYTES [noreply]` | 5 or 6 |
//! | `cas KEY FLAGS EXPTIME BYTES TAG [noreply]` | 6 or 7 |
//! | `incr KEY NUMBER [noreply]`, `decr KEY NUMBER [noreply]` | 3 or 4 |
//! | `delete KEY [noreply]` | 2 or 3 |
//! | `quit`, `version` | 1 |
//!
//! FLAGS and BYTES are numbers of 32 bits, TAG and NUMBER of 64, all of 1 to 20 decimal digits. BYTES is at most
//! 1,048,576. EXPTIME must be 0, since nothing expires here.
//!
//! What is proved. `read_request` reads exactly the lines of the grammar (`found`, `only`); every other line gets its
//! first fault, and the length of the block that belongs to it (`exact`). `finish` gives the update exactly where the
//! block ends as it must.
#![tactic(auto)]

mod keys;
mod line;
mod request;
mod words;

pub use keys::Keys;
pub use line::{finish, read_request};
pub use request::{BlockFault, Head, Request, RequestCause, RequestFault, StoreHead, Verb};
