//! What every layer speaks of: keys and what they hold, stamps, operations and answers, views,
//! ballots and letters.
//!
//! A *register* is what one key is to its clients: a content or nothing, and a tag. What an operation answers and
//! leaves is a definition, `act` in `specs/Register.antt`; all that the other crates promise comes down to it.
//!
//! Data and long keys share their bytes: to `share` one counts an owner and copies no byte. A key of at most 22 bytes has them
//! in itself.
//!
//! What is proved. [`Key::read`] and [`Data::read`] give exactly the bytes, or exactly the first test that they fail
//! (`exact`). `share` gives an equal value. Keys are equal and ordered as their lists of bytes are; `Key::byte_sum` is the sum
//! of a key's bytes. `after_write`, `after_rmw` and `tag` of a [`Stamp`] are exact. `View::first` is the first view (`exact`),
//! and a view for 1 to 16 nodes (`is_view`). A [`Sequence`] is its list, and a push that finds no memory leaves it as it was
//! (`err`).
#![tactic(auto)]

mod block;
mod call;
mod data;
mod key;
mod length;
mod letter;
mod memory;
mod padded;
mod sequence;
mod stamp;
mod time;
mod view;

pub use call::{Answer, CallNo, Content, Op, Replies, Reply, State, Why, share_content};
pub use data::{Data, DataFault, MAX_DATA_LEN};
pub use key::{Key, KeyFault, MAX_KEY_LEN, share_key};
pub use length::{MAX_FRAME_LEN, frame_length};
pub use letter::{Actor, Body, CopyItem, CopyItems, Letter, Letters, SHARDS};
pub use memory::Memory;
pub use sequence::Sequence;
pub use stamp::{Kind, MAX_VERSION, NodeId, Stamp};
pub use time::MAX_TIME;
pub use view::{Ballot, Change, Members, View, Voted, copy_view};
