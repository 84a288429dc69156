//! A buffer for bytes that come off a connection in pieces and are taken off its front.
//!
//! Bytes come by [`Buffer::feed`], which copies them, or are written into the buffer's own room: `make_room`, then `room` lends it, then `filled`. They go by
//! `give`, which lends them until bytes come, or by `skip`. Each byte is copied into the buffer once, and moved within it at most once on average.
//!
//! The caller takes no more than is unread (`give`, `skip`), and tells no more as filled than there is room.
//!
//! What is proved. What is unread, what was given last and what stands in the room are exact after each call. A `feed`
//! or a `make_room` that finds no memory leaves the unread bytes as they were (`err`, `same`).
#![tactic(auto)]

mod buffer;

pub use buffer::Buffer;
