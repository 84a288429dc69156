//! Watches: a stored watcher is told rising stamps of one key, from what a shard shows.
//!
//! A *watch* has a number, a key, and the stamp that it was told last, at first the one from which it was kept. A *look* loads the cell
//! of the key once, without a lock, and tells the watcher where the cell shows a Valid row of the key with a greater stamp. So the stamps of
//! a watch's notices rise, and each is of a Valid row of its key; a stamp that was overwritten between two looks may be passed over. A look
//! finds its watch by number, whatever the count of watches, and takes no memory but where it tells.
//!
//! The caller looks with a reader of the cells of the shard that the watched keys belong to, and looks often enough for what it wants to
//! be told.
//!
//! What is proved. `look` fires once for each stamp that it sees above the last one, of a Valid row of the key that the
//! reader has seen, and then the watcher was told the key, the stamp and the content that the cell showed: a notice
//! without the watcher's own answer can't be given (`looks`). It touches no other watch (`others`), loads one cell at
//! most (`further`), and leaves the watch as it was for want of memory (`err`). Over every list of calls each kept
//! watch's stamps rise (`runs`, `rising`).
//!
//! What no clause says: that anyone looks, and how often a watcher is called beside that. One that answers want of
//! memory is told the same stamp by the next look.
#![tactic(auto)]

mod look;
mod run;
mod watch;
mod watcher;
mod watches;

pub use look::Look;
pub use run::{Notices, WatchCall, WatchCalls};
pub use watch::Watch;
pub use watcher::{Notice, Seen, Watcher};
pub use watches::{WatchFault, Watches};
