//! The shards of a node under their locks, and the desks that ask operations at them.
//!
//! A node has eight shards, each under a lock of its own ([`Shards`]); the numbers of the steps of all shards come from
//! one [`Tickets`]. A *post* ([`Post`]) is a thread's place at them: its readers of the shards' cells and leases, its
//! inlets, its outlets to other nodes, and the numbers of its calls. A worker makes its turns at a post ([`work`]): it
//! gives the parcels that come to their shards, asks managers for leases and sends again what waits
//! (`specs/Working.antt`). It may sleep while its post rests ([`Post::rests`]), until the bell of the shards is rung.
//!
//! A [`NodeDesk`] asks operations at a post: it makes the call under the shard's lock, and where the update has to wait
//! for other nodes it looks again until the answer was delivered; an update may also be begun, and finished behind
//! others ([`Post::begin`], [`Post::finish`]). Who waits for what, and until when, stands in `src/waiting.rt`. What it
//! tells is shown by what its post has seen of the key's cell (`specs/Asking.antt`). A [`ClockDesk`] has a clock too:
//! it tells a read from what the key's shard shows, with no lock, where that serves, and else raises the shard's clock
//! and asks as a [`NodeDesk`] does.
//!
//! The caller founds the shards of all its nodes, names their cells once (`Places` of `hk_locked`), gives each post of a node another number, and ticks the
//! shards to its clock.
//!
//! What is proved of asks, all eight operations (`AsksAtPost`). An answer is that of its row of the table (`Shown`) by
//! what the post has seen of the key's cell and its lease, with a load of both. `Unknown` comes only after 100,000
//! looks, at each of which the update had not ended; `Spent` exactly where the post has made 4,294,967,295 asks. A
//! [`ClockDesk`] tells a read so by a lease loaded in this read and a reading of its clock behind these loads, or asks its
//! post behind a tick (`AsksByClock`). What is told there without beginning an update is given only where the lease runs
//! by a reading behind the step; else it is told that the lease may be over, and may be asked again (`TellsByClock`). That
//! the reading came behind what was seen, [`DeskClock`] tells of both (`was_read`). Where a lease never ends no clock is
//! read for that. An update that was begun is told as of the load at its beginning, whatever the post
//! was called for between (`begun_asks_are_shown`). Over every list of calls each answer is shown by what the post has
//! seen in the end (`asks_are_shown`, `clock_asks_are_shown`), and no publication begins the updates of two asks
//! (`updates_stay_apart`). Just the letters of the call's step go out, in turn, by the first outlet to each, and of
//! that step the reader saw the cell before and after (`Sends`, `WasCalled`); a finish, and a read told from what is
//! shown, send none. Where memory is wanting the update may have begun, once, and it may be that nothing was sent.
//!
//! Of a worker. Each step was made at some moment under the lock of the node's shard, just its letters went out as the
//! gate answers, and nothing else of the post changed (`HasWorked`, `WasApplied`). A post rests only where each row was
//! Valid at some moment (`WereQuietBelow`); a copied journal was the shard's (`WasJournal`). After `tick` the readers
//! have seen a clock not below the reading, of which one above the limit counts as the limit; after want of memory
//! those before the refused shard have; where it rose, each shard with less than half of a lease left is to ask each
//! manager, and no other (`IsTicked`; `requests_due` is exact). A new post has the inlets, outlets and number that it
//! was given. Founders are shards at which nothing has happened (`founders`); they come under locks where the list of
//! names has their cells (`named`). Their first lease may be over from the beginning: its end and the length of those that
//! are asked for are two numbers.
//!
//! What no clause says. `WasApplied`, `WasDue`, `WasOpen`, `WasQuiet` and `WasJournal` speak of some state with the
//! cells of the node's shard, so `step_at`, `due`, `has_open_at` and `journal` could have other bodies. Nor why a
//! worker lost an event; that a desk tries the cell first, how often it looks but for `Unknown`, that it ticks only
//! where its clock rose; who is noted, rung for and woken, how long it waits; how many bytes came; that a post rests
//! only behind an idle turn; which tickets are drawn but that they rise; that an update that began, and can't be kept for want of memory, is given up,
//! so that nobody waits for what it is told; that [`Post::trim`] trims.
#![tactic(auto)]

mod asking;
mod changes;
mod clock_desk;
mod desk;
mod desk_clock;
mod doubts;
mod eight;
mod founding;
mod laws;
mod post;
mod reading;
mod shards;
mod silences;
mod waiting;
mod working;

pub use asking::{OpenAsk, Tickets};
pub use changes::Changes;
pub use clock_desk::ClockDesk;
pub use desk::NodeDesk;
pub use desk_clock::DeskClock;
pub use eight::Eight;
pub use founding::NodeCells;
pub use laws::{asks_are_shown, begun_asks_are_shown, clock_asks_are_shown, updates_stay_apart};
pub use post::Post;
pub use reading::is_out_of_lease;
pub use shards::{Founded, Shards};
pub use silences::Silent;
pub use waiting::{Patience, TURNS, Waits};
pub use working::work;
