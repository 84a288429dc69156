//! The server of a group of nodes.
//!
//! [`serve`] founds the nodes of a group and its managers in one program, opens the doors, and starts threads: the
//! workers of each node, a loop for each manager number, and one for each connection that comes. Connection i is served
//! at node i modulo the number of nodes, at a desk of its own. All nodes and managers are joined by links. When the
//! connections have ended the other loops are told to end, and it returns once they have. How it ends, and what shows
//! it, stands in its contract; that all have ended then is only tested.
//!
//! A worker sleeps until its node's bell is rung: by what puts a parcel for the node, by a desk there that waits for
//! long, that finds a lease near its end, or that brought much data, and by the end of the server. For each ring one of
//! the node's workers makes a turn. So does a manager's loop. Both sleep with no time limit, so a server at rest uses
//! no processor; who waits for an answer sleeps with one (`hk_worker`).
//!
//! A [`Member`] is one node alone, for a process whose group has its other nodes, and its managers, in other programs: its
//! workers, what makes the desks of its clients, the link that leads to it, and a [`SendQueue`] to each other node and each
//! manager; or to managers alone, where others come and go ([`Member::among_managers`]): queues to nodes are put into its routes
//! then. [`found_node`] gives it the leases that `serve` gives, and [`found_without_lease`] some that are over: the managers
//! have to grant it others first. [`found_joiner`] gives it no view and no rows: a [`Copier`] for each shard asks other members
//! for these. A [`NodeWatch`] looks how the node stands.
//!
//! The caller gives the runtime value, a clock, doors, a spawner, and a group within the limits of `specs/Founding.antt`.
//!
//! What is proved. `serve` is Done only where the spawner took a job for each worker and each manager's loop, and then
//! the stated number of connections came, or all that were left, and for each it took a job or counts one fault more
//! (`done`, `HasServedBeside`); the doors are closed then (`closed`). DoorFault and SpawnFault come only where that
//! object's count rose (`door_fault`, `spawn_fault`). The list of names has the cells of each node (`AreNamed`), and
//! there are as many as the group has (`found_nodes`). What the desk of a connection tells is what a post is told that is
//! asked by a clock (`GroupDesk`: `told`). Before an ask its post may be led by other outlets, which changes nothing else
//! (`AsksLed`, `BeginsLed`). A call that is told that the lease may be over may be asked again (`AsksAgain`, `BeginsAgain`). A [`Member`] has the stated number of workers, and of queues one for each node and manager but itself, or one for
//! each manager (`workers`, `queues`). What `found_without_lease` gives are shards of a founder of the first view whose
//! first leases end at 0 (`founders`), and what `found_joiner` gives are new ones of a joiner (`joiners`).
//!
//! What no clause says: that the nodes of `serve` are the founders of the first view, which the code asks of
//! `Shards::founders`; to whom a queue leads; what a copier asks for, and how a node stands that is looked at; at which node a
//! connection is served, that workers and managers run and how often they ring, when journals begin anew, and when and how
//! often a call is asked again.
#![tactic(auto)]

mod completion;
mod copying;
mod desk;
mod desks;
mod founding;
mod gate;
mod group;
mod journals;
mod lines;
mod managing;
mod member;
mod needs;
mod notices;
mod program;
mod reader;
mod server;
mod standing;
mod working;

pub use copying::Copier;
pub use desk::GroupDesk;
pub use desks::GroupDesks;
pub use founding::{found_joiner, found_node, found_without_lease};
pub use gate::Ending;
pub use group::Group;
pub use member::{Member, Running, SendQueue};
pub use reader::Reader;
pub use server::{serve, start_each};
pub use standing::NodeWatch;
