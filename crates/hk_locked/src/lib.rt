//! A shard of a node under its lock.
//!
//! What stands under the lock is a [`LockedShard`]: the shard, the asks of updates that wait, and the completions of
//! their calls. A [`ShardReader`] reads what a shard shows. Under the lock it is brought to what the shard shows now,
//! before and after a call's step ([`LockedShard::start`]), and an ask can be looked at ([`LockedShard::look`], or many
//! times at once, [`LockedShard::look_on`]): what it was told is shown by what the reader has seen of its key's cell.
//! So what passes the lock is of the reader alone. A read is told from its key's row, with no step
//! ([`LockedShard::read_row`]).
//!
//! Beside them stand the keys of the shard's open rows, which follow each step ([`Shard::step`](hk_shard::Shard::step)): what is to be sent again
//! ([`LockedShard::due`]) is found by a look-up, with no look at other rows, and so is whether a row is open ([`LockedShard::is_settled`]).
//!
//! A letter that no node would send in a group whose nodes all run as they began can be told from others as it comes
//! ([`LockedShard::doubt`]): a process that is started again has forgotten what it acknowledged.
//!
//! The caller names the cells of the shards of all its nodes once ([`Places`]), makes each [`LockedShard`] of the shard that has these cells, and draws the
//! tickets of steps above the last one.
//!
//! What is proved. At every call a shard keeps that its cells' lists show what each ask there was told, and that the
//! keys are those of its open rows, of all where none was missed (`IsLocked`). Of `apply` all is told of the shard that
//! stood there and what it becomes (`made`: `Makes`): the letters are those of the step, its ticket is above all
//! before, its replies are told to the asks (`told`), and which asks it told is said exactly (`heard`). So of the step
//! of a call (`CallsAt`): by two loads of the key's cell and one of the lease the reader has seen what stood in the
//! cell before the step and after it; it was answered at once, or its update has its ask (`StartsAt`). `look` and
//! `look_on` tell what an ask was told, shown by just those lists (`looks`), and `Gone` only where no ask of the call,
//! key and ticket is kept (`gone`). One that is given up is gone where it was told something, and else nobody waits for
//! it (`GivesUp`). Whatever comes, what a reader has seen only grows (`grown`).
//!
//! `meet`, `meet_lease` and `tick` bring a reader to the key's cell, the lease and a clock not below the reading, by
//! one load. `read_local` and `read_row` answer a read without the lock and under it. `due`, `due_of_key`, `is_settled`
//! and `copy_journal` are exact; where `has_open` tells of none each row is Valid. `trim` hands out the journal exactly
//! where it has so many entries at least. `doubt` tells exactly what a letter shows (`doubt_in`).
//!
//! After want of memory `apply`, `trim`, `meet` and `meet_lease` have changed nothing (`err`). `start` may have begun
//! the update, and its reader has only grown; `tick` may have raised the clock.
//!
//! What no clause says: that a completion is kept before its step, called with the answer of its reply, and gone where
//! the call was answered at once; that a letter with a doubt is lost; that none has one in a group whose processes all
//! run as they began.
#![tactic(auto)]

mod by_row;
mod doubt;
mod locked;
mod places;
mod reader;
mod told;

pub use by_row::RowRead;
pub use doubt::Doubt;
pub use locked::{Given, LockedShard, Started};
pub use places::Places;
pub use reader::ShardReader;
pub use told::ToldAsks;
