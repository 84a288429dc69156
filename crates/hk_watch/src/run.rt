//! Calls in order.

ghost use Rattle.std.specs.Prelude.{◌≡◌, ◌+◌, ◌<◌, ◌≤◌, ◌++◌, [], length, vec_len, vec_capacity, IfOk, OnOk, OnErr};
ghost use Rattle.hk_watch.specs.Rising.{IsKept, notice_of, with_fired, Makes, Runs, Stops, IsFurther, AreRising};

use crate::look::Look;
use crate::watcher::{Notice, Watcher};
use crate::watches::{WatchFault, Watches};
use hk_base::{Key, Memory, Sequence, Stamp};
use hk_snap::SnapReader;
use std::alloc::Global;
use std::sync::Wait;

/// One call of watches.
#[derive(Drop)]
pub enum WatchCall<F> {
    /// Keeps a watch. Where its number is kept, the watcher is dropped and nothing changes.
    Watch {
        watch: u64,
        key: Key,
        from: Stamp,
        done: F,
    },
    /// Drops a watch.
    End {
        watch: u64,
    },
    /// Looks once.
    Look {
        watch: u64,
    },
}

pub type WatchCalls<F> = Sequence<WatchCall<F>>;

pub type Notices = Sequence<Notice>;

// Keeps a watch, unless its number is kept.
fn keep<F: Watcher + Drop>(
    watches: &mut Watches<F>,
    watch: u64,
    key: Key,
    from: Stamp,
    done: F,
) -> Result<(), Memory>
    ensures kept { OnOk result (IsKept watches.old watches.new watch (record { key = key; last = from; done = done })) }
    ensures err { OnErr result (watches.new ≡ watches.old) }
{
    match watches.watch(watch, key, from, done) {
        Ok(()) => Ok(()),
        Err(WatchFault::Kept(_)) => Ok(()),
        Err(WatchFault::Memory(_)) => Err(Memory),
    }
}

// The notice that a look fired.
fn notice_of(look: Look) -> Option<Notice>
    ensures { result ≡ notice_of look }
{
    match look {
        Look::Fired(notice) => Some(notice),
        _ => None,
    }
}

// Makes one call, and gives the notice that it fired.
fn make<F: Watcher + Drop, R: Wait>(
    watches: &mut Watches<F>,
    rt: &R,
    alloc: Global,
    reader: &mut SnapReader,
    call: WatchCall<F>,
) -> Result<Option<Notice>, Memory>
    ensures made { IfOk result (λ fired. Makes F.told call watches.old reader.old fired watches.new reader.new) }
    ensures err { OnErr result (watches.new ≡ watches.old) }
    ensures further { IsFurther reader.old reader.new }
{
    match call {
        WatchCall::Watch {
            watch,
            key,
            from,
            done,
        } => {
            keep(watches, watch, key, from, done)?;
            Ok(None)
        }
        WatchCall::End { watch } => {
            watches.end(watch);
            Ok(None)
        }
        WatchCall::Look { watch } => {
            let look = watches.look(rt, alloc, reader, watch)?;
            Ok(notice_of(look))
        }
    }
}

// Adds a notice to those there are, if one was fired.
fn put(notices: &mut Vec<Notice>, fired: Option<Notice>)
    requires { vec_len notices.old < vec_capacity notices.old }
    ensures items { notices.new.items ≡ notices.old.items ++ with_fired fired [] }
    ensures len { vec_len notices.new ≤ vec_len notices.old + 1 }
    ensures capacity { vec_capacity notices.new ≡ vec_capacity notices.old }
{
    if let Some(notice) = fired {
        notices.push_reserved(notice);
    }
}

// Makes the calls in order. There is room for all notices.
fn make_all<F: Watcher + Drop, R: Wait>(
    watches: &mut Watches<F>,
    rt: &R,
    alloc: Global,
    reader: &mut SnapReader,
    calls: Vec<WatchCall<F>>,
    notices: &mut Vec<Notice>,
) -> Result<(), Memory>
    requires none { notices.old.items ≡ [] }
    requires room { vec_len notices.old + length calls.items ≤ vec_capacity notices.old }
    ensures runs { OnOk result (Runs F.told calls.items watches.old reader.old notices.new.items watches.new reader.new) }
    ensures err { OnErr result (Stops F.told calls.items watches.old reader.old watches.new reader.new) }
{
    for call in calls {
        let fired = make(watches, rt, alloc, reader, call)?;
        put(notices, fired);
    }
    Ok(())
}

impl<F: Watcher + Drop> Watches<F> {
    /// Makes the calls in order, and gives the notices that were fired, in order. The room for all of them is taken first, and where there
    /// is none no call is made. The first call for which memory is wanting ends the run with `Memory`; the calls before it stand.
    pub fn run<R: Wait>(
        &mut self,
        rt: &R,
        alloc: Global,
        reader: &mut SnapReader,
        calls: WatchCalls<F>,
    ) -> Result<Notices, Memory>
        // Each call does what it does alone.
        ensures runs { IfOk result (λ notices. Runs F.told calls self.old reader.old notices self.new reader.new) }

        // Whichever of the calls are looked at, the stamps of each watch that they don't end rise from its last one, each was seen of its key in
        // a Valid row, and after a look of it its last stamp is not below what was found.
        ensures rising { IfOk result (λ notices. AreRising F.told calls self.old reader.old notices) }
        ensures err { OnErr result (Stops F.told calls self.old reader.old self.new reader.new) }
    {
        let mut notices = Vec::with_capacity(alloc, calls.len())?;
        make_all(self, rt, alloc, reader, calls.into_vec(), &mut notices)?;
        Ok(Sequence::from_vec(notices))
    }
}
