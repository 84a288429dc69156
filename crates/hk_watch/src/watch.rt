//! One watch.

ghost use Rattle.std.specs.Prelude.{◌≡◌, Some, IfOk, OnErr};
ghost use Rattle.hk_base.specs.declared.call.State.TheVariants.{Valid};
ghost use Rattle.hk_snap.specs.Snapshots.{cell_of, glance_of, last_shown, shown_content};
ghost use Rattle.hk_snap.specs.Ends.{Loads, seen_at};
ghost use Rattle.hk_watch.specs.Looking.{is_above, look_of, look_at, after_look};
ghost use Rattle.hk_watch.specs.Rising.{IsTold};

use crate::look::Look;
use crate::watcher::{Notice, Seen, Watcher};
use hk_base::{Key, Memory, Stamp, State};
use hk_snap::{Glance, SnapReader, cell_of};
use std::alloc::Global;
use std::sync::Wait;

/// A watch that is kept: its key, the stamp that it was told last, and who is told.
#[derive(Drop)]
pub struct Watch<F> {
    pub key: Key,
    pub last: Stamp,
    pub done: F,
}

fn is_above(stamp: Stamp, last: Stamp) -> bool
    ensures { result ≡ is_above stamp last }
{
    if stamp.version == last.version {
        return stamp.node > last.node;
    }
    stamp.version > last.version
}

impl<F: Watcher + Drop> Watch<F> {
    // One look at the cell of the key, by the watch of this number.
    pub(crate) fn look<R: Wait>(
        &mut self,
        rt: &R,
        alloc: Global,
        reader: &mut SnapReader,
        watch: u64,
    ) -> Result<Look, Memory>
        ensures loaded { Loads reader.old (cell_of self.old.key) reader.new }
        ensures shown { reader.new.shown ≡ last_shown (seen_at reader.new.ends (cell_of self.old.key)) }
        ensures found { IfOk result (λ look. look ≡ look_of watch self.old.last (glance_of reader.new.shown self.old.key)) }
        ensures kept { IfOk result (λ look. self.new ≡ after_look self.old look) }
        ensures told { IfOk result (λ look. IsTold F.told (Some self.old) watch look reader.new) }
        ensures err { OnErr result (self.new ≡ self.old) }
    {
        reader.load(rt, cell_of(&self.key));
        match reader.glance(&self.key) {
            Some(glance) => self.weigh(alloc, reader, watch, glance),
            None => Ok(Look::Elsewhere),
        }
    }

    // Tells what was found of the key, where it is due.
    fn weigh(
        &mut self,
        alloc: Global,
        reader: &SnapReader,
        watch: u64,
        glance: Glance,
    ) -> Result<Look, Memory>
        ensures found { IfOk result (λ look. look ≡ look_at watch self.old.last glance) }
        ensures kept { IfOk result (λ look. self.new ≡ after_look self.old look) }
        ensures told { IfOk result (λ look. IsTold F.told (Some self.old) watch look reader.now) }
        ensures err { OnErr result (self.new ≡ self.old) }
    {
        let stamp = glance.stamp;
        match glance.state {
            State::Valid => {}
            _ => return Ok(Look::Open { stamp }),
        }
        if glance.is_large {
            return Ok(Look::Large { stamp });
        }
        if !is_above(stamp, self.last) {
            return Ok(Look::Old { stamp });
        }
        let notice = self.tell(alloc, reader, watch, stamp)?;
        self.last = stamp;
        Ok(Look::Fired(notice))
    }

    // Tells the watcher the stamp, with the content that was loaded.
    fn tell(
        &self,
        alloc: Global,
        reader: &SnapReader,
        watch: u64,
        stamp: Stamp,
    ) -> Result<Notice, Memory>
        ensures notice { IfOk result (λ notice. notice ≡ record { watch = watch; stamp = stamp }) }
        ensures told { IfOk result (λ notice. F.told self.now.done watch (record { key = self.now.key; stamp = stamp; content = shown_content reader.now.shown }) notice) }
    {
        let content = reader.content(alloc)?;
        let key = self.key.share()?;
        self.done.tell(
            watch,
            &Seen {
                key,
                stamp,
                content,
            },
        )
    }
}
