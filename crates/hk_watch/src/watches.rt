//! Watches by their number.

ghost use Rattle.std.specs.Prelude.{◌≡◌, [], Some, None, is_some, IfOk, OnOk, OnErr};
ghost use Rattle.hk_watch.specs.Looking.{watch_at, AreOthersSame, IsWatch, IsLook};
ghost use Rattle.hk_watch.specs.Rising.{IsTold, Looks, IsFurther};

use crate::look::Look;
use crate::watch::Watch;
use crate::watcher::Watcher;
use hk_base::{Key, Memory, Stamp};
use hk_snap::SnapReader;
use std::alloc::Global;
use std::collections::HashMap;
use std::marker::Model;
use std::sync::Wait;
use thiserror::Error;

/// Why a watch was not kept. Its watcher comes back.
#[derive(Debug, Drop, Error)]
pub enum WatchFault<F> {
    /// An allocation was refused.
    #[error("no memory")]
    Memory(F),
    /// A watch of this number is kept already.
    #[error("a watch of this number is kept already")]
    Kept(F),
}

/// The watches that are kept. Contracts see each by its number.
#[derive(Drop)]
pub struct Watches<F: Watcher + Drop> {
    kept: HashMap<u64, Watch<F>>,
}

impl<F: Watcher + Drop> Model for Watches<F> {
    ghost use Rattle.std.specs.Prelude.{List, ℕ};
    ghost use Rattle.hk_watch.specs.declared.watch.Watch.{Watch};

    ghost Value = { List (ℕ × Watch F) };

    ghost view = { λ w. w.kept.entries };
}

impl<F: Watcher + Drop> Watches<F> {
    /// None is kept. It takes no memory.
    pub fn new(alloc: Global) -> Watches<F>
        ensures { result ≡ [] }
    {
        Watches {
            kept: HashMap::new(alloc),
        }
    }

    /// Keeps a watch of the key, to be told stamps above `from`. `Kept` comes exactly where a watch of this number is kept. After a fault
    /// nothing has changed.
    pub fn watch(&mut self, watch: u64, key: Key, from: Stamp, done: F) -> Result<(), WatchFault<F>>
        ensures exact { IsWatch result self.old self.new watch (record { key = key; last = from; done = done }) }
        ensures kept { OnOk result (watch_at self.new watch ≡ Some (record { key = key; last = from; done = done })) }
        ensures others { AreOthersSame self.old self.new watch }
    {
        if self.kept.contains_key(&watch) {
            return Err(WatchFault::Kept(done));
        }
        let new = Watch {
            key,
            last: from,
            done,
        };
        match self.kept.insert(watch, new) {
            Ok(_) => Ok(()),
            Err(refused) => {
                let Watch { done, .. } = refused.value.1;
                Err(WatchFault::Memory(done))
            }
        }
    }

    /// Drops the watch of this number, and answers whether it was kept. It takes no memory.
    pub fn end(&mut self, watch: u64) -> bool
        ensures answer { result ≡ is_some (watch_at self.old watch) }
        ensures gone { watch_at self.new watch ≡ None }
        ensures others { AreOthersSame self.old self.new watch }
    {
        self.kept.remove(&watch).is_some()
    }

    // Looks once, by the watch of this number.
    fn look_once<R: Wait>(
        &mut self,
        rt: &R,
        alloc: Global,
        reader: &mut SnapReader,
        watch: u64,
    ) -> Result<Look, Memory>
        ensures exact { IfOk result (λ look. IsLook (watch_at self.old watch) watch look self.old reader.old self.new reader.new) }
        ensures told { IfOk result (λ look. IsTold F.told (watch_at self.old watch) watch look reader.new) }
        ensures further { IsFurther reader.old reader.new }
        ensures others { AreOthersSame self.old self.new watch }
        ensures err { OnErr result (self.new ≡ self.old) }
    {
        if let Some(kept) = self.kept.get_mut(&watch) {
            return kept.look(rt, alloc, reader, watch);
        }
        Ok(Look::NoWatch)
    }

    /// Looks once at the cell of the watch's key, and tells the watcher what it saw where its stamp is above the last one. It finds the
    /// watch by its number, and makes one load. After `Memory` the watch is as it was, so the next look tries again. The reader is of the
    /// cells in which the key is published.
    pub fn look<R: Wait>(
        &mut self,
        rt: &R,
        alloc: Global,
        reader: &mut SnapReader,
        watch: u64,
    ) -> Result<Look, Memory>
        // Which answer comes, and what is loaded, told and kept.
        ensures looks { IfOk result (λ look. Looks F.told watch look self.old reader.old self.new reader.new) }

        // There is one load at most, and no other watch is touched.
        ensures further { IsFurther reader.old reader.new }
        ensures others { AreOthersSame self.old self.new watch }
        ensures err { OnErr result (self.new ≡ self.old) }
    {
        self.look_once(rt, alloc, reader, watch)
    }
}
