//! What watches one key.

use hk_base::{Key, Memory, Stamp};
use hk_snap::SnapReader;
use hk_watch::{Look, Notice, Seen, Watcher, Watches};
use std::alloc::Global;
use std::sync::Wait;
use std::sync::atomic::{AtomicBool, Ordering};
use std::thread;

/// Gives notice of what it is told, and does nothing else.
#[derive(Drop)]
pub struct Noting;

impl Watcher for Noting {
    fn tell(&self, watch: u64, seen: &Seen) -> Result<Notice, Memory> {
        Ok(Notice {
            watch,
            stamp: seen.stamp,
        })
    }
}

// The number of the only watch.
const WATCH: u64 = 1;

/// What a watch was told so far.
#[derive(Clone, Copy, Debug, PartialEq, Eq)]
pub struct Told {
    /// The last stamp, at first 0.0.
    pub last: Stamp,
    /// Each stamp was above the one before it.
    pub rises: bool,
}

/// One watch of a key, a reader by which it looks, and what it was told.
#[derive(Drop)]
pub struct Follower {
    watches: Watches<Noting>,
    reader: SnapReader,
    pub told: Told,
}

impl Follower {
    /// A watch of the key from 0.0 on, by a reader of the cells in which the key is published.
    pub fn of(alloc: Global, reader: SnapReader, key: &Key) -> Result<Follower, Memory> {
        match key.share() {
            Ok(key) => Follower::new(alloc, reader, key),
            Err(_) => Err(Memory),
        }
    }

    fn new(alloc: Global, reader: SnapReader, key: Key) -> Result<Follower, Memory> {
        let from = Stamp {
            version: 0,
            node: 0,
        };
        let mut watches = Watches::new(alloc);
        match watches.watch(WATCH, key, from, Noting) {
            Ok(()) => Ok(Follower {
                watches,
                reader,
                told: Told {
                    last: from,
                    rises: true,
                },
            }),
            Err(_) => Err(Memory),
        }
    }

    /// Looks once.
    pub fn look<R: Wait>(&mut self, rt: &R, alloc: Global) -> Result<(), Memory> {
        let look = self.watches.look(rt, alloc, &mut self.reader, WATCH)?;
        if let Look::Fired(notice) = look {
            let rises = self.told.rises && notice.stamp > self.told.last;
            self.told = Told {
                last: notice.stamp,
                rises,
            };
        }
        Ok(())
    }

    /// Looks again and again, until writing has ended.
    pub fn follow<R: Wait>(
        &mut self,
        rt: &R,
        alloc: Global,
        ended: &AtomicBool,
    ) -> Result<(), Memory> {
        for _ in rt.forever() {
            self.look(rt, alloc)?;
            if ended.load(Ordering::SeqCst) {
                break;
            }
            thread::yield_now();
        }
        Ok(())
    }
}
