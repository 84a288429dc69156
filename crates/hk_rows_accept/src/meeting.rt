//! Connections of which one waits for the other.

ghost use Rattle.std.specs.Prelude.{None, Some, refl};

use hk_outside::{Connection, Failed, MemoryConnection, Sink, Source};
use std::sync::Arc;
use std::sync::atomic::{AtomicBool, AtomicU64, Ordering};
use std::thread;

const LOOKS: u32 = 1_000_000;

// What the connections of one server have seen.
#[derive(Drop)]
pub struct Seen {
    pub written: AtomicU64,
    pub stored: AtomicBool,
}

// A connection in memory. One that waits gives its bytes only after a reply was written to another one, and fails where none comes.
#[derive(Drop)]
pub struct Meeting {
    pub conn: MemoryConnection,
    pub waits: bool,
    pub faults: u64,
    pub seen: Arc<Seen>,
}

impl Meeting {
    fn meets(&self) -> bool {
        for _look in 0..LOOKS {
            if self.seen.stored.load(Ordering::SeqCst) {
                return true;
            }
            thread::yield_now();
        }
        false
    }
}

impl Source for Meeting {
    ghost left = { λ m. None };

    ghost faults = { λ m. m.faults };

    ghost beside = { λ m. (None, m.conn.sink.sink.faults) };

    fn read(&mut self, room: &mut [u8]) -> Result<usize, Failed> {
        if self.waits && !self.meets() {
            self.faults = self.faults.saturating_add(1);
            return Err(Failed);
        }
        match self.conn.source.read(room) {
            Ok(count) => Ok(count),
            Err(failed) => {
                self.faults = self.faults.saturating_add(1);
                Err(failed)
            }
        }
    }
}

impl Sink for Meeting {
    ghost held = { λ m. None };

    ghost faults = { λ m. m.conn.sink.sink.faults };

    ghost beside = { λ m. (None, m.faults) };

    fn write(&mut self, piece: &[u8]) -> Result<usize, Failed> {
        let count = self.conn.sink.write(piece)?;
        self.seen.written.fetch_add(count as u64, Ordering::SeqCst);
        if !self.waits {
            self.seen.stored.store(true, Ordering::SeqCst);
        }
        Ok(count)
    }
}

impl Connection for Meeting {
    ghost read_keeps = { λ m. refl };

    ghost write_keeps = { λ m. refl };

    ghost one_record = { λ m. refl };
}
