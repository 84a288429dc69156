//! Connections that send one request again and again, until they read the reply that they want.

ghost use Rattle.std.specs.Prelude.{None, refl};

use hk_outside::{Connection, Failed, Sink, Source};
use std::sync::Arc;
use std::sync::atomic::{AtomicBool, Ordering};
use std::thread;

const TRIES: u32 = 1_000_000;

// What one client sends and wants to read.
#[derive(Drop)]
pub struct Talking {
    pub request: &'static [u8],
    pub wanted: &'static [u8],
    // Nothing is sent before this is told.
    pub after: Option<Arc<AtomicBool>>,
    // Told once what is wanted was read.
    pub read: Arc<AtomicBool>,
    pub tries: u32,
    pub faults: u64,
}

impl Talking {
    // Whether the client is to send, at last.
    fn begins(&self) -> bool {
        let Some(after) = &self.after else {
            return true;
        };
        for _look in 0..TRIES {
            if after.load(Ordering::SeqCst) {
                return true;
            }
            thread::yield_now();
        }
        false
    }
}

impl Source for Talking {
    ghost left = { λ t. None };

    ghost faults = { λ t. t.faults };

    ghost beside = { λ t. (None, 0) };

    fn read(&mut self, room: &mut [u8]) -> Result<usize, Failed> {
        if self.tries == 0 && !self.begins() {
            self.faults = self.faults.saturating_add(1);
            return Err(Failed);
        }
        if self.read.load(Ordering::SeqCst) || self.tries >= TRIES {
            return Ok(0);
        }
        self.tries += 1;
        let count = self.request.len().min(room.len());
        room[..count].copy_from_slice(&self.request[..count]);
        Ok(count)
    }
}

impl Sink for Talking {
    ghost held = { λ t. None };

    ghost faults = { λ t. 0 };

    ghost beside = { λ t. (None, t.faults) };

    fn write(&mut self, piece: &[u8]) -> Result<usize, Failed> {
        if piece == self.wanted {
            self.read.store(true, Ordering::SeqCst);
        }
        Ok(piece.len())
    }
}

impl Connection for Talking {
    ghost read_keeps = { λ t. refl };

    ghost write_keeps = { λ t. refl };

    ghost one_record = { λ t. refl };
}
