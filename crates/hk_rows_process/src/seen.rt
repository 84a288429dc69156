//! A connection in memory, of which others see what was written.

ghost use Rattle.std.specs.Prelude.{None, refl};

use hk_outside::{Connection, Failed, MemorySource, Sink, Source};
use std::sync::{Arc, Mutex, Wait};

#[derive(Drop)]
pub struct Seen<R: Wait + Drop> {
    pub rt: R,
    pub source: MemorySource,
    pub written: Arc<Mutex<Vec<u8>>>,
    pub faults: u64,
}

impl<R: Wait + Drop> Source for Seen<R> {
    ghost left = { λ s. None };

    ghost faults = { λ s. s.source.faults };

    ghost beside = { λ s. (None, s.faults) };

    fn read(&mut self, room: &mut [u8]) -> Result<usize, Failed> {
        self.source.read(room)
    }
}

impl<R: Wait + Drop> Sink for Seen<R> {
    ghost held = { λ s. None };

    ghost faults = { λ s. s.faults };

    ghost beside = { λ s. (None, s.source.faults) };

    fn write(&mut self, piece: &[u8]) -> Result<usize, Failed> {
        let taken = self.written.lock(&self.rt).extend_from_slice(piece);
        match taken {
            Ok(()) => Ok(piece.len()),
            Err(_) => {
                self.faults = self.faults.saturating_add(1);
                Err(Failed)
            }
        }
    }
}

impl<R: Wait + Drop> Connection for Seen<R> {
    ghost read_keeps = { λ s. refl };

    ghost write_keeps = { λ s. refl };

    ghost one_record = { λ s. refl };
}
