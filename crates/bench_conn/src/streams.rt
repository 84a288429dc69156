//! A connection over a reader and a writer.

ghost use Rattle.std.specs.Prelude.{None, refl};

use hk_outside::{Connection, Failed, Sink, Source};
use std::io::{Read, Write};

/// A connection over a reader and a writer, as standard input and standard output. It tells no bytes, but counts faults.
#[derive(Drop)]
pub struct StreamConnection<R, W> {
    reader: R,
    writer: W,
    read_faults: u64,
    write_faults: u64,
}

impl<R, W> StreamConnection<R, W> {
    pub fn new(reader: R, writer: W) -> StreamConnection<R, W> {
        StreamConnection {
            reader,
            writer,
            read_faults: 0,
            write_faults: 0,
        }
    }
}

impl<R: Read, W: Write> Source for StreamConnection<R, W> {
    ghost left = { λ c. None };

    ghost faults = { λ c. c.read_faults };

    ghost beside = { λ c. (None, c.write_faults) };

    fn read(&mut self, room: &mut [u8]) -> Result<usize, Failed> {
        match self.reader.read(room) {
            Ok(count) => Ok(count),
            Err(_) => {
                self.read_faults = self.read_faults.saturating_add(1);
                Err(Failed)
            }
        }
    }
}

impl<R: Read, W: Write> Sink for StreamConnection<R, W> {
    ghost held = { λ c. None };

    ghost faults = { λ c. c.write_faults };

    ghost beside = { λ c. (None, c.read_faults) };

    fn write(&mut self, piece: &[u8]) -> Result<usize, Failed> {
        match self.writer.write(piece) {
            Ok(count) => {
                if count == 0 && !piece.is_empty() {
                    self.write_faults = self.write_faults.saturating_add(1);
                }
                Ok(count)
            }
            Err(_) => {
                self.write_faults = self.write_faults.saturating_add(1);
                Err(Failed)
            }
        }
    }
}

impl<R: Read, W: Write> Connection for StreamConnection<R, W> {
    ghost read_keeps = { λ c. refl };

    ghost write_keeps = { λ c. refl };

    ghost one_record = { λ c. refl };
}
