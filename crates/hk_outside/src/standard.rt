//! Adapters over std's readers and writers, as standard input and standard output.

ghost use Rattle.std.specs.Prelude.{◌≡◌, None, Some, []};
ghost use Rattle.std.specs.List.{concat};

use crate::record::Record;
use crate::stream::{Failed, Sink, Source};
use std::io::{Read, Write};

/// A source over a reader. It tells the bytes that the reader tells, and records what the reader gave.
#[derive(Drop)]
pub struct ReaderSource<R> {
    reader: R,
    faults: u64,
    given: Record,
}

impl<R> ReaderSource<R> {
    /// A source over the reader, which has recorded nothing and never failed.
    pub fn new(reader: R) -> ReaderSource<R>
        ensures reader { result.reader ≡ reader }
        ensures given { result.given.pieces ≡ [] }
        ensures faults { result.faults ≡ 0 }
    {
        ReaderSource {
            reader,
            faults: 0,
            given: Record::new(),
        }
    }
}

impl<R: Read> Source for ReaderSource<R> {
    ghost left = { λ source. R.remaining source.reader };

    ghost given = { λ source. Some source.given.pieces };

    ghost faults = { λ source. source.faults };

    ghost beside = { λ source. (None, 0) };

    fn read(&mut self, room: &mut [u8]) -> Result<usize, Failed> {
        match self.reader.read(room) {
            Ok(count) => {
                self.given.note(&room[..count]);
                Ok(count)
            }
            Err(_) => {
                self.faults = self.faults.saturating_add(1);
                Err(Failed)
            }
        }
    }
}

/// A sink over a writer. It tells the bytes that the writer took from it.
#[derive(Drop)]
pub struct WriterSink<W> {
    writer: W,
    faults: u64,
    taken: Record,
}

impl<W> WriterSink<W> {
    /// A sink over the writer, which has recorded nothing and never failed.
    pub fn new(writer: W) -> WriterSink<W>
        ensures writer { result.writer ≡ writer }
        ensures taken { result.taken.pieces ≡ [] }
        ensures faults { result.faults ≡ 0 }
    {
        WriterSink {
            writer,
            faults: 0,
            taken: Record::new(),
        }
    }
}

impl<W: Write> Sink for WriterSink<W> {
    ghost held = { λ sink. Some (concat sink.taken.pieces) };

    ghost faults = { λ sink. sink.faults };

    ghost beside = { λ sink. (None, 0) };

    #[tactic(auto, using(crate::proofs::Records::one_more))]
    fn write(&mut self, piece: &[u8]) -> Result<usize, Failed> {
        match self.writer.write(piece) {
            Ok(count) => {
                self.taken.note(&piece[..count]);
                if count == 0 && !piece.is_empty() {
                    self.faults = self.faults.saturating_add(1);
                }
                Ok(count)
            }
            Err(_) => {
                self.faults = self.faults.saturating_add(1);
                Err(Failed)
            }
        }
    }
}
