//! Connections whose calls do not wait.

ghost use Rattle.std.specs.Prelude.{◌≡◌, ◌<◌, ◌≤◌, length, OnErr};
ghost use Rattle.std.specs.Io.{ReadsAtMost, WritesAtMost};
ghost use Rattle.std.specs.Io.KnownBytes.{ReadConsumes, WriteAppends};
ghost use Rattle.hk_outside.specs.Records.{RecordsRead};
ghost use Rattle.hk_outside.specs.Causes.{Rose};
ghost use Rattle.hk_hosts.specs.Now.{read_of, written_of};

use hk_outside::{Connection, Failed, MemoryConnection, Sink, Source};
use std::os::fd::RawFd;

/// What a read brings that does not wait.
#[derive(Clone, Copy, Debug, PartialEq, Eq)]
pub enum Came {
    /// So many bytes, one at least.
    Bytes(usize),
    /// Nothing for now: a read that waits would wait.
    Nothing,
    /// The end.
    End,
}

/// A connection whose calls need not wait.
pub trait PromptConnection: Connection {
    /// From now on no call waits. Where that can't be had, `Failed`: the connection waits as before.
    fn stop_waiting(&self) -> Result<(), Failed>;

    /// The descriptor that tells when it is ready; -1 where it always is.
    fn descriptor(&self) -> RawFd;

    /// Reads what is there into the front of the room, which has some.
    fn read_now(&mut self, room: &mut [u8]) -> Result<Came, Failed>
        requires { 0 < length room.old }
        ensures within { ReadsAtMost (read_of result) room.new }
        ensures bytes { ReadConsumes (Self.left self.old) (Self.left self.new) (read_of result) room.new }
        ensures given { RecordsRead (Self.Source.given self.old) (Self.Source.given self.new) (read_of result) room.new }
        ensures later { Self.Source.faults self.old ≤ Self.Source.faults self.new }
        ensures failed { OnErr result (Rose (Self.Source.faults self.old) (Self.Source.faults self.new)) }
        ensures beside { Self.Source.beside self.new ≡ Self.Source.beside self.old };

    /// Takes some bytes from the front of the piece, which has some, and answers how many. None is taken where a write would wait.
    fn write_now(&mut self, piece: &[u8]) -> Result<Option<usize>, Failed>
        ensures within { WritesAtMost (written_of result) piece.now }
        ensures bytes { WriteAppends (Self.held self.old) (Self.held self.new) (written_of result) piece.now }
        ensures later { Self.Sink.faults self.old ≤ Self.Sink.faults self.new }
        ensures failed { OnErr result (Rose (Self.Sink.faults self.old) (Self.Sink.faults self.new)) }
        ensures given { Self.Sink.given self.new ≡ Self.Sink.given self.old }
        ensures beside { Self.Sink.beside self.new ≡ Self.Sink.beside self.old };
}

impl PromptConnection for MemoryConnection {
    fn stop_waiting(&self) -> Result<(), Failed> {
        Ok(())
    }

    fn descriptor(&self) -> RawFd {
        -1
    }

    fn read_now(&mut self, room: &mut [u8]) -> Result<Came, Failed> {
        match self.source.read(room) {
            Ok(count) => {
                if count == 0 {
                    return Ok(Came::End);
                }
                Ok(Came::Bytes(count))
            }
            Err(Failed) => Err(Failed),
        }
    }

    fn write_now(&mut self, piece: &[u8]) -> Result<Option<usize>, Failed> {
        match self.sink.write(piece) {
            Ok(count) => Ok(Some(count)),
            Err(Failed) => Err(Failed),
        }
    }
}
