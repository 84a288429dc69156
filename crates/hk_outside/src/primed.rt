//! Connections of which a byte was read already.

ghost use Rattle.std.specs.Prelude.{◌≡◌, List, ℕ, [], ◌∷◌, Option, Some, None, refl};
ghost use Rattle.std.specs.Io.KnownBytes.{prepend_known};
ghost use Rattle.hk_outside.specs.First.{first_bytes};

use crate::record::Record;
use crate::stream::{Connection, Failed, Sink, Source};

/// Gives a byte first, and then what its connection gives. What is written goes to the connection.
#[derive(Drop)]
pub struct Primed<C> {
    first: Option<u8>,
    conn: C,
    given: Record,
}

impl<C: Connection> Primed<C> {
    /// It takes no memory.
    pub fn new(first: u8, conn: C) -> Primed<C>
        ensures first { result.first ≡ Some first }
        ensures conn { result.conn ≡ conn }
        ensures given { result.given.pieces ≡ [] }
    {
        Primed {
            first: Some(first),
            conn,
            given: Record::new(),
        }
    }
}

impl<C: Connection> Source for Primed<C> {
    ghost left = { λ p. prepend_known (first_bytes p.first) (C.left p.conn) };

    ghost given = { λ p. Some p.given.pieces };

    ghost faults = { λ p. C.Source.faults p.conn };

    ghost beside = { λ p. C.Source.beside p.conn };

    fn read(&mut self, room: &mut [u8]) -> Result<usize, Failed> {
        if room.is_empty() {
            self.given.note(&[]);
            return Ok(0);
        }
        if let Some(first) = self.first {
            room[0] = first;
            self.first = None;
            self.given.note(&room[..1]);
            return Ok(1);
        }
        let count = self.conn.read(room)?;
        self.given.note(&room[..count]);
        Ok(count)
    }
}

impl<C: Connection> Sink for Primed<C> {
    ghost held = { λ p. C.held p.conn };

    ghost given = { λ p. Some p.given.pieces };

    ghost faults = { λ p. C.Sink.faults p.conn };

    ghost beside = { λ p. (prepend_known (first_bytes p.first) (C.left p.conn), C.Source.faults p.conn) };

    fn write(&mut self, piece: &[u8]) -> Result<usize, Failed> {
        self.conn.write(piece)
    }
}

impl<C: Connection> Connection for Primed<C> {
    ghost read_keeps = { λ p. C.read_keeps p.conn };

    ghost write_keeps = { λ p. refl };

    ghost one_record = { λ p. refl };
}
