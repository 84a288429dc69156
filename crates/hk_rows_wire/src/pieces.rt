//! Connections in memory whose bytes come in small pieces.

ghost use Rattle.std.specs.Prelude.{None, Some, refl};

use hk_outside::{Connection, Failed, MemoryConnection, MemorySink, MemorySource, Sink, Source};
use std::alloc::Global;
use std::process::Abort;

// The sizes of the pieces in which each exchange is tried. The last is more than any of them sends.
pub const SIZES: [usize; 9] = [1, 2, 3, 4, 5, 6, 7, 8, 16_384];

// A connection in memory, whose bytes come in pieces of at most so many.
#[derive(Drop)]
pub struct Pieced {
    pub conn: MemoryConnection,
    pub most: usize,
}

impl Source for Pieced {
    ghost left = { λ p. None };

    ghost faults = { λ p. p.conn.source.faults };

    ghost beside = { λ p. (Some p.conn.sink.sink.bytes.items, p.conn.sink.sink.faults) };

    fn read(&mut self, room: &mut [u8]) -> Result<usize, Failed> {
        let count = room.len().min(self.most);
        self.conn.source.read(&mut room[..count])
    }
}

impl Sink for Pieced {
    ghost held = { λ p. Some p.conn.sink.sink.bytes.items };

    ghost faults = { λ p. p.conn.sink.sink.faults };

    ghost beside = { λ p. (None, p.conn.source.faults) };

    fn write(&mut self, piece: &[u8]) -> Result<usize, Failed> {
        self.conn.sink.write(piece)
    }
}

impl Connection for Pieced {
    ghost read_keeps = { λ p. refl };

    ghost write_keeps = { λ p. refl };

    ghost one_record = { λ p. refl };
}

impl Pieced {
    // What was written to the client.
    pub fn written(&self) -> &[u8] {
        self.conn.sink.sink.bytes.as_slice()
    }
}

// A connection that sends this, of which the reads and the writes with these numbers fail.
pub fn in_pieces(
    rt: &impl Abort,
    alloc: Global,
    sent: &[u8],
    most: usize,
    failing_reads: &[u64],
    failing_writes: &[u64],
) -> Pieced {
    let sent = Vec::from_slice(alloc, sent).expect(rt, "memory");
    let reads = Vec::from_slice(alloc, failing_reads).expect(rt, "memory");
    let writes = Vec::from_slice(alloc, failing_writes).expect(rt, "memory");
    let conn = MemoryConnection {
        source: MemorySource::new(sent, reads),
        sink: MemorySink::new(alloc, writes),
    };
    Pieced { conn, most }
}

// A connection in memory, each of whose pieces is a request of 9 bytes with a reply of 18 bytes. It notes whether a piece
// was read before the replies to all earlier ones were written.
#[derive(Drop)]
pub struct InTurn {
    pub conn: MemoryConnection,
    pub reads: usize,
    pub is_late: bool,
}

impl Source for InTurn {
    ghost left = { λ p. None };

    ghost faults = { λ p. p.conn.source.faults };

    ghost beside = { λ p. (Some p.conn.sink.sink.bytes.items, p.conn.sink.sink.faults) };

    fn read(&mut self, room: &mut [u8]) -> Result<usize, Failed> {
        if self.conn.sink.sink.bytes.len() != self.reads.saturating_mul(18) {
            self.is_late = true;
        }
        self.reads = self.reads.saturating_add(1);
        let count = room.len().min(9);
        self.conn.source.read(&mut room[..count])
    }
}

impl Sink for InTurn {
    ghost held = { λ p. Some p.conn.sink.sink.bytes.items };

    ghost faults = { λ p. p.conn.sink.sink.faults };

    ghost beside = { λ p. (None, p.conn.source.faults) };

    fn write(&mut self, piece: &[u8]) -> Result<usize, Failed> {
        self.conn.sink.write(piece)
    }
}

impl Connection for InTurn {
    ghost read_keeps = { λ p. refl };

    ghost write_keeps = { λ p. refl };

    ghost one_record = { λ p. refl };
}
