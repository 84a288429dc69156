//! A connection in memory that pauses: its bytes come in pieces, and it takes so many bytes of replies at once.

ghost use Rattle.std.specs.Prelude.{None, refl};

use hk_hosts::{Came, PromptConnection};
use hk_outside::{Connection, Failed, MemoryConnection, MemorySink, MemorySource, Sink, Source};
use std::alloc::Global;
use std::os::fd::RawFd;
use std::process::Abort;

// What comes of a client at once, and what it takes at once.
#[derive(Clone, Copy)]
pub struct Pieces {
    // so many bytes at first
    pub first: usize,
    // so many bytes each time after that
    pub others: usize,
    // so many bytes of replies
    pub taken: usize,
}

// All that a client sends comes at once, and it takes all replies.
pub const WHOLE: Pieces = Pieces {
    first: 16_384,
    others: 16_384,
    taken: 16_384,
};

// A connection whose client pauses: what it sends comes by and by, and it has little space for what it is told.
#[derive(Drop)]
pub struct Paused {
    pub conn: MemoryConnection,
    pub pieces: Pieces,
    // so many bytes are there to be read
    pub there: usize,
    // so many bytes are taken for now
    pub space: usize,
    // the client sends no more, and that is known
    pub ends: bool,
    // so often it was read
    pub reads: u32,
}

impl Source for Paused {
    ghost left = { λ p. None };

    ghost faults = { λ p. p.conn.source.faults };

    ghost beside = { λ p. (None, p.conn.sink.sink.faults) };

    fn read(&mut self, room: &mut [u8]) -> Result<usize, Failed> {
        let count = room.len().min(self.there);
        self.there = self.there.saturating_sub(count);
        self.conn.source.read(&mut room[..count])
    }
}

impl Sink for Paused {
    ghost held = { λ p. None };

    ghost faults = { λ p. p.conn.sink.sink.faults };

    ghost beside = { λ p. (None, p.conn.source.faults) };

    fn write(&mut self, piece: &[u8]) -> Result<usize, Failed> {
        self.conn.sink.write(piece)
    }
}

impl Connection for Paused {
    ghost read_keeps = { λ p. refl };

    ghost write_keeps = { λ p. refl };

    ghost one_record = { λ p. refl };
}

impl PromptConnection for Paused {
    fn stop_waiting(&self) -> Result<(), Failed> {
        Ok(())
    }

    fn descriptor(&self) -> RawFd {
        -1
    }

    fn read_now(&mut self, room: &mut [u8]) -> Result<Came, Failed> {
        self.reads = self.reads.wrapping_add(1);
        if self.there > 0 {
            return match self.read(room) {
                Ok(count) => Ok(Came::Bytes(count)),
                Err(Failed) => Err(Failed),
            };
        }
        if self.ends {
            return Ok(Came::End);
        }
        Ok(Came::Nothing)
    }

    fn write_now(&mut self, piece: &[u8]) -> Result<Option<usize>, Failed> {
        if self.space == 0 {
            return Ok(None);
        }
        let count = piece.len().min(self.space);
        self.space = self.space.saturating_sub(count);
        match self.conn.sink.write(&piece[..count]) {
            Ok(count) => Ok(Some(count)),
            Err(Failed) => Err(Failed),
        }
    }
}

impl Paused {
    // How many bytes come yet.
    fn to_come(&self) -> usize {
        let source = &self.conn.source.source;
        source
            .bytes
            .len()
            .saturating_sub(source.at)
            .saturating_sub(self.there)
    }

    // The next piece comes, or the end; and there is space again.
    pub fn go_on(&mut self) {
        if self.there == 0 {
            self.there = self.to_come().min(self.pieces.others);
            self.ends = self.there == 0;
        }
        if self.space == 0 {
            self.space = self.pieces.taken;
        }
    }

    // What was written to the client.
    pub fn written(&self) -> &[u8] {
        self.conn.sink.sink.bytes.as_slice()
    }
}

// A connection of a client that sends this, of which the reads and the writes with these numbers fail. The first piece
// is there.
pub fn failing(
    rt: &impl Abort,
    alloc: Global,
    sent: &[u8],
    pieces: Pieces,
    failing_reads: &[u64],
    failing_writes: &[u64],
) -> Paused {
    let sent = Vec::from_slice(alloc, sent).expect(rt, "memory");
    let reads = Vec::from_slice(alloc, failing_reads).expect(rt, "memory");
    let writes = Vec::from_slice(alloc, failing_writes).expect(rt, "memory");
    let there = sent.len().min(pieces.first);
    let conn = MemoryConnection {
        source: MemorySource::new(sent, reads),
        sink: MemorySink::new(alloc, writes),
    };
    Paused {
        conn,
        pieces,
        there,
        space: pieces.taken,
        ends: false,
        reads: 0,
    }
}

// The same, where nothing fails.
pub fn connection(rt: &impl Abort, alloc: Global, sent: &[u8], pieces: Pieces) -> Paused {
    failing(rt, alloc, sent, pieces, &[], &[])
}
