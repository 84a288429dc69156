//! Writing without waiting for the other end.

ghost use Rattle.std.specs.Io.{WritesAtMost};

use std::alloc::Global;
use std::io::{self, ErrorKind, Write};
use std::net::TcpStream;
use std::sync::Arc;
use std::sync::atomic::{AtomicBool, Ordering};

/// How a connection reads and writes.
#[derive(Drop)]
pub(crate) struct Manner {
    prompt: AtomicBool,
    keeps: AtomicBool,
    // A call failed since it would have had to wait, and nobody asked yet.
    would_wait: AtomicBool,
}

impl Manner {
    /// A write waits.
    pub(crate) fn patient() -> Manner {
        Manner {
            prompt: AtomicBool::new(false),
            keeps: AtomicBool::new(false),
            would_wait: AtomicBool::new(false),
        }
    }

    /// From now on a write does not wait, since its stream does not.
    pub(crate) fn hurry(&self) {
        self.prompt.store(true, Ordering::SeqCst);
    }

    fn is_prompt(&self) -> bool {
        self.prompt.load(Ordering::SeqCst)
    }

    fn note(&self, keeps: bool) {
        self.keeps.store(keeps, Ordering::SeqCst);
    }

    /// Whether something is kept.
    pub(crate) fn keeps(&self) -> bool {
        self.keeps.load(Ordering::SeqCst)
    }

    /// A call failed so.
    pub(crate) fn note_error(&self, error: &io::Error) {
        if error.kind() == ErrorKind::WouldBlock {
            self.would_wait.store(true, Ordering::SeqCst);
        }
    }

    /// Whether the last call that failed would have had to wait. It is told once.
    pub(crate) fn would_have_waited(&self) -> bool {
        self.would_wait.swap(false, Ordering::SeqCst)
    }
}

/// What a connection's writer has of its stream. Once its manner is prompt it takes each piece whole, and keeps what the stream does not take at once; to write
/// an empty piece has that leave.
#[derive(Drop)]
pub(crate) struct PromptEnd {
    alloc: Global,
    stream: Arc<TcpStream>,
    manner: Arc<Manner>,
    kept: Vec<u8>,
}

impl PromptEnd {
    /// Nothing is kept.
    pub(crate) fn new(alloc: Global, stream: Arc<TcpStream>, manner: Arc<Manner>) -> PromptEnd {
        PromptEnd {
            alloc,
            stream,
            manner,
            kept: Vec::new(alloc),
        }
    }

    // How many bytes the stream takes now.
    fn taken_now(&self, piece: &[u8]) -> io::Result<usize>
        ensures { WritesAtMost result piece.now }
    {
        let mut stream = &*self.stream;
        match stream.write(piece) {
            Ok(count) => Ok(count),
            Err(error) => {
                if error.kind() == ErrorKind::WouldBlock {
                    return Ok(0);
                }
                Err(error)
            }
        }
    }

    // Takes the whole piece, as far as there is memory for what the stream does not take.
    fn write_now(&mut self, piece: &[u8]) -> io::Result<usize>
        ensures { WritesAtMost result piece.now }
    {
        let count = if self.kept.is_empty() {
            self.taken_now(piece)?
        } else {
            0
        };
        if count == piece.len() {
            return Ok(count);
        }
        if self.kept.extend_from_slice(&piece[count..]).is_err() {
            return Ok(count);
        }
        self.manner.note(true);
        Ok(piece.len())
    }

    // Has what is kept leave, and waits for that.
    fn leave(&self) -> io::Result<()> {
        self.stream.set_nonblocking(false)?;
        let mut stream = &*self.stream;
        stream.write_all(self.kept.as_slice())?;
        self.stream.set_nonblocking(true)
    }

    fn settle(&mut self) -> io::Result<()> {
        if self.kept.is_empty() {
            return Ok(());
        }
        self.leave()?;
        self.kept = Vec::new(self.alloc);
        self.manner.note(false);
        Ok(())
    }
}

impl Write for PromptEnd {
    fn write(&mut self, piece: &[u8]) -> io::Result<usize> {
        if piece.is_empty() {
            self.settle()?;
            return Ok(0);
        }
        if self.manner.is_prompt() {
            return self.write_now(piece);
        }
        let mut stream = &*self.stream;
        match stream.write(piece) {
            Ok(count) => Ok(count),
            Err(error) => {
                self.manner.note_error(&error);
                Err(error)
            }
        }
    }

    fn flush(&mut self) -> io::Result<()> {
        self.settle()
    }
}
