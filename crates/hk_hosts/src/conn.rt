//! Connections between hosts.

ghost use Rattle.std.specs.Prelude.{◌≡◌, None, Some, [], refl, IfOk};
ghost use Rattle.std.specs.List.{concat};

use crate::ender::Ender;
use crate::now::{Came, PromptConnection};
use crate::prompt::{Manner, PromptEnd};
use hk_base::Memory;
use hk_outside::{Connection, Failed, MemoryConnection, ReaderSource, Sink, Source, WriterSink};
use std::alloc::Global;
use std::io::{self, Read};
use std::net::TcpStream;
use std::os::fd::{AsRawFd, RawFd};
use std::sync::Arc;
use std::time::Duration;

/// A connection whose calls can be told how long they may wait, and which another thread can end.
pub trait Patient: Connection {
    /// From now on a read that has waited for so many milliseconds fails, and so does a write; 0 is for as long as it takes.
    /// Where the machine can't be told, a call waits as long as before.
    fn wait_at_most(&self, read: u64, write: u64);

    /// From now on a write does not wait for the other end: what that can't take yet is kept, and leaves with the next
    /// [`Patient::catch_up`]. It counts as written. Where the machine can't be told, a write waits as before.
    fn write_promptly(&self) {}

    /// Whether something that was written is kept. Then more is kept behind it.
    fn keeps(&self) -> bool {
        false
    }

    /// Has what is kept leave, and waits for that as long as a write may. After `Failed` a front of it may have left.
    fn catch_up(&mut self) -> Result<(), Failed>
        ensures { Self.held self.new ≡ Self.held self.old }
    {
        Ok(())
    }

    /// What ends the connection from another thread.
    fn ender(&self) -> Result<Ender, Memory>;
}

impl Patient for MemoryConnection {
    fn wait_at_most(&self, _read: u64, _write: u64) {}

    fn ender(&self) -> Result<Ender, Memory> {
        Ok(Ender::Nothing)
    }
}

// What a connection's reader has of its stream.
#[derive(Drop)]
struct End {
    stream: Arc<TcpStream>,
    manner: Arc<Manner>,
}

impl Read for End {
    fn read(&mut self, room: &mut [u8]) -> io::Result<usize> {
        let mut stream = &*self.stream;
        match stream.read(room) {
            Ok(count) => Ok(count),
            Err(error) => {
                self.manner.note_error(&error);
                Err(error)
            }
        }
    }
}

/// A connection over TCP. It records the bytes that came and those that were taken, and can't tell what is left.
#[derive(Drop)]
pub struct HostConnection {
    stream: Arc<TcpStream>,
    manner: Arc<Manner>,
    source: ReaderSource<End>,
    sink: WriterSink<PromptEnd>,
}

impl HostConnection {
    /// A connection over a stream. It has recorded nothing, and has no faults.
    pub fn new(alloc: Global, stream: TcpStream) -> Result<HostConnection, Memory>
        ensures given { IfOk result (λ c. c.source.given.pieces ≡ []) }
        ensures taken { IfOk result (λ c. c.sink.taken.pieces ≡ []) }
        ensures faults { IfOk result (λ c. (c.source.faults ≡ 0) × (c.sink.faults ≡ 0)) }
    {
        // what is written leaves at once; where that can't be had, the connection is slower
        let _ = stream.set_nodelay(true);
        let stream = Arc::new(alloc, stream)?;
        let manner = Arc::new(alloc, Manner::patient())?;
        let source = ReaderSource::new(End {
            stream: stream.clone()?,
            manner: manner.clone()?,
        });
        let end = PromptEnd::new(alloc, stream.clone()?, manner.clone()?);
        let sink = WriterSink::new(end);
        Ok(HostConnection {
            stream,
            manner,
            source,
            sink,
        })
    }
}

impl Source for HostConnection {
    ghost left = { λ c. None };

    ghost given = { λ c. Some c.source.given.pieces };

    ghost faults = { λ c. c.source.faults };

    ghost beside = { λ c. (Some (concat c.sink.taken.pieces), c.sink.faults) };

    fn read(&mut self, room: &mut [u8]) -> Result<usize, Failed> {
        self.source.read(room)
    }
}

impl Sink for HostConnection {
    ghost held = { λ c. Some (concat c.sink.taken.pieces) };

    ghost given = { λ c. Some c.source.given.pieces };

    ghost faults = { λ c. c.sink.faults };

    ghost beside = { λ c. (None, c.source.faults) };

    fn write(&mut self, piece: &[u8]) -> Result<usize, Failed> {
        self.sink.write(piece)
    }
}

impl Connection for HostConnection {
    ghost read_keeps = { λ c. refl };

    ghost write_keeps = { λ c. refl };

    ghost one_record = { λ c. refl };
}

impl PromptConnection for HostConnection {
    fn stop_waiting(&self) -> Result<(), Failed> {
        self.stream.set_nonblocking(true).or(Err(Failed))
    }

    fn descriptor(&self) -> RawFd {
        self.stream.as_raw_fd()
    }

    fn read_now(&mut self, room: &mut [u8]) -> Result<Came, Failed> {
        match self.source.read(room) {
            Ok(count) => {
                if count == 0 {
                    return Ok(Came::End);
                }
                Ok(Came::Bytes(count))
            }
            Err(Failed) => {
                if self.manner.would_have_waited() {
                    return Ok(Came::Nothing);
                }
                Err(Failed)
            }
        }
    }

    fn write_now(&mut self, piece: &[u8]) -> Result<Option<usize>, Failed> {
        match self.sink.write(piece) {
            Ok(count) => Ok(Some(count)),
            Err(Failed) => {
                if self.manner.would_have_waited() {
                    return Ok(None);
                }
                Err(Failed)
            }
        }
    }
}

// How long a call may wait.
fn limit_of(millis: u64) -> Option<Duration> {
    if millis == 0 {
        return None;
    }
    Some(Duration::from_millis(millis))
}

impl Patient for HostConnection {
    fn wait_at_most(&self, read: u64, write: u64) {
        let _ = self.stream.set_read_timeout(limit_of(read));
        let _ = self.stream.set_write_timeout(limit_of(write));
    }

    fn write_promptly(&self) {
        if self.stream.set_nonblocking(true).is_ok() {
            self.manner.hurry();
        }
    }

    fn keeps(&self) -> bool {
        self.manner.keeps()
    }

    fn catch_up(&mut self) -> Result<(), Failed> {
        // a write of nothing has what is kept leave
        match self.sink.write(&[]) {
            Ok(_) => Ok(()),
            Err(Failed) => Err(Failed),
        }
    }

    fn ender(&self) -> Result<Ender, Memory> {
        let stream = Arc::try_clone(&self.stream)?;
        Ok(Ender::Stream(stream))
    }
}
