//! Serves the bytes of standard input as one connection in memory, over a desk that answers from a table as a group
//! of one node would, and writes the replies to standard output. `bench/conn` measures it.
//!
//! With the word `streams` the connection is standard input and standard output themselves, and how it ended is told on
//! standard error. `checks/connection` lets them fail.
#![tactic(auto)]

mod desk;
mod streams;

use desk::TableDesk;
use hk_conn::serve_connection;
use hk_outside::{MemoryConnection, MemorySink, MemorySource};
use std::io::{Read, Write};
use std::{env, io};
use streams::StreamConnection;

const PATIENCE: u32 = 64;

fn main(rt: HostRuntime) -> io::Result<()> {
    let mut desk = TableDesk::new(rt.alloc())?;
    if wants_streams(&rt)? {
        serve_streams(rt, &mut desk);
        return Ok(());
    }
    serve_memory(rt, &mut desk)
}

fn wants_streams(rt: &HostRuntime) -> io::Result<bool> {
    for word in env::args(rt)?.skip(1) {
        if word.as_str() == "streams" {
            return Ok(true);
        }
    }
    Ok(false)
}

fn serve_streams(rt: HostRuntime, desk: &mut TableDesk) {
    let mut conn = StreamConnection::new(rt.reader(), io::writer(&rt));
    let end = serve_connection(rt.alloc(), &mut conn, desk, PATIENCE);
    let _ = eprintln!(rt; "ended {end:?}");
}

fn serve_memory(rt: HostRuntime, desk: &mut TableDesk) -> io::Result<()> {
    let alloc = rt.alloc();
    let mut input = Vec::new(alloc);
    rt.reader().read_to_end(&mut input)?;
    let mut conn = MemoryConnection {
        source: MemorySource::new(input, Vec::new(alloc)),
        sink: MemorySink::new(alloc, Vec::new(alloc)),
    };
    serve_connection(alloc, &mut conn, desk, PATIENCE);
    io::writer(&rt).write_all(conn.sink.sink.bytes.as_slice())
}
