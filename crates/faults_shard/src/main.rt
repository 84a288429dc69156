//! Makes the steps of a row over a shard of a founder that is alone, and tells on one line each what they answer: writes of two keys with one cell, one
//! of them with more data than a cell shows, reads of what the shard shows, and checkpoints. A step that finds no memory is made again; `changed` is told
//! where the shard was not as before. `checks/shard` refuses each request for memory in turn.
#![tactic(auto)]

mod opened;
mod steps;

use crate::opened::{Opened, open};
use crate::steps::{STEPS, make};
use bytes_told::put;
use hk_base::Memory;
use std::alloc::Global;
use std::io;
use std::io::Write;
use std::process::ExitCode;
use std::sync::Wait;

// More than all lines have.
const ROOM: usize = 4_096;

// Makes a step, and makes it again where it found no memory.
fn make_at_last<R: Wait>(
    rt: &R,
    alloc: Global,
    opened: &mut Opened,
    step: u8,
    out: &mut Vec<u8>,
) -> Result<(), Memory> {
    let before = opened.made();
    let told = out.len();
    if make(rt, alloc, opened, step, out).is_ok() {
        return Ok(());
    }
    out.truncate(told);
    if opened.made() != before {
        put(out, b"changed\n")?;
    }
    make(rt, alloc, opened, step, out)
}

fn make_all<R: Wait>(
    rt: &R,
    alloc: Global,
    opened: &mut Opened,
    out: &mut Vec<u8>,
) -> Result<(), Memory> {
    for step in 0..STEPS {
        make_at_last(rt, alloc, opened, step, out)?;
    }
    Ok(())
}

// Opens the shard, and opens it again where that found no memory.
fn open_at_last<R: Wait>(rt: &R, alloc: Global) -> Result<Opened, Memory> {
    match open(rt, alloc) {
        Ok(opened) => Ok(opened),
        Err(_) => open(rt, alloc),
    }
}

fn run<R: Wait>(rt: &R, alloc: Global, out: &mut Vec<u8>) -> Result<(), Memory> {
    let mut opened = open_at_last(rt, alloc)?;
    make_all(rt, alloc, &mut opened, out)
}

fn main(rt: HostRuntime) -> io::Result<ExitCode> {
    let alloc = rt.alloc();
    let mut out = Vec::with_capacity(alloc, ROOM)?;
    let ran = run(&rt, alloc, &mut out);
    io::writer(&rt).write_all(out.as_slice())?;
    Ok(ExitCode::from(if ran.is_ok() { 0 } else { 1 }))
}
