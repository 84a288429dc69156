//! Tells what the readers of scripts, of their lines and of the words of commands make of bytes from anyone: it reads inputs of the kinds
//! `header`, `event`, `script` and `command` from standard input, as `bytes_told` says, and writes one line for each. An input of another kind
//! ends it. `checks/bytes` compares these lines with those of readers of its own.
#![tactic(auto)]

mod command;
mod line;
mod script;

use bytes_told::{Input, next_input, put};
use hk_base::Memory;
use std::alloc::Global;
use std::io;
use std::io::{Read, Write};
use std::process::ExitCode;

// What was told is written once it is so long.
const ENOUGH: usize = 65_536;

// Tells of one input. Answers whether there is such a kind.
fn tell(alloc: Global, input: &Input, out: &mut Vec<u8>) -> Result<bool, Memory> {
    match input.kind {
        b"header" => line::tell_header(input.bytes, out)?,
        b"event" => line::tell_event(alloc, input.bytes, out)?,
        b"script" => script::tell(alloc, input.bytes, out)?,
        b"command" => command::tell(alloc, input.bytes, out)?,
        _ => return Ok(false),
    }
    put(out, b"\n")?;
    Ok(true)
}

fn main(rt: HostRuntime) -> io::Result<ExitCode> {
    let alloc = rt.alloc();
    let mut bytes = Vec::new(alloc);
    rt.reader().read_to_end(&mut bytes)?;
    let mut writer = io::writer(&rt);
    let mut out = Vec::new(alloc);
    let mut rest = bytes.as_slice();
    for _input in 0..u64::MAX {
        let Some(input) = next_input(rest) else {
            break;
        };
        match tell(alloc, &input, &mut out) {
            Ok(true) => rest = input.rest,
            Ok(false) => return Ok(ExitCode::from(2)),
            Err(_) => return Ok(ExitCode::from(1)),
        }
        if out.len() >= ENOUGH {
            writer.write_all(out.as_slice())?;
            out.clear();
        }
    }
    writer.write_all(out.as_slice())?;
    Ok(ExitCode::from(if rest.is_empty() { 0 } else { 2 }))
}
