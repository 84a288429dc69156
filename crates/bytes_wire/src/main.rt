//! Tells what the readers of requests, replies and frames make of bytes from anyone: it reads inputs of the kinds `requests`, `reply`,
//! `frame` and `frames` from standard input, as `bytes_told` says, and writes one line for each. An input that no kind is ends it. `checks/bytes` compares
//! these lines with those of readers of its own.
#![tactic(auto)]

mod frame;
mod frames;
mod reply;
mod requests;

use bytes_told::{Input, Teller, tell_all};
use hk_base::Memory;
use std::alloc::Global;
use std::io;
use std::process::ExitCode;

// The readers of what comes over connections.
struct WireTeller;

impl Teller for WireTeller {
    fn tell(&self, alloc: Global, input: &Input, out: &mut Vec<u8>) -> Result<bool, Memory> {
        match input.kind {
            b"requests" => requests::tell(alloc, input.bytes, out)?,
            b"reply" => reply::tell(alloc, input.bytes, out)?,
            b"frame" => frame::tell(alloc, input.bytes, out)?,
            b"frames" => frames::tell(alloc, input.bytes, out)?,
            _ => return Ok(false),
        }
        Ok(true)
    }
}

fn main(rt: HostRuntime) -> io::Result<ExitCode> {
    let mut reader = rt.reader();
    let mut writer = io::writer(&rt);
    tell_all(rt.alloc(), &mut reader, &mut writer, &WireTeller)
}
