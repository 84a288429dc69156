//! Inputs in, a line for each out.

use crate::answer::put;
use crate::input::{Input, next_input};
use hk_base::Memory;
use std::alloc::Global;
use std::io;
use std::io::{Read, Write};
use std::process::ExitCode;

// What was told is written once it is so long.
const ENOUGH: usize = 65_536;

/// What tells of inputs of some kinds.
pub trait Teller {
    /// Tells of an input. Answers whether there is such a kind.
    fn tell(&self, alloc: Global, input: &Input, out: &mut Vec<u8>) -> Result<bool, Memory>;
}

// Tells of an input on a line of its own.
fn tell_line<T: Teller>(
    alloc: Global,
    teller: &T,
    input: &Input,
    out: &mut Vec<u8>,
) -> Result<bool, Memory> {
    if !teller.tell(alloc, input, out)? {
        return Ok(false);
    }
    put(out, b"\n")?;
    Ok(true)
}

/// Tells of each input that the reader gives. The status is 1 where no memory is found, and 2 at an input that is not whole or of no kind.
pub fn tell_all<I: Read, O: Write, T: Teller>(
    alloc: Global,
    reader: &mut I,
    writer: &mut O,
    teller: &T,
) -> io::Result<ExitCode> {
    let mut bytes = Vec::new(alloc);
    reader.read_to_end(&mut bytes)?;
    let mut out = Vec::new(alloc);
    let mut rest = bytes.as_slice();
    for _input in 0..u64::MAX {
        let Some(input) = next_input(rest) else {
            break;
        };
        match tell_line(alloc, teller, &input, &mut out) {
            Ok(true) => rest = input.rest,
            Ok(false) => return Ok(ExitCode::from(2)),
            Err(_) => return Ok(ExitCode::from(1)),
        }
        if out.len() >= ENOUGH {
            writer.write_all(out.as_slice())?;
            out.clear();
        }
    }
    writer.write_all(out.as_slice())?;
    Ok(ExitCode::from(if rest.is_empty() { 0 } else { 2 }))
}
