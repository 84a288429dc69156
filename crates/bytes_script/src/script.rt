//! How scripts end.

use bytes_told::{put, put_number};
use hk_base::Memory;
use hk_drill::drill;
use hk_outside::{MemorySink, MemorySource};
use std::alloc::Global;

// The last line of a transcript, without its feed.
fn last_line(text: &[u8]) -> &[u8] {
    let Some((_, text)) = text.split_last() else {
        return text;
    };
    match text.iter().rposition(|byte| *byte == b'\n') {
        Some(at) => text.split_at(at + 1).1,
        None => text,
    }
}

// The last line with as many words as do not depend on what happened: all of a stop, and how many events there were.
fn put_end(out: &mut Vec<u8>, line: &[u8]) -> Result<(), Memory> {
    let count = if line.starts_with(b"end ") { 2 } else { 4 };
    for word in line.split(|byte| *byte == b' ').take(count) {
        put(out, b" ")?;
        put(out, word)?;
    }
    Ok(())
}

/// Tells the status of a drill of the script, and the last line that it wrote.
pub fn tell(alloc: Global, script: &[u8], out: &mut Vec<u8>) -> Result<(), Memory> {
    let script = Vec::from_slice(alloc, script)?;
    let mut source = MemorySource::new(script, Vec::new(alloc));
    let mut sink = MemorySink::new(alloc, Vec::new(alloc));
    let status = drill(alloc, &mut source, &mut sink);
    put_number(out, u64::from(status.number()))?;
    put_end(out, last_line(sink.sink.bytes.as_slice()))
}
