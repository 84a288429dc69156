//! What frames one after the other are.

use crate::frame::{put_fault, put_letter};
use bytes_told::put;
use hk_base::Memory;
use hk_peer::{PeerCutter, PeerStep};
use std::alloc::Global;

// Bytes come in pieces of at most so many.
const PIECES: usize = 61;

// Tells of a step. Answers whether another may follow at once.
fn tell_step(out: &mut Vec<u8>, step: &PeerStep) -> Result<bool, Memory> {
    match step {
        PeerStep::Parcel(parcel) => {
            put_letter(out, parcel.shard, &parcel.letter)?;
            put(out, b";")?;
            Ok(true)
        }
        PeerStep::Need => Ok(false),
        PeerStep::Bad(fault) => {
            put_fault(out, *fault)?;
            Ok(false)
        }
    }
}

// Tells of each frame that has come whole. Answers whether a fault was told.
fn tell_whole(alloc: Global, cutter: &mut PeerCutter, out: &mut Vec<u8>) -> Result<bool, Memory> {
    for _step in 0..u64::MAX {
        let step = cutter.next(alloc)?;
        if !tell_step(out, &step)? {
            return Ok(matches!(step, PeerStep::Bad(_)));
        }
    }
    Ok(false)
}

/// Tells the letter of each frame that the bytes begin with, and then the first fault, or that more is needed.
pub fn tell(alloc: Global, bytes: &[u8], out: &mut Vec<u8>) -> Result<(), Memory> {
    let mut cutter = PeerCutter::new(alloc)?;
    for piece in bytes.chunks(1 + bytes.len() % PIECES) {
        cutter.feed(piece)?;
        if tell_whole(alloc, &mut cutter, out)? {
            return Ok(());
        }
    }
    put(out, b"need")
}
