//! Reads frames from standard input, to the first bytes that are none, and prints each letter again; then it tells how
//! many letters and bytes there were. `bench/frames` measures it.
#![tactic(auto)]

use hk_frame::{print_letter, read_letter};
use std::alloc::Global;
use std::io;
use std::io::Read;

const PIECE: usize = 65_536;

// What is printed is let go once it is so long.
const ENOUGH: usize = 65_536;

// What was read and printed so far.
#[derive(Drop)]
struct Counts {
    letters: u64,
    bytes: u64,
}

impl Counts {
    // Reads the letters and prints them.
    fn take_all(&mut self, alloc: Global, bytes: &[u8]) {
        let mut out = Vec::new(alloc);
        let mut rest = bytes;
        for _ in 0..u64::MAX {
            let Ok((shard, letter, len)) = read_letter(alloc, rest) else {
                break;
            };
            if print_letter(shard, &letter, &mut out).is_err() {
                break;
            }
            let Some(behind) = rest.get(len..) else {
                break;
            };
            self.letters = self.letters.saturating_add(1);
            rest = behind;
            if out.len() >= ENOUGH {
                self.bytes = self.bytes.saturating_add(out.len() as u64);
                out.clear();
            }
        }
        self.bytes = self.bytes.saturating_add(out.len() as u64);
    }
}

fn main(rt: HostRuntime) -> io::Result<()> {
    let alloc = rt.alloc();
    let mut reader = rt.reader();
    let mut piece = [0u8; PIECE];
    let mut bytes = Vec::new(alloc);
    for _ in 0..u64::MAX {
        let count = reader.read(&mut piece)?;
        if count == 0 || bytes.extend_from_slice(&piece[..count]).is_err() {
            break;
        }
    }
    let mut counts = Counts {
        letters: 0,
        bytes: 0,
    };
    counts.take_all(alloc, &bytes);
    let letters = counts.letters;
    let bytes = counts.bytes;
    println!(rt; "letters {letters} bytes {bytes}")
}
