//! Reads what clients send from standard input, in pieces of 16 KiB, cuts it into lines and blocks, reads the requests
//! and prints how many lines and requests there were. `bench/front` measures it.
#![tactic(auto)]

use hk_base::MAX_DATA_LEN;
use hk_lines::{Cutter, Step};
use hk_request::{Head, StoreHead, Verb, finish, read_request};
use std::alloc::Global;
use std::io;
use std::io::Read;

const LINE_LIMIT: usize = 65_536;

const PIECE: usize = 16_384;

// What was found so far, and the store whose block is to come.
#[derive(Drop)]
struct Counts {
    lines: u64,
    requests: u64,
    store: Option<StoreHead>,
}

impl Counts {
    // Reads a line. Answers how long the block is that comes behind it, if one does.
    fn line(&mut self, alloc: Global, line: &[u8]) -> Option<u32> {
        self.lines = self.lines.saturating_add(1);
        match read_request(alloc, line) {
            Ok(Head::Whole(_)) => {
                self.requests = self.requests.saturating_add(1);
                None
            }
            Ok(Head::Store(head)) => {
                let bytes = head.bytes;
                self.store = Some(head);
                Some(bytes)
            }
            Err(_) => None,
        }
    }

    // Reads the block of the store.
    fn block(&mut self, alloc: Global, block: &[u8]) {
        let Some(head) = self.store.take() else {
            return;
        };
        let bytes = head.bytes as usize;
        if bytes > MAX_DATA_LEN || block.len() != bytes + 2 {
            return;
        }
        if head.tag.is_some() != (head.verb == Verb::Cas) {
            return;
        }
        if finish(alloc, head, block).is_ok() {
            self.requests = self.requests.saturating_add(1);
        }
    }

    // Takes all that the cutter can give.
    fn take_all(&mut self, alloc: Global, cutter: &mut Cutter) {
        for _ in 0..u64::MAX {
            match cutter.next() {
                Step::Line => {
                    if let Some(bytes) = self.line(alloc, cutter.given()) {
                        cutter.expect_block(bytes);
                    }
                }
                Step::Block => self.block(alloc, cutter.given()),
                Step::Need | Step::TooLong => return,
            }
        }
    }
}

fn main(rt: HostRuntime) -> io::Result<()> {
    let alloc = rt.alloc();
    let mut counts = Counts {
        lines: 0,
        requests: 0,
        store: None,
    };
    let Ok(mut cutter) = Cutter::new(alloc, LINE_LIMIT) else {
        return Ok(());
    };
    let mut reader = rt.reader();
    let mut piece = [0u8; PIECE];
    for _ in 0..u64::MAX {
        let count = reader.read(&mut piece)?;
        if count == 0 || cutter.feed(&piece[..count]).is_err() {
            break;
        }
        counts.take_all(alloc, &mut cutter);
    }
    let lines = counts.lines;
    let requests = counts.requests;
    println!(rt; "lines {lines} requests {requests}")
}
