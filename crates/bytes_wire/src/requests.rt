//! What lines and blocks of clients are.

ghost use Rattle.std.specs.Prelude.{◌≡◌};

use bytes_told::{put, put_bytes, put_flag, put_number, put_op};
use hk_base::{MAX_DATA_LEN, Memory};
use hk_lines::{Cutter, Step};
use hk_request::{
    BlockFault, Head, Request, RequestCause, RequestFault, StoreHead, Verb, finish, read_request,
};
use std::alloc::Global;

const LINE_LIMIT: usize = 65_536;

// The bytes come in pieces of 1 to so many bytes, by how many there are.
const PIECES: usize = 61;

fn put_request(out: &mut Vec<u8>, request: &Request) -> Result<(), Memory> {
    match request {
        Request::Get { keys, tags } => {
            put(out, if *tags { b"gets" } else { b"get" })?;
            for key in keys.as_slice() {
                put_bytes(out, key.bytes())?;
            }
            Ok(())
        }
        Request::Update { key, op, noreply } => {
            put(out, b"update")?;
            put_bytes(out, key.bytes())?;
            put_op(out, op)?;
            put_flag(out, *noreply)
        }
        Request::Quit => put(out, b"quit"),
        Request::Version => put(out, b"version"),
    }
}

fn verb_name(verb: Verb) -> &'static [u8] {
    match verb {
        Verb::Set => b"store set",
        Verb::Cas => b"store cas",
        Verb::Add => b"store add",
        Verb::Replace => b"store replace",
    }
}

fn put_store(out: &mut Vec<u8>, head: &StoreHead) -> Result<(), Memory> {
    put(out, verb_name(head.verb))?;
    put_bytes(out, head.key.bytes())?;
    put(out, b" ")?;
    put_number(out, u64::from(head.flags))?;
    put(out, b" ")?;
    put_number(out, u64::from(head.bytes))?;
    if let Some(tag) = head.tag {
        put(out, b" ")?;
        put_number(out, tag)?;
    }
    put_flag(out, head.noreply)
}

fn put_fault(out: &mut Vec<u8>, fault: RequestFault) -> Result<(), Memory> {
    put(out, b"refused ")?;
    match fault.cause {
        RequestCause::Memory => return Err(Memory),
        RequestCause::Unknown => put(out, b"unknown")?,
        RequestCause::BadKey => put(out, b"bad-key")?,
        RequestCause::BadNumber { word } => {
            put(out, b"bad-number ")?;
            put_number(out, u64::from(word))?;
        }
        RequestCause::WrongCount => put(out, b"wrong-count")?,
        RequestCause::TooLarge { bytes } => {
            put(out, b"too-large ")?;
            put_number(out, u64::from(bytes))?;
        }
        RequestCause::Expiry => put(out, b"expiry")?,
    }
    put(out, b" ")?;
    put_number(out, fault.skip)
}

// Tells of a line. Answers the store whose block is to come, if it is one.
fn tell_line(
    alloc: Global,
    cutter: &mut Cutter,
    out: &mut Vec<u8>,
) -> Result<Option<StoreHead>, Memory>
    requires { cutter.old.dropping ≡ 0 }
{
    match read_request(alloc, cutter.given()) {
        Ok(Head::Whole(request)) => put_request(out, &request)?,
        Ok(Head::Store(head)) => {
            put_store(out, &head)?;
            cutter.expect_block(head.bytes);
            return Ok(Some(head));
        }
        Err(fault) => {
            put_fault(out, fault)?;
            cutter.skip(fault.skip);
        }
    }
    Ok(None)
}

fn tell_block(
    alloc: Global,
    head: Option<StoreHead>,
    block: &[u8],
    out: &mut Vec<u8>,
) -> Result<(), Memory> {
    let Some(head) = head else {
        return put(out, b"a block with no store");
    };
    let bytes = head.bytes as usize;
    if bytes > MAX_DATA_LEN || block.len() != bytes + 2 {
        return put(out, b"a block of another length");
    }
    if head.tag.is_some() != (head.verb == Verb::Cas) {
        return put(out, b"a tag that is not wanted");
    }
    match finish(alloc, head, block) {
        Ok(request) => put_request(out, &request),
        Err(BlockFault::BadEnd) => put(out, b"bad-end"),
        Err(BlockFault::Memory) => Err(Memory),
    }
}

// What is to come of the bytes, and the store whose block is to come.
#[derive(Drop)]
struct Stream {
    cutter: Cutter,
    store: Option<StoreHead>,
}

impl Stream {
    // Tells of all that there is. Answers whether a line is too long.
    fn tell_all(&mut self, alloc: Global, out: &mut Vec<u8>) -> Result<bool, Memory> {
        for _step in 0..u64::MAX {
            match self.cutter.next() {
                Step::Line => self.store = tell_line(alloc, &mut self.cutter, out)?,
                Step::Block => tell_block(alloc, self.store.take(), self.cutter.given(), out)?,
                Step::Need => return Ok(false),
                Step::TooLong => return Ok(true),
            }
            put(out, b"; ")?;
        }
        Ok(false)
    }
}

/// Tells what the bytes of a client are, one after the other, and how they end.
pub fn tell(alloc: Global, bytes: &[u8], out: &mut Vec<u8>) -> Result<(), Memory> {
    let mut stream = Stream {
        cutter: Cutter::new(alloc, LINE_LIMIT)?,
        store: None,
    };
    let mut is_long = false;
    for piece in bytes.chunks(1 + bytes.len() % PIECES) {
        stream.cutter.feed(piece)?;
        is_long = stream.tell_all(alloc, out)?;
    }
    put(out, if is_long { b"too-long" } else { b"need" })
}
