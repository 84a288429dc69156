//! Replies, printed and read.

use hk_base::{Data, Key};
use hk_reply::{Item, Reply, ReplyFault, ValueItems, print_reply, read_reply};
use std::alloc::Global;

// Tells whether the bytes are read as less than a reply.
fn needs(alloc: Global, bytes: &[u8]) -> bool {
    matches!(read_reply(alloc, bytes), Err(ReplyFault::Need))
}

// Tells whether the bytes are bad at this place.
fn bad_at(alloc: Global, bytes: &[u8], place: usize) -> bool {
    match read_reply(alloc, bytes) {
        Err(ReplyFault::Bad { at }) => at == place,
        _ => false,
    }
}

#[test]
fn what_is_no_reply_needs_more_or_is_bad(rt: HostRuntime) {
    let alloc = rt.alloc();
    assert!(rt; needs(alloc, b""));
    assert!(rt; needs(alloc, b"STO"));
    assert!(rt; needs(alloc, b"VALUE k 0 2 7\r\na"));
    assert!(rt; needs(alloc, b"VALUE k 0 0\r\n\r\nEND\r"));
    assert!(rt; needs(alloc, b"NOT_S"));
    assert!(rt; bad_at(alloc, b"STOX", 3));
    assert!(rt; bad_at(alloc, b"NOT_X", 4));
    assert!(rt; bad_at(alloc, b"x", 0));
    assert!(rt; bad_at(alloc, b"05\r\n", 1));
    assert!(rt; bad_at(alloc, b"18446744073709551616\r\n", 19));
    assert!(rt; bad_at(alloc, b"VALUE k 0 1 7\r\na\r\nVALUE l 0 1\r", 29));
    assert!(rt; bad_at(alloc, b"SERVER_ERROR bust\r\n", 16));
}

#[test]
fn a_reply_is_read_whatever_follows(rt: HostRuntime) {
    let alloc = rt.alloc();
    match read_reply(alloc, b"5\r\nSTORED") {
        Ok((reply, len)) => {
            assert!(rt; matches!(reply, Reply::Number(5)) && len == 3);
        }
        Err(_) => panic!(rt; "no number"),
    }
    assert!(rt; matches!(read_reply(alloc, b"STORED\r\n"), Ok((Reply::Stored, 8))));
}

#[test]
fn values_are_printed_and_read_again(rt: HostRuntime) {
    let alloc = rt.alloc();
    let key = Key::read(alloc, b"k").expect(&rt, "memory");
    let bytes = Data::read(alloc, b"hello").expect(&rt, "memory");
    let mut items = ValueItems::new(alloc);
    items
        .push(Item {
            key,
            flags: 7,
            bytes,
            tag: 131_072,
        })
        .expect(&rt, "memory");
    let reply = Reply::Values { items, tags: true };
    let mut out = Vec::new(alloc);
    print_reply(&reply, &mut out).expect(&rt, "memory");
    assert!(rt; out.as_slice() == b"VALUE k 7 5 131072\r\nhello\r\nEND\r\n".as_slice());
    match read_reply(alloc, out.as_slice()) {
        Ok((reply, len)) => match reply {
            Reply::Values { items, tags } => {
                assert!(rt; items.len() == 1 && tags && len == 32);
            }
            _ => panic!(rt; "no values"),
        },
        Err(_) => panic!(rt; "no reply"),
    }
}
