//! Request lines, and what they are refused for.

use hk_request::{BlockFault, Head, Request, RequestCause, Verb, finish, read_request};
use std::alloc::{AllocError, Global};

// Tells whether the line is refused for this cause, with this much to skip.
fn refuses(alloc: Global, line: &[u8], cause: RequestCause, skip: u64) -> bool {
    match read_request(alloc, line) {
        Ok(_) => false,
        Err(fault) => fault.cause == cause && fault.skip == skip,
    }
}

// Lines that are refused: the first fault, and how many bytes are passed over.
const FAULTS: [(&[u8], RequestCause, u64); 26] = [
    (
        b"set k 0 0 1048577",
        RequestCause::TooLarge { bytes: 1_048_577 },
        1_048_579,
    ),
    (
        b"set k 4294967296 0 1",
        RequestCause::BadNumber { word: 3 },
        3,
    ),
    (b"set k 0 -1 1", RequestCause::Expiry, 3),
    (b"set k 0 -0 1", RequestCause::Expiry, 3),
    (b"set k 0 -0 x", RequestCause::Expiry, 0),
    (b"set k 0 - 1", RequestCause::BadNumber { word: 4 }, 3),
    (b"set k 0 --1 1", RequestCause::BadNumber { word: 4 }, 3),
    (b"set k 0 +0 1", RequestCause::BadNumber { word: 4 }, 3),
    (b"set k 0 0 +1", RequestCause::BadNumber { word: 5 }, 0),
    (b"set k 0 0", RequestCause::WrongCount, 0),
    (b"set k 0 0 4 5", RequestCause::WrongCount, 6),
    (b"set k 0 0 4 noreply noreply", RequestCause::WrongCount, 6),
    (b"cas k 0 0 4 x", RequestCause::BadNumber { word: 6 }, 6),
    (b"append k 0 0 3", RequestCause::Unknown, 5),
    (b"GET k", RequestCause::Unknown, 0),
    (b"", RequestCause::Unknown, 0),
    (b"  ", RequestCause::Unknown, 0),
    (b"get", RequestCause::WrongCount, 0),
    (b"get good b\rd", RequestCause::BadKey, 0),
    (b"incr k +5", RequestCause::BadNumber { word: 3 }, 0),
    (b"incr k noreply", RequestCause::BadNumber { word: 3 }, 0),
    (
        b"incr k 000000000000000000001",
        RequestCause::BadNumber { word: 3 },
        0,
    ),
    (
        b"incr k 18446744073709551616",
        RequestCause::BadNumber { word: 3 },
        0,
    ),
    (b"add k 0 60 3", RequestCause::Expiry, 5),
    (b"delete k 0", RequestCause::WrongCount, 0),
    (b"quit now", RequestCause::WrongCount, 0),
];

#[test]
fn the_first_fault_is_told_with_its_skip(rt: HostRuntime) {
    let alloc = rt.alloc();
    for (line, cause, skip) in &FAULTS {
        assert!(rt; refuses(alloc, line, *cause, *skip));
    }
}

#[test]
fn stores_take_their_block(rt: HostRuntime) {
    let alloc = rt.alloc();
    match read_request(alloc, b"  add  k 0 00 1048576 ") {
        Ok(Head::Store(head)) => {
            assert!(rt; head.verb == Verb::Add);
            assert!(rt; head.bytes == 1_048_576 && head.tag.is_none() && !head.noreply);
        }
        _ => panic!(rt; "no store"),
    }
    match read_request(alloc, b"cas k 7 0 2 18446744073709551615 noreply") {
        Ok(Head::Store(head)) => {
            assert!(rt; head.flags == 7 && head.tag == Some(u64::MAX) && head.noreply);
            assert!(rt; head.bytes == 2);
            assert!(rt; matches!(finish(alloc, head, b"abc\r"), Err(BlockFault::BadEnd)));
        }
        _ => panic!(rt; "no store"),
    }
    match read_request(alloc, b"set k 0 0 2") {
        Ok(Head::Store(head)) => {
            assert!(rt; head.bytes == 2);
            assert!(rt;
                matches!(
                    finish(alloc, head, b"ab\r\n"),
                    Ok(Request::Update { noreply: false, .. })
                )
            );
        }
        _ => panic!(rt; "no store"),
    }
}

// A get of one key of this length.
fn get_of(alloc: Global, len: usize) -> Result<Vec<u8>, AllocError> {
    let mut line = b"get ".as_slice().to_vec(alloc)?;
    for _ in 0..len {
        line.push(b'k')?;
    }
    Ok(line)
}

#[test]
fn keys_of_a_get(rt: HostRuntime) {
    let alloc = rt.alloc();
    let line = get_of(alloc, 250).expect(&rt, "memory");
    match read_request(alloc, line.as_slice()) {
        Ok(Head::Whole(Request::Get { keys, tags })) => assert!(rt; keys.len() == 1 && !tags),
        _ => panic!(rt; "no get"),
    }
    let line = get_of(alloc, 251).expect(&rt, "memory");
    assert!(rt; refuses(alloc, line.as_slice(), RequestCause::BadKey, 0));
    match read_request(alloc, b"gets a b a") {
        Ok(Head::Whole(Request::Get { keys, tags })) => assert!(rt; keys.len() == 3 && tags),
        _ => panic!(rt; "no get"),
    }
}
