//! Frames by hand: what is read and printed again, and what is no frame.

use hk_base::{Actor, Body, Letter, NodeId, Stamp};
use hk_frame::{FrameFault, print_letter, read_letter};
use hk_rows_shared::let_go;
use std::alloc::Global;

// Node 1 asks manager 0 for a lease, at 101 milliseconds of its clock.
const LEASE_ASK: &str = "00000018 06 00 0000000000000002 000001 010000 0000000000000065";

// Node 1 acknowledges the update 2.0 of the key `k` to node 0; its own stamp is 2.1.
const ACK: &str =
    "00000026 02 03 0000000000000001 000001 000000 016b 0000000000000002 0000 0000000000000002 0001";

fn digit_of(byte: u8) -> Option<u8> {
    match byte {
        b'0'..=b'9' => Some(byte - b'0'),
        b'a'..=b'f' => Some(byte - b'a' + 10),
        _ => None,
    }
}

// The bytes that hexadecimal digits write; blanks are passed over.
fn bytes_of(alloc: Global, text: &str) -> Option<Vec<u8>> {
    let mut bytes = Vec::new(alloc);
    let mut high = None;
    for byte in text.as_bytes() {
        let Some(digit) = digit_of(*byte) else {
            continue;
        };
        match high {
            None => high = Some(digit),
            Some(first) => {
                high = None;
                let value: u8 = first;
                if bytes
                    .push(value.wrapping_mul(16).wrapping_add(digit))
                    .is_err()
                {
                    return None;
                }
            }
        }
    }
    Some(bytes)
}

// What is printed of the letter that was read, where the whole of the bytes is its frame.
fn printed_again(alloc: Global, bytes: &[u8]) -> Option<Vec<u8>> {
    match read_letter(alloc, bytes) {
        Ok((shard, letter, len)) => {
            let mut out = Vec::new(alloc);
            let printed = print_letter(shard, &letter, &mut out);
            let_go(letter);
            if printed.is_err() || len != bytes.len() {
                return None;
            }
            Some(out)
        }
        Err(_) => None,
    }
}

#[test]
fn frames_are_read_and_printed_again(rt: HostRuntime) {
    let alloc = rt.alloc();
    let rows: [(&str, &str); 8] = [
        ("lease ask", LEASE_ASK),
        ("ack", ACK),
        (
            "an update that leaves nothing",
            "0000001d 01 00 0000000000000001 000000 000001 016b 0000000000000003 0000 02",
        ),
        (
            "a write",
            "00000027 01 00 0000000000000001 000000 000001 016b 0000000000000003 0000 00 00000007 00000002 6869",
        ),
        (
            "the last epoch",
            "0000001c 03 07 ffffffffffffffff 00ffff 000001 016b 0000ffffffffffff ffff",
        ),
        (
            "a batch of a row that is valid and one that was deleted",
            "00000038 05 00 0000000000000001 000000 000001 0161 01 02 0162 0000000000000005 0002 00 01 00000000 00000000 0163 0000000000000007 0001 02 00",
        ),
        (
            "promise",
            "0000002c 09 00 0000000000000001 010000 010001 00000002 01 01 00000001 00 0000000000000002 00000002 02 0000 0001",
        ),
        (
            "chosen",
            "00000021 0c 00 0000000000000002 010000 000001 0000000000000002 00000002 02 0000 0001",
        ),
    ];
    for (name, text) in rows {
        let bytes = bytes_of(alloc, text).expect(&rt, "memory");
        match printed_again(alloc, &bytes) {
            Some(out) => assert_eq!(rt; out.as_slice(), bytes.as_slice(), "{name}"),
            None => panic!(rt; "not read: {name}"),
        }
    }
}

fn asks_at(letter: &Letter, time: u64) -> bool {
    match &letter.body {
        Body::LeaseAsk { asked } => *asked == time,
        _ => false,
    }
}

fn acknowledges(letter: &Letter, update: Stamp, own: Stamp) -> bool {
    match &letter.body {
        Body::Ack { key, stamp, top } => {
            key.bytes() == b"k".as_slice() && *stamp == update && *top == own
        }
        _ => false,
    }
}

#[test]
fn fields_are_told(rt: HostRuntime) {
    let alloc = rt.alloc();
    let bytes = bytes_of(alloc, LEASE_ASK).expect(&rt, "memory");
    match read_letter(alloc, &bytes) {
        Ok((shard, letter, len)) => {
            assert_eq!(rt; (shard, len, letter.epoch), (0, 28, 2));
            assert_eq!(rt;
                (letter.from, letter.to),
                (Actor::Node(NodeId(1)), Actor::Manager(0))
            );
            assert!(rt; asks_at(&letter, 101));
            let_go(letter);
        }
        Err(fault) => panic!(rt; "{fault:?}"),
    }
    let bytes = bytes_of(alloc, ACK).expect(&rt, "memory");
    let update = Stamp {
        version: 2,
        node: 0,
    };
    let own = Stamp {
        version: 2,
        node: 1,
    };
    match read_letter(alloc, &bytes) {
        Ok((shard, letter, len)) => {
            assert_eq!(rt; (shard, len, letter.epoch), (3, 42, 1));
            assert!(rt; acknowledges(&letter, update, own));
            let_go(letter);
        }
        Err(fault) => panic!(rt; "{fault:?}"),
    }
}

// Bytes that are no frame, and the first fault of each.
const FAULTS: [(&str, &str, FrameFault); 19] = [
    (
        "a length of 2,200,000 and no more",
        "002191c0",
        FrameFault::Short { wanted: 2_200_004 },
    ),
    (
        "kind 14",
        "00000026 0e 03 0000000000000001 000001 000000 016b 0000000000000002 0000 0000000000000002 0001",
        FrameFault::BadKind { kind: 14 },
    ),
    (
        "kind 0 and shard 8",
        "00000010 00 08 0000000000000001 000001 000000",
        FrameFault::BadKind { kind: 0 },
    ),
    (
        "shard 8",
        "00000026 02 08 0000000000000001 000001 000000 016b 0000000000000002 0000 0000000000000002 0001",
        FrameFault::BadField { at: 5 },
    ),
    (
        "one byte more",
        "00000027 02 03 0000000000000001 000001 000000 016b 0000000000000002 0000 0000000000000002 0001 00",
        FrameFault::BadLength { length: 39 },
    ),
    (
        "a lease ask without its time",
        "00000010 06 00 0000000000000002 000001 010000",
        FrameFault::BadLength { length: 16 },
    ),
    (
        "a lease ask beyond the clock limit",
        "00000018 06 00 0000000000000002 000001 010000 000000e8d4a51001",
        FrameFault::BadField { at: 20 },
    ),
    (
        "class 2",
        "00000018 06 00 0000000000000002 020001 010000 0000000000000065",
        FrameFault::BadField { at: 14 },
    ),
    (
        "manager 9",
        "00000018 06 00 0000000000000002 000001 010009 0000000000000065",
        FrameFault::BadField { at: 18 },
    ),
    (
        "a key of no bytes",
        "0000001b 03 00 0000000000000001 000000 000001 00 0000000000000003 0000",
        FrameFault::BadField { at: 20 },
    ),
    (
        "a key with a space",
        "0000001d 03 00 0000000000000001 000000 000001 026b20 0000000000000003 0000",
        FrameFault::BadField { at: 22 },
    ),
    (
        "a key that passes the end",
        "00000012 03 00 0000000000000001 000000 000001 0220",
        FrameFault::BadLength { length: 18 },
    ),
    (
        "version 2^48",
        "0000001c 03 00 0000000000000001 000000 000001 016b 0001000000000000 0000",
        FrameFault::BadField { at: 22 },
    ),
    (
        "a version that passes the end",
        "00000019 03 00 0000000000000001 000000 000001 016b 00010000000000",
        FrameFault::BadLength { length: 25 },
    ),
    (
        "an update of kind 3",
        "0000001d 01 00 0000000000000001 000000 000001 016b 0000000000000003 0000 03",
        FrameFault::BadField { at: 32 },
    ),
    (
        "an update of kind 2 with a content behind it",
        "00000027 01 00 0000000000000001 000000 000001 016b 0000000000000003 0000 02 00000007 00000002 6869",
        FrameFault::BadLength { length: 39 },
    ),
    (
        "data of 1,048,577 bytes",
        "00000025 01 00 0000000000000001 000000 000001 016b 0000000000000003 0000 00 00000007 00100001",
        FrameFault::BadField { at: 37 },
    ),
    (
        "room for 65 rows",
        "00000012 04 00 0000000000000001 000000 000001 00 41",
        FrameFault::BadField { at: 21 },
    ),
    (
        "a member that is the next number",
        "0000001f 0c 00 0000000000000002 010000 000001 0000000000000002 00000002 01 0002",
        FrameFault::BadField { at: 33 },
    ),
];

#[test]
fn the_first_fault_is_told(rt: HostRuntime) {
    let alloc = rt.alloc();
    for (name, text, fault) in FAULTS {
        let bytes = bytes_of(alloc, text).expect(&rt, "memory");
        assert_eq!(rt; read_letter(alloc, &bytes).err(), Some(fault), "{name}");
    }
}
