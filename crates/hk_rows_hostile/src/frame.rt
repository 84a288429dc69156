//! Bytes that are no frame, or the front of one.

use hk_frame::{FrameFault, read_letter};

// Node 1 acknowledges the update 2.0 of the key `k` to node 0, at shard 3; its own stamp is 2.1.
const ACK: &[u8] =
    b"\x00\x00\x00\x26\x02\x03\x00\x00\x00\x00\x00\x00\x00\x01\x00\x00\x01\x00\x00\x00\x01k\x00\x00\x00\x00\x00\x00\x00\x02\x00\x00\x00\x00\x00\x00\x00\x00\x00\x02\x00\x01";

// A view of epoch 2 was chosen, whose members fall.
const CHOSEN: &[u8] =
    b"\x00\x00\x00\x21\x0c\x00\x00\x00\x00\x00\x00\x00\x00\x02\x01\x00\x00\x00\x00\x01\x00\x00\x00\x00\x00\x00\x00\x02\x00\x00\x00\x02\x02\x00\x01\x00\x00";

#[test]
fn a_front_of_a_frame_is_short(rt: HostRuntime) {
    let alloc = rt.alloc();
    assert_eq!(rt; ACK.len(), 42);
    for (len, _) in ACK.iter().enumerate() {
        let wanted = if len < 4 { 4 } else { 42 };
        let fault = read_letter(alloc, &ACK[..len]).err();
        assert_eq!(rt; fault, Some(FrameFault::Short { wanted }), "{len} bytes");
    }
}

#[test]
fn what_is_no_frame_is_told(rt: HostRuntime) {
    let alloc = rt.alloc();
    let cases: [(&str, &[u8], FrameFault); 3] = [
        (
            "a length of 15",
            b"\x00\x00\x00\x0f",
            FrameFault::BadLength { length: 15 },
        ),
        (
            "a length of 2,200,001",
            b"\x00\x21\x91\xc1",
            FrameFault::BadLength { length: 2_200_001 },
        ),
        ("members that fall", CHOSEN, FrameFault::BadField { at: 35 }),
    ];
    for (name, bytes, fault) in cases {
        assert_eq!(rt; read_letter(alloc, bytes).err(), Some(fault), "{name}");
    }
}
