//! Keys, data, stamps and tags at their limits.

use hk_base::{Data, DataFault, Key, KeyFault, NodeId, Stamp};
use std::alloc::{AllocError, Global};

#[test]
fn keys_at_their_limits(rt: HostRuntime) {
    let alloc = rt.alloc();
    let rows: [(&[u8], KeyFault); 6] = [
        (b"", KeyFault::Empty),
        (&[b'k'; 251], KeyFault::TooLong { len: 251 }),
        (&[b' '; 251], KeyFault::TooLong { len: 251 }),
        (b"a b", KeyFault::BadByte { at: 1 }),
        (b"\x7f", KeyFault::BadByte { at: 0 }),
        (b"ab\x1f", KeyFault::BadByte { at: 2 }),
    ];
    for (bytes, fault) in rows {
        match Key::read(alloc, bytes) {
            Ok(_) => panic!(rt; "a key"),
            Err(told) => assert_eq!(rt; told, fault),
        }
    }
    assert!(rt; Key::read(alloc, &[b'k'; 250]).is_ok());
    assert!(rt; Key::read(alloc, b"\x21\x80\xff").is_ok());
}

fn zeros(alloc: Global, count: usize) -> Result<Vec<u8>, AllocError> {
    vec![in alloc; 0u8; count]
}

#[test]
fn data_at_its_limit(rt: HostRuntime) {
    let alloc = rt.alloc();
    let rows = [
        (0, None),
        (1_048_576, None),
        (1_048_577, Some(DataFault::TooLarge { len: 1_048_577 })),
    ];
    for (count, fault) in rows {
        let bytes = zeros(alloc, count).expect(&rt, "memory");
        assert_eq!(rt; Data::read(alloc, bytes.as_slice()).err(), fault);
    }
}

#[test]
fn stamps_at_the_last_version(rt: HostRuntime) {
    let last: u64 = 281_474_976_710_655;
    let node = NodeId(3);
    let rows = [
        (last - 2, Some(last), Some(last - 1)),
        (last - 1, None, Some(last)),
        (last, None, None),
    ];
    for (version, write, rmw) in rows {
        let stamp = Stamp { version, node: 3 };
        assert_eq!(rt;
            stamp.after_write(node),
            write.map(|version| Stamp { version, node: 3 })
        );
        assert_eq!(rt;
            stamp.after_rmw(node),
            rmw.map(|version| Stamp { version, node: 3 })
        );
    }
    let greatest = Stamp {
        version: last,
        node: 65_535,
    };
    assert_eq!(rt; greatest.tag(), u64::MAX);
    assert!(rt;
        Stamp {
            version: 2,
            node: 9
        } < Stamp {
            version: 3,
            node: 0
        }
    );
}
