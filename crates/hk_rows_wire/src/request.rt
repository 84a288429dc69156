//! Lines at the edges of the grammar, and what each is read as.

use hk_request::{Head, Request, RequestCause, RequestFault, read_request};
use hk_rows_shared::let_go;
use std::alloc::{AllocError, Global};

// What a line is read as, as far as the table tells it.
#[derive(Clone, Copy, Debug, PartialEq, Eq)]
enum Reads {
    Store { bytes: u32 },
    Get { keys: usize },
    Update,
    Alone,
    Refused { cause: RequestCause, skip: u64 },
}

fn reading_of(alloc: Global, line: &[u8]) -> Reads {
    let read = read_request(alloc, line);
    let told = told_of(&read);
    let_go(read);
    told
}

fn told_of(read: &Result<Head, RequestFault>) -> Reads {
    match read {
        Ok(Head::Store(head)) => Reads::Store { bytes: head.bytes },
        Ok(Head::Whole(Request::Get { keys, .. })) => Reads::Get { keys: keys.len() },
        Ok(Head::Whole(Request::Update { .. })) => Reads::Update,
        Ok(Head::Whole(_)) => Reads::Alone,
        Err(fault) => Reads::Refused {
            cause: fault.cause,
            skip: fault.skip,
        },
    }
}

// Lines, and what is read of each.
const EDGES: [(&str, &[u8], Reads); 6] = [
    (
        "the longest data",
        b"set k 0 0 1048576",
        Reads::Store { bytes: 1_048_576 },
    ),
    (
        "one byte more",
        b"set k 0 0 1048577",
        Reads::Refused {
            cause: RequestCause::TooLarge { bytes: 1_048_577 },
            skip: 1_048_579,
        },
    ),
    (
        "flags of 33 bits",
        b"set k 4294967296 0 1",
        Reads::Refused {
            cause: RequestCause::BadNumber { word: 3 },
            skip: 3,
        },
    ),
    (
        "a time in the past",
        b"set k 0 -1 1",
        Reads::Refused {
            cause: RequestCause::Expiry,
            skip: 3,
        },
    ),
    (
        "a word too few",
        b"set k 0 0",
        Reads::Refused {
            cause: RequestCause::WrongCount,
            skip: 0,
        },
    ),
    (
        "a command in capitals",
        b"GET k",
        Reads::Refused {
            cause: RequestCause::Unknown,
            skip: 0,
        },
    ),
];

#[test]
fn lines_at_the_edges_of_the_grammar(rt: HostRuntime) {
    for (name, line, wanted) in &EDGES {
        assert_eq!(rt; reading_of(rt.alloc(), line), *wanted, "{name}");
    }
}

// A get of one key of this length.
fn get_of(alloc: Global, len: usize) -> Result<Vec<u8>, AllocError> {
    let mut line = b"get ".as_slice().to_vec(alloc)?;
    for _ in 0..len {
        line.push(b'k')?;
    }
    Ok(line)
}

#[test]
fn the_longest_key_and_one_byte_more(rt: HostRuntime) {
    let rows = [
        (250, Reads::Get { keys: 1 }),
        (
            251,
            Reads::Refused {
                cause: RequestCause::BadKey,
                skip: 0,
            },
        ),
    ];
    for (len, wanted) in &rows {
        let line = get_of(rt.alloc(), *len).expect(&rt, "memory");
        assert_eq!(rt;
            reading_of(rt.alloc(), line.as_slice()),
            *wanted,
            "a key of {len} bytes"
        );
    }
}
