//! Turns of an operation on a register.

use hk_base::{Answer, Content, Data, DataFault, Op};
use hk_rmw::{Turn, turn};
use std::alloc::Global;

fn content(alloc: Global, flags: u32, bytes: &[u8]) -> Result<Content, DataFault> {
    let bytes = Data::read(alloc, bytes)?;
    Ok(Content { flags, bytes })
}

// Whether these bytes are held, under flags 7.
fn holds(content: &Option<Content>, bytes: &[u8]) -> bool {
    match content {
        Some(content) => content.flags == 7 && content.bytes.bytes() == bytes,
        None => false,
    }
}

// Whether the register changes to these bytes, and this number is answered.
fn changes_to(made: &Turn, written: &[u8], number: u64) -> bool {
    match made {
        Turn::Change { content, answer } => {
            holds(content, written) && *answer == Answer::Number(number)
        }
        Turn::Stay(_) => false,
    }
}

// Whether the operation writes these bytes over those that are held, and answers this number.
fn writes(alloc: Global, op: &Op, held: &[u8], written: &[u8], number: u64) -> bool {
    let Ok(held) = content(alloc, 7, held) else {
        return false;
    };
    match turn(alloc, op, Some((&held, 131_072))) {
        Ok(made) => changes_to(&made, written, number),
        Err(_) => false,
    }
}

// Whether an incr of these bytes is told that they are no number.
fn is_no_number(alloc: Global, held: &[u8]) -> bool {
    let Ok(held) = content(alloc, 0, held) else {
        return false;
    };
    matches!(
        turn(alloc, &Op::Incr(1), Some((&held, 131_072))),
        Ok(Turn::Stay(Answer::NotNumber))
    )
}

#[test]
fn numbers_wrap_stop_and_lose_their_zeros(rt: HostRuntime) {
    let alloc = rt.alloc();
    let rows: [(Op, &[u8], &[u8], u64); 5] = [
        (Op::Decr(9), b"5", b"0", 0),
        (Op::Incr(1), b"007", b"8", 8),
        (Op::Incr(1), b"18446744073709551615", b"0", 0),
        (Op::Incr(0), b"5", b"5", 5),
        (
            Op::Decr(1),
            b"18446744073709551615",
            b"18446744073709551614",
            u64::MAX - 1,
        ),
    ];
    for (op, held, written, number) in rows {
        assert!(rt; writes(alloc, &op, held, written, number));
    }
}

#[test]
fn other_bytes_are_no_numbers(rt: HostRuntime) {
    let alloc = rt.alloc();
    let rows: [&[u8]; 5] = [
        b"18446744073709551616",
        b"000000000000000000005",
        b"",
        b"-1",
        b"5 ",
    ];
    for held in rows {
        assert!(rt; is_no_number(alloc, held));
    }
    assert!(rt;
        matches!(
            turn(alloc, &Op::Incr(1), None),
            Ok(Turn::Stay(Answer::NotFound))
        )
    );
}
