//! Lines and blocks, cut from pieces.

use hk_lines::{Cutter, Step};

#[test]
fn a_line_ends_at_both_bytes(rt: HostRuntime) {
    let alloc = rt.alloc();
    let mut cutter = Cutter::new(alloc, 4).expect(&rt, "memory");
    cutter.feed(b"abcd\r").expect(&rt, "memory");
    assert!(rt; cutter.next() == Step::Need);
    cutter.feed(b"\n").expect(&rt, "memory");
    assert!(rt; cutter.next() == Step::Line);
    assert!(rt; cutter.given() == b"abcd".as_slice());
    assert!(rt; cutter.next() == Step::Need);
}

#[test]
fn a_line_past_the_limit_is_too_long_for_good(rt: HostRuntime) {
    let alloc = rt.alloc();
    let mut cutter = Cutter::new(alloc, 4).expect(&rt, "memory");
    cutter.feed(b"abcde").expect(&rt, "memory");
    assert!(rt; cutter.next() == Step::Need);
    cutter.feed(b"f").expect(&rt, "memory");
    assert!(rt; cutter.next() == Step::TooLong);
    cutter.feed(b"\r\n").expect(&rt, "memory");
    assert!(rt; cutter.next() == Step::TooLong);
    cutter.expect_block(2);
    cutter.feed(b"ab\r\n").expect(&rt, "memory");
    assert!(rt; cutter.next() == Step::TooLong);
}

#[test]
fn blocks_and_skipped_bytes(rt: HostRuntime) {
    let alloc = rt.alloc();
    let mut cutter = Cutter::new(alloc, 4).expect(&rt, "memory");
    cutter.feed(b"\rx\n\r\nab\r").expect(&rt, "memory");
    assert!(rt; cutter.next() == Step::Line);
    assert!(rt; cutter.given() == b"\rx\n".as_slice());
    cutter.expect_block(2);
    assert!(rt; cutter.next() == Step::Need);
    cutter.feed(b"\n12345678\r\n").expect(&rt, "memory");
    assert!(rt; cutter.next() == Step::Block);
    assert!(rt; cutter.given() == b"ab\r\n".as_slice());
    cutter.skip(12);
    cutter.feed(b"xxx\r\n").expect(&rt, "memory");
    assert!(rt; cutter.next() == Step::Line);
    assert!(rt; cutter.given() == b"x".as_slice());
}
