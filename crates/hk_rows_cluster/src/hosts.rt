//! Addresses of hosts, both ways; lists of them; connections over TCP on this machine, and random bytes.

use hk_hosts::{
    Address, AddressFault, DialAt, DoorsAt, FakeRandom, HostDialer, HostDoors, HostsFault, Patient,
    Random, SystemRandom, put_hosts, read_address, read_hosts,
};
use hk_outside::{Sink, Source};
use std::alloc::Global;

// What is printed of the address that a text is of.
fn again(alloc: Global, text: &str) -> Result<Vec<u8>, AddressFault> {
    let address = read_address(alloc, text, 11400)?;
    let mut out = Vec::new(alloc);
    match address.put(&mut out) {
        Ok(()) => Ok(out),
        Err(_) => Err(AddressFault::Memory),
    }
}

fn is_again(alloc: Global, text: &str, printed: &str) -> bool {
    match again(alloc, text) {
        Ok(bytes) => bytes.as_slice() == printed.as_bytes(),
        Err(_) => false,
    }
}

fn is_none(alloc: Global, text: &str) -> bool {
    match again(alloc, text) {
        Ok(_) => false,
        Err(fault) => fault == AddressFault::Malformed,
    }
}

#[test]
fn addresses_are_read_and_printed(rt: HostRuntime) {
    let alloc = rt.alloc();
    for (text, printed) in [
        ("a", "a:11400"),
        ("a:1", "a:1"),
        ("a:65535", "a:65535"),
        ("10.0.0.1", "10.0.0.1:11400"),
        ("Node-7.example.org:11400", "Node-7.example.org:11400"),
        ("[::1]", "[::1]:11400"),
        ("[::1]:80", "[::1]:80"),
        ("[fe80::1:2]:9", "[fe80::1:2]:9"),
        ("[::ffff:10.0.0.1]", "[::ffff:10.0.0.1]:11400"),
        (
            "abcdefghijabcdefghijabcdefghijabcdefghijabcdefghijabcdefgh",
            "abcdefghijabcdefghijabcdefghijabcdefghijabcdefghijabcdefgh:11400",
        ),
    ] {
        assert!(rt; is_again(alloc, text, printed), "{text}");
    }
    for text in [
        "",
        ":",
        ":1",
        "a:",
        "a:0",
        "a:01",
        "a:+1",
        "a:65536",
        "a:b",
        "a b",
        "a_b",
        "a:1:2",
        "::1",
        "[]",
        "[::1",
        "::1]",
        "[::1]80",
        "[::1]:",
        "[:::]",
        "[a]",
        "[::1%lo]",
        "é",
        "abcdefghijabcdefghijabcdefghijabcdefghijabcdefghijabcdefghi",
    ] {
        assert!(rt; is_none(alloc, text), "{text}");
    }
}

fn hosts_again(alloc: Global, text: &str) -> Result<Vec<u8>, HostsFault> {
    let hosts = read_hosts(alloc, text, 11400)?;
    let mut out = Vec::new(alloc);
    match put_hosts(&mut out, hosts.as_slice()) {
        Ok(()) => Ok(out),
        Err(_) => Err(HostsFault::Memory),
    }
}

fn fault_of(alloc: Global, text: &str) -> Option<HostsFault> {
    hosts_again(alloc, text).err()
}

#[test]
fn lists_of_hosts_are_read_and_printed(rt: HostRuntime) {
    let alloc = rt.alloc();
    let printed = hosts_again(alloc, "a,b:1,[::1]").expect(&rt, "memory");
    assert_eq!(rt; printed.as_slice(), b"a:11400,b:1,[::1]:11400".as_slice());
    assert!(rt; hosts_again(alloc, "a").is_ok());
    assert!(rt; hosts_again(alloc, "a,b,c,d,e,f,g,h,i").is_ok());
    assert_eq!(rt; fault_of(alloc, ""), Some(HostsFault::Malformed));
    assert_eq!(rt; fault_of(alloc, "a,b,"), Some(HostsFault::Malformed));
    assert_eq!(rt; fault_of(alloc, "a,b"), Some(HostsFault::Count));
    assert_eq!(rt; fault_of(alloc, "a,a"), Some(HostsFault::Count));
    assert_eq!(rt; fault_of(alloc, "a,b,a"), Some(HostsFault::Twice));
    assert_eq!(rt; fault_of(alloc, "a,b,a:11400"), Some(HostsFault::Twice));
    assert_eq!(rt;
        fault_of(alloc, "a,b,c,d,e,f,g,h,i,j,k"),
        Some(HostsFault::Count)
    );
}

#[test]
fn random_bytes_are_given(rt: HostRuntime) {
    let alloc = rt.alloc();
    let mut system = SystemRandom::new(rt);
    let first = system.drawn::<16>().expect(&rt, "random bytes");
    let second = system.drawn::<16>().expect(&rt, "random bytes");
    assert!(rt; first != second);
    let mut fake = FakeRandom::new(vec![in alloc; 1, 2, 3].expect(&rt, "memory"));
    assert_eq!(rt; fake.drawn::<2>().ok(), Some([1, 2]));
    assert!(rt; fake.drawn::<2>().is_err());
    assert_eq!(rt; fake.drawn::<1>().ok(), Some([3]));
}

#[test]
fn a_connection_is_dialled_and_taken(rt: HostRuntime) {
    let alloc = rt.alloc();
    let address = read_address(alloc, "127.0.1.7:11409", 11400).expect(&rt, "an address");
    let mut dialer = HostDialer::new(rt, alloc);
    assert!(rt; dialer.dial(&address, 100).is_err());
    let mut doors = HostDoors::new(rt, alloc);
    assert!(rt; doors.open(&address).is_ok());
    let mut own = dialer.dial(&address, 1_000).expect(&rt, "a connection");
    let Ok(Some(mut other)) = doors.accept() else {
        panic!(rt; "no connection came");
    };
    assert_eq!(rt; own.write(b"hello").ok(), Some(5));
    let mut room = [0; 8];
    assert_eq!(rt; other.read(&mut room).ok(), Some(5));
    assert_eq!(rt; room, *b"hello\0\0\0");
    // nothing more comes
    other.wait_at_most(10, 10);
    assert!(rt; other.read(&mut room).is_err());
    doors.close();
    assert!(rt; dialer.dial(&address, 100).is_err());
}

// Reads what comes, until nothing comes for a moment, and gives how many bytes that were. None where they are not rising by one.
fn read_rising<C: Source>(conn: &mut C, first: usize) -> Option<usize> {
    let mut room = [0; 4_096];
    let mut count: usize = 0;
    for _ in 0..100_000 {
        let Ok(read) = conn.read(&mut room) else {
            return Some(count);
        };
        for byte in &room[..read] {
            if *byte != (first.wrapping_add(count) % 251) as u8 {
                return None;
            }
            count = count.wrapping_add(1);
        }
    }
    None
}

#[test]
fn a_prompt_connection_keeps_what_cannot_leave(rt: HostRuntime) {
    let alloc = rt.alloc();
    let address = read_address(alloc, "127.0.1.7:11410", 11400).expect(&rt, "an address");
    let mut doors = HostDoors::new(rt, alloc);
    assert!(rt; doors.open(&address).is_ok());
    let mut own = HostDialer::new(rt, alloc)
        .dial(&address, 1_000)
        .expect(&rt, "a connection");
    let Ok(Some(mut other)) = doors.accept() else {
        panic!(rt; "no connection came");
    };
    own.wait_at_most(0, 1_000);
    other.wait_at_most(100, 100);
    own.write_promptly();
    let mut piece = [0; 2_510];
    for (at, byte) in piece.iter_mut().enumerate() {
        *byte = (at % 251) as u8;
    }
    // nobody reads
    let mut written: usize = 0;
    for _ in 0..10_000 {
        if own.keeps() {
            break;
        }
        assert_eq!(rt; own.write(&piece).ok(), Some(2_510));
        written = written.wrapping_add(2_510);
    }
    assert!(rt; own.keeps());
    let first = read_rising(&mut other, 0).expect(&rt, "rising bytes");
    assert!(rt; first < written);
    assert!(rt; own.catch_up().is_ok());
    assert!(rt; !own.keeps());
    let rest = read_rising(&mut other, first).expect(&rt, "rising bytes");
    assert_eq!(rt; first.wrapping_add(rest), written);
}
