//! Connections in memory, a worked greeting, and its bytes.

use hk_base::{Actor, Sequence};
use hk_fields::Ticket;
use hk_greet::Buffered;
use hk_hello::{Challenge, Hello, HostsDigest, Party, Purpose};
use hk_outside::{Clock, MemoryConnection, MemorySink, MemorySource};
use std::alloc::Global;
use std::process::Abort;
use std::sync::atomic::{AtomicU64, Ordering};

pub const SECRET: &[u8] = b"correct horse battery";

pub const ASKED: Challenge = Challenge([0, 1, 2, 3, 4, 5, 6, 7, 8, 9, 10, 11, 12, 13, 14, 15]);

pub const CHALLENGE: &str = "686b3031000102030405060708090a0b0c0d0e0f";

// Manager 1 to manager 0.
pub const HELLO: &str = "0056 00 010001 010000 3f9c27b1d04e8a65 101112131415161718191a1b1c1d1e1f \
    e0c9b284bd070fd2 000003e8 0000000a 06 6865726d6573 \
    fd058d649f0e172c679fc50233d6cb59455077d9db1bd337538532c69d88feb6";

pub const WELCOME: &str = "00537a61b376bcb1bffdd58b340722c950f72c48121fd2c98e143eaa355c491384";

pub const HOSTS: HostsDigest = HostsDigest([0xe0, 0xc9, 0xb2, 0x84, 0xbd, 0x07, 0x0f, 0xd2]);

pub const FOUNDING: u64 = 0x3f9c_27b1_d04e_8a65;

fn digit_of(byte: u8) -> Option<u8> {
    match byte {
        b'0'..=b'9' => Some(byte - b'0'),
        b'a'..=b'f' => Some(byte - b'a' + 10),
        _ => None,
    }
}

// Puts the bytes that hexadecimal digits write; blanks are passed over.
pub fn put_hex(rt: &impl Abort, out: &mut Vec<u8>, text: &str) {
    let mut high = None;
    for byte in text.as_bytes() {
        let Some(digit) = digit_of(*byte) else {
            continue;
        };
        match high {
            None => high = Some(digit),
            Some(first) => {
                high = None;
                let value: u8 = first;
                out.push(value.wrapping_mul(16).wrapping_add(digit))
                    .expect(rt, "memory");
            }
        }
    }
}

// The bytes that these digits write, one text behind the other.
pub fn bytes_of(rt: &impl Abort, alloc: Global, texts: &[&str]) -> Vec<u8> {
    let mut bytes = Vec::new(alloc);
    for text in texts {
        put_hex(rt, &mut bytes, text);
    }
    bytes
}

pub fn sequence_of(rt: &impl Abort, alloc: Global, bytes: &[u8]) -> Sequence<u8> {
    Sequence::from_vec(Vec::from_slice(alloc, bytes).expect(rt, "memory"))
}

// A connection from which these bytes come, and of which these reads and writes fail, counted from 0.
pub fn failing(
    rt: &impl Abort,
    alloc: Global,
    bytes: &[u8],
    reads: &[u64],
    writes: &[u64],
) -> Buffered<MemoryConnection> {
    let bytes = Vec::from_slice(alloc, bytes).expect(rt, "memory");
    let reads = Vec::from_slice(alloc, reads).expect(rt, "memory");
    let writes = Vec::from_slice(alloc, writes).expect(rt, "memory");
    let conn = MemoryConnection {
        source: MemorySource::new(bytes, reads),
        sink: MemorySink::new(alloc, writes),
    };
    Buffered::new(alloc, conn)
}

pub fn connection(rt: &impl Abort, alloc: Global, bytes: &[u8]) -> Buffered<MemoryConnection> {
    failing(rt, alloc, bytes, &[], &[])
}

// What was written to it.
pub fn written(conn: &Buffered<MemoryConnection>) -> &[u8] {
    conn.conn().sink.sink.bytes.as_slice()
}

// What the worked hello says.
pub fn plain_hello(rt: &impl Abort, alloc: Global) -> Hello {
    Hello {
        purpose: Purpose::Letters,
        from: Party::Actor(Actor::Manager(1)),
        to: Party::Actor(Actor::Manager(0)),
        founding: FOUNDING,
        ticket: Ticket([
            16, 17, 18, 19, 20, 21, 22, 23, 24, 25, 26, 27, 28, 29, 30, 31,
        ]),
        hosts: HOSTS,
        lease: 1000,
        skew: 10,
        group: sequence_of(rt, alloc, b"hermes"),
    }
}

// A clock on which so many milliseconds pass between two looks.
#[derive(Drop)]
pub struct HastyClock {
    at: AtomicU64,
    step: u64,
}

impl HastyClock {
    pub fn new(step: u64) -> HastyClock {
        HastyClock {
            at: AtomicU64::new(0),
            step,
        }
    }
}

impl Clock for HastyClock {
    ghost use Rattle.std.specs.Prelude.{None};

    ghost reading = { λ clock. None };

    fn now(&self) -> u64 {
        self.at.fetch_add(self.step, Ordering::Relaxed)
    }
}
