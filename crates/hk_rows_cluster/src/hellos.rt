//! A greeting by hand: what is printed and read again, what a front and a turned bit come to, and each refusal.

use hk_base::{Actor, NodeId, Sequence};
use hk_fields::Ticket;
use hk_hello::{
    Answer, Challenge, Hello, HelloFault, HelloRefusal, HostsDigest, JudgingFault, LookedUp, Ours,
    Party, Proof, Purpose, SignedHello, hmac, hosts_digest, is_in_range, judge, print_answer,
    print_challenge, print_hello, read_answer, read_challenge, read_hello, sign, welcome,
};
use std::alloc::Global;

const SECRET: &[u8] = b"correct horse battery";

const CHALLENGE: &str = "686b3031 000102030405060708090a0b0c0d0e0f";

// Manager 1 to manager 0.
const HELLO: &str = "0056 00 010001 010000 3f9c27b1d04e8a65 101112131415161718191a1b1c1d1e1f \
    e0c9b284bd070fd2 000003e8 0000000a 06 6865726d6573 \
    fd058d649f0e172c679fc50233d6cb59455077d9db1bd337538532c69d88feb6";

const WELCOME: &str = "00 537a61b376bcb1bffdd58b340722c950f72c48121fd2c98e143eaa355c491384";

const ASKED: Challenge = Challenge([0, 1, 2, 3, 4, 5, 6, 7, 8, 9, 10, 11, 12, 13, 14, 15]);

const HOSTS: HostsDigest = HostsDigest([0xe0, 0xc9, 0xb2, 0x84, 0xbd, 0x07, 0x0f, 0xd2]);

const FOUNDING: u64 = 0x3f9c_27b1_d04e_8a65;

fn digit_of(byte: u8) -> Option<u8> {
    match byte {
        b'0'..=b'9' => Some(byte - b'0'),
        b'a'..=b'f' => Some(byte - b'a' + 10),
        _ => None,
    }
}

// The bytes that hexadecimal digits write; blanks are passed over.
fn bytes_of(alloc: Global, text: &str) -> Option<Vec<u8>> {
    let mut bytes = Vec::new(alloc);
    let mut high = None;
    for byte in text.as_bytes() {
        let Some(digit) = digit_of(*byte) else {
            continue;
        };
        match high {
            None => high = Some(digit),
            Some(first) => {
                high = None;
                let value: u8 = first;
                if bytes
                    .push(value.wrapping_mul(16).wrapping_add(digit))
                    .is_err()
                {
                    return None;
                }
            }
        }
    }
    Some(bytes)
}

fn sequence_of(alloc: Global, bytes: &[u8]) -> Option<Sequence<u8>> {
    let mut copy = Vec::new(alloc);
    if copy.extend_from_slice(bytes).is_err() {
        return None;
    }
    Some(Sequence::from_vec(copy))
}

// What the hello says.
fn plain_hello(alloc: Global) -> Option<Hello> {
    let group = sequence_of(alloc, b"hermes")?;
    Some(Hello {
        purpose: Purpose::Letters,
        from: Party::Actor(Actor::Manager(1)),
        to: Party::Actor(Actor::Manager(0)),
        founding: FOUNDING,
        ticket: Ticket([
            16, 17, 18, 19, 20, 21, 22, 23, 24, 25, 26, 27, 28, 29, 30, 31,
        ]),
        hosts: HOSTS,
        lease: 1000,
        skew: 10,
        group,
    })
}

// A hello as bytes, signed with this secret.
fn printed(alloc: Global, secret: &[u8], hello: Hello) -> Option<Vec<u8>> {
    if !is_in_range(&hello) {
        return None;
    }
    let Ok(signed) = sign(alloc, secret, ASKED, hello) else {
        return None;
    };
    let mut out = Vec::new(alloc);
    match print_hello(alloc, &mut out, &signed) {
        Ok(()) => Some(out),
        Err(_) => None,
    }
}

#[test]
fn a_hello_is_printed(rt: HostRuntime) {
    let alloc = rt.alloc();
    let wanted = bytes_of(alloc, HELLO).expect(&rt, "memory");
    let hello = plain_hello(alloc).expect(&rt, "memory");
    let bytes = printed(alloc, SECRET, hello).expect(&rt, "memory");
    assert_eq!(rt; bytes.as_slice(), wanted.as_slice());
}

fn is_as_said(hello: &Hello) -> bool {
    hello.purpose == Purpose::Letters
        && hello.from == Party::Actor(Actor::Manager(1))
        && hello.to == Party::Actor(Actor::Manager(0))
        && hello.founding == FOUNDING
        && hello.ticket.0.first() == Some(&16)
        && hello.hosts == HOSTS
        && hello.lease == 1000
        && hello.skew == 10
        && hello.group.as_slice() == b"hermes".as_slice()
}

// Whether the hello that was read is as said, and its length.
fn read(alloc: Global, bytes: &[u8]) -> Result<(bool, usize), HelloFault> {
    match read_hello(alloc, bytes) {
        Ok((signed, len)) => Ok((is_as_said(&signed.hello), len)),
        Err(fault) => Err(fault),
    }
}

#[test]
fn a_hello_is_read(rt: HostRuntime) {
    let alloc = rt.alloc();
    let mut bytes = bytes_of(alloc, HELLO).expect(&rt, "memory");
    assert_eq!(rt; read(alloc, &bytes), Ok((true, 88)));
    bytes.push(7).expect(&rt, "memory");
    assert_eq!(rt; read(alloc, &bytes), Ok((true, 88)));
}

#[test]
fn a_front_of_a_hello_is_unfinished(rt: HostRuntime) {
    let alloc = rt.alloc();
    let bytes = bytes_of(alloc, HELLO).expect(&rt, "memory");
    for len in 0..88 {
        let front = bytes.get(..len).expect(&rt, "a front");
        assert_eq!(rt; read(alloc, front), Err(HelloFault::NeedMore), "{len}");
    }
}

// Ours as the hello has it.
fn ours(alloc: Global) -> Option<Ours> {
    let secret = sequence_of(alloc, SECRET)?;
    let group = sequence_of(alloc, b"hermes")?;
    Some(Ours {
        secret,
        group,
        hosts: HOSTS,
        lease: 1000,
        skew: 10,
    })
}

const ALL_IS_WELL: LookedUp = LookedUp {
    founding: FOUNDING,
    to_is_here: true,
    from_is_bound: true,
    is_taken: false,
};

// What becomes of a hello that was read from these bytes.
fn judged(alloc: Global, ours: &Ours, bytes: &[u8], looked: LookedUp) -> Result<(), JudgingFault> {
    match read_hello(alloc, bytes) {
        Ok((signed, _)) => judge(alloc, ours, ASKED, &signed, looked),
        Err(_) => Err(JudgingFault::Memory),
    }
}

// These bytes with one bit of one byte turned.
fn turned(alloc: Global, bytes: &[u8], at: usize, bit: u8) -> Option<Vec<u8>> {
    let mut copy = Vec::new(alloc);
    if copy.extend_from_slice(bytes).is_err() {
        return None;
    }
    let byte = copy.get_mut(at)?;
    *byte ^= bit;
    Some(copy)
}

// Whether a hello of which a byte is another one is refused, or is none; a greater length wants more bytes.
fn is_refused(alloc: Global, ours: &Ours, bytes: &[u8], at: usize) -> bool {
    match read(alloc, bytes) {
        Ok(_) => {
            judged(alloc, ours, bytes, ALL_IS_WELL)
                == Err(JudgingFault::Refused(HelloRefusal::AnotherSecret))
        }
        Err(HelloFault::NeedMore) => at == 1,
        Err(fault) => fault == HelloFault::Malformed,
    }
}

#[test]
fn a_turned_bit_is_told(rt: HostRuntime) {
    let alloc = rt.alloc();
    let ours = ours(alloc).expect(&rt, "memory");
    let bytes = bytes_of(alloc, HELLO).expect(&rt, "memory");
    assert_eq!(rt; judged(alloc, &ours, &bytes, ALL_IS_WELL), Ok(()));
    for at in 0..88 {
        for bit in [1, 2, 4, 8, 16, 32, 64, 128] {
            let other = turned(alloc, &bytes, at, bit).expect(&rt, "memory");
            assert!(rt; is_refused(alloc, &ours, &other, at), "{at}, {bit}");
        }
    }
}

// What makes a hello another one.
#[derive(Clone, Copy, Debug, PartialEq, Eq)]
enum Otherwise {
    Nothing,
    Group,
    Hosts,
    Lease,
    Skew,
    Command,
    Founding,
    NotFounded,
    Requests,
}

fn hello_with(alloc: Global, what: Otherwise) -> Option<Hello> {
    let plain = plain_hello(alloc)?;
    Some(match what {
        Otherwise::Nothing => plain,
        Otherwise::Group => Hello {
            group: sequence_of(alloc, b"hermes-2")?,
            ..plain
        },
        Otherwise::Hosts => Hello {
            hosts: HostsDigest([0; 8]),
            ..plain
        },
        Otherwise::Lease => Hello {
            lease: 999,
            ..plain
        },
        Otherwise::Skew => Hello { skew: 11, ..plain },
        Otherwise::Command => Hello {
            purpose: Purpose::Requests,
            from: Party::Neither,
            lease: 0,
            skew: 0,
            founding: 0,
            ..plain
        },
        Otherwise::Founding => Hello {
            founding: 7,
            ..plain
        },
        Otherwise::NotFounded => Hello {
            founding: 0,
            ..plain
        },
        Otherwise::Requests => Hello {
            purpose: Purpose::Requests,
            from: Party::Actor(Actor::Node(NodeId(3))),
            ..plain
        },
    })
}

// What becomes of a hello that was signed with this secret.
fn judged_by(
    alloc: Global,
    ours: &Ours,
    secret: &[u8],
    what: Otherwise,
    looked: LookedUp,
) -> Result<(), JudgingFault> {
    let Some(hello) = hello_with(alloc, what) else {
        return Err(JudgingFault::Memory);
    };
    match printed(alloc, secret, hello) {
        Some(bytes) => judged(alloc, ours, &bytes, looked),
        None => Err(JudgingFault::Memory),
    }
}

fn refused(refusal: HelloRefusal) -> Result<(), JudgingFault> {
    Err(JudgingFault::Refused(refusal))
}

#[test]
fn each_refusal_is_told(rt: HostRuntime) {
    let alloc = rt.alloc();
    let ours = ours(alloc).expect(&rt, "memory");
    let rows = [
        (Otherwise::Nothing, Ok(())),
        (Otherwise::Group, refused(HelloRefusal::AnotherGroup)),
        (Otherwise::Hosts, refused(HelloRefusal::OtherHosts)),
        (Otherwise::Lease, refused(HelloRefusal::AnotherLeaseOrSkew)),
        (Otherwise::Skew, refused(HelloRefusal::AnotherLeaseOrSkew)),
        (Otherwise::Command, Ok(())),
        (Otherwise::Founding, refused(HelloRefusal::AnotherFounding)),
        (Otherwise::NotFounded, Ok(())),
        (Otherwise::Requests, Ok(())),
    ];
    for (what, wanted) in rows {
        let found = judged_by(alloc, &ours, SECRET, what, ALL_IS_WELL);
        assert_eq!(rt; found, wanted, "{what:?}");
        let found = judged_by(alloc, &ours, b"battery horse wrong", what, ALL_IS_WELL);
        assert_eq!(rt; found, refused(HelloRefusal::AnotherSecret), "{what:?}");
    }
}

#[test]
fn what_was_looked_up_is_told(rt: HostRuntime) {
    let alloc = rt.alloc();
    let ours = ours(alloc).expect(&rt, "memory");
    let not_founded = LookedUp {
        founding: 0,
        ..ALL_IS_WELL
    };
    let away = LookedUp {
        to_is_here: false,
        ..ALL_IS_WELL
    };
    let unbound = LookedUp {
        from_is_bound: false,
        ..ALL_IS_WELL
    };
    let taken = LookedUp {
        is_taken: true,
        ..ALL_IS_WELL
    };
    let unbound_and_taken = LookedUp {
        is_taken: true,
        ..unbound
    };
    let rows = [
        (Otherwise::Founding, not_founded, Ok(())),
        (Otherwise::Nothing, away, refused(HelloRefusal::NoSuchActor)),
        (
            Otherwise::Nothing,
            unbound,
            refused(HelloRefusal::NoSuchActor),
        ),
        (Otherwise::Requests, unbound, Ok(())),
        (
            Otherwise::Nothing,
            taken,
            refused(HelloRefusal::NumberTaken),
        ),
        (
            Otherwise::Nothing,
            unbound_and_taken,
            refused(HelloRefusal::NoSuchActor),
        ),
        (
            Otherwise::Requests,
            unbound_and_taken,
            refused(HelloRefusal::NumberTaken),
        ),
        (
            Otherwise::Group,
            unbound_and_taken,
            refused(HelloRefusal::AnotherGroup),
        ),
    ];
    for (what, looked, wanted) in rows {
        let found = judged_by(alloc, &ours, SECRET, what, looked);
        assert_eq!(rt; found, wanted, "{what:?}, {looked:?}");
    }
}

#[test]
fn a_challenge_is_printed_and_read(rt: HostRuntime) {
    let alloc = rt.alloc();
    let wanted = bytes_of(alloc, CHALLENGE).expect(&rt, "memory");
    let mut bytes = Vec::new(alloc);
    print_challenge(&mut bytes, ASKED).expect(&rt, "memory");
    assert_eq!(rt; bytes.as_slice(), wanted.as_slice());
    assert_eq!(rt; read_challenge(&wanted), Ok((ASKED, 20)));
    for len in 0..20 {
        let front = wanted.get(..len).expect(&rt, "a front");
        assert_eq!(rt; read_challenge(front), Err(HelloFault::NeedMore), "{len}");
    }
}

#[test]
fn another_header_is_told(rt: HostRuntime) {
    let alloc = rt.alloc();
    let bytes = bytes_of(alloc, CHALLENGE).expect(&rt, "memory");
    for at in 0..4 {
        let other = turned(alloc, &bytes, at, 1).expect(&rt, "memory");
        for len in at + 1..21 {
            let front = other.get(..len).expect(&rt, "a front");
            assert_eq!(rt;
                read_challenge(front),
                Err(HelloFault::Malformed),
                "{at}, {len}"
            );
        }
    }
}

#[test]
fn a_welcome_is_printed_and_read(rt: HostRuntime) {
    let alloc = rt.alloc();
    let hello = bytes_of(alloc, HELLO).expect(&rt, "memory");
    let wanted = bytes_of(alloc, WELCOME).expect(&rt, "memory");
    let said = match hello.as_slice().split_last_chunk::<32>() {
        Some((_, proof)) => Proof(*proof),
        None => panic!(rt; "short"),
    };
    let answer = Answer::Welcome(welcome(SECRET, ASKED, said));
    let mut bytes = Vec::new(alloc);
    print_answer(&mut bytes, answer).expect(&rt, "memory");
    assert_eq!(rt; bytes.as_slice(), wanted.as_slice());
    assert_eq!(rt; read_answer(&wanted), Ok((answer, 33)));
    for len in 0..33 {
        let front = wanted.get(..len).expect(&rt, "a front");
        assert_eq!(rt;
            read_answer(&wanted[..len]),
            Err(HelloFault::NeedMore),
            "{len}"
        );
    }
}

#[test]
fn refusals_are_printed_and_read(rt: HostRuntime) {
    let alloc = rt.alloc();
    let rows = [
        (HelloRefusal::AnotherSecret, 1, "another secret"),
        (HelloRefusal::AnotherGroup, 2, "another group"),
        (HelloRefusal::OtherHosts, 3, "other hosts"),
        (HelloRefusal::AnotherLeaseOrSkew, 4, "another lease or skew"),
        (HelloRefusal::AnotherFounding, 5, "another founding"),
        (HelloRefusal::NoSuchActor, 6, "no such actor"),
        (HelloRefusal::NumberTaken, 7, "number taken"),
    ];
    for (refusal, code, text) in rows {
        let mut bytes = Vec::new(alloc);
        print_answer(&mut bytes, Answer::Refused(refusal)).expect(&rt, "memory");
        assert_eq!(rt; bytes.as_slice(), [code].as_slice());
        assert_eq!(rt; read_answer(&bytes), Ok((Answer::Refused(refusal), 1)));
        let told = format!(in alloc; "{refusal}").expect(&rt, "memory");
        assert_eq!(rt; told.as_str(), text);
    }
    for code in [8, 9, 255] {
        assert_eq!(rt; read_answer(&[code]), Err(HelloFault::Malformed));
    }
}

#[test]
fn hosts_are_digested(rt: HostRuntime) {
    let alloc = rt.alloc();
    let mut hosts = Vec::new(alloc);
    for host in ["10.0.0.1:11400", "10.0.0.2:11400", "10.0.0.3:11400"] {
        let host = sequence_of(alloc, host.as_bytes()).expect(&rt, "memory");
        hosts.push(host).expect(&rt, "memory");
    }
    assert_eq!(rt; hosts_digest(&hosts), HOSTS);
}

// RFC 4231, cases 1, 2 and 6.
#[test]
fn hmacs_are_those_of_the_rows(rt: HostRuntime) {
    let alloc = rt.alloc();
    let rows = [
        (
            [0x0b; 131].as_slice(),
            20,
            "Hi There",
            "b0344c61d8db38535ca8afceaf0bf12b881dc200c9833da726e9376c2e32cff7",
        ),
        (
            b"Jefe".as_slice(),
            4,
            "what do ya want for nothing?",
            "5bdcc146bf60754e6a042426089575c75a003f089d2739839dec58b964ec3843",
        ),
        (
            [0xaa; 131].as_slice(),
            131,
            "Test Using Larger Than Block-Size Key - Hash Key First",
            "60e431591ee0b67f0d8a26aacbf5b77f8e0bc6213728c5140546040f0ee37f54",
        ),
    ];
    for (secret, len, message, digits) in rows {
        let wanted = bytes_of(alloc, digits).expect(&rt, "memory");
        let (first, second) = message.as_bytes().split_at(3);
        let made = hmac(&secret[..len], first, second);
        assert_eq!(rt; made.0.as_slice(), wanted.as_slice());
    }
}
