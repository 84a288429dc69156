//! A log by hand: what is read and printed again, what of it is read where it is cut, and what is told where a byte of
//! it is another one.

use hk_base::{Actor, Ballot, Body, Change, Letter};
use hk_fields::Ticket;
use hk_log::{
    Check, Entry, Founding, FoundingHosts, HEADER, HostTickets, Log, LogFault, PrintedRecord,
    print_record, read_log,
};
use std::alloc::Global;

// The only host of a group is founded with, opens, proposes to add a node, and takes its own Prepare.
const LOG: &str = "686b6c6f67303031 \
    00000034 01 3f9c27b1d04e8a65 00 01 000003e8 0000000a 101112131415161718191a1b1c1d1e1f 202122232425262728292a2b2c2d2e2f 02 bdf8982f28a06a8f \
    0000000d 03 00 0000000000000001 01 0000 3f76b7f7db9c480f \
    0000001a 04 00000015 08 00 0000000000000002 010000 010000 00000001 00 d67929c427c4229e";

// Where its records begin, and where it ends.
const PLACES: [usize; 4] = [8, 72, 97, 135];

fn digit_of(byte: u8) -> Option<u8> {
    match byte {
        b'0'..=b'9' => Some(byte - b'0'),
        b'a'..=b'f' => Some(byte - b'a' + 10),
        _ => None,
    }
}

// The bytes that hexadecimal digits write; blanks are passed over.
fn bytes_of(alloc: Global, text: &str) -> Option<Vec<u8>> {
    let mut bytes = Vec::new(alloc);
    let mut high = None;
    for byte in text.as_bytes() {
        let Some(digit) = digit_of(*byte) else {
            continue;
        };
        match high {
            None => high = Some(digit),
            Some(first) => {
                high = None;
                let value: u8 = first;
                if bytes
                    .push(value.wrapping_mul(16).wrapping_add(digit))
                    .is_err()
                {
                    return None;
                }
            }
        }
    }
    Some(bytes)
}

// How many records are read, and how many bytes they take; or where the damage is.
fn read(alloc: Global, file: &[u8]) -> Result<(usize, usize), LogFault> {
    match read_log(alloc, file) {
        Ok(log) => Ok((log.records.len(), log.len)),
        Err(fault) => Err(fault),
    }
}

fn is_founding(founding: &Founding) -> bool {
    founding.number == 0x3f9c_27b1_d04e_8a65
        && founding.place == 0
        && founding.lease == 1000
        && founding.skew == 10
        && founding.hosts.len() == 1
}

// A word for each entry that is as it should be.
fn word_of(entry: &Entry) -> &'static str {
    match entry {
        Entry::Founded(founding) => {
            if is_founding(founding) {
                return "founded";
            }
            "other"
        }
        Entry::Open => "open",
        Entry::Propose {
            shard: 0,
            base: 1,
            change: Change::Add,
        } => "add",
        Entry::Receive { shard: 0, letter } => match &letter.body {
            Body::Prepare(_) => "prepare",
            _ => "other",
        },
        _ => "other",
    }
}

// Those words, record by record.
fn words_of(alloc: Global, log: &Log) -> Option<Vec<&'static str>> {
    let mut words = Vec::new(alloc);
    for record in log.records.as_slice() {
        for entry in record.as_slice() {
            if words.push(word_of(entry)).is_err() {
                return None;
            }
        }
        if words.push("|").is_err() {
            return None;
        }
    }
    Some(words)
}

// The record that founds the group and opens it.
fn print_founding(alloc: Global) -> Option<PrintedRecord> {
    let mut hosts = FoundingHosts::new(alloc);
    let host = HostTickets {
        manager: Ticket([
            16, 17, 18, 19, 20, 21, 22, 23, 24, 25, 26, 27, 28, 29, 30, 31,
        ]),
        node: Ticket([
            32, 33, 34, 35, 36, 37, 38, 39, 40, 41, 42, 43, 44, 45, 46, 47,
        ]),
    };
    if hosts.push(host).is_err() {
        return None;
    }
    let founding = Founding {
        number: 0x3f9c_27b1_d04e_8a65,
        place: 0,
        lease: 1000,
        skew: 10,
        hosts,
    };
    let entries = [Entry::Founded(founding), Entry::Open];
    print_record(alloc, Check(HEADER), &entries).ok()
}

fn print_proposal(alloc: Global, before: Check) -> Option<PrintedRecord> {
    let entries = [Entry::Propose {
        shard: 0,
        base: 1,
        change: Change::Add,
    }];
    print_record(alloc, before, &entries).ok()
}

fn print_letter(alloc: Global, before: Check) -> Option<PrintedRecord> {
    let letter = Letter {
        epoch: 2,
        from: Actor::Manager(0),
        to: Actor::Manager(0),
        body: Body::Prepare(Ballot {
            round: 1,
            manager: 0,
        }),
    };
    let entries = [Entry::Receive { shard: 0, letter }];
    print_record(alloc, before, &entries).ok()
}

// What the three records are, one behind the other.
fn print_all(alloc: Global) -> Option<Vec<u8>> {
    let first = print_founding(alloc)?;
    let second = print_proposal(alloc, first.check)?;
    let third = print_letter(alloc, second.check)?;
    let mut out = Vec::new(alloc);
    for bytes in [
        HEADER.as_slice(),
        first.bytes.as_slice(),
        second.bytes.as_slice(),
        third.bytes.as_slice(),
    ] {
        if out.extend_from_slice(bytes).is_err() {
            return None;
        }
    }
    Some(out)
}

#[test]
fn a_log_is_read_and_printed(rt: HostRuntime) {
    let alloc = rt.alloc();
    let file = bytes_of(alloc, LOG).expect(&rt, "memory");
    let printed = print_all(alloc).expect(&rt, "memory");
    assert_eq!(rt; printed.as_slice(), file.as_slice());
    match read_log(alloc, &file) {
        Ok(log) => {
            let words = words_of(alloc, &log).expect(&rt, "memory");
            assert_eq!(rt;
                words.as_slice(),
                ["founded", "open", "|", "add", "|", "prepare", "|"].as_slice()
            );
            assert_eq!(rt; log.len, file.len());
            assert_eq!(rt; log.starts.as_slice(), &PLACES[..3]);
            assert_eq!(rt; Some(log.check.0.as_slice()), file.as_slice().get(127..));
        }
        Err(fault) => panic!(rt; "{fault:?}"),
    }
}

// How many records stand whole in so many bytes, and how many bytes they take.
fn whole(len: usize) -> (usize, usize) {
    let mut found = (0, 0);
    for (number, place) in PLACES.iter().enumerate() {
        if *place <= len {
            found = (number, *place);
        }
    }
    found
}

// A front of the log, and zeros behind it.
fn cut(alloc: Global, file: &[u8], len: usize, zeros: usize) -> Option<Vec<u8>> {
    let mut bytes = Vec::new(alloc);
    if bytes.extend_from_slice(file.get(..len)?).is_err() {
        return None;
    }
    for _ in 0..zeros {
        if bytes.push(0).is_err() {
            return None;
        }
    }
    Some(bytes)
}

#[test]
fn a_cut_log_is_a_front(rt: HostRuntime) {
    let alloc = rt.alloc();
    let file = bytes_of(alloc, LOG).expect(&rt, "memory");
    for len in 0..file.len() + 1 {
        let front = cut(alloc, &file, len, 0).expect(&rt, "memory");
        assert_eq!(rt; read(alloc, &front), Ok(whole(len)), "{len}");
    }
    // Zeros behind what was written, to the end of the record and beyond it.
    for len in 8..file.len() + 1 {
        for zeros in [1, 5, 60, 500] {
            let front = cut(alloc, &file, len, zeros).expect(&rt, "memory");
            assert_eq!(rt;
                read(alloc, &front),
                Ok(whole(len)),
                "{len} and {zeros} zeros"
            );
        }
    }
}

// The log with one bit of one byte turned.
fn turned(alloc: Global, file: &[u8], at: usize, bit: u8) -> Option<Vec<u8>> {
    let mut bytes = cut(alloc, file, file.len(), 0)?;
    let byte = bytes.get_mut(at)?;
    *byte ^= bit;
    Some(bytes)
}

#[test]
fn a_changed_byte_is_told(rt: HostRuntime) {
    let alloc = rt.alloc();
    let file = bytes_of(alloc, LOG).expect(&rt, "memory");
    for at in 0..97 {
        for bit in [1, 2, 4, 8, 16, 32, 64, 128] {
            let bytes = turned(alloc, &file, at, bit).expect(&rt, "memory");
            let place = if at < 8 { 0 } else { whole(at).1 };
            assert_eq!(rt;
                read(alloc, &bytes),
                Err(LogFault::Damaged { at: place }),
                "{at}, {bit}"
            );
        }
    }
    // The last record can't be told from one that was cut short, but where its length is turned.
    let bytes = turned(alloc, &file, 110, 1).expect(&rt, "memory");
    assert_eq!(rt; read(alloc, &bytes), Ok((2, 97)));
}
