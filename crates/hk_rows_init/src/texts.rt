//! What the operator is told, beside what the types of other crates print.

use hk_base::{Memory, Sequence};
use hk_hello::HelloRefusal;
use hk_hosts::{Hosts, read_hosts};
use hk_init::{CommandFault, put_fault};
use std::alloc::Global;

fn text_of(alloc: Global, hosts: &Hosts, fault: &CommandFault) -> Result<Vec<u8>, Memory> {
    let mut text = Vec::new(alloc);
    put_fault(&mut text, hosts.as_slice(), fault)?;
    Ok(text)
}

#[test]
fn refused_hellos_are_told_by_their_texts(rt: HostRuntime) {
    let alloc = rt.alloc();
    let hosts = read_hosts(alloc, "10.0.0.1,b:7,[::1]", 11_400).expect(&rt, "memory");
    let reasons = [
        HelloRefusal::AnotherSecret,
        HelloRefusal::AnotherGroup,
        HelloRefusal::OtherHosts,
        HelloRefusal::AnotherLeaseOrSkew,
        HelloRefusal::AnotherFounding,
        HelloRefusal::NoSuchActor,
        HelloRefusal::NumberTaken,
    ];
    for reason in reasons {
        let fault = CommandFault::Denied { place: 1, reason };
        let text = text_of(alloc, &hosts, &fault).expect(&rt, "memory");
        let wanted = format!(in alloc; "b:7 refused: {reason}").expect(&rt, "memory");
        assert!(rt; text.as_slice() == wanted.as_bytes());
        assert_eq!(rt; fault.number(), 12);
    }
}

#[test]
fn faults_have_texts_and_numbers(rt: HostRuntime) {
    let alloc = rt.alloc();
    let hosts = read_hosts(alloc, "10.0.0.1,b:7,[::1]", 11_400).expect(&rt, "memory");
    let silent = CommandFault::Unreachable { place: 0 };
    let text = text_of(alloc, &hosts, &silent).expect(&rt, "memory");
    assert!(rt; text.as_slice() == b"10.0.0.1:11400 does not answer".as_slice());
    assert_eq!(rt; silent.number(), 13);
    let closed = CommandFault::NotOpen { place: 2 };
    let text = text_of(alloc, &hosts, &closed).expect(&rt, "memory");
    assert!(rt; text.as_slice() == b"[::1]:11400 has not opened".as_slice());
    let no = b"another init runs".to_vec(alloc).expect(&rt, "memory");
    let refused = CommandFault::Refused {
        text: Sequence::from_vec(no),
    };
    let text = text_of(alloc, &hosts, &refused).expect(&rt, "memory");
    assert!(rt; text.as_slice() == b"another init runs".as_slice());
    assert_eq!(rt; refused.number(), 12);
}
