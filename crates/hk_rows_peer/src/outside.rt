//! A connection that is dialled, and comes through doors, and of which a byte was read already.

use hk_outside::{Dial, Doors, Primed, Sink, Source, TcpConnection, TcpDoors};
use std::process::Abort;

// The first port of a range that opens.
fn opened(doors: &mut TcpDoors<HostRuntime>) -> Option<u16> {
    for candidate in 41_311..41_399 {
        if doors.open(candidate).is_ok() {
            return Some(candidate);
        }
    }
    None
}

// Bytes go from the one that was dialled to the one that came. Its first byte is read before it is primed with that.
fn check_a_way(rt: &impl Abort, dialled: TcpConnection, came: TcpConnection) {
    let (mut dialled, mut came) = (dialled, came);
    assert_eq!(rt; dialled.write(b"to"), Ok(2));
    let mut room = [0u8; 1];
    assert_eq!(rt; came.read(&mut room), Ok(1));
    let mut primed = Primed::new(room[0], came);
    assert_eq!(rt; primed.read(&mut room), Ok(1));
    assert_eq!(rt; room, *b"t");
    assert_eq!(rt; primed.read(&mut room), Ok(1));
    assert_eq!(rt; room, *b"o");
}

#[test]
fn a_dialled_connection_comes_through_the_doors(rt: HostRuntime) {
    let mut doors = TcpDoors::new(rt.clone().expect(&rt, "memory"));
    let port = opened(&mut doors).expect(&rt, "a port");
    let dialled = doors.dialer().dial(port).expect(&rt, "a connection");
    match doors.accept() {
        Ok(Some(came)) => check_a_way(&rt, dialled, came),
        _ => panic!(&rt; "no connection"),
    }
}
