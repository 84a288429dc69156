//! Requests behind a greeting, one behind the other.

use crate::outside::{bytes_of, connection, failing, sequence_of, written};
use hk_base::NodeId;
use hk_fields::Ticket;
use hk_greet::{AskFault, Buffered, HearFault, RespondFault, ask, next_inquiry, respond};
use hk_inside::{Inquiry, Response};
use hk_outside::MemoryConnection;
use std::alloc::Global;
use std::process::Abort;

// Node 3 is claimed.
const CLAIM: &str = "00000013030003202122232425262728292a2b2c2d2e2f";

const SEAT: &str = "0000001102202122232425262728292a2b2c2d2e2f";

const YES: &str = "0000000180";

const SEATED: &str = "00000003820003";

// Number 3 is taken.
const NO: &str = "000000138f076e756d62657220332069732074616b656e";

const TICKET: Ticket = Ticket([
    32, 33, 34, 35, 36, 37, 38, 39, 40, 41, 42, 43, 44, 45, 46, 47,
]);

// What a process is told, in a form that can be compared.
#[derive(Clone, Copy, Debug, PartialEq, Eq)]
enum Told {
    Yes,
    Seated(NodeId),
    Another,
}

fn form_of(response: Response) -> Told {
    match &response {
        Response::Yes => Told::Yes,
        Response::Seated(node) => Told::Seated(*node),
        _ => Told::Another,
    }
}

fn answer_of(asked: Result<Response, AskFault>) -> Result<Told, AskFault> {
    match asked {
        Ok(response) => Ok(form_of(response)),
        Err(fault) => Err(fault),
    }
}

// Node 3 is claimed.
fn claim(alloc: Global, conn: &mut Buffered<MemoryConnection>) -> Result<Told, AskFault> {
    let inquiry = Inquiry::Claim {
        node: NodeId(3),
        ticket: TICKET,
    };
    answer_of(ask(alloc, conn, &inquiry))
}

// A number is asked for.
fn seat(alloc: Global, conn: &mut Buffered<MemoryConnection>) -> Result<Told, AskFault> {
    answer_of(ask(alloc, conn, &Inquiry::Seat(TICKET)))
}

#[test]
fn requests_are_answered_one_behind_the_other(rt: HostRuntime) {
    let alloc = rt.alloc();
    let bytes = bytes_of(&rt, alloc, &[YES, SEATED]);
    let said = bytes_of(&rt, alloc, &[CLAIM, SEAT]);
    let mut conn = connection(&rt, alloc, &bytes);
    assert_eq!(rt; claim(alloc, &mut conn), Ok(Told::Yes));
    assert_eq!(rt; seat(alloc, &mut conn), Ok(Told::Seated(NodeId(3))));
    assert_eq!(rt; written(&conn), said.as_slice());
    let third = seat(alloc, &mut conn);
    assert_eq!(rt; third, Err(AskFault::NoResponse(HearFault::Ended)));
}

#[test]
fn a_response_ends_at_each_place(rt: HostRuntime) {
    let alloc = rt.alloc();
    let bytes = bytes_of(&rt, alloc, &[SEATED]);
    for len in 0..7 {
        let front = bytes.get(..len).expect(&rt, "a front");
        let mut conn = connection(&rt, alloc, front);
        let found = claim(alloc, &mut conn);
        assert_eq!(rt; found, Err(AskFault::NoResponse(HearFault::Ended)), "{len}");
        assert_eq!(rt; conn.unread(), front, "{len}");
    }
}

#[test]
fn faults_of_an_ask_are_told(rt: HostRuntime) {
    let alloc = rt.alloc();
    let bytes = bytes_of(&rt, alloc, &[YES]);
    let mut conn = failing(&rt, alloc, &bytes, &[0], &[]);
    let found = claim(alloc, &mut conn);
    assert_eq!(rt; found, Err(AskFault::NoResponse(HearFault::ReadFault)));
    let mut conn = failing(&rt, alloc, &bytes, &[], &[0]);
    assert_eq!(rt; claim(alloc, &mut conn), Err(AskFault::WriteFault));
    let claimed = bytes_of(&rt, alloc, &[CLAIM]);
    let mut conn = connection(&rt, alloc, &claimed);
    let found = claim(alloc, &mut conn);
    assert_eq!(rt; found, Err(AskFault::NoResponse(HearFault::Malformed)));
}

// What a manager is asked, in a form that can be compared.
#[derive(Clone, Copy, Debug, PartialEq, Eq)]
enum Heard {
    Claim(NodeId, Ticket),
    Seat(Ticket),
    Another,
    Nothing,
}

fn next(alloc: Global, conn: &mut Buffered<MemoryConnection>) -> Result<Heard, HearFault> {
    match &next_inquiry(alloc, conn)? {
        Some(Inquiry::Claim { node, ticket }) => Ok(Heard::Claim(*node, *ticket)),
        Some(Inquiry::Seat(ticket)) => Ok(Heard::Seat(*ticket)),
        Some(_) => Ok(Heard::Another),
        None => Ok(Heard::Nothing),
    }
}

#[test]
fn inquiries_are_heard_one_behind_the_other(rt: HostRuntime) {
    let alloc = rt.alloc();
    let bytes = bytes_of(&rt, alloc, &[CLAIM, SEAT]);
    let mut conn = connection(&rt, alloc, &bytes);
    assert_eq!(rt; next(alloc, &mut conn), Ok(Heard::Claim(NodeId(3), TICKET)));
    assert_eq!(rt; next(alloc, &mut conn), Ok(Heard::Seat(TICKET)));
    assert_eq!(rt; next(alloc, &mut conn), Ok(Heard::Nothing));
    assert_eq!(rt; next(alloc, &mut conn), Ok(Heard::Nothing));
}

#[test]
fn an_inquiry_ends_at_each_place(rt: HostRuntime) {
    let alloc = rt.alloc();
    let bytes = bytes_of(&rt, alloc, &[SEAT]);
    for len in 1..21 {
        let front = bytes.get(..len).expect(&rt, "a front");
        let mut conn = connection(&rt, alloc, front);
        assert_eq!(rt; next(alloc, &mut conn), Err(HearFault::Ended), "{len}");
        assert_eq!(rt; conn.unread(), front, "{len}");
    }
    let mut conn = failing(&rt, alloc, &bytes, &[0], &[]);
    assert_eq!(rt; next(alloc, &mut conn), Err(HearFault::ReadFault));
    let mut conn = connection(&rt, alloc, &[0, 0, 0, 0]);
    assert_eq!(rt; next(alloc, &mut conn), Err(HearFault::Malformed));
}

#[test]
fn responses_are_sent(rt: HostRuntime) {
    let alloc = rt.alloc();
    let said = bytes_of(&rt, alloc, &[YES, NO]);
    let text = sequence_of(&rt, alloc, b"number 3 is taken");
    let mut conn = connection(&rt, alloc, b"");
    assert_eq!(rt; respond(alloc, &mut conn, &Response::Yes), Ok(()));
    assert_eq!(rt;
        respond(alloc, &mut conn, &Response::No { code: 7, text }),
        Ok(())
    );
    assert_eq!(rt; written(&conn), said.as_slice());
    let mut conn = failing(&rt, alloc, b"", &[], &[0]);
    let found = respond(alloc, &mut conn, &Response::Yes);
    assert_eq!(rt; found, Err(RespondFault::WriteFault));
}

#[test]
fn a_response_that_is_too_long_is_not_sent(rt: HostRuntime) {
    let alloc = rt.alloc();
    let mut text = Vec::new(alloc);
    text.resize(65_535, b'x').expect(&rt, "memory");
    let lines = Response::Status(sequence_of(&rt, alloc, &text));
    let mut conn = connection(&rt, alloc, b"");
    let found = respond(alloc, &mut conn, &lines);
    assert_eq!(rt; found, Err(RespondFault::TooLong));
    assert_eq!(rt; written(&conn), b"".as_slice());
}
