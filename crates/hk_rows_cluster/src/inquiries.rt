//! What the processes of a group ask each other and are answered, as bytes written by hand: what is read of them, that it
//! is printed as these again, that each front of them wants bytes, and that another kind makes them no message.

use hk_base::{Memory, NodeId};
use hk_fields::Ticket;
use hk_inside::{
    Board, BoardLine, Counts, HostTickets, Inquiry, Leaver, ManagerRefusal, ManagerState, Mark,
    MessageFault, NodeSeen, NodeState, Party, Report, Response, ShardsTold, Stage, Text,
    print_inquiry, print_response, read_inquiry, read_response,
};
use std::alloc::Global;

// Node 3, which is ready, beside an open manager 2, has seen nodes 0 and 1; the second one never asked.
const REPORT: &str = "00000095 01 101112131415161718191a1b1c1d1e1f 0003 03 02 0000000000000028 \
    08 0000000000000004 00000367 \
    000000000000a0f0 0000000000452720 0000000000000007 0000000000000008 0000000000000009 000000000000000a 000000000000000b \
    0e 31302e302e302e333a3131343030 0e 31302e302e302e333a3131323131 \
    02 0000 0000001f 00000000 0001 ffffffff 00000005";

// A process that waits, without a manager, and has seen nobody.
const WAITING: &str = "00000066 01 101112131415161718191a1b1c1d1e1f ffff 00 ff 0000000000000000 \
    00 0000000000000000 00000000 \
    0000000000000000 0000000000000000 0000000000000000 0000000000000000 0000000000000000 0000000000000000 0000000000000000 \
    01 61 00 00";

const SEAT: &str = "00000011 02 202122232425262728292a2b2c2d2e2f";

const CLAIM: &str = "00000013 03 0003 202122232425262728292a2b2c2d2e2f";

const LOOK: &str = "00000009 04 3f9c27b1d04e8a65";

const FOUND: &str =
    "0000002a 05 3f9c27b1d04e8a65 01 101112131415161718191a1b1c1d1e1f 202122232425262728292a2b2c2d2e2f";

const LEAVE_NODE: &str = "00000004 06 00 0003";

const LEAVE_HOST: &str = "00000004 06 01 0002";

const STATUS: &str = "00000001 07";

// Managers 0 and 2 are up; the lines are of manager 2, of node 3, and of the asker, who has no number.
const BOARD: &str = "0000005b 81 3f9c27b1d04e8a65 02 0000000000000028 0005 03 \
    01 0002 101112131415161718191a1b1c1d1e1f 00 00 01 63 \
    00 0003 202122232425262728292a2b2c2d2e2f 01 01 01 64 \
    02 0000 202122232425262728292a2b2c2d2e2f 03 00 02 6465";

const SEATED: &str = "00000003 82 0003";

const STATE: &str =
    "00000033 84 3f9c27b1d04e8a65 01 02 101112131415161718191a1b1c1d1e1f 202122232425262728292a2b2c2d2e2f 000003e8 0000000a";

const TOLD: &str = "00000006 87 6c6f73740a";

const YES: &str = "00000001 80";

const NO: &str = "00000013 8f 07 6e756d62657220332069732074616b656e";

const FOUNDING: u64 = 0x3f9c_27b1_d04e_8a65;

fn digit_of(byte: u8) -> Option<u8> {
    match byte {
        b'0'..=b'9' => Some(byte - b'0'),
        b'a'..=b'f' => Some(byte - b'a' + 10),
        _ => None,
    }
}

// The bytes that hexadecimal digits write; blanks are passed over.
fn bytes_of(alloc: Global, text: &str) -> Result<Vec<u8>, Memory> {
    let mut bytes = Vec::new(alloc);
    let mut high = None;
    for byte in text.as_bytes() {
        let Some(digit) = digit_of(*byte) else {
            continue;
        };
        match high {
            None => high = Some(digit),
            Some(first) => {
                high = None;
                let value: u8 = first;
                bytes.push(value.wrapping_mul(16).wrapping_add(digit))?;
            }
        }
    }
    Ok(bytes)
}

fn ticket_from(first: u8) -> Ticket {
    let mut bytes = [0; 16];
    let mut next = first;
    for byte in &mut bytes {
        *byte = next;
        next = next.wrapping_add(1);
    }
    Ticket(bytes)
}

fn are_tickets(tickets: &HostTickets) -> bool {
    tickets.manager == ticket_from(16) && tickets.node == ticket_from(32)
}

fn is_seen(seen: &NodeSeen, node: u16, age_of_ask: Option<u32>, unacknowledged: u32) -> bool {
    *seen
        == NodeSeen {
            node: NodeId(node),
            age_of_ask,
            unacknowledged,
        }
}

fn are_nodes(nodes: &[NodeSeen]) -> bool {
    match nodes {
        [first, second] => is_seen(first, 0, Some(31), 0) && is_seen(second, 1, None, 5),
        _ => false,
    }
}

const SHARDS: ShardsTold = ShardsTold {
    ready: 8,
    least_epoch: 4,
    least_lease_left: 871,
};

const COUNTS: Counts = Counts {
    keys: 41_200,
    bytes: 4_532_000,
    gets: 7,
    sets: 8,
    busy: 9,
    aborted: 10,
    unknown: 11,
};

fn is_report(report: &Report) -> bool {
    report.ticket == ticket_from(16)
        && report.node == Some(NodeId(3))
        && report.state == NodeState::Ready
        && report.manager == Some(2)
        && report.records == 40
        && report.shards == SHARDS
        && report.counts == COUNTS
        && report.inside.as_slice() == b"10.0.0.3:11400".as_slice()
        && report.clients.as_slice() == b"10.0.0.3:11211".as_slice()
        && are_nodes(report.nodes.as_slice())
}

fn waits(report: &Report) -> bool {
    report.node.is_none()
        && report.state == NodeState::Waiting
        && report.manager.is_none()
        && report.inside.as_slice() == b"a".as_slice()
        && report.clients.is_empty()
        && report.nodes.is_empty()
}

// A word for each inquiry that is as it should be.
fn inquiry_word(inquiry: &Inquiry) -> &'static str {
    match inquiry {
        Inquiry::Report(report) if is_report(report) => "report",
        Inquiry::Report(report) if waits(report) => "waiting",
        Inquiry::Seat(ticket) if *ticket == ticket_from(32) => "seat",
        Inquiry::Claim { node, ticket } if node.0 == 3 && *ticket == ticket_from(32) => "claim",
        Inquiry::Look { founding: FOUNDING } => "look",
        Inquiry::Found {
            founding: FOUNDING,
            hosts,
        } => match hosts.as_slice() {
            [host] if are_tickets(host) => "found",
            _ => "other",
        },
        Inquiry::Leave(Leaver::Node(NodeId(3))) => "leave node",
        Inquiry::Leave(Leaver::Host(2)) => "leave host",
        Inquiry::Status => "status",
        _ => "other",
    }
}

fn is_line(line: &BoardLine, party: Party, first: u8, mark: Mark, inside: &[u8]) -> bool {
    line.party == party
        && line.ticket == ticket_from(first)
        && line.mark == mark
        && line.ready == (mark == Mark::Member)
        && line.inside.as_slice() == inside
}

fn are_lines(lines: &[BoardLine]) -> bool {
    match lines {
        [manager, node, asker] => {
            is_line(manager, Party::Manager(2), 16, Mark::Bound, b"c")
                && is_line(node, Party::Node(NodeId(3)), 32, Mark::Member, b"d")
                && is_line(asker, Party::Neither, 32, Mark::Out, b"de")
        }
        _ => false,
    }
}

fn is_board(board: &Board) -> bool {
    board.founding == FOUNDING
        && board.stage == Stage::Open
        && board.records == 40
        && board.managers_up == 5
        && are_lines(board.lines.as_slice())
}

fn is_state(state: &ManagerState) -> bool {
    state.founding == FOUNDING
        && state.stage == Stage::Founded
        && state.place == 2
        && are_tickets(&state.tickets)
        && state.lease == 1000
        && state.skew == 10
}

// A word for each response that is as it should be.
fn response_word(response: &Response) -> &'static str {
    match response {
        Response::Board(board) if is_board(board) => "board",
        Response::Seated(NodeId(3)) => "seated",
        Response::State(state) if is_state(state) => "state",
        Response::Status(text) if text.as_slice() == b"lost\n".as_slice() => "told",
        Response::Yes => "yes",
        Response::No { code: 7, text } if text.as_slice() == b"number 3 is taken".as_slice() =>
            "no",
        _ => "other",
    }
}

/// What comes of bytes: the word of the message, how many bytes it takes, and its frame.
#[derive(Drop)]
struct Come {
    word: &'static str,
    len: usize,
    frame: Vec<u8>,
}

fn inquiry_come(alloc: Global, bytes: &[u8]) -> Result<Come, MessageFault> {
    match read_inquiry(alloc, bytes) {
        Ok((inquiry, len)) => match print_inquiry(alloc, &inquiry) {
            Ok(frame) => Ok(Come {
                word: inquiry_word(&inquiry),
                len,
                frame,
            }),
            Err(Memory) => Err(MessageFault::Memory),
        },
        Err(fault) => Err(fault),
    }
}

fn response_come(alloc: Global, bytes: &[u8]) -> Result<Come, MessageFault> {
    match read_response(alloc, bytes) {
        Ok((response, len)) => match print_response(alloc, &response) {
            Ok(frame) => Ok(Come {
                word: response_word(&response),
                len,
                frame,
            }),
            Err(_) => Err(MessageFault::Memory),
        },
        Err(fault) => Err(fault),
    }
}

/// Which messages are read.
#[derive(Clone, Copy, Debug, PartialEq, Eq)]
enum Side {
    Inquiries,
    Responses,
}

fn come_of(alloc: Global, side: Side, bytes: &[u8]) -> Result<Come, MessageFault> {
    match side {
        Side::Inquiries => inquiry_come(alloc, bytes),
        Side::Responses => response_come(alloc, bytes),
    }
}

const ROWS: [(Side, &str, &str); 15] = [
    (Side::Inquiries, "report", REPORT),
    (Side::Inquiries, "waiting", WAITING),
    (Side::Inquiries, "seat", SEAT),
    (Side::Inquiries, "claim", CLAIM),
    (Side::Inquiries, "look", LOOK),
    (Side::Inquiries, "found", FOUND),
    (Side::Inquiries, "leave node", LEAVE_NODE),
    (Side::Inquiries, "leave host", LEAVE_HOST),
    (Side::Inquiries, "status", STATUS),
    (Side::Responses, "board", BOARD),
    (Side::Responses, "seated", SEATED),
    (Side::Responses, "state", STATE),
    (Side::Responses, "told", TOLD),
    (Side::Responses, "yes", YES),
    (Side::Responses, "no", NO),
];

// Whether the bytes, and others behind them, are read as the message with this word, which has just these bytes.
fn is_read(alloc: Global, side: Side, word: &str, bytes: &[u8]) -> Result<bool, MessageFault> {
    let mut longer = Vec::new(alloc);
    if longer.extend_from_slice(bytes).is_err() || longer.extend_from_slice(b"more").is_err() {
        return Err(MessageFault::Memory);
    }
    let come = come_of(alloc, side, &longer)?;
    Ok(come.word == word && come.len == bytes.len() && come.frame.as_slice() == bytes)
}

// The fault of some bytes, if they have one.
fn fault_of(alloc: Global, side: Side, bytes: &[u8]) -> Option<MessageFault> {
    match come_of(alloc, side, bytes) {
        Ok(_) => None,
        Err(fault) => Some(fault),
    }
}

// Whether each front of the bytes wants 4 bytes, or all of these.
fn fronts_want_bytes(alloc: Global, side: Side, bytes: &[u8]) -> bool {
    for len in 0..bytes.len() {
        let wanted = if len < 4 { 4 } else { bytes.len() };
        if fault_of(alloc, side, &bytes[..len]) != Some(MessageFault::Short { wanted }) {
            return false;
        }
    }
    true
}

#[test]
fn messages_are_read_and_printed(rt: HostRuntime) {
    let alloc = rt.alloc();
    for (side, word, text) in ROWS {
        let bytes = bytes_of(alloc, text).expect(&rt, "memory");
        assert_eq!(rt; is_read(alloc, side, word, &bytes), Ok(true), "{word}");
        assert!(rt; fronts_want_bytes(alloc, side, &bytes), "{word}");
    }
}

// The bytes with another one at a place.
fn with_byte(alloc: Global, bytes: &[u8], place: usize, byte: u8) -> Result<Vec<u8>, Memory> {
    let mut other = Vec::new(alloc);
    for (at, kept) in bytes.iter().enumerate() {
        other.push(if at == place { byte } else { *kept })?;
    }
    Ok(other)
}

// Where the kind of a message stands.
const KIND_AT: usize = 4;

// Whether other kinds make the bytes no message, or one of another kind.
fn kinds_differ(alloc: Global, side: Side, bytes: &[u8]) -> Result<bool, Memory> {
    let Some(kind) = bytes.get(KIND_AT) else {
        return Ok(false);
    };
    for bit in [1, 2, 4, 8, 16, 32, 64, 128] {
        let other = with_byte(alloc, bytes, KIND_AT, *kind ^ bit)?;
        let differs = match come_of(alloc, side, &other) {
            Ok(come) => come.word == "other",
            Err(fault) => fault == MessageFault::Malformed,
        };
        if !differs {
            return Ok(false);
        }
    }
    Ok(true)
}

#[test]
fn other_kinds_are_other_messages(rt: HostRuntime) {
    let alloc = rt.alloc();
    for (side, word, text) in ROWS {
        let bytes = bytes_of(alloc, text).expect(&rt, "memory");
        assert_eq!(rt; kinds_differ(alloc, side, &bytes), Ok(true), "{word}");
    }
}

const MALFORMED: [(Side, &str, &str); 15] = [
    (Side::Inquiries, "no length", "00000000 07"),
    (Side::Inquiries, "a length of 65,536", "00010000 07"),
    (Side::Inquiries, "one byte left over", "00000002 07 00"),
    (
        Side::Inquiries,
        "one byte is wanting",
        "00000003 06 00 00 03",
    ),
    (Side::Inquiries, "kind 0", "00000001 00"),
    (Side::Inquiries, "kind 8", "00000001 08"),
    (Side::Inquiries, "a response", "00000001 80"),
    (
        Side::Inquiries,
        "the founding 0",
        "00000009 04 0000000000000000",
    ),
    (
        Side::Inquiries,
        "no host",
        "0000000a 05 0000000000000001 00",
    ),
    (Side::Inquiries, "host 9 leaves", "00000004 06 01 0009"),
    (Side::Inquiries, "class 2 leaves", "00000004 06 02 0000"),
    (Side::Responses, "an inquiry", "00000001 07"),
    (Side::Responses, "kind 83", "00000001 83"),
    (Side::Responses, "code 0", "00000002 8f 00"),
    (Side::Responses, "code 13", "00000002 8f 0d"),
];

#[test]
fn what_is_out_of_range_is_malformed(rt: HostRuntime) {
    let alloc = rt.alloc();
    for (side, what, text) in MALFORMED {
        let bytes = bytes_of(alloc, text).expect(&rt, "memory");
        assert_eq!(rt;
            fault_of(alloc, side, &bytes),
            Some(MessageFault::Malformed),
            "{what}"
        );
    }
}

// A byte of a message that is put out of range: its place, and what it is then.
const OUT_OF_RANGE: [(Side, &str, &str, usize, u8); 10] = [
    (Side::Inquiries, "a node's state", REPORT, 23, 5),
    (Side::Inquiries, "a reporting manager", REPORT, 24, 9),
    (Side::Inquiries, "shards that are ready", REPORT, 33, 9),
    (Side::Responses, "a board's stage", BOARD, 13, 3),
    (Side::Responses, "a line's class", BOARD, 25, 3),
    (Side::Responses, "a line's manager", BOARD, 27, 9),
    (Side::Responses, "a line's mark", BOARD, 44, 4),
    (Side::Responses, "whether a line is ready", BOARD, 45, 2),
    (Side::Responses, "a state's stage", STATE, 13, 3),
    (Side::Responses, "a state's place", STATE, 14, 9),
];

#[test]
fn fields_out_of_range_are_malformed(rt: HostRuntime) {
    let alloc = rt.alloc();
    for (side, what, text, place, byte) in OUT_OF_RANGE {
        let bytes = bytes_of(alloc, text).expect(&rt, "memory");
        let other = with_byte(alloc, &bytes, place, byte).expect(&rt, "memory");
        assert_eq!(rt;
            fault_of(alloc, side, &other),
            Some(MessageFault::Malformed),
            "{what}"
        );
    }
}

// Whether the text of a refusal and its code are these.
fn is_told(
    alloc: Global,
    refusal: ManagerRefusal<'_>,
    code: u8,
    text: &str,
) -> Result<bool, std::test::Fail> {
    let told = format!(in alloc; "{refusal}")?;
    Ok(refusal.code() == code && told.as_str() == text)
}

#[test]
fn refusals_have_codes_and_texts_of_their_own(rt: HostRuntime) -> Result<(), std::test::Fail> {
    let alloc = rt.alloc();
    let rows = [
        (
            ManagerRefusal::Lives(FOUNDING),
            1,
            "the group lives: founding 3f9c27b1d04e8a65",
        ),
        (
            ManagerRefusal::OtherLease("10.0.0.2:11400"),
            2,
            "10.0.0.2:11400 has another lease or skew",
        ),
        (ManagerRefusal::NodeIsReady(4), 3, "node 4 is ready"),
        (
            ManagerRefusal::LeaseMayRun(870),
            4,
            "a lease may run 870 ms",
        ),
        (ManagerRefusal::NoSuchMember, 5, "no such member"),
        (
            ManagerRefusal::NoOtherIsReady,
            6,
            "no other member is ready",
        ),
        (ManagerRefusal::Taken(3), 7, "number 3 is taken"),
        (ManagerRefusal::Wait, 8, "wait"),
        (ManagerRefusal::NoMajority, 9, "no majority is up"),
        (ManagerRefusal::AnotherInit, 10, "another init runs"),
    ];
    for (refusal, code, text) in rows {
        assert!(rt; is_told(alloc, refusal, code, text)?, "{text}");
    }
    Ok(())
}
