//! Putting the parts of messages behind other bytes. Where an allocation is refused, what stands there is of no use.

ghost use Rattle.std.specs.Prelude.{◌≡◌, ◌++◌, ◌∷◌, [], ◌<◌, ◌≤◌, length, OnOk, All, IfSome};
ghost use Rattle.std.specs.Int.{w16, w32, w64, to_be_bytes};
ghost use Rattle.std.specs.List.{flat_map};
ghost use Rattle.hk_fields.specs.Fields.{host_bytes};
ghost use Rattle.hk_inside.specs.Parts.{IsText, leaver_bytes, IsLeaverInRange, stage_byte, state_bytes, number_or_none, place_or_none, age_or_none, node_state_byte, shards_bytes, counts_bytes, seen_bytes, nodes_bytes, who_bytes, places_bytes, report_bytes, IsReportInRange, party_bytes, mark_byte, flag_byte, line_bytes, lines_bytes, board_bytes, IsLineInRange, IsBoardInRange};
ghost use Rattle.hk_inside.specs.Messages.{inquiry_kind, inquiry_fields, inquiry_bytes, IsInquiryInRange, response_kind, response_fields, response_bytes, IsResponseInRange};

use crate::board::{Board, BoardLine, Mark, Party, Stage};
use crate::inquiry::{Inquiry, Leaver};
use crate::report::{Counts, NodeSeen, NodeState, Report, ShardsTold};
use crate::response::{ManagerState, Response};
use hk_base::{Memory, NodeId};
use hk_fields::{
    HostTickets, put, put_byte, put_host, put_hosts, put_number16, put_number32, put_number64,
    put_text, put_ticket,
};

fn put_found(out: &mut Vec<u8>, founding: u64, hosts: &[HostTickets]) -> Result<(), Memory>
    requires { length hosts.now ≤ 9 }
    ensures { OnOk result (out.new.items ≡ out.old.items ++ (to_be_bytes w64 founding ++ (length hosts.now ∷ flat_map host_bytes hosts.now))) }
{
    put_number64(out, founding)?;
    put_byte(out, hosts.len() as u8)?;
    put_hosts(out, hosts)
}

fn put_leaver(out: &mut Vec<u8>, leaver: Leaver) -> Result<(), Memory>
    ensures { OnOk result (out.new.items ≡ out.old.items ++ leaver_bytes leaver) }
{
    match leaver {
        Leaver::Node(node) => {
            put_byte(out, 0)?;
            put_number16(out, node.0)
        }
        Leaver::Host(place) => {
            put_byte(out, 1)?;
            put_number16(out, u16::from(place))
        }
    }
}

fn stage_byte(stage: Stage) -> u8
    ensures { result ≡ stage_byte stage }
{
    match stage {
        Stage::Empty => 0,
        Stage::Founded => 1,
        Stage::Open => 2,
    }
}

fn put_clocks(out: &mut Vec<u8>, lease: u32, skew: u32) -> Result<(), Memory>
    ensures { OnOk result (out.new.items ≡ out.old.items ++ (to_be_bytes w32 lease ++ to_be_bytes w32 skew)) }
{
    put_number32(out, lease)?;
    put_number32(out, skew)
}

fn put_state(out: &mut Vec<u8>, state: &ManagerState) -> Result<(), Memory>
    ensures { OnOk result (out.new.items ≡ out.old.items ++ state_bytes state.now) }
{
    put_number64(out, state.founding)?;
    put_byte(out, stage_byte(state.stage))?;
    put_byte(out, state.place)?;
    put_host(out, &state.tickets)?;
    put_clocks(out, state.lease, state.skew)
}

fn number_or_none(node: Option<NodeId>) -> u16
    ensures { result ≡ number_or_none node }
{
    match node {
        Some(node) => node.0,
        None => u16::MAX,
    }
}

fn place_or_none(place: Option<u8>) -> u8
    ensures { result ≡ place_or_none place }
{
    match place {
        Some(place) => place,
        None => u8::MAX,
    }
}

fn age_or_none(age: Option<u32>) -> u32
    ensures { result ≡ age_or_none age }
{
    match age {
        Some(age) => age,
        None => u32::MAX,
    }
}

fn node_state_byte(state: NodeState) -> u8
    ensures { result ≡ node_state_byte state }
{
    match state {
        NodeState::Waiting => 0,
        NodeState::Seated => 1,
        NodeState::Copying => 2,
        NodeState::Ready => 3,
        NodeState::Leaving => 4,
    }
}

fn put_who(out: &mut Vec<u8>, report: &Report) -> Result<(), Memory>
    ensures { OnOk result (out.new.items ≡ out.old.items ++ who_bytes report.now) }
{
    put_ticket(out, report.ticket)?;
    put_number16(out, number_or_none(report.node))?;
    put_byte(out, node_state_byte(report.state))?;
    put_byte(out, place_or_none(report.manager))?;
    put_number64(out, report.records)
}

fn put_shards(out: &mut Vec<u8>, shards: &ShardsTold) -> Result<(), Memory>
    ensures { OnOk result (out.new.items ≡ out.old.items ++ shards_bytes shards.now) }
{
    put_byte(out, shards.ready)?;
    put_number64(out, shards.least_epoch)?;
    put_number32(out, shards.least_lease_left)
}

fn put_outcomes(out: &mut Vec<u8>, counts: &Counts) -> Result<(), Memory>
    ensures { OnOk result (out.new.items ≡ out.old.items ++ (to_be_bytes w64 counts.now.busy ++ (to_be_bytes w64 counts.now.aborted ++ to_be_bytes w64 counts.now.unknown))) }
{
    put_number64(out, counts.busy)?;
    put_number64(out, counts.aborted)?;
    put_number64(out, counts.unknown)
}

fn put_counts(out: &mut Vec<u8>, counts: &Counts) -> Result<(), Memory>
    ensures { OnOk result (out.new.items ≡ out.old.items ++ counts_bytes counts.now) }
{
    put_number64(out, counts.keys)?;
    put_number64(out, counts.bytes)?;
    put_number64(out, counts.gets)?;
    put_number64(out, counts.sets)?;
    put_outcomes(out, counts)
}

fn put_seen(out: &mut Vec<u8>, seen: &NodeSeen) -> Result<(), Memory>
    ensures { OnOk result (out.new.items ≡ out.old.items ++ seen_bytes seen.now) }
{
    put_number16(out, seen.node.0)?;
    put_number32(out, age_or_none(seen.age_of_ask))?;
    put_number32(out, seen.unacknowledged)
}

fn put_each_seen(out: &mut Vec<u8>, nodes: &[NodeSeen]) -> Result<(), Memory>
    ensures { OnOk result (out.new.items ≡ out.old.items ++ flat_map seen_bytes nodes.now) }
{
    for node in nodes {
        put_seen(out, node)?;
    }
    Ok(())
}

fn put_nodes(out: &mut Vec<u8>, nodes: &[NodeSeen]) -> Result<(), Memory>
    requires { length nodes.now < 256 }
    ensures { OnOk result (out.new.items ≡ out.old.items ++ nodes_bytes nodes.now) }
{
    put_byte(out, nodes.len() as u8)?;
    put_each_seen(out, nodes)
}

fn put_places(out: &mut Vec<u8>, report: &Report) -> Result<(), Memory>
    requires inside { IsText report.now.inside }
    requires clients { IsText report.now.clients }
    requires few { length report.now.nodes < 256 }
    ensures { OnOk result (out.new.items ≡ out.old.items ++ places_bytes report.now) }
{
    put_text(out, report.inside.as_slice())?;
    put_text(out, report.clients.as_slice())?;
    put_nodes(out, report.nodes.as_slice())
}

fn put_report(out: &mut Vec<u8>, report: &Report) -> Result<(), Memory>
    requires { IsReportInRange report.now }
    ensures { OnOk result (out.new.items ≡ out.old.items ++ report_bytes report.now) }
{
    put_who(out, report)?;
    put_shards(out, &report.shards)?;
    put_counts(out, &report.counts)?;
    put_places(out, report)
}

fn put_inquiry_fields(out: &mut Vec<u8>, inquiry: &Inquiry) -> Result<(), Memory>
    requires { IsInquiryInRange inquiry.now }
    ensures { OnOk result (out.new.items ≡ out.old.items ++ inquiry_fields inquiry.now) }
{
    match inquiry {
        Inquiry::Report(report) => put_report(out, report),
        Inquiry::Seat(ticket) => put_ticket(out, *ticket),
        Inquiry::Claim { node, ticket } => {
            put_number16(out, node.0)?;
            put_ticket(out, *ticket)
        }
        Inquiry::Look { founding } => put_number64(out, *founding),
        Inquiry::Found { founding, hosts } => put_found(out, *founding, hosts.as_slice()),
        Inquiry::Leave(leaver) => put_leaver(out, *leaver),
        Inquiry::Status => Ok(()),
    }
}

fn inquiry_kind(inquiry: &Inquiry) -> u8
    ensures { result ≡ inquiry_kind inquiry.now }
{
    match inquiry {
        Inquiry::Report(_) => 1,
        Inquiry::Seat(_) => 2,
        Inquiry::Claim { .. } => 3,
        Inquiry::Look { .. } => 4,
        Inquiry::Found { .. } => 5,
        Inquiry::Leave(_) => 6,
        Inquiry::Status => 7,
    }
}

// The kind of an inquiry, and its fields.
pub fn put_inquiry(out: &mut Vec<u8>, inquiry: &Inquiry) -> Result<(), Memory>
    requires { IsInquiryInRange inquiry.now }
    ensures { OnOk result (out.new.items ≡ out.old.items ++ inquiry_bytes inquiry.now) }
{
    put_byte(out, inquiry_kind(inquiry))?;
    put_inquiry_fields(out, inquiry)
}

fn put_party(out: &mut Vec<u8>, party: Party) -> Result<(), Memory>
    ensures { OnOk result (out.new.items ≡ out.old.items ++ party_bytes party) }
{
    match party {
        Party::Node(node) => {
            put_byte(out, 0)?;
            put_number16(out, node.0)
        }
        Party::Manager(place) => {
            put_byte(out, 1)?;
            put_number16(out, u16::from(place))
        }
        Party::Neither => {
            put_byte(out, 2)?;
            put_number16(out, 0)
        }
    }
}

fn mark_byte(mark: Mark) -> u8
    ensures { result ≡ mark_byte mark }
{
    match mark {
        Mark::Bound => 0,
        Mark::Member => 1,
        Mark::ToLeave => 2,
        Mark::Out => 3,
    }
}

fn flag_byte(flag: bool) -> u8
    ensures { result ≡ flag_byte flag }
{
    if flag { 1 } else { 0 }
}

fn put_line(out: &mut Vec<u8>, line: &BoardLine) -> Result<(), Memory>
    requires { IsText line.now.inside }
    ensures { OnOk result (out.new.items ≡ out.old.items ++ line_bytes line.now) }
{
    put_party(out, line.party)?;
    put_ticket(out, line.ticket)?;
    put_byte(out, mark_byte(line.mark))?;
    put_byte(out, flag_byte(line.ready))?;
    put_text(out, line.inside.as_slice())
}

fn put_each_line(out: &mut Vec<u8>, lines: &[BoardLine]) -> Result<(), Memory>
    requires { All IsLineInRange lines.now }
    ensures { OnOk result (out.new.items ≡ out.old.items ++ flat_map line_bytes lines.now) }
{
    for line in lines {
        put_line(out, line)?;
    }
    Ok(())
}

fn put_lines(out: &mut Vec<u8>, lines: &[BoardLine]) -> Result<(), Memory>
    requires few { length lines.now < 256 }
    requires range { All IsLineInRange lines.now }
    ensures { OnOk result (out.new.items ≡ out.old.items ++ lines_bytes lines.now) }
{
    put_byte(out, lines.len() as u8)?;
    put_each_line(out, lines)
}

fn put_board(out: &mut Vec<u8>, board: &Board) -> Result<(), Memory>
    requires { IsBoardInRange board.now }
    ensures { OnOk result (out.new.items ≡ out.old.items ++ board_bytes board.now) }
{
    put_number64(out, board.founding)?;
    put_byte(out, stage_byte(board.stage))?;
    put_number64(out, board.records)?;
    put_number16(out, board.managers_up)?;
    put_lines(out, board.lines.as_slice())
}

fn put_response_fields(out: &mut Vec<u8>, response: &Response) -> Result<(), Memory>
    requires { IsResponseInRange response.now }
    ensures { OnOk result (out.new.items ≡ out.old.items ++ response_fields response.now) }
{
    match response {
        Response::Board(board) => put_board(out, board),
        Response::Seated(node) => put_number16(out, node.0),
        Response::State(state) => put_state(out, state),
        Response::Status(text) => put(out, text.as_slice()),
        Response::Yes => Ok(()),
        Response::No { code, text } => {
            put_byte(out, *code)?;
            put(out, text.as_slice())
        }
    }
}

fn response_kind(response: &Response) -> u8
    ensures { result ≡ response_kind response.now }
{
    match response {
        Response::Yes => 128,
        Response::Board(_) => 129,
        Response::Seated(_) => 130,
        Response::State(_) => 132,
        Response::Status(_) => 135,
        Response::No { .. } => 143,
    }
}

// The kind of a response, and its fields.
pub fn put_response(out: &mut Vec<u8>, response: &Response) -> Result<(), Memory>
    requires { IsResponseInRange response.now }
    ensures { OnOk result (out.new.items ≡ out.old.items ++ response_bytes response.now) }
{
    put_byte(out, response_kind(response))?;
    put_response_fields(out, response)
}
