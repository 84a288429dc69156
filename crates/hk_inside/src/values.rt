//! What the types of a message's parts keep, which the laws of messages have as a premise. These functions do nothing.

ghost use Rattle.std.specs.Prelude.{All, ◌<◌, ◌^◌};
ghost use Rattle.hk_inside.specs.Parts.{IsLeaverValue, IsStateValue, IsShardsValue, IsCountsValue, IsSeenValue, IsReportValue, IsPartyValue, IsLineValue, IsBoardValue};
ghost use Rattle.hk_inside.specs.Messages.{IsInquiryValue, IsResponseValue};

use crate::board::{Board, BoardLine, Party};
use crate::inquiry::{Inquiry, Leaver};
use crate::report::{Counts, NodeSeen, Report, ShardsTold};
use crate::response::{ManagerState, Response};
use hk_base::NodeId;
use hk_fields::{host_is_value, hosts_are_values, ticket_is_value};

fn node_is_value(node: NodeId)
    ensures { node.0 < 2 ^ 16 }
{
    let _number = node.0;
}

fn number_is_value(number: u64)
    ensures { number < 2 ^ 64 }
{
    let _number = number;
}

fn leaver_is_value(leaver: Leaver)
    ensures { IsLeaverValue leaver }
{
    match leaver {
        Leaver::Node(node) => node_is_value(node),
        Leaver::Host(place) => {
            let _place = place;
        }
    }
}

fn state_is_value(state: &ManagerState)
    ensures { IsStateValue state.now }
{
    let _founding = state.founding;
    let _lease = state.lease;
    let _skew = state.skew;
    host_is_value(&state.tickets);
}

fn shards_are_values(shards: &ShardsTold)
    ensures { IsShardsValue shards.now }
{
    let _ready = shards.ready;
    let _least_epoch = shards.least_epoch;
    let _least_lease_left = shards.least_lease_left;
}

fn counts_are_values(counts: &Counts)
    ensures { IsCountsValue counts.now }
{
    let _keys = counts.keys;
    let _bytes = counts.bytes;
    let _gets = counts.gets;
    let _sets = counts.sets;
    let _busy = counts.busy;
    let _aborted = counts.aborted;
    let _unknown = counts.unknown;
}

fn node_seen_is_value(seen: &NodeSeen)
    ensures { IsSeenValue seen.now }
{
    let _number = seen.node.0;
    let _unacknowledged = seen.unacknowledged;
}

fn nodes_are_values(nodes: &[NodeSeen])
    ensures { All IsSeenValue nodes.now }
{
    for node in nodes {
        node_seen_is_value(node);
    }
}

fn report_is_value(report: &Report)
    ensures { IsReportValue report.now }
{
    ticket_is_value(report.ticket);
    let _records = report.records;
    shards_are_values(&report.shards);
    counts_are_values(&report.counts);
    nodes_are_values(report.nodes.as_slice());
}

fn party_is_value(party: Party)
    ensures { IsPartyValue party }
{
    match party {
        Party::Node(node) => node_is_value(node),
        Party::Manager(place) => {
            let _place = place;
        }
        Party::Neither => (),
    }
}

fn line_is_value(line: &BoardLine)
    ensures { IsLineValue line.now }
{
    party_is_value(line.party);
    ticket_is_value(line.ticket);
}

fn lines_are_values(lines: &[BoardLine])
    ensures { All IsLineValue lines.now }
{
    for line in lines {
        line_is_value(line);
    }
}

fn board_is_value(board: &Board)
    ensures { IsBoardValue board.now }
{
    let _founding = board.founding;
    let _records = board.records;
    let _managers_up = board.managers_up;
    lines_are_values(board.lines.as_slice());
}

// What the type of an inquiry keeps.
pub fn inquiry_is_value(inquiry: &Inquiry)
    ensures { IsInquiryValue inquiry.now }
{
    match inquiry {
        Inquiry::Report(report) => report_is_value(report),
        Inquiry::Seat(ticket) => ticket_is_value(*ticket),
        Inquiry::Claim { node, ticket } => {
            node_is_value(*node);
            ticket_is_value(*ticket);
        }
        Inquiry::Look { founding } => number_is_value(*founding),
        Inquiry::Found { founding, hosts } => {
            number_is_value(*founding);
            hosts_are_values(hosts.as_slice());
        }
        Inquiry::Leave(leaver) => leaver_is_value(*leaver),
        Inquiry::Status => (),
    }
}

// What the type of a response keeps.
pub fn response_is_value(response: &Response)
    ensures { IsResponseValue response.now }
{
    match response {
        Response::Board(board) => board_is_value(board),
        Response::Seated(node) => node_is_value(*node),
        Response::State(state) => state_is_value(state),
        Response::Status(_) => (),
        Response::Yes => (),
        Response::No { code, .. } => {
            let _code = *code;
        }
    }
}
