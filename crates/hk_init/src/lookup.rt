//! Which node is to leave. That of a host is told by STATUS.

ghost use Rattle.std.specs.Prelude.{◌≡◌, ◌++◌, bytes_eq, codes, decimal, option_copied};
ghost use Rattle.std.specs.List.{list_all};
ghost use Rattle.std.specs.Char.{is_ascii_digit};
ghost use Rattle.hk_init.specs.Deeds.{Did};
ghost use Rattle.hk_init.specs.HostNodes.{word_at, is_text, number_of, number_in, is_of_host, node_in, host_node};
ghost use Rattle.hk_init.specs.Leaving.{node_by, node_told, untold_by, untold, IsLookedUp, IsNamed};

use crate::asking::AskHost;
use crate::fault::{CommandFault, NoAnswer};
use crate::leaves::{denied_by, later, why_not};
use hk_base::NodeId;
use hk_inside::{Inquiry, Leaver, Response};
use itoa::Buffer;

// The word at this place of a line, counted from 0.
pub(crate) fn word_at(line: &[u8], place: usize) -> Option<&[u8]>
    ensures { option_copied result ≡ word_at line.now place }
{
    line.split(|byte| *byte == b' ').nth(place)
}

fn all_digits(word: &[u8]) -> bool
    ensures { result ≡ list_all is_ascii_digit word.now }
{
    word.iter().all(|byte| byte.is_ascii_digit())
}

// The number that decimal digits write, if it is one of 16 bits.
fn number_of(digits: &[u8]) -> Option<u16>
    ensures { result ≡ number_of digits.now }
{
    if !all_digits(digits) {
        return None;
    }
    let Ok(text) = str::from_utf8(digits) else {
        return None;
    };
    text.parse::<u16>().ok()
}

fn number_at(line: &[u8], place: usize) -> Option<u16>
    ensures { result ≡ number_in (word_at line.now place) }
{
    match word_at(line, place) {
        Some(digits) => number_of(digits),
        None => None,
    }
}

// Whether it is the line of a node.
fn is_of_node(line: &[u8]) -> bool
    ensures { result ≡ is_text (word_at line.now 0) (codes "node") }
{
    match word_at(line, 0) {
        Some(word) => word == b"node".as_slice(),
        None => false,
    }
}

// Whether a word tells that a manager is that of this host.
fn is_manager(host: u8, word: &[u8]) -> bool
    ensures { result ≡ bytes_eq word.now (codes "manager=" ++ decimal host) }
{
    let Some(digits) = word.strip_prefix(b"manager=") else {
        return false;
    };
    let mut buffer = Buffer::new();
    buffer.format(host).as_bytes() == digits
}

fn has_manager(host: u8, line: &[u8]) -> bool
    ensures { result ≡ is_text (word_at line.now 4) (codes "manager=" ++ decimal host) }
{
    match word_at(line, 4) {
        Some(word) => is_manager(host, word),
        None => false,
    }
}

// Whether it is the line of a node whose process has the manager of this host.
fn is_of_host(host: u8, line: &[u8]) -> bool
    ensures { result ≡ is_of_host host line.now }
{
    is_of_node(line) && has_manager(host, line)
}

fn node_in(host: u8, line: &[u8]) -> Option<u16>
    ensures { result ≡ node_in host line.now }
{
    if is_of_host(host, line) {
        number_at(line, 1)
    } else {
        None
    }
}

// The node of a host, by the lines of a status.
fn host_node(host: u8, text: &[u8]) -> Option<u16>
    ensures { result ≡ host_node host text.now }
{
    text.split(|byte| *byte == b'\n')
        .filter_map(|line| node_in(host, line))
        .max()
}

fn node_by(host: u8, response: &Response) -> Option<u16>
    ensures { result ≡ node_by host response.now }
{
    match response {
        Response::Status(text) => host_node(host, text.as_slice()),
        Response::Yes => None,
        Response::No { .. } => None,
        Response::State(_) => None,
        Response::Board(_) => None,
        Response::Seated(_) => None,
    }
}

fn node_told(host: u8, outcome: &Result<Response, NoAnswer>) -> Option<u16>
    ensures { result ≡ node_told host outcome.now }
{
    match outcome {
        Ok(response) => node_by(host, response),
        Err(_) => None,
    }
}

fn untold_by(host: u8, response: Response) -> Option<CommandFault>
    ensures { result ≡ untold_by host response }
{
    match response {
        Response::Status(_) => Some(CommandFault::UnknownNode {
            place: usize::from(host),
        }),
        Response::No { code: _, text } => Some(CommandFault::Refused { text }),
        Response::Yes => None,
        Response::State(_) => None,
        Response::Board(_) => None,
        Response::Seated(_) => None,
    }
}

// What the host of a place tells that does not tell the node.
fn untold(host: u8, place: usize, outcome: Result<Response, NoAnswer>) -> Option<CommandFault>
    ensures { result ≡ untold host place outcome }
{
    match outcome {
        Ok(response) => untold_by(host, response),
        Err(fault) => denied_by(place, fault),
    }
}

// The node of a host, as the first of so many hosts tells it that does.
fn look_up<A: AskHost>(asker: &mut A, count: usize, host: u8) -> Result<NodeId, CommandFault>
    ensures { Did (A.deeds asker.old) (A.deeds asker.new) (λ deeds. IsLookedUp host count deeds result) }
{
    let mut told: Option<CommandFault> = None;
    for place in 0..count {
        let outcome = asker.ask(place, &Inquiry::Status);
        if let Some(node) = node_told(host, &outcome) {
            return Ok(NodeId(node));
        }
        told = later(untold(host, place, outcome), told);
    }
    Err(why_not(told))
}

/// The node that is to leave. That of a host is looked up, at one of so many hosts.
pub(crate) fn named<A: AskHost>(
    asker: &mut A,
    count: usize,
    who: Leaver,
) -> Result<NodeId, CommandFault>
    ensures { Did (A.deeds asker.old) (A.deeds asker.new) (λ deeds. IsNamed who count deeds result) }
{
    match who {
        Leaver::Node(node) => Ok(node),
        Leaver::Host(host) => look_up(asker, count, host),
    }
}
