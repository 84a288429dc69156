//! The last board of one manager.

ghost use Rattle.std.specs.Prelude.{◌≡◌};
ghost use Rattle.std.specs.List.{find, list_any};
ghost use Rattle.std.specs.Option.{option_copied};
ghost use Rattle.hk_boards.specs.Heard.{is_open, is_of, is_node, is_neither, is_left_out, is_leave_mark, is_member_mark, is_manager, is_manager_line, binds, leaves_out, wants_to_leave, line_of, manager_line, ticket_told, tells_address, reaches, tells_out, tells_to_leave, tells_ready, manager_told};
ghost use Rattle.hk_boards.specs.Holders.{came_telling, is_told_at};
ghost use Rattle.hk_boards.specs.Managers.{answered_lately, is_answered, founding_told, tells_open, tells_another, records_told, tells_records};

use hk_base::NodeId;
use hk_fields::Ticket;
use hk_inside::{Board, BoardLine, Mark, Party, Stage};

/// A manager's board, and when it was asked for and came, in milliseconds on the clock of the process that asked.
#[derive(Drop)]
pub struct HeardBoard {
    pub asked: u64,
    pub came: u64,
    pub board: Board,
}

fn is_open(stage: Stage) -> bool
    ensures { result ≡ is_open stage }
{
    match stage {
        Stage::Empty => false,
        Stage::Founded => false,
        Stage::Open => true,
    }
}

fn is_node(node: NodeId, party: Party) -> bool
    ensures { result ≡ is_node node party }
{
    match party {
        Party::Node(other) => node.0 == other.0,
        Party::Manager(_) => false,
        Party::Neither => false,
    }
}

fn is_neither(party: Party) -> bool
    ensures { result ≡ is_neither party }
{
    match party {
        Party::Node(_) => false,
        Party::Manager(_) => false,
        Party::Neither => true,
    }
}

fn is_left_out(mark: Mark) -> bool
    ensures { result ≡ is_left_out mark }
{
    match mark {
        Mark::Bound => false,
        Mark::Member => false,
        Mark::ToLeave => false,
        Mark::Out => true,
    }
}

fn is_leave_mark(mark: Mark) -> bool
    ensures { result ≡ is_leave_mark mark }
{
    match mark {
        Mark::Bound => false,
        Mark::Member => false,
        Mark::ToLeave => true,
        Mark::Out => false,
    }
}

fn is_member_mark(mark: Mark) -> bool
    ensures { result ≡ is_member_mark mark }
{
    match mark {
        Mark::Bound => false,
        Mark::Member => true,
        Mark::ToLeave => true,
        Mark::Out => false,
    }
}

fn is_manager(place: u8, party: Party) -> bool
    ensures { result ≡ is_manager place party }
{
    match party {
        Party::Node(_) => false,
        Party::Manager(other) => place == other,
        Party::Neither => false,
    }
}

fn binds(node: NodeId, line: &BoardLine) -> bool
    ensures { result ≡ binds node line.now }
{
    if is_left_out(line.mark) {
        false
    } else {
        is_node(node, line.party)
    }
}

fn leaves_out(node: NodeId, ticket: Ticket, line: &BoardLine) -> bool
    ensures { result ≡ leaves_out node ticket line.now }
{
    if is_left_out(line.mark) {
        (is_node(node, line.party) || is_neither(line.party)) && ticket == line.ticket
    } else {
        false
    }
}

fn wants_to_leave(node: NodeId, ticket: Ticket, line: &BoardLine) -> bool
    ensures { result ≡ wants_to_leave node ticket line.now }
{
    if is_leave_mark(line.mark) {
        is_node(node, line.party) && ticket == line.ticket
    } else {
        false
    }
}

impl HeardBoard {
    pub(crate) fn is_of(&self, founding: u64) -> bool
        ensures { result ≡ is_of founding self.now }
    {
        is_open(self.board.stage) && self.board.founding == founding
    }

    fn binding_line(&self, node: NodeId) -> Option<&BoardLine>
        ensures { option_copied result ≡ find (binds node) self.now.board.lines }
    {
        self.board
            .lines
            .as_slice()
            .iter()
            .find(|line| binds(node, line))
    }

    pub(crate) fn line_of(&self, founding: u64, node: NodeId) -> Option<&BoardLine>
        ensures { option_copied result ≡ line_of founding node self.now }
    {
        if self.is_of(founding) {
            self.binding_line(node)
        } else {
            None
        }
    }

    fn line_of_manager(&self, place: u8) -> Option<&BoardLine>
        ensures { option_copied result ≡ find (is_manager_line place) self.now.board.lines }
    {
        self.board
            .lines
            .as_slice()
            .iter()
            .find(|line| is_manager(place, line.party))
    }

    fn manager_line(&self, founding: u64, place: u8) -> Option<&BoardLine>
        ensures { option_copied result ≡ manager_line founding place self.now }
    {
        if self.is_of(founding) {
            self.line_of_manager(place)
        } else {
            None
        }
    }

    fn has_left_out(&self, node: NodeId, ticket: Ticket) -> bool
        ensures { result ≡ list_any (leaves_out node ticket) self.now.board.lines }
    {
        self.board
            .lines
            .as_slice()
            .iter()
            .any(|line| leaves_out(node, ticket, line))
    }

    fn has_to_leave(&self, node: NodeId, ticket: Ticket) -> bool
        ensures { result ≡ list_any (wants_to_leave node ticket) self.now.board.lines }
    {
        self.board
            .lines
            .as_slice()
            .iter()
            .any(|line| wants_to_leave(node, ticket, line))
    }
}

// What is told of a number, where a board may not have come.

pub(crate) fn ticket_told(heard: &Option<HeardBoard>, founding: u64, node: NodeId) -> Option<Ticket>
    ensures { result ≡ ticket_told founding node heard.now }
{
    match heard {
        Some(heard) => match heard.line_of(founding, node) {
            Some(line) => Some(line.ticket),
            None => None,
        },
        None => None,
    }
}

// Whether the line binds the number to this ticket, and tells where its process is reached.
fn tells_address(line: Option<&BoardLine>, ticket: Ticket) -> bool
    ensures { result ≡ tells_address ticket (option_copied line.entry) }
{
    match line {
        Some(line) => ticket == line.ticket && !line.inside.as_slice().is_empty(),
        None => false,
    }
}

// Whether the manager does, of a number.
fn reaches(heard: &Option<HeardBoard>, founding: u64, node: NodeId, ticket: Ticket) -> bool
    ensures { result ≡ reaches founding node ticket heard.now }
{
    match heard {
        Some(heard) => tells_address(heard.line_of(founding, node), ticket),
        None => false,
    }
}

pub(crate) fn tells_out(
    heard: &Option<HeardBoard>,
    founding: u64,
    node: NodeId,
    ticket: Ticket,
) -> bool
    ensures { result ≡ tells_out founding node ticket heard.now }
{
    match heard {
        Some(heard) => {
            if heard.is_of(founding) {
                heard.has_left_out(node, ticket)
            } else {
                false
            }
        }
        None => false,
    }
}

pub(crate) fn tells_to_leave(
    heard: &Option<HeardBoard>,
    founding: u64,
    node: NodeId,
    ticket: Ticket,
) -> bool
    ensures { result ≡ tells_to_leave founding node ticket heard.now }
{
    match heard {
        Some(heard) => {
            if heard.is_of(founding) {
                heard.has_to_leave(node, ticket)
            } else {
                false
            }
        }
        None => false,
    }
}

// When the board came, if it tells where the process of this ticket is reached, to which it binds the number.
pub(crate) fn came_telling(
    heard: &Option<HeardBoard>,
    founding: u64,
    node: NodeId,
    ticket: Ticket,
) -> Option<u64>
    ensures { result ≡ came_telling founding node ticket heard.now }
{
    let is_telling = reaches(heard, founding, node, ticket);
    match heard {
        Some(heard) => { if is_telling { Some(heard.came) } else { None } }
        None => None,
    }
}

pub(crate) fn is_told_at(
    heard: &Option<HeardBoard>,
    founding: u64,
    node: NodeId,
    ticket: Ticket,
    moment: u64,
) -> bool
    ensures { result ≡ is_told_at founding node ticket moment heard.now }
{
    match came_telling(heard, founding, node, ticket) {
        Some(came) => came == moment,
        None => false,
    }
}

// What a manager told of itself and of the asker's manager.

pub(crate) fn answered_lately(heard: &Option<HeardBoard>, now: u64, within: u64) -> bool
    ensures { result ≡ answered_lately now within heard.now }
{
    match heard {
        Some(heard) => is_open(heard.board.stage) && now.saturating_sub(heard.came) <= within,
        None => false,
    }
}

pub(crate) fn is_answered(heard: &Option<HeardBoard>, since: u64) -> bool
    ensures { result ≡ is_answered since heard.now }
{
    match heard {
        Some(heard) => since < heard.asked,
        None => false,
    }
}

pub(crate) fn tells_another(heard: &Option<HeardBoard>, founding: u64) -> bool
    ensures { result ≡ tells_another founding heard.now }
{
    match heard {
        Some(heard) => is_open(heard.board.stage) && heard.board.founding != founding,
        None => false,
    }
}

pub(crate) fn records_told(heard: &Option<HeardBoard>) -> Option<u64>
    ensures { result ≡ records_told heard.now }
{
    match heard {
        Some(heard) => Some(heard.board.records),
        None => None,
    }
}

pub(crate) fn tells_records(heard: &Option<HeardBoard>, records: u64) -> bool
    ensures { result ≡ tells_records records heard.now }
{
    match heard {
        Some(heard) => heard.board.records == records,
        None => false,
    }
}

// The founding with which the manager is open, if it is.
pub(crate) fn founding_told(heard: &Option<HeardBoard>) -> Option<u64>
    ensures { result ≡ founding_told heard.now }
{
    match heard {
        Some(heard) => {
            if is_open(heard.board.stage) {
                Some(heard.board.founding)
            } else {
                None
            }
        }
        None => None,
    }
}

// Whether the manager is open with this founding.
pub(crate) fn tells_open(heard: &Option<HeardBoard>, founding: u64) -> bool
    ensures { result ≡ tells_open founding heard.now }
{
    match heard {
        Some(heard) => heard.is_of(founding),
        None => false,
    }
}

// To which ticket a manager of this founding, if it is open, binds the manager of a place.
pub(crate) fn manager_told(heard: &Option<HeardBoard>, founding: u64, place: u8) -> Option<Ticket>
    ensures { result ≡ manager_told founding place heard.now }
{
    match heard {
        Some(heard) => match heard.manager_line(founding, place) {
            Some(line) => Some(line.ticket),
            None => None,
        },
        None => None,
    }
}

// Whether the manager tells that the node of a number is a member, and ready.
pub(crate) fn tells_ready(heard: &Option<HeardBoard>, founding: u64, node: NodeId) -> bool
    ensures { result ≡ tells_ready founding node heard.now }
{
    match heard {
        Some(heard) => match heard.line_of(founding, node) {
            Some(line) => line.ready && is_member_mark(line.mark),
            None => false,
        },
        None => false,
    }
}
