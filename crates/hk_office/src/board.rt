//! The board of a manager.

ghost use Rattle.std.specs.Prelude.{◌≡◌, ◌++◌, take, IfOk, OnOk};
ghost use Rattle.std.specs.List.{flat_map};
ghost use Rattle.std.specs.Option.{option_copied};
ghost use Rattle.hk_roll.specs.Rolls.{bound};
ghost use Rattle.hk_roll.specs.Boards.{names};
ghost use Rattle.hk_reports.specs.Reports.{is_ready_state};
ghost use Rattle.hk_reports.specs.Hearing.{is_manager, last_of_manager};
ghost use Rattle.hk_base.specs.declared.letter.Actor.TheVariants.{Node, Manager};
ghost use Rattle.hk_office.specs.Board.{inside_of, tells_ready, node_line, manager_line, neither_line, bound_line, bound_manager, line_at, manager_at, asker_lines, lines, records_told, board, asker_of, places};

use crate::numbers::numbers;
use crate::office::Office;
use crate::stages::{number_of, stage_told};
use hk_base::{Actor, Memory, NodeId, Sequence, View};
use hk_fields::Ticket;
use hk_inside::{Board, BoardLine, BoardLines, Mark, NodeState, Party, Report, Text};
use hk_reports::Came;
use std::alloc::Global;

/// Who reports.
#[derive(Clone, Copy)]
pub struct Asker {
    pub ticket: Ticket,
    /// The number of its node, if it has one.
    pub node: Option<NodeId>,
    /// The place of its manager, if that is open.
    pub manager: Option<u8>,
}

pub(crate) static PLACES: [u8; 9] = [0, 1, 2, 3, 4, 5, 6, 7, 8];

const MOST_LINES: usize = 255;

const MOST_TEXT: usize = 255;

/// Who sent the report.
pub fn asker_of(report: &Report) -> Asker
    ensures { result ≡ asker_of report.now }
{
    Asker {
        ticket: report.ticket,
        node: report.node,
        manager: report.manager,
    }
}

// The front of a text that fits a line.
fn front_of(text: &[u8]) -> &[u8]
    ensures { result.now ≡ take 255 text.now }
{
    if MOST_TEXT < text.len() {
        let (front, _) = text.split_at(MOST_TEXT);
        front
    } else {
        text
    }
}

// The address at which a process is reached, by its last report.
pub(crate) fn inside_of(alloc: Global, came: Option<&Came>) -> Result<Text, Memory>
    ensures { IfOk result (λ text. text ≡ inside_of (option_copied came.entry)) }
{
    match came {
        Some(came) => {
            let text = front_of(came.report.inside.as_slice()).to_vec(alloc)?;
            Ok(Sequence::from_vec(text))
        }
        None => Ok(Sequence::new(alloc)),
    }
}

fn is_ready(state: NodeState) -> bool
    ensures { result ≡ is_ready_state state }
{
    matches!(state, NodeState::Ready)
}

// Whether it told within a lease that it is ready.
fn tells_ready(now: u64, lease: u32, came: Option<&Came>) -> bool
    ensures { result ≡ tells_ready now lease (option_copied came.entry) }
{
    match came {
        Some(came) => is_ready(came.report.state)
            && now.saturating_sub(came.at) <= u64::from(lease),
        None => false,
    }
}

// Whether the process says that it has the manager of this place.
fn is_manager(place: u8, came: &Came) -> bool
    ensures { result ≡ is_manager place came.now }
{
    match came.report.manager {
        Some(told) => told == place,
        None => false,
    }
}

impl Office {
    // The last report of a process that says that it has the manager of this place.
    pub(crate) fn of_manager(&self, place: u8) -> Option<&Came>
        ensures { option_copied result ≡ last_of_manager place self.now.reports.came }
    {
        self.reports
            .all()
            .iter()
            .find(|came| is_manager(place, *came))
    }

    fn node_line(
        &self,
        alloc: Global,
        now: u64,
        views: &[View],
        node: NodeId,
        ticket: Ticket,
    ) -> Result<BoardLine, Memory>
        ensures { IfOk result (λ line. line ≡ node_line self.now now views.now node ticket) }
    {
        let came = self.reports.last(ticket);
        let inside = inside_of(alloc, came)?;
        Ok(BoardLine {
            party: Party::Node(node),
            ticket,
            mark: self.mark_of(now, views, node),
            ready: tells_ready(now, self.terms.lease, came),
            inside,
        })
    }

    fn manager_line(&self, alloc: Global, place: u8, ticket: Ticket) -> Result<BoardLine, Memory>
        ensures { IfOk result (λ line. line ≡ manager_line self.now place ticket) }
    {
        let inside = inside_of(alloc, self.of_manager(place))?;
        Ok(BoardLine {
            party: Party::Manager(place),
            ticket,
            mark: Mark::Bound,
            ready: false,
            inside,
        })
    }

    fn neither_line(&self, alloc: Global, now: u64, asker: Asker) -> Result<BoardLine, Memory>
        ensures { IfOk result (λ line. line ≡ neither_line self.now now asker.node asker.ticket) }
    {
        let came = self.reports.last(asker.ticket);
        let inside = inside_of(alloc, came)?;
        Ok(BoardLine {
            party: Party::Neither,
            ticket: asker.ticket,
            mark: self.mark_unbound(asker.node),
            ready: tells_ready(now, self.terms.lease, came),
            inside,
        })
    }

    // The line of a number, if it is bound.
    #[tactic(auto, unfolding(crate::specs::Board::line_at))]
    fn put_node(
        &self,
        alloc: Global,
        now: u64,
        views: &[View],
        node: NodeId,
        lines: &mut Vec<BoardLine>,
    ) -> Result<(), Memory>
        ensures { OnOk result (lines.new.items ≡ lines.old.items ++ line_at self.now now views.now node) }
    {
        if let Some(ticket) = self.roll.bound(Actor::Node(node)) {
            let line = self.node_line(alloc, now, views, node, ticket)?;
            lines.push(line)?;
        }
        Ok(())
    }

    fn put_nodes(
        &self,
        alloc: Global,
        now: u64,
        views: &[View],
        nodes: &[NodeId],
        lines: &mut Vec<BoardLine>,
    ) -> Result<(), Memory>
        ensures { OnOk result (lines.new.items ≡ lines.old.items ++ flat_map (line_at self.now now views.now) nodes.now) }
    {
        for node in nodes {
            self.put_node(alloc, now, views, *node, lines)?;
        }
        Ok(())
    }

    // The line of a manager, if it is bound.
    #[tactic(auto, unfolding(crate::specs::Board::manager_at))]
    fn put_manager(
        &self,
        alloc: Global,
        place: u8,
        lines: &mut Vec<BoardLine>,
    ) -> Result<(), Memory>
        ensures { OnOk result (lines.new.items ≡ lines.old.items ++ manager_at self.now place) }
    {
        if let Some(ticket) = self.roll.bound(Actor::Manager(place)) {
            let line = self.manager_line(alloc, place, ticket)?;
            lines.push(line)?;
        }
        Ok(())
    }

    fn put_managers(
        &self,
        alloc: Global,
        places: &[u8],
        lines: &mut Vec<BoardLine>,
    ) -> Result<(), Memory>
        ensures { OnOk result (lines.new.items ≡ lines.old.items ++ flat_map (manager_at self.now) places.now) }
    {
        for place in places {
            self.put_manager(alloc, *place, lines)?;
        }
        Ok(())
    }

    // Whether the number that the asker tells is bound to it.
    fn holds(&self, asker: Asker, node: NodeId) -> bool
        ensures { result ≡ names asker.ticket (bound (Node node) self.now.roll) }
    {
        match self.roll.bound(Actor::Node(node)) {
            Some(ticket) => ticket == asker.ticket,
            None => false,
        }
    }

    // The line of who asks, where it has none yet.
    fn put_asker(
        &self,
        alloc: Global,
        now: u64,
        views: &[View],
        nodes: &[NodeId],
        asker: Asker,
        lines: &mut Vec<BoardLine>,
    ) -> Result<(), Memory>
        ensures { OnOk result (lines.new.items ≡ lines.old.items ++ asker_lines self.now now views.now nodes.now asker) }
    {
        if let Some(node) = asker.node {
            if self.holds(asker, node) {
                if nodes.contains(&node) {
                    return Ok(());
                }
                return self.put_node(alloc, now, views, node, lines);
            }
        }
        let line = self.neither_line(alloc, now, asker)?;
        lines.push(line)?;
        Ok(())
    }

    fn lines(
        &self,
        alloc: Global,
        now: u64,
        views: &[View],
        asker: Asker,
    ) -> Result<BoardLines, Memory>
        ensures { IfOk result (λ found. found ≡ lines self.now now views.now asker) }
    {
        let nodes = numbers(alloc, views)?;
        let mut lines = Vec::new(alloc);
        self.put_nodes(alloc, now, views, &nodes, &mut lines)?;
        self.put_managers(alloc, &PLACES, &mut lines)?;
        self.put_asker(alloc, now, views, &nodes, asker, &mut lines)?;
        lines.truncate(MOST_LINES);
        Ok(Sequence::from_vec(lines))
    }

    // The most records that a manager told.
    fn records_told(&self, manager: Option<u8>) -> u64
        ensures { result ≡ records_told self.now.reports manager }
    {
        match manager {
            Some(place) => self.reports.most_records(place),
            None => 0,
        }
    }

    /// The board for who reports, behind that report.
    pub(crate) fn board(
        &self,
        alloc: Global,
        now: u64,
        views: &[View],
        asker: Asker,
    ) -> Result<Board, Memory>
        ensures { IfOk result (λ told. told ≡ board self.now now views.now asker) }
    {
        let shown = self.opening.shown(now);
        let lines = self.lines(alloc, now, views, asker)?;
        Ok(Board {
            founding: number_of(shown),
            stage: stage_told(shown),
            records: self.records_told(asker.manager),
            managers_up: self
                .reports
                .managers_up(now, self.terms.place, self.terms.lease),
            lines,
        })
    }
}
