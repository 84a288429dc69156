//! The office of a manager.

ghost use Rattle.std.specs.Prelude.{◌≡◌, ◌≤◌, length, IfOk};
ghost use Rattle.hk_base.specs.declared.time.TheConstants.{MAX_TIME};
ghost use Rattle.hk_stage.specs.Opening.{takes_letters};
ghost use Rattle.hk_office.specs.Stages.{number_of};
ghost use Rattle.hk_office.specs.Office.{hosts_of, began};

use crate::founding::founders_of;
use crate::stages::{number_of, stage_logged};
use crate::wishing::Wished;
use hk_base::{Memory, NodeId, Sequence, View};
use hk_inside::HostTickets;
use hk_log::Founding;
use hk_reports::Reports;
use hk_restore::Terms;
use hk_roll::{Binding, Roll};
use hk_stage::Opening;
use std::alloc::Global;

/// What a manager's log has of its group.
#[derive(Drop)]
pub struct GroupLog {
    /// The last founding, if there is one.
    pub founding: Option<Founding>,
    /// Whether the group was opened behind it.
    pub is_open: bool,
    /// What was bound behind it, in that order.
    pub bindings: Sequence<Binding>,
}

/// A node that is to leave.
#[derive(Clone, Copy, Debug, PartialEq, Eq)]
pub struct Leave {
    pub node: NodeId,
    /// The first reading at which it is not to leave any more.
    pub end: u64,
}

/// All that a host's manager knows beside its cores.
#[derive(Drop)]
pub struct Office {
    pub(crate) terms: Terms,
    // Of its own host.
    pub(crate) tickets: HostTickets,
    pub(crate) opening: Opening,
    pub(crate) roll: Roll,
    pub(crate) reports: Reports,
    // Who is to leave.
    pub(crate) leaves: Sequence<Leave>,
    // By shards the last view that it let begin since its process started.
    pub(crate) begun: [Option<View>; 8],
    // By shards the change that is wished on.
    pub(crate) wished: [Option<Wished>; 8],
}

// The hosts of a founding.
fn hosts_of(founding: &Option<Founding>) -> &[HostTickets]
    ensures { result.now ≡ hosts_of founding.now }
{
    match founding {
        Some(founding) => founding.hosts.as_slice(),
        None => &[],
    }
}

impl Office {
    /// The office of a manager whose process begins at this reading, and whose log has this of its group. `tickets`
    /// are those of its host: the manager's, which was drawn anew where the log has no founding, and the node's.
    pub fn begin(
        alloc: Global,
        terms: Terms,
        tickets: HostTickets,
        logged: &GroupLog,
        now: u64,
    ) -> Result<Office, Memory>
        requires few { length (hosts_of logged.now.founding) ≤ 9 }
        requires time { now ≤ MAX_TIME }
        ensures { IfOk result (λ office. office ≡ began terms tickets logged.now now) }
    {
        let stage = stage_logged(&logged.founding, logged.is_open);
        let founders = founders_of(alloc, hosts_of(&logged.founding))?;
        let roll = Roll::replay(alloc, &founders, logged.bindings.as_slice())?;
        Ok(Office {
            terms,
            tickets,
            opening: Opening::begin(terms.managers, terms.place, stage, now),
            roll,
            reports: Reports::new(alloc, now),
            leaves: Sequence::new(alloc),
            begun: [None, None, None, None, None, None, None, None],
            wished: [None; 8],
        })
    }

    /// How it was founded and opens.
    pub fn opening(&self) -> &Opening
        ensures { result.now ≡ self.now.opening }
    {
        &self.opening
    }

    /// To whom it has bound numbers.
    pub fn roll(&self) -> &Roll
        ensures { result.now ≡ self.now.roll }
    {
        &self.roll
    }

    /// The number of its founding, or 0.
    pub fn founding(&self) -> u64
        ensures { result ≡ number_of self.now.opening.stage }
    {
        number_of(self.opening.stage)
    }

    /// Whether its cores take letters and send them.
    pub fn takes_letters(&self) -> bool
        ensures { result ≡ takes_letters self.now.opening }
    {
        self.opening.takes_letters()
    }
}
