//! A manager as its process begins, by its log.

ghost use Rattle.std.specs.Prelude.{◌≡◌, ◌≤◌, ◌<◌, slice_get, length, false, Some, IfOk};
ghost use Rattle.std.specs.Option.{option_copied};
ghost use Rattle.hk_base.specs.declared.time.TheConstants.{MAX_TIME};
ghost use Rattle.hk_base.specs.View.{IsView};
ghost use Rattle.hk_log.specs.Records.{AreRecords, record_starts};
ghost use Rattle.hk_office.specs.Office.{hosts_of};
ghost use Rattle.hk_restore.specs.Restoring.{restored};
ghost use Rattle.hk_managing.specs.Begins.{group_log, own_tickets, new_cores, cores_by, begun_by, told_as, IsBegun, Begins, IsOfFile, IsExplained};

use hk_base::{Memory, Sequence, View};
use hk_disk::{LogFile, LogWriter, RecoverFault, Recovered, recover};
use hk_durable::Managers;
use hk_inside::HostTickets;
use hk_log::{Founding, Record};
use hk_office::{GroupLog, Office};
use hk_restore::{RestoreFault, Restored, RestoredGroup, Terms, restore};
use std::alloc::Global;
use thiserror::Error;

/// Why a manager does not begin by its log.
#[derive(Clone, Copy, Debug, PartialEq, Eq, Error)]
pub enum BeginFault {
    /// An allocation was refused.
    #[error("no memory")]
    Memory,
    /// A call of the file failed.
    #[error("can't be written")]
    Failed,
    /// The bytes from this place on are damaged. The file is as it was.
    #[error("is damaged at byte {at}")]
    Damaged { at: usize },
    /// The record that begins here tells of a step that the manager would not have made.
    #[error("does not replay at byte {at}")]
    DoesNotReplay { at: usize },
    /// It is the log of another host, or of a group of another size.
    #[error("is of host {host} of {of}")]
    OfHost { host: u8, of: usize },
    /// Its group has another lease or skew, in milliseconds.
    #[error("has lease {lease} skew {skew}")]
    OtherTerms { lease: u32, skew: u32 },
}

/// With what a host's manager begins, beside its log.
#[derive(Drop)]
pub struct Begun {
    /// What it knows.
    pub office: Office,
    /// Its cores. Before its group is open they hold the first view, and made no step.
    pub managers: Managers,
    /// How many records its log has.
    pub records: u64,
}

/// With what a host's manager begins, and the writer of its log.
#[derive(Drop)]
pub struct ManagerStart<F: LogFile + Drop> {
    pub begun: Begun,
    pub writer: LogWriter<F>,
}

// The cores of a group that is not open.
fn new_cores(alloc: Global, terms: Terms, first: &View) -> Result<Managers, Memory>
    requires few { terms.managers ≤ 9 }
    requires place { terms.place < terms.managers }
    requires view { IsView first.now }
    ensures { IfOk result (λ cores. cores ≡ new_cores terms first.now) }
{
    Managers::founding(
        alloc,
        terms.place,
        terms.managers,
        first,
        u64::from(terms.lease),
    )
}

/// What the log has of the group, and the cores.
#[derive(Drop)]
struct Parts {
    logged: GroupLog,
    managers: Managers,
}

fn group_parts(
    alloc: Global,
    terms: Terms,
    first: &View,
    group: RestoredGroup,
) -> Result<Parts, Memory>
    requires few { terms.managers ≤ 9 }
    requires place { terms.place < terms.managers }
    requires view { IsView first.now }
    ensures logged { IfOk result (λ parts. parts.logged ≡ group_log (Some group)) }
    ensures managers { IfOk result (λ parts. parts.managers ≡ cores_by terms first.now (Some group)) }
{
    let RestoredGroup {
        founding,
        is_open,
        bindings,
        managers,
    } = group;
    let managers = if is_open {
        managers
    } else {
        new_cores(alloc, terms, first)?
    };
    let logged = GroupLog {
        founding: Some(founding),
        is_open,
        bindings,
    };
    Ok(Parts { logged, managers })
}

fn parts_of(
    alloc: Global,
    terms: Terms,
    first: &View,
    group: Option<RestoredGroup>,
) -> Result<Parts, Memory>
    requires few { terms.managers ≤ 9 }
    requires place { terms.place < terms.managers }
    requires view { IsView first.now }
    ensures logged { IfOk result (λ parts. parts.logged ≡ group_log group) }
    ensures managers { IfOk result (λ parts. parts.managers ≡ cores_by terms first.now group) }
{
    match group {
        Some(group) => group_parts(alloc, terms, first, group),
        None => {
            let managers = new_cores(alloc, terms, first)?;
            let logged = GroupLog {
                founding: None,
                is_open: false,
                bindings: Sequence::new(alloc),
            };
            Ok(Parts { logged, managers })
        }
    }
}

// The ticket of a host's manager, if the founding names the host.
fn manager_ticket(founding: &Option<Founding>, place: u8) -> Option<HostTickets>
    ensures { result ≡ slice_get (hosts_of founding.now) place }
{
    match founding {
        Some(founding) => founding.hosts.as_slice().get(usize::from(place)).copied(),
        None => None,
    }
}

// The tickets of this host: its manager's is that of the founding in the log, if there is one.
fn own_tickets(terms: Terms, drawn: HostTickets, logged: &GroupLog) -> HostTickets
    ensures { result ≡ own_tickets terms.place drawn logged.now.founding }
{
    match manager_ticket(&logged.founding, terms.place) {
        Some(host) => HostTickets {
            manager: host.manager,
            node: drawn.node,
        },
        None => drawn,
    }
}

// With what a manager begins, by what its log gives.
fn begun_by(
    alloc: Global,
    terms: Terms,
    drawn: HostTickets,
    first: &View,
    found: Restored,
    now: u64,
) -> Result<Begun, Memory>
    requires few { terms.managers ≤ 9 }
    requires place { terms.place < terms.managers }
    requires view { IsView first.now }
    requires hosts { length (hosts_of (group_log found.group).founding) ≤ 9 }
    requires time { now ≤ MAX_TIME }
    ensures { IfOk result (λ begun. begun ≡ begun_by terms drawn first.now now found) }
{
    let Restored { group, records } = found;
    let Parts { logged, managers } = parts_of(alloc, terms, first, group)?;
    let tickets = own_tickets(terms, drawn, &logged);
    let office = Office::begin(alloc, terms, tickets, &logged, now)?;
    Ok(Begun {
        office,
        managers,
        records,
    })
}

// A fault of the log's records.
fn told_as(fault: RestoreFault) -> BeginFault
    ensures { result ≡ told_as fault }
{
    match fault {
        RestoreFault::Memory => BeginFault::Memory,
        RestoreFault::DoesNotReplay { at } => BeginFault::DoesNotReplay { at },
        RestoreFault::OfHost { host, of } => BeginFault::OfHost { host, of },
        RestoreFault::OtherTerms { lease, skew } => BeginFault::OtherTerms { lease, skew },
    }
}

/// With what a manager begins by these records, which begin at these bytes of its log. `drawn` are the tickets that its process drew: the manager's counts where
/// the log tells of no founding.
pub fn begin_by(
    alloc: Global,
    terms: Terms,
    drawn: HostTickets,
    first: &View,
    now: u64,
    records: &[Record],
    starts: &[usize],
) -> Result<Begun, BeginFault>
    requires few { terms.managers ≤ 9 }
    requires place { terms.place < terms.managers }
    requires view { IsView first.now }
    requires time { now ≤ MAX_TIME }
    requires records { AreRecords records.now }
    requires starts { starts.now ≡ record_starts records.now }
    ensures { IsBegun result terms drawn first.now now (restored terms first.now records.now) }
{
    match restore(alloc, &terms, first, records, starts) {
        Ok(found) => match begun_by(alloc, terms, drawn, first, found, now) {
            Ok(begun) => Ok(begun),
            Err(_memory) => Err(BeginFault::Memory),
        },
        Err(fault) => Err(told_as(fault)),
    }
}

// A fault of the file, by which its log is not taken up.
fn untaken(fault: RecoverFault) -> BeginFault
    ensures { IsOfFile result }
{
    match fault {
        RecoverFault::Memory => BeginFault::Memory,
        RecoverFault::Failed => BeginFault::Failed,
        RecoverFault::Damaged { at } => BeginFault::Damaged { at },
    }
}

/// Takes up the log of a file, and makes of it the manager of this host as its process begins, at this reading. `first` is the first view of the group, of which
/// all hosts are members, and `drawn` are the tickets that the process drew: the manager's counts where the log tells of no founding.
pub fn begin_manager<F: LogFile + Drop>(
    alloc: Global,
    file: F,
    terms: Terms,
    drawn: HostTickets,
    first: &View,
    now: u64,
) -> Result<ManagerStart<F>, BeginFault>
    requires few { terms.managers ≤ 9 }
    requires place { terms.place < terms.managers }
    requires view { IsView first.now }
    requires time { now ≤ MAX_TIME }
    ensures begins { IfOk result (λ start. Begins F.holds F.is_sure terms drawn first.now now start.writer.file start.writer.check.0 start.begun) }
    ensures writes { IfOk result (λ start. start.writer.ended ≡ false) }
    ensures fault { IsExplained terms first.now result }
{
    let Recovered {
        writer,
        records,
        starts,
    } = match recover(alloc, file) {
        Ok(recovered) => recovered,
        Err(fault) => return Err(untaken(fault)),
    };
    match begin_by(alloc, terms, drawn, first, now, records.as_slice(), &starts) {
        Ok(begun) => Ok(ManagerStart { begun, writer }),
        Err(fault) => Err(fault),
    }
}
