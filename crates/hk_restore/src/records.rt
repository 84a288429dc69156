//! A log made again, entry after entry.

ghost use Rattle.std.specs.Prelude.{◌≡◌, ◌≤◌, ◌<◌, ◌++◌, ◌∷◌, [], length, All, IfOk, OnOk};
ghost use Rattle.hk_base.specs.View.{IsView};
ghost use Rattle.hk_log.specs.Entries.{IsEntryInRange};
ghost use Rattle.hk_log.specs.Records.{AreRecords, record_starts};
ghost use Rattle.hk_durable.specs.Replays.{taken_up, IsAnswered};
ghost use Rattle.hk_restore.specs.Restoring.{is_of_host, has_terms, founding_fault, begun, behind_entry, behind_entries, behind_records, founded, opened, stepped, bound, with_untils, restored, IsMade, IsRestored};

use crate::fault::RestoreFault;
use crate::group::{Bindings, Restored, RestoredGroup, Terms};
use hk_base::{Actor, Memory, View};
use hk_durable::Managers;
use hk_fields::{FoundingHosts, Ticket};
use hk_log::{Entry, Founding, Record};
use hk_manager::ManagerFault;
use hk_roll::Binding;
use std::alloc::Global;

fn copy_founding(alloc: Global, founding: &Founding) -> Result<Founding, Memory>
    ensures { IfOk result (λ same. same ≡ founding.now) }
{
    let hosts = founding.hosts.as_slice().to_vec(alloc)?;
    Ok(Founding {
        number: founding.number,
        place: founding.place,
        lease: founding.lease,
        skew: founding.skew,
        hosts: FoundingHosts::from_vec(hosts),
    })
}

// Whether it was founded at this host.
fn is_of_host(terms: &Terms, founding: &Founding) -> bool
    ensures { result ≡ is_of_host terms.now founding.now }
{
    founding.place == terms.place && founding.hosts.len() == usize::from(terms.managers)
}

// Whether it was founded with these terms.
fn has_terms(terms: &Terms, founding: &Founding) -> bool
    ensures { result ≡ has_terms terms.now founding.now }
{
    founding.lease == terms.lease && founding.skew == terms.skew
}

// Why the founding is none of this host, if it is none.
fn founding_fault(terms: &Terms, founding: &Founding) -> Option<RestoreFault>
    ensures { result ≡ founding_fault terms.now founding.now }
{
    if !is_of_host(terms, founding) {
        return Some(RestoreFault::OfHost {
            host: founding.place,
            of: founding.hosts.len(),
        });
    }
    if !has_terms(terms, founding) {
        return Some(RestoreFault::OtherTerms {
            lease: founding.lease,
            skew: founding.skew,
        });
    }
    None
}

// The group that a founding begins.
fn begin(
    alloc: Global,
    terms: &Terms,
    first: &View,
    founding: &Founding,
) -> Result<RestoredGroup, Memory>
    requires few { terms.now.managers ≤ 9 }
    requires place { terms.now.place < terms.now.managers }
    requires view { IsView first.now }
    ensures { IfOk result (λ group. group ≡ begun terms.now first.now founding.now) }
{
    let founding = copy_founding(alloc, founding)?;
    let managers = Managers::founding(
        alloc,
        terms.place,
        terms.managers,
        first,
        u64::from(terms.lease),
    )?;
    Ok(RestoredGroup {
        founding,
        is_open: false,
        bindings: Bindings::new(alloc),
        managers,
    })
}

// Takes up a founding.
fn found(
    alloc: Global,
    terms: &Terms,
    first: &View,
    founding: &Founding,
    group: &mut Option<RestoredGroup>,
) -> Result<(), RestoreFault>
    requires few { terms.now.managers ≤ 9 }
    requires place { terms.now.place < terms.now.managers }
    requires view { IsView first.now }
    ensures { IsMade result (founded terms.now first.now founding.now) group.new }
{
    if let Some(fault) = founding_fault(terms, founding) {
        return Err(fault);
    }
    let begun = begin(alloc, terms, first, founding)?;
    *group = Some(begun);
    Ok(())
}

// Takes up an opening.
fn open(at: usize, group: &mut Option<RestoredGroup>) -> Result<(), RestoreFault>
    ensures { IsMade result (opened at group.old) group.new }
{
    let Some(group) = group else {
        return Err(RestoreFault::DoesNotReplay { at });
    };
    if group.is_open {
        return Err(RestoreFault::DoesNotReplay { at });
    }
    group.is_open = true;
    Ok(())
}

// Binds an actor in a group.
fn bind_in(group: &mut RestoredGroup, actor: Actor, ticket: Ticket) -> Result<(), Memory>
    ensures { OnOk result (group.new ≡ record group.old { bindings = group.old.bindings ++ record { actor = actor; ticket = ticket } ∷ [] }) }
{
    group.bindings.push(Binding { actor, ticket })
}

// Takes up a binding.
fn bind(
    at: usize,
    actor: Actor,
    ticket: Ticket,
    group: &mut Option<RestoredGroup>,
) -> Result<(), RestoreFault>
    ensures { IsMade result (bound at actor ticket group.old) group.new }
{
    let Some(group) = group else {
        return Err(RestoreFault::DoesNotReplay { at });
    };
    bind_in(group, actor, ticket)?;
    Ok(())
}

// A group's manager makes the step of an entry.
fn step_in(alloc: Global, entry: &Entry, group: &mut RestoredGroup) -> Result<(), ManagerFault>
    requires { IsEntryInRange entry.now }
    ensures made { IsAnswered result (taken_up entry.now group.old.managers) group.new.managers }
    ensures rest { group.new ≡ record group.old { managers = group.new.managers } }
{
    group.managers.take_up_one(alloc, entry)
}

// Takes up the step of an entry.
fn step(
    alloc: Global,
    at: usize,
    entry: &Entry,
    group: &mut Option<RestoredGroup>,
) -> Result<(), RestoreFault>
    requires { IsEntryInRange entry.now }
    ensures { IsMade result (stepped at entry.now group.old) group.new }
{
    let Some(group) = group else {
        return Err(RestoreFault::DoesNotReplay { at });
    };
    if !group.is_open {
        return Err(RestoreFault::DoesNotReplay { at });
    }
    match step_in(alloc, entry, group) {
        Ok(()) => Ok(()),
        Err(ManagerFault::Memory) => Err(RestoreFault::Memory),
        Err(_) => Err(RestoreFault::DoesNotReplay { at }),
    }
}

// Takes up an entry of the record that begins at a byte.
fn take_entry(
    alloc: Global,
    terms: &Terms,
    first: &View,
    at: usize,
    entry: &Entry,
    group: &mut Option<RestoredGroup>,
) -> Result<(), RestoreFault>
    requires few { terms.now.managers ≤ 9 }
    requires place { terms.now.place < terms.now.managers }
    requires view { IsView first.now }
    requires range { IsEntryInRange entry.now }
    ensures { IsMade result (behind_entry terms.now first.now at entry.now group.old) group.new }
{
    match entry {
        Entry::Founded(founding) => found(alloc, terms, first, founding, group),
        Entry::Open => open(at, group),
        Entry::Bound { actor, ticket } => bind(at, *actor, *ticket, group),
        Entry::Propose { .. } => step(alloc, at, entry, group),
        Entry::Receive { .. } => step(alloc, at, entry, group),
    }
}

// Takes up the entries of that record, up to the first fault.
fn take_record(
    alloc: Global,
    terms: &Terms,
    first: &View,
    at: usize,
    entries: &[Entry],
    group: &mut Option<RestoredGroup>,
) -> Result<(), RestoreFault>
    requires few { terms.now.managers ≤ 9 }
    requires place { terms.now.place < terms.now.managers }
    requires view { IsView first.now }
    requires range { All IsEntryInRange entries.now }
    ensures { IsMade result (behind_entries terms.now first.now at entries.now group.old) group.new }
{
    for entry in entries {
        take_entry(alloc, terms, first, at, entry, group)?;
    }
    Ok(())
}

// Takes up the records of a log, up to the first fault.
fn take_records(
    alloc: Global,
    terms: &Terms,
    first: &View,
    records: &[Record],
    starts: &[usize],
    group: &mut Option<RestoredGroup>,
) -> Result<(), RestoreFault>
    requires few { terms.now.managers ≤ 9 }
    requires place { terms.now.place < terms.now.managers }
    requires view { IsView first.now }
    requires records { AreRecords records.now }
    requires starts { length starts.now ≡ length records.now }
    ensures { IsMade result (behind_records terms.now first.now records.now starts.now group.old) group.new }
{
    for index in 0..records.len() {
        take_record(
            alloc,
            terms,
            first,
            starts[index],
            records[index].as_slice(),
            group,
        )?;
    }
    Ok(())
}

// Notes the untils, where there is a group.
fn note_untils(alloc: Global, group: Option<RestoredGroup>) -> Result<Option<RestoredGroup>, Memory>
    ensures { IfOk result (λ noted. noted ≡ with_untils group) }
{
    let mut group = group;
    if let Some(open) = &mut group {
        open.managers.note_untils(alloc)?;
    }
    Ok(group)
}

/// What a process begins with, by the records of its log and the bytes at which they begin, as `hk_disk::recover` gave
/// them. `first` is the first view of the group.
pub fn restore(
    alloc: Global,
    terms: &Terms,
    first: &View,
    records: &[Record],
    starts: &[usize],
) -> Result<Restored, RestoreFault>
    requires few { terms.now.managers ≤ 9 }
    requires place { terms.now.place < terms.now.managers }
    requires view { IsView first.now }
    requires records { AreRecords records.now }
    requires starts { starts.now ≡ record_starts records.now }
    ensures { IsRestored result (restored terms.now first.now records.now) }
{
    let mut group = None;
    take_records(alloc, terms, first, records, starts, &mut group)?;
    let group = note_untils(alloc, group)?;
    Ok(Restored {
        group,
        records: records.len() as u64,
    })
}
