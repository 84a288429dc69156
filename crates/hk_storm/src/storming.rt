//! The threads of a storm, and its end.

ghost use Rattle.std.specs.Prelude.{◌≡◌, ◌≤◌};
ghost use Rattle.hk_outside.specs.Causes.{Rose};
ghost use Rattle.hk_storm.specs.Storm.{IsStorm};
ghost use Rattle.hk_worker.specs.Founding.{AreNamed};
ghost use Rattle.hk_storm.specs.Stormed.{IsStormed};

use crate::crew::crew_of;
use crate::ending::conclude;
use crate::founding::{Node, found_all, name_all};
use crate::groups::{StormGroup, StormGroups, are_groups};
use crate::opts::StormOpts;
use crate::running::{Called, run};
use hk_base::{Memory, SHARDS, Sequence};
use hk_journal::Journal;
use hk_locked::Places;
use hk_merge::{Journals, Note, Notes};
use hk_outside::{Clock, Sink, Status};
use hk_shard::shard_of;
use hk_worker::{Founded, Tickets};
use std::alloc::Global;
use std::marker::Brand;
use std::sync::{Arc, Wait};
use std::thread::Threads;

// Puts each note to those of its key's shard.
fn part(shards: &mut Vec<Notes>, notes: Vec<Note>) -> Result<(), Memory> {
    for note in notes {
        if let Some(notes) = shards.get_mut(usize::from(shard_of(&note.key))) {
            notes.push(note)?;
        }
    }
    Ok(())
}

// Puts the notes of all callers.
fn part_all(shards: &mut Vec<Notes>, called: Called) -> Result<(), Memory> {
    for notes in called {
        part(shards, notes?)?;
    }
    Ok(())
}

// No notes of each shard.
fn no_notes(alloc: Global) -> Result<Vec<Notes>, Memory> {
    let mut shards: Vec<Notes> = Vec::new(alloc);
    for _shard in 0..SHARDS {
        shards.push(Sequence::new(alloc))?;
    }
    Ok(shards)
}

// The notes by the shards of their keys.
fn by_shard(alloc: Global, called: Called) -> Result<Vec<Notes>, Memory> {
    let mut shards = no_notes(alloc)?;
    part_all(&mut shards, called)?;
    Ok(shards)
}

// The journal of a shard since the node was founded, which is handed out.
fn journal<P: Places, R: Wait>(
    rt: &R,
    alloc: Global,
    node: &Node<P>,
    shard: u8,
) -> Result<Journal, Memory> {
    match node.lock_of(shard).lock(rt).trim(alloc, 0)? {
        Some(journal) => Ok(journal),
        None => Err(Memory),
    }
}

// The journals of the shards of this number.
fn journals<P: Places, R: Wait>(
    rt: &R,
    alloc: Global,
    nodes: &[Node<P>],
    shard: u8,
) -> Result<Journals, Memory> {
    let mut journals = Sequence::new(alloc);
    for node in nodes {
        journals.push(journal(rt, alloc, node, shard)?)?;
    }
    Ok(journals)
}

// Puts what is left of the shards of this number.
fn put_group<P: Places, R: Wait>(
    rt: &R,
    alloc: Global,
    nodes: &[Node<P>],
    shard: u8,
    notes: Notes,
    groups: &mut StormGroups,
) -> Result<(), Memory> {
    let journals = journals(rt, alloc, nodes, shard)?;
    groups.push(StormGroup { journals, notes })?;
    Ok(())
}

// Puts what is left of all shards.
fn put_groups<P: Places, R: Wait>(
    rt: &R,
    alloc: Global,
    nodes: &[Node<P>],
    notes: Vec<Notes>,
    groups: &mut StormGroups,
) -> Result<(), Memory> {
    let mut shard = 0u8;
    for notes in notes {
        put_group(rt, alloc, nodes, shard, notes, groups)?;
        shard = shard.saturating_add(1);
    }
    Ok(())
}

// What is left of all shards.
fn collect<P: Places, R: Wait>(
    rt: &R,
    alloc: Global,
    nodes: &[Node<P>],
    called: Called,
) -> Result<StormGroups, Memory> {
    let notes = by_shard(alloc, called)?;
    let mut groups = Sequence::new(alloc);
    put_groups(rt, alloc, nodes, notes, &mut groups)?;
    Ok(groups)
}

// Runs the callers and workers of these nodes.
fn storm_over<
    R: Threads + Wait + Copy + Send + Sync + Drop + 'static,
    P: Places + Send + Sync + 'static,
    C: Clock + Sync,
>(
    rt: R,
    alloc: Global,
    opts: &StormOpts,
    nodes: &[Node<P>],
    tickets: &Tickets,
    clock: &C,
) -> Result<StormGroups, Memory>
    requires { IsStorm opts.now }
{
    let crew = crew_of(rt, alloc, opts, nodes)?;
    let called = run(rt, alloc, opts.start, crew, clock, tickets)?;
    collect(&rt, alloc, nodes, called)
}

// Runs the callers and workers of nodes whose cells are named.
fn storm_at<
    R: Threads + Wait + Copy + Send + Sync + Drop + 'static,
    P: Places + Send + Sync + 'static,
    C: Clock + Sync,
>(
    rt: R,
    alloc: Global,
    opts: &StormOpts,
    founded: Vec<Founded>,
    tickets: &Tickets,
    clock: &C,
) -> Result<StormGroups, Memory>
    requires storm { IsStorm opts.now }
    requires named { AreNamed P.places founded.items }
{
    let nodes: Vec<Node<P>> = name_all(alloc, founded)?;
    storm_over(rt, alloc, opts, nodes.as_slice(), tickets, clock)
}

// What the threads leave.
fn groups_of<R: Threads + Wait + Copy + Send + Sync + Drop + 'static, C: Clock + Sync>(
    rt: R,
    alloc: Global,
    opts: &StormOpts,
    clock: &C,
) -> Result<StormGroups, Memory>
    requires storm { IsStorm opts.now }
{
    let tickets = Arc::new(alloc, Tickets::new())?;
    let founded = found_all(&rt, alloc, opts.nodes, &tickets)?;
    storm_at::<R, Brand, C>(rt, alloc, opts, founded, &tickets, clock)
}

/// Runs a storm: `opts.nodes` nodes with `opts.workers` workers each, and as many callers as workers, each in a thread of its own. Once all workers have their threads,
/// the callers make the drawn calls, and read without a lock where they can; workers lose about one parcel in sixteen. When all have ended, the journals and notes go
/// to [`conclude`].
///
/// Done, Gap and WriteFault are told as by [`conclude`]. Memory: there was none; nothing was written.
pub fn storm<R: Threads + Wait + Copy + Send + Sync + Drop + 'static, C: Clock + Sync, K: Sink>(
    rt: R,
    alloc: Global,
    opts: &StormOpts,
    clock: &C,
    sink: &mut K,
) -> Status
    requires { IsStorm opts.now }
    ensures exact { IsStormed result opts.now (K.held sink.old) (K.held sink.new) }
    ensures write_fault { result ≡ Status.WriteFault → Rose (K.faults sink.old) (K.faults sink.new) }
    ensures later { K.faults sink.old ≤ K.faults sink.new }
{
    let Ok(groups) = groups_of(rt, alloc, opts, clock) else {
        return Status::Memory;
    };
    if groups.len() != usize::from(SHARDS) {
        return Status::Memory;
    }
    if !are_groups(opts.nodes, groups.as_slice()) {
        return Status::Memory;
    }
    conclude(alloc, opts, &groups, sink)
}
