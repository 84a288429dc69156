//! The calls of runs.

ghost use Rattle.std.specs.Prelude.{◌≡◌, ◌++◌, IfOk, OnOk};
ghost use Rattle.std.specs.Option.{option_copied};
ghost use Rattle.hk_storm.specs.Calls.{called, called_at, calls_of, all_calls};

use hk_base::{Key, Memory, NodeId, Op};
use hk_event::Event;
use hk_safety::Run;
use std::alloc::Global;

/// A call at a node.
#[derive(Drop)]
pub struct StormCall {
    pub node: NodeId,
    pub key: Key,
    pub op: Op,
}

// Puts the call that the event is behind the others, if it is one.
fn put_called(calls: &mut Vec<StormCall>, event: &Event) -> Result<(), Memory>
    ensures { OnOk result (calls.new.items ≡ calls.old.items ++ called event.now) }
{
    let Event::Call { node, key, op } = event else {
        return Ok(());
    };
    let key = key.share()?;
    let op = op.share()?;
    calls.push(StormCall {
        node: *node,
        key,
        op,
    })?;
    Ok(())
}

// Puts the call that the event is, if there is one.
fn put_called_at(calls: &mut Vec<StormCall>, event: Option<&Event>) -> Result<(), Memory>
    ensures { OnOk result (calls.new.items ≡ calls.old.items ++ called_at (option_copied event.entry)) }
{
    match event {
        Some(event) => put_called(calls, event),
        None => Ok(()),
    }
}

/// Puts the calls of a run behind the others.
pub(crate) fn put_calls(calls: &mut Vec<StormCall>, run: &Run) -> Result<(), Memory>
    ensures { OnOk result (calls.new.items ≡ calls.old.items ++ calls_of run.now) }
{
    for before in 0..run.len() {
        put_called_at(calls, run.event(before + 1))?;
    }
    Ok(())
}

/// The calls of all runs.
pub(crate) fn all_calls(alloc: Global, runs: &[Run]) -> Result<Vec<StormCall>, Memory>
    ensures { IfOk result (λ calls. calls.items ≡ all_calls runs.now) }
{
    let mut calls = Vec::new(alloc);
    for run in runs {
        put_calls(&mut calls, run)?;
    }
    Ok(calls)
}
