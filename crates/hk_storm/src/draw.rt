//! The calls that a storm draws.

ghost use Rattle.std.specs.Prelude.{◌≡◌, ◌≤◌, IfOk};
ghost use Rattle.hk_storm.specs.Storm.{IsStorm};
ghost use Rattle.hk_storm.specs.Calls.{caller_node, next_call, drawn_calls};

use crate::calls::StormCall;
use crate::opts::StormOpts;
use hk_base::{Memory, NodeId};
use hk_script::AskGenerator;
use std::alloc::Global;

// The node of the caller of the call at this place.
fn caller_node(opts: &StormOpts, place: u32) -> NodeId
    requires nodes { 1 ≤ opts.now.nodes }
    requires workers { 1 ≤ opts.now.workers }
    ensures { result ≡ caller_node opts.now place }
{
    let nodes = u32::from(opts.nodes);
    let callers = nodes * u32::from(opts.workers);
    NodeId(((place % callers) % nodes) as u16)
}

// The call at this place, as it is drawn next.
fn next_call(
    alloc: Global,
    opts: &StormOpts,
    asks: &mut AskGenerator,
    place: u32,
) -> Result<StormCall, Memory>
    requires nodes { 1 ≤ opts.now.nodes }
    requires workers { 1 ≤ opts.now.workers }
    ensures { IfOk result (λ call. (call, asks.new) ≡ next_call opts.now place asks.old) }
{
    let node = caller_node(opts, place);
    let (key, op) = asks.next(alloc)?;
    Ok(StormCall { node, key, op })
}

/// The calls of a storm, each with the node of its caller.
pub fn draw_calls(alloc: Global, opts: &StormOpts) -> Result<Vec<StormCall>, Memory>
    requires { IsStorm opts.now }
    ensures { IfOk result (λ calls. calls.items ≡ drawn_calls opts.now) }
{
    let mut asks = AskGenerator::new(opts.start);
    let mut calls = Vec::new(alloc);
    for place in 0..opts.calls {
        let call = next_call(alloc, opts, &mut asks, place)?;
        calls.push(call)?;
    }
    Ok(calls)
}
