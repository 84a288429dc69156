//! The bytes of a script in, the joint order of its run out.

ghost use Rattle.std.specs.Prelude.{◌≡◌, ◌++◌, ◌≤◌, [], IfOk, OnOk, IfErr, Err, None};
ghost use Rattle.std.specs.Io.KnownBytes.{Appends};
ghost use Rattle.hk_outside.specs.Causes.{Rose, Stayed};
ghost use Rattle.hk_drill.specs.Progress.{HasNoFeed, HasFront, IsCounted, further};
ghost use Rattle.hk_drill.specs.Drilled.{EndsDrill, IsExact, IsSinkFault};
ghost use Rattle.hk_drill.specs.Transcript.{lines_of};
ghost use Rattle.hk_drill.specs.Together.{joint_lines, joint_text, joint_of, IsJointDone, IsJointTold, IsJointFront, IsJoined};

use crate::drill_state::DrillState;
use crate::end::{write_end, write_stop, write_text};
use crate::fault::Fault;
use crate::joined::put_joined;
use crate::script::Script;
use crate::stop::Stop;
use crate::top::follow;
use hk_base::Memory;
use hk_joint::{NotedRun, joint_orders_are_legal, live_joint_order};
use hk_outside::{Failed, Sink, Source, Status};
use std::alloc::Global;

/// A sink that takes all that is written to it, and keeps nothing.
#[derive(Drop)]
struct Nowhere;

impl Sink for Nowhere {
    ghost held = { λ _. None };

    ghost faults = { λ _. 0 };

    ghost beside = { λ _. (None, 0) };

    fn write(&mut self, piece: &[u8]) -> Result<usize, Failed> {
        Ok(piece.len())
    }
}

// The joint order of a run, and its batches.
fn put_joint(out: &mut Vec<u8>, alloc: Global, run: &mut NotedRun) -> Result<(), Memory>
    ensures same { run.new ≡ run.old }
    ensures text { OnOk result (out.new.items ≡ out.old.items ++ joint_lines run.old) }
{
    let order = live_joint_order(alloc, run.live())?;
    let batches = run.take_batches(alloc)?;
    put_joined(out, order.as_slice(), batches.as_slice())
}

// Writes the joint order of a run, and its batches.
#[tactic(auto, using(crate::proofs::Telling::front_nothing))]
fn write_order<K: Sink>(alloc: Global, sink: &mut K, run: &mut NotedRun) -> Result<(), Fault>
    ensures same { run.new ≡ run.old }
    ensures all { OnOk result (Appends (K.held sink.old) (K.held sink.new) (joint_lines run.old)) }
    ensures front { HasFront (K.held sink.old) (K.held sink.new) (joint_lines run.old) }
    ensures later { K.faults sink.old ≤ K.faults sink.new }
    ensures failed { IfErr result (IsSinkFault (K.faults sink.old) (K.faults sink.new)) }
{
    let mut text = Vec::new(alloc);
    put_joint(&mut text, alloc, run)?;
    write_text(sink, text.as_slice())
}

// Writes what a run that went to its end tells.
#[tactic(auto, unfolding(crate::specs::Together::joint_text), using(crate::proofs::Telling::front_longer, crate::proofs::Telling::front_behind, crate::proofs::Telling::appends_more, crate::proofs::Telling::faults_later))]
fn write_joint<K: Sink>(alloc: Global, sink: &mut K, state: &mut DrillState) -> Result<(), Fault>
    ensures all { OnOk result (Appends (K.held sink.old) (K.held sink.new) (joint_text state.old)) }
    ensures front { HasFront (K.held sink.old) (K.held sink.new) (joint_text state.old) }
    ensures later { K.faults sink.old ≤ K.faults sink.new }
    ensures failed { IfErr result (IsSinkFault (K.faults sink.old) (K.faults sink.new)) }
{
    write_order(alloc, sink, &mut state.run)?;
    write_end(alloc, sink, state)
}

// Writes what a script tells that has no line `number`.
#[tactic(auto, unfolding(crate::specs::Transcript::script_from, crate::specs::Transcript::follow))]
fn write_told<K: Sink>(
    alloc: Global,
    sink: &mut K,
    number: u64,
    state: &mut Option<DrillState>,
) -> Result<Status, Fault>
    ensures all { IfOk result (λ status. Appends (K.held sink.old) (K.held sink.new) (joint_of (further number state.old [])).text) }
    ensures status { IfOk result (λ status. status ≡ (joint_of (further number state.old [])).status) }
    ensures front { HasFront (K.held sink.old) (K.held sink.new) (joint_of (further number state.old [])).text }
    ensures later { K.faults sink.old ≤ K.faults sink.new }
    ensures failed { IfErr result (IsSinkFault (K.faults sink.old) (K.faults sink.new)) }
{
    match state {
        None => write_stop(alloc, sink, number, Stop::Bad),
        Some(state) => {
            write_joint(alloc, sink, state)?;
            Ok(Status::Done)
        }
    }
}

// Takes what is left of a script behind whose bytes none comes, and writes what it tells.
fn finish<K: Sink>(alloc: Global, sink: &mut K, script: &mut Script) -> Result<Status, Fault>
    requires counted { IsCounted script.old.number script.old.state }
    requires part { HasNoFeed script.old.line.items }
    ensures all { IfOk result (λ status. Appends (K.held sink.old) (K.held sink.new) (joint_of (further script.old.number script.old.state (lines_of script.old.line.items))).text) }
    ensures status { IfOk result (λ status. status ≡ (joint_of (further script.old.number script.old.state (lines_of script.old.line.items))).status) }
    ensures front { HasFront (K.held sink.old) (K.held sink.new) (joint_of (further script.old.number script.old.state (lines_of script.old.line.items))).text }
    ensures later { K.faults sink.old ≤ K.faults sink.new }
    ensures failed { IfErr result (IsSinkFault (K.faults sink.old) (K.faults sink.new)) }
{
    match script.take_rest(alloc)? {
        None => write_told(alloc, sink, script.number, &mut script.state),
        Some(stop) => write_stop(alloc, sink, script.number, stop),
    }
}

// Follows a script, and then writes what it tells.
fn joint_to_end<S: Source, K: Sink>(
    alloc: Global,
    source: &mut S,
    sink: &mut K,
) -> Result<Status, Fault>
    ensures joined { IfOk result (λ status. IsJoined status (S.left source.old) (S.left source.new) (S.given source.old) (S.given source.new) (K.held sink.old) (K.held sink.new)) }
    ensures front { IsJointFront (S.left source.old) (S.left source.new) (S.given source.old) (S.given source.new) (K.held sink.old) (K.held sink.new) }
    ensures untouched { result ≡ Err Fault.Read → sink.new ≡ sink.old }
    ensures read_fault { result ≡ Err Fault.Read → Rose (S.faults source.old) (S.faults source.new) }
    ensures write_fault { result ≡ Err Fault.Write → Rose (K.faults sink.old) (K.faults sink.new) }
    ensures reads_later { S.faults source.old ≤ S.faults source.new }
    ensures writes_later { K.faults sink.old ≤ K.faults sink.new }
{
    joint_orders_are_legal();
    let mut script = Script::new(alloc, true);
    match follow(alloc, source, &mut Nowhere, &mut script)? {
        None => finish(alloc, sink, &mut script),
        Some(stop) => write_stop(alloc, sink, script.number, stop),
    }
}

/// Reads a script in pieces, as [`crate::drill`] does. At its end it writes one order of the calls on all keys, which is legal, and the batches; at a line at which the script
/// stops, that line alone. It holds one piece, the part of one line, the run and its batches. The status is the drill's.
pub fn joint<S: Source, K: Sink>(alloc: Global, source: &mut S, sink: &mut K) -> Status
    ensures done { result ≡ Status.Done → IsJointDone (S.left source.old) (S.left source.new) (S.given source.old) (S.given source.new) (K.held sink.old) (K.held sink.new) }
    ensures bad_line { result ≡ Status.BadLine → IsJointTold Status.BadLine (S.left source.old) (S.left source.new) (S.given source.old) (S.given source.new) (K.held sink.old) (K.held sink.new) }
    ensures too_long { result ≡ Status.TooLong → IsJointTold Status.TooLong (S.left source.old) (S.left source.new) (S.given source.old) (S.given source.new) (K.held sink.old) (K.held sink.new) }
    ensures front { IsJointFront (S.left source.old) (S.left source.new) (S.given source.old) (S.given source.new) (K.held sink.old) (K.held sink.new) }

    // Where a read failed nothing was written.
    ensures untouched { result ≡ Status.ReadFault → sink.new ≡ sink.old }
    ensures read_fault { result ≡ Status.ReadFault → Rose (S.faults source.old) (S.faults source.new) }
    ensures write_fault { result ≡ Status.WriteFault → Rose (K.faults sink.old) (K.faults sink.new) }
    ensures statuses { EndsDrill result }

    // Where no count rose, the answer is the transcript's, unless memory ran out.
    ensures exact { Stayed (S.faults source.old) (S.faults source.new) → Stayed (K.faults sink.old) (K.faults sink.new)
        → IsExact result (S.left source.old) (S.left source.new) (S.given source.old) (S.given source.new) }
    ensures reads_later { S.faults source.old ≤ S.faults source.new }
    ensures writes_later { K.faults sink.old ≤ K.faults sink.new }
{
    match joint_to_end(alloc, source, sink) {
        Ok(status) => status,
        Err(fault) => fault.status(),
    }
}
