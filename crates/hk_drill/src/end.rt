//! How a transcript ends.

ghost use Rattle.std.specs.Prelude.{◌≡◌, ◌++◌, ◌≤◌, [], IfOk, OnOk, IfErr};
ghost use Rattle.std.specs.Io.KnownBytes.{Appends};
ghost use Rattle.hk_outside.specs.Causes.{Rose};
ghost use Rattle.hk_drill.specs.Keys.{key_text};
ghost use Rattle.hk_transcript.specs.Text.{end_text};
ghost use Rattle.hk_drill.specs.Transcript.{stop_text, status_of, keys_text, counts_text, drill_text, written_of};
ghost use Rattle.hk_drill.specs.Progress.{HasNoFeed, HasFront, IsCounted, further, ending};
ghost use Rattle.hk_drill.specs.Drilled.{IsSinkFault};
ghost use Rattle.hk_safety.specs.Run.{history, printed, named};

use crate::drill_state::DrillState;
use crate::fault::Fault;
use crate::keys::put_key;
use crate::script::Script;
use crate::stop::Stop;
use hk_base::{Key, Memory};
use hk_outside::{Sink, Status, write_all};
use hk_safety::LiveRun;
use hk_script::{put_number, put_text};
use hk_transcript::put_end;
use std::alloc::Global;

// The line that tells where a script stops, and why.
#[tactic(auto, unfolding(crate::specs::Transcript::stop_text))]
fn put_stop(out: &mut Vec<u8>, line: u64, stop: Stop) -> Result<(), Memory>
    ensures { OnOk result (out.new.items ≡ out.old.items ++ stop_text line stop) }
{
    put_text(out, b"stop line ")?;
    put_number(out, line)?;
    match stop {
        Stop::Bad => put_text(out, b" bad\n"),
        Stop::Long => put_text(out, b" long\n"),
        Stop::Lines => put_text(out, b" lines\n"),
        Stop::Letters => put_text(out, b" letters\n"),
    }
}

// A key of a run, with its history and its order.
fn put_key_of(out: &mut Vec<u8>, alloc: Global, run: &LiveRun, key: &Key) -> Result<(), Memory>
    ensures { OnOk result (out.new.items ≡ out.old.items ++ key_text key.now (history run.now key.now) (printed run.now key.now)) }
{
    let history = run.marks(key)?;
    let order = run.order(alloc, key)?;
    put_key(out, key, history, order.as_slice())
}

/// Writes the text.
#[tactic(auto, using(crate::proofs::Telling::front_taken))]
pub(crate) fn write_text<K: Sink>(sink: &mut K, text: &[u8]) -> Result<(), Fault>
    ensures all { OnOk result (Appends (K.held sink.old) (K.held sink.new) text.now) }
    ensures front { HasFront (K.held sink.old) (K.held sink.new) text.now }
    ensures later { K.faults sink.old ≤ K.faults sink.new }
    ensures failed { IfErr result (IsSinkFault (K.faults sink.old) (K.faults sink.new)) }
{
    match write_all(sink, text) {
        Ok(()) => Ok(()),
        Err(_) => Err(Fault::Write),
    }
}

// Writes a key of a run, with its history and its order.
#[tactic(auto, using(crate::proofs::Telling::front_nothing))]
fn write_key<K: Sink>(alloc: Global, sink: &mut K, run: &LiveRun, key: &Key) -> Result<(), Fault>
    ensures all { OnOk result (Appends (K.held sink.old) (K.held sink.new) (key_text key.now (history run.now key.now) (printed run.now key.now))) }
    ensures front { HasFront (K.held sink.old) (K.held sink.new) (key_text key.now (history run.now key.now) (printed run.now key.now)) }
    ensures later { K.faults sink.old ≤ K.faults sink.new }
    ensures failed { IfErr result (IsSinkFault (K.faults sink.old) (K.faults sink.new)) }
{
    let mut text = Vec::new(alloc);
    put_key_of(&mut text, alloc, run, key)?;
    write_text(sink, text.as_slice())
}

// Writes each key that a call named, with its history and its order, one key after the other.
fn write_keys<K: Sink>(alloc: Global, sink: &mut K, run: &LiveRun) -> Result<(), Fault>
    ensures all { OnOk result (Appends (K.held sink.old) (K.held sink.new) (keys_text run.now (named run.now))) }
    ensures front { HasFront (K.held sink.old) (K.held sink.new) (keys_text run.now (named run.now)) }
    ensures later { K.faults sink.old ≤ K.faults sink.new }
    ensures failed { IfErr result (IsSinkFault (K.faults sink.old) (K.faults sink.new)) }
{
    let keys = run.keys(alloc)?;
    for key in keys.as_slice() {
        write_key(alloc, sink, run, key)?;
    }
    Ok(())
}

/// Writes the line with the numbers of events, calls and letters.
#[tactic(auto, unfolding(crate::specs::Transcript::counts_text), using(crate::proofs::Telling::front_nothing))]
pub(crate) fn write_end<K: Sink>(
    alloc: Global,
    sink: &mut K,
    state: &DrillState,
) -> Result<(), Fault>
    ensures all { OnOk result (Appends (K.held sink.old) (K.held sink.new) (counts_text state.now)) }
    ensures front { HasFront (K.held sink.old) (K.held sink.new) (counts_text state.now) }
    ensures later { K.faults sink.old ≤ K.faults sink.new }
    ensures failed { IfErr result (IsSinkFault (K.faults sink.old) (K.faults sink.new)) }
{
    let world = state.run.live().world()?;
    let mut text = Vec::new(alloc);
    put_end(&mut text, state.count, world.calls(), world.letters())?;
    write_text(sink, text.as_slice())
}

// Writes what a run that went to its end tells last.
#[tactic(auto, unfolding(crate::specs::Transcript::drill_text), using(crate::proofs::Telling::front_longer, crate::proofs::Telling::front_behind, crate::proofs::Telling::appends_more, crate::proofs::Telling::faults_later))]
fn write_state<K: Sink>(alloc: Global, sink: &mut K, state: &DrillState) -> Result<(), Fault>
    ensures all { OnOk result (Appends (K.held sink.old) (K.held sink.new) (drill_text state.now)) }
    ensures front { HasFront (K.held sink.old) (K.held sink.new) (drill_text state.now) }
    ensures later { K.faults sink.old ≤ K.faults sink.new }
    ensures failed { IfErr result (IsSinkFault (K.faults sink.old) (K.faults sink.new)) }
{
    write_keys(alloc, sink, state.run.live())?;
    write_end(alloc, sink, state)
}

/// Writes the line of a script that stops at this line, and answers its status.
#[tactic(auto, using(crate::proofs::Telling::front_nothing))]
pub(crate) fn write_stop<K: Sink>(
    alloc: Global,
    sink: &mut K,
    number: u64,
    stop: Stop,
) -> Result<Status, Fault>
    ensures all { IfOk result (λ status. Appends (K.held sink.old) (K.held sink.new) (stop_text number stop)) }
    ensures status { IfOk result (λ status. status ≡ status_of stop) }
    ensures front { HasFront (K.held sink.old) (K.held sink.new) (stop_text number stop) }
    ensures later { K.faults sink.old ≤ K.faults sink.new }
    ensures failed { IfErr result (IsSinkFault (K.faults sink.old) (K.faults sink.new)) }
{
    let mut text = Vec::new(alloc);
    put_stop(&mut text, number, stop)?;
    write_text(sink, text.as_slice())?;
    Ok(stop.status())
}

// Writes what a script tells last that has no line `number`.
#[tactic(auto, unfolding(crate::specs::Transcript::script_from, crate::specs::Transcript::follow))]
fn write_last<K: Sink>(
    alloc: Global,
    sink: &mut K,
    number: u64,
    state: &Option<DrillState>,
) -> Result<Status, Fault>
    ensures all { IfOk result (λ status. Appends (K.held sink.old) (K.held sink.new) (written_of (further number state.now [])).text) }
    ensures status { IfOk result (λ status. status ≡ (written_of (further number state.now [])).status) }
    ensures front { HasFront (K.held sink.old) (K.held sink.new) (written_of (further number state.now [])).text }
    ensures later { K.faults sink.old ≤ K.faults sink.new }
    ensures failed { IfErr result (IsSinkFault (K.faults sink.old) (K.faults sink.new)) }
{
    match state {
        None => write_stop(alloc, sink, number, Stop::Bad),
        Some(state) => {
            write_state(alloc, sink, state)?;
            Ok(Status::Done)
        }
    }
}

/// Writes what is left of a script behind whose bytes none comes.
pub(crate) fn finish<K: Sink>(
    alloc: Global,
    sink: &mut K,
    script: &mut Script,
) -> Result<Status, Fault>
    requires counted { IsCounted script.old.number script.old.state }
    requires part { HasNoFeed script.old.line.items }
    requires written { script.old.text.items ≡ [] }
    ensures all { IfOk result (λ status. Appends (K.held sink.old) (K.held sink.new) (ending script.old.number script.old.line.items script.old.state).text) }
    ensures status { IfOk result (λ status. status ≡ (ending script.old.number script.old.line.items script.old.state).status) }
    ensures front { HasFront (K.held sink.old) (K.held sink.new) (ending script.old.number script.old.line.items script.old.state).text }
    ensures later { K.faults sink.old ≤ K.faults sink.new }
    ensures failed { IfErr result (IsSinkFault (K.faults sink.old) (K.faults sink.new)) }
{
    let stop = script.take_rest(alloc)?;
    write_text(sink, script.text.as_slice())?;
    match stop {
        None => write_last(alloc, sink, script.number, &script.state),
        Some(stop) => write_stop(alloc, sink, script.number, stop),
    }
}
