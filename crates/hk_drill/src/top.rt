//! The bytes of a script in, those of its transcript out.

ghost use Rattle.std.specs.Prelude.{◌≡◌, ◌≤◌, [], Err, None, IfOk};
ghost use Rattle.hk_outside.specs.Causes.{Rose, Stayed};
ghost use Rattle.hk_drill.specs.Progress.{IsAt, IsCounted};
ghost use Rattle.hk_drill.specs.Drilled.{EndsDrill, IsDone, IsStopped, IsDrilled, IsExact, IsFront, HasGone, HasTold};

use crate::end::{finish, write_stop, write_text};
use crate::fault::Fault;
use crate::script::Script;
use crate::stop::Stop;
use hk_outside::{Sink, Source, Status};
use hk_safety::runs_are_legal;
use std::alloc::Global;

/// How many bytes of a script are read at once.
const PIECE_LEN: usize = 4096;

/// Follows a script to its end, or to the line at which it stops. What a piece tells is written before the next is read.
pub(crate) fn follow<S: Source, K: Sink>(
    alloc: Global,
    source: &mut S,
    sink: &mut K,
    script: &mut Script,
) -> Result<Option<Stop>, Fault>
    requires at { IsAt [] [] script.old.number script.old.line.items script.old.state }
    requires counted { IsCounted script.old.number script.old.state }
    requires text { script.old.text.items ≡ [] }
    ensures gone { IfOk result (λ stop. HasGone stop (S.left source.old) (S.left source.new) (S.given source.old) (S.given source.new) (K.held sink.old) (K.held sink.new) script.new.number script.new.line.items script.new.state) }
    ensures ended { IfOk result (λ stop. stop ≡ None → IsCounted script.new.number script.new.state × (script.new.text.items ≡ [])) }
    ensures front { IsFront (S.left source.old) (S.left source.new) (S.given source.old) (S.given source.new) (K.held sink.old) (K.held sink.new) }
    ensures cut_off { result ≡ Err Fault.Read → HasTold (S.left source.old) (S.left source.new) (S.given source.old) (S.given source.new) (K.held sink.old) (K.held sink.new) }
    ensures read_fault { result ≡ Err Fault.Read → Rose (S.faults source.old) (S.faults source.new) }
    ensures write_fault { result ≡ Err Fault.Write → Rose (K.faults sink.old) (K.faults sink.new) }
    ensures reads_later { S.faults source.old ≤ S.faults source.new }
    ensures writes_later { K.faults sink.old ≤ K.faults sink.new }
{
    let mut room = [0u8; PIECE_LEN];
    for _turn in 0..u64::MAX {
        let Ok(count) = source.read(&mut room) else {
            return Err(Fault::Read);
        };
        if count == 0 {
            return Ok(None);
        }
        let stop = script.feed(alloc, &room[..count])?;
        write_text(sink, script.text.as_slice())?;
        script.text.clear();
        if stop.is_some() {
            return Ok(stop);
        }
    }
    unreachable!()
}

// Follows a script, and writes how its transcript ends.
fn drill_to_end<S: Source, K: Sink>(
    alloc: Global,
    source: &mut S,
    sink: &mut K,
) -> Result<Status, Fault>
    ensures drilled { IfOk result (λ status. IsDrilled status (S.left source.old) (S.left source.new) (S.given source.old) (S.given source.new) (K.held sink.old) (K.held sink.new)) }
    ensures front { IsFront (S.left source.old) (S.left source.new) (S.given source.old) (S.given source.new) (K.held sink.old) (K.held sink.new) }
    ensures cut_off { result ≡ Err Fault.Read → HasTold (S.left source.old) (S.left source.new) (S.given source.old) (S.given source.new) (K.held sink.old) (K.held sink.new) }
    ensures read_fault { result ≡ Err Fault.Read → Rose (S.faults source.old) (S.faults source.new) }
    ensures write_fault { result ≡ Err Fault.Write → Rose (K.faults sink.old) (K.faults sink.new) }
    ensures reads_later { S.faults source.old ≤ S.faults source.new }
    ensures writes_later { K.faults sink.old ≤ K.faults sink.new }
{
    runs_are_legal();
    let mut script = Script::new(alloc, false);
    match follow(alloc, source, sink, &mut script)? {
        None => finish(alloc, sink, &mut script),
        Some(stop) => write_stop(alloc, sink, script.number, stop),
    }
}

/// Reads a script in pieces and writes its transcript as it goes: what belongs to the lines that have come is written before more is
/// read. It holds one piece, the part of one line, and the run. The status is Done, Memory, ReadFault, WriteFault, BadLine or TooLong.
pub fn drill<S: Source, K: Sink>(alloc: Global, source: &mut S, sink: &mut K) -> Status
    ensures done { result ≡ Status.Done → IsDone Status.Done (S.left source.old) (S.left source.new) (S.given source.old) (S.given source.new) (K.held sink.old) (K.held sink.new) }
    ensures bad_line { result ≡ Status.BadLine → IsStopped Status.BadLine (S.left source.old) (S.left source.new) (S.given source.old) (S.given source.new) (K.held sink.old) (K.held sink.new) }
    ensures too_long { result ≡ Status.TooLong → IsStopped Status.TooLong (S.left source.old) (S.left source.new) (S.given source.old) (S.given source.new) (K.held sink.old) (K.held sink.new) }
    ensures front { IsFront (S.left source.old) (S.left source.new) (S.given source.old) (S.given source.new) (K.held sink.old) (K.held sink.new) }

    // A read that failed leaves what the lines whose feed was read told, and no more.
    ensures cut_off { result ≡ Status.ReadFault → HasTold (S.left source.old) (S.left source.new) (S.given source.old) (S.given source.new) (K.held sink.old) (K.held sink.new) }
    ensures read_fault { result ≡ Status.ReadFault → Rose (S.faults source.old) (S.faults source.new) }
    ensures write_fault { result ≡ Status.WriteFault → Rose (K.faults sink.old) (K.faults sink.new) }
    ensures statuses { EndsDrill result }

    // Where no count rose, the answer is the transcript's, unless memory ran out.
    ensures exact { Stayed (S.faults source.old) (S.faults source.new) → Stayed (K.faults sink.old) (K.faults sink.new)
        → IsExact result (S.left source.old) (S.left source.new) (S.given source.old) (S.given source.new) }
    ensures reads_later { S.faults source.old ≤ S.faults source.new }
    ensures writes_later { K.faults sink.old ≤ K.faults sink.new }
{
    match drill_to_end(alloc, source, sink) {
        Ok(status) => status,
        Err(fault) => fault.status(),
    }
}
