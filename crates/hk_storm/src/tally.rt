//! How often each call stands in a list.

ghost use Rattle.std.specs.Prelude.{◌≡◌, ◌∷◌, ◌++◌, ◌+◌, [], List, IfOk, OnOk};
ghost use Rattle.hk_script.specs.Grammar.{IsWritten};
ghost use Rattle.hk_storm.specs.declared.calls.StormCall.{StormCall};
ghost use Rattle.hk_storm.specs.Tallied.{event_of, line_of, count_of, with_line, IsTally};

use crate::calls::StormCall;
use crate::written::call_is_written;
use bytes::Bytes;
use hk_base::Memory;
use hk_event::Event;
use hk_script::print_event;
use std::alloc::Global;
use std::collections::BTreeMap;

/// How often each line comes.
pub type Tally = BTreeMap<Bytes, u64>;

/// One more; a number beyond 64 bits is want of memory.
pub fn one_more(count: u64) -> Result<u64, Memory>
    ensures { IfOk result (λ n. n ≡ count + 1) }
{
    match count.checked_add(1) {
        Some(count) => Ok(count),
        None => Err(Memory),
    }
}

/// The line of the call in a script, which no other call has.
pub fn line_of(alloc: Global, call: &StormCall) -> Result<Bytes, Memory>
    ensures line { IfOk result (λ line. line ≡ line_of call.now) }
    ensures written { IsWritten (event_of call.now) }
{
    call_is_written(call);
    let key = call.key.share()?;
    let op = call.op.share()?;
    let event = Event::Call {
        node: call.node,
        key,
        op,
    };
    let mut line = Vec::new(alloc);
    print_event(&event, &mut line)?;
    match Bytes::copy_from_slice(alloc, line.as_slice()) {
        Ok(line) => Ok(line),
        Err(_) => Err(Memory),
    }
}

fn raise(count: &mut u64) -> Result<(), Memory>
    ensures { OnOk result (count.new ≡ count.old + 1) }
{
    *count = one_more(*count)?;
    Ok(())
}

fn put(tally: &mut Tally, line: Bytes) -> Result<(), Memory>
    ensures { OnOk result (tally.new.entries ≡ with_line tally.old.entries line) }
{
    if let Some(count) = tally.get_mut(&line) {
        return raise(count);
    }
    tally.insert(line, 1)?;
    Ok(())
}

// One call more.
fn add(tally: &mut Tally, alloc: Global, call: &StormCall) -> Result<(), Memory>
    ensures { (calls : List StormCall) → IsTally tally.old.entries calls → OnOk result (IsTally tally.new.entries (calls ++ call.now ∷ [])) }
{
    let line = line_of(alloc, call)?;
    put(tally, line)
}

/// How often the line of each of the calls comes.
pub fn tally(alloc: Global, calls: &[StormCall]) -> Result<Tally, Memory>
    ensures { IfOk result (λ tally. IsTally tally.entries calls.now) }
{
    let mut tally = BTreeMap::new(alloc);
    for call in calls {
        add(&mut tally, alloc, call)?;
    }
    Ok(tally)
}

/// How often the line comes.
pub fn count_of(tally: &Tally, line: &Bytes) -> u64
    ensures { result ≡ count_of line.now tally.now.entries }
{
    match tally.get(line) {
        Some(count) => *count,
        None => 0,
    }
}
