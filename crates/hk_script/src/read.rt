//! The readers.

ghost use Rattle.std.specs.Prelude.{◌≡◌, IfSome, OnErr, Some, Err};
ghost use Rattle.hk_script.specs.declared.fault.LineFault.TheVariants.{Bad};
ghost use Rattle.hk_script.specs.Parts.{Reads, number_of};
ghost use Rattle.hk_script.specs.Lines.{event_of};
ghost use Rattle.hk_script.specs.Reading.{IsNumberRead, IsEventRead, IsHeaderRead};

use crate::event::event;
use crate::fault::LineFault;
use crate::header::header;
use crate::words::{Words, cut, is, number, split};
use hk_base::Memory;
use hk_event::{Event, Header};
use std::alloc::Global;

/// Reads the header of a script: `group N managers M lease L skew E`, with N from 1 to 16, M from 0 to 9, and L and E times.
pub fn read_header(line: &[u8]) -> Result<Header, LineFault>
    ensures exact { IsHeaderRead result line.now }
    // Nothing is allocated.
    ensures told { OnErr result (result ≡ Err Bad) }
{
    match header(line) {
        Some(header) => Ok(header),
        None => Err(LineFault::Bad),
    }
}

// The event of a line that takes a letter, as most lines do. So its words need no list.
fn taken(line: &[u8]) -> Option<Event>
    ensures { IfSome result (λ event. event_of line.now ≡ Some event) }
{
    let (name, word) = cut(line)?;
    if !is(name, b"take") {
        return None;
    }
    let letter = number(u64::MAX, word)?;
    Some(Event::Take { letter })
}

fn event_in(alloc: Global, line: &[u8]) -> Result<Option<Event>, Memory>
    ensures { Reads result (event_of line.now) }
{
    if let Some(event) = taken(line) {
        return Ok(Some(event));
    }
    let mut words = Words::new(alloc);
    split(&mut words, line)?;
    event(alloc, words.as_slice())
}

/// Reads the line of an event, without its line feed.
pub fn read_event(alloc: Global, line: &[u8]) -> Result<Event, LineFault>
    ensures { IsEventRead result line.now }
{
    match event_in(alloc, line) {
        Ok(Some(event)) => Ok(event),
        Ok(None) => Err(LineFault::Bad),
        Err(_) => Err(LineFault::Memory),
    }
}

/// The number up to a limit whose decimal digits, with no spare zero, the word is. Nothing is allocated.
pub fn read_number(limit: u64, word: &[u8]) -> Option<u64>
    ensures exact { IsNumberRead result limit word.now }
    ensures digits { result ≡ number_of limit word.now }
{
    number(limit, word)
}
