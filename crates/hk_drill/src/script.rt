//! A script whose bytes come in pieces.

ghost use Rattle.std.specs.Prelude.{◌≡◌, ◌+◌, ◌++◌, ◌≤◌, [], ℕ, List, length, IfOk, Some, None};
ghost use Rattle.hk_drill.specs.declared.line.TheConstants.{MAX_LINE_LEN};
ghost use Rattle.hk_drill.specs.Progress.{HasNoFeed, IsAt, IsAfter, IsPassed, IsCounted, IsBegun, IsRest, begun_by, number_after, part_limit};

use crate::drill_state::DrillState;
use crate::line::{is_skipped, limit_at};
use crate::stop::Stop;
use hk_base::Memory;
use hk_script::read_header;
use memchr::memchr;
use std::alloc::Global;
use std::mem;

/// A script as far as its bytes have come. It holds no line but the part of the one whose feed has not come.
#[derive(Drop)]
pub(crate) struct Script {
    /// The number of the line that is being read.
    pub(crate) number: u64,
    /// What of that line has come.
    pub(crate) line: Vec<u8>,
    /// What the lines behind the header made; None before the header.
    pub(crate) state: Option<DrillState>,
    /// What the lines told and is not written yet.
    pub(crate) text: Vec<u8>,
    /// Whether the batches of its run are noted.
    batched: bool,
}

// Takes a line before the header: it says nothing, or it is the header.
fn begin(
    alloc: Global,
    line: &[u8],
    batched: bool,
    state: &mut Option<DrillState>,
) -> Result<Option<Stop>, Memory>
    requires { state.old ≡ None }
    ensures { IfOk result (λ stop. IsBegun stop state.new (begun_by line.now)) }
{
    if is_skipped(line) {
        return Ok(None);
    }
    let Ok(header) = read_header(line) else {
        return Ok(Some(Stop::Bad));
    };
    *state = Some(DrillState::new(alloc, header, batched)?);
    Ok(None)
}

// Takes line `number`, and tells why the script stops there, if it does.
fn pass_line(
    alloc: Global,
    number: u64,
    line: &[u8],
    batched: bool,
    state: &mut Option<DrillState>,
    text: &mut Vec<u8>,
) -> Result<Option<Stop>, Memory>
    requires { IsCounted number state.old }
    ensures passed { IfOk result (λ stop. IsPassed stop number line.now state.old state.new text.old.items text.new.items) }
    ensures counted { IfOk result (λ stop. stop ≡ None → IsCounted (number + 1) state.new) }
{
    if let Some(stop) = limit_at(number, line) {
        return Ok(Some(stop));
    }
    if let Some(state) = state {
        return state.take_line(alloc, line, text);
    }
    begin(alloc, line, batched, state)
}

impl Script {
    /// A script of which nothing has come. If it is `batched`, the batches of its run are noted.
    pub(crate) fn new(alloc: Global, batched: bool) -> Script
        ensures at { IsAt [] [] result.number result.line.items result.state }
        ensures counted { IsCounted result.number result.state }
        ensures text { result.text.items ≡ [] }
    {
        Script {
            number: 1,
            line: Vec::new(alloc),
            state: None,
            text: Vec::new(alloc),
            batched,
        }
    }

    // Takes the line that is being read.
    fn take_line(&mut self, alloc: Global, line: &[u8]) -> Result<Option<Stop>, Memory>
        requires { IsCounted self.old.number self.old.state }
        ensures passed { IfOk result (λ stop. IsPassed stop self.old.number line.now self.old.state self.new.state self.old.text.items self.new.text.items) }
        ensures number { IfOk result (λ stop. self.new.number ≡ number_after stop self.old.number) }
        ensures counted { IfOk result (λ stop. stop ≡ None → IsCounted self.new.number self.new.state) }
        ensures line { self.new.line ≡ self.old.line }
    {
        let stop = pass_line(
            alloc,
            self.number,
            line,
            self.batched,
            &mut self.state,
            &mut self.text,
        )?;
        if stop.is_none() {
            self.number += 1;
        }
        Ok(stop)
    }

    // Takes the line that is being read, whose last bytes and feed have come.
    fn end_line(&mut self, alloc: Global, last: &[u8]) -> Result<Option<Stop>, Memory>
        requires { IsCounted self.old.number self.old.state }
        ensures passed { IfOk result (λ stop. IsPassed stop self.old.number (self.old.line.items ++ last.now) self.old.state self.new.state self.old.text.items self.new.text.items) }
        ensures number { IfOk result (λ stop. self.new.number ≡ number_after stop self.old.number) }
        ensures counted { IfOk result (λ stop. stop ≡ None → IsCounted self.new.number self.new.state) }
        ensures line { IfOk result (λ stop. self.new.line.items ≡ []) }
    {
        if self.line.is_empty() {
            return self.take_line(alloc, last);
        }
        let mut line = mem::replace(&mut self.line, Vec::new(alloc));
        line.extend_from_slice(last)?;
        self.take_line(alloc, line.as_slice())
    }

    // Keeps bytes without a feed, and tells the limit that the line passes already, if it does.
    fn keep(&mut self, part: &[u8]) -> Result<Option<Stop>, Memory>
        ensures line { IfOk result (λ stop. self.new.line.items ≡ self.old.line.items ++ part.now) }
        ensures limit { IfOk result (λ stop. stop ≡ part_limit self.old.number self.new.line.items) }
        ensures same { (self.new.number ≡ self.old.number) × (self.new.state ≡ self.old.state) × (self.new.text ≡ self.old.text) }
    {
        self.line.extend_from_slice(part)?;
        if self.line.is_empty() {
            return Ok(None);
        }
        Ok(limit_at(self.number, self.line.as_slice()))
    }

    /// Takes the next bytes, and tells why the script stops, if it does: at a line whose feed is among them, or at one that has begun
    /// and passes a limit.
    pub(crate) fn feed(&mut self, alloc: Global, piece: &[u8]) -> Result<Option<Stop>, Memory>
        requires { IsCounted self.old.number self.old.state }
        ensures after { IfOk result (λ stop. (read out : List ℕ) → IsAt read (out ++ self.old.text.items) self.old.number self.old.line.items self.old.state
            → IsAfter stop (read ++ piece.now) (out ++ self.new.text.items) self.new.number self.new.line.items self.new.state) }
        ensures counted { IfOk result (λ stop. stop ≡ None → IsCounted self.new.number self.new.state) }
    {
        let mut at = 0;
        loop {
            let (_, rest) = piece.split_at(at);
            let Some(end) = memchr(b'\n', rest) else {
                return self.keep(rest);
            };
            if let Some(stop) = self.end_line(alloc, &rest[..end])? {
                return Ok(Some(stop));
            }
            at += end + 1;
        }
    }

    /// Takes the part of a line that has come as the last line, if it has a byte.
    pub(crate) fn take_rest(&mut self, alloc: Global) -> Result<Option<Stop>, Memory>
        requires counted { IsCounted self.old.number self.old.state }
        requires part { HasNoFeed self.old.line.items }
        ensures { IfOk result (λ stop. IsRest stop self.old.number self.old.line.items self.old.state self.new.number self.new.state self.old.text.items self.new.text.items) }
    {
        if self.line.is_empty() {
            return Ok(None);
        }
        let line = mem::replace(&mut self.line, Vec::new(alloc));
        self.take_line(alloc, line.as_slice())
    }
}
