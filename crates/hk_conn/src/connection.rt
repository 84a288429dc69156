//! A connection: what comes is answered, and written.

ghost use Rattle.std.specs.Prelude.{◌≡◌, ◌≤◌, ◌<◌, ◌-◌, ℕ, [], take, length, Ok, Err, IfOk, OnOk, OnErr};
ghost use Rattle.std.specs.Io.KnownBytes.{Appends, WriteAppends};
ghost use Rattle.std.specs.Io.{WritesAtMost};
ghost use Rattle.hk_outside.specs.Causes.{Rose};
ghost use Rattle.hk_conn.specs.Ends.{Serves};
ghost use Rattle.hk_conn.specs.Turns.{IsReader};
ghost use Rattle.hk_conn.specs.Exchange.{IsAnswered, IsIdle, place_in};
ghost use Rattle.hk_conn.specs.Responding.{Responds};
ghost use Rattle.hk_conn.specs.declared.said.Stop.TheVariants as stop;
ghost use Rattle.hk_conn.specs.Pending.{FinishesAll};
ghost use Rattle.hk_conn.specs.Serving.{Passes};

use crate::ends::ConnEnd;
use crate::exchange::Exchange;
use crate::pending::{PendingUpdate, finish_all, let_go};
use crate::said::Stop;
use crate::step::take_step;
use hk_base::Memory;
use hk_outside::{Connection, Desk, Failed, Sink, Source};
use std::alloc::Global;
use std::collections::VecDeque;

// Waits for all that wait, where some do.
fn hear_all<D: Desk>(
    alloc: Global,
    desk: &mut D,
    updates: &mut VecDeque<PendingUpdate<D::Waits>>,
    out: &mut Vec<u8>,
) -> Result<(), Memory>
    ensures { FinishesAll D.will result (D.asks desk.old) (D.asks desk.new) updates.old.items updates.new.items out.old.items out.new.items }
{
    if updates.len() == 0 {
        return Ok(());
    }
    finish_all(alloc, desk, updates, out)
}

// Steps, until nothing is held any more.
fn pass<D: Desk>(
    alloc: Global,
    desk: &mut D,
    exchange: &mut Exchange<D::Waits>,
    patience: u32,
) -> Result<Stop, Memory>
    requires patience { 1 ≤ patience }
    requires idle { IsIdle exchange.old }
    requires full { exchange.old.stop ≡ stop.Full }
    requires reader { IsReader exchange.old.reader.cutter exchange.old.reader.pending }
    ensures passes { Passes result (patience - 1) (D.asks desk.old) (D.asks desk.new) [] exchange.new.out.items (place_in exchange.old) (place_in exchange.new) }
    ensures answered { IfOk result (λ stop. IsAnswered stop exchange.new) }
{
    loop {
        match take_step(alloc, desk, exchange, patience, u32::MAX) {
            Ok(()) => {}
            Err(memory) => {
                let_go(desk, &mut exchange.updates);
                return Err(memory);
            }
        }
        match hear_all(alloc, desk, &mut exchange.updates, &mut exchange.out) {
            Ok(()) => {}
            Err(memory) => return Err(memory),
        }
        if exchange.held.is_none() {
            return Ok(exchange.stop);
        }
    }
}

// Writes a front of the text, which leaves what is to be read.
fn write_some<C: Connection>(conn: &mut C, text: &[u8]) -> Result<usize, Failed>
    ensures bound { WritesAtMost result text.now }
    ensures bytes { WriteAppends (C.held conn.old) (C.held conn.new) result text.now }
    ensures later { C.Sink.faults conn.old ≤ C.Sink.faults conn.new }
    ensures failed { OnErr result (Rose (C.Sink.faults conn.old) (C.Sink.faults conn.new)) }
    ensures took_none { result ≡ Ok 0 → 0 < length text.now → Rose (C.Sink.faults conn.old) (C.Sink.faults conn.new) }
    ensures left { C.left conn.new ≡ C.left conn.old }
    ensures given { C.Source.given conn.new ≡ C.Source.given conn.old }
    ensures reads { C.Source.faults conn.new ≡ C.Source.faults conn.old }
{
    conn.write(text)
}

// Writes all of the text, or a front of it.
fn write_all<C: Connection>(conn: &mut C, text: &[u8]) -> Result<(), Failed>
    ensures all { OnOk result (Appends (C.held conn.old) (C.held conn.new) text.now) }
    ensures front { (n : ℕ) × Appends (C.held conn.old) (C.held conn.new) (take n text.now) }
    ensures later { C.Sink.faults conn.old ≤ C.Sink.faults conn.new }
    ensures failed { OnErr result (Rose (C.Sink.faults conn.old) (C.Sink.faults conn.new)) }
    ensures left { C.left conn.new ≡ C.left conn.old }
    ensures given { C.Source.given conn.new ≡ C.Source.given conn.old }
    ensures reads { C.Source.faults conn.new ≡ C.Source.faults conn.old }
{
    let mut at = 0;
    while at < text.len() {
        let (_, rest) = text.split_at(at);
        let Ok(count) = write_some(conn, rest) else {
            return Err(Failed);
        };
        if count == 0 {
            return Err(Failed);
        }
        at += count;
    }
    Ok(())
}

// Answers all that was said so far, and writes the replies: at once, unless they pass the size of a write.
fn respond<C: Connection, D: Desk>(
    alloc: Global,
    conn: &mut C,
    desk: &mut D,
    exchange: &mut Exchange<D::Waits>,
    patience: u32,
) -> Result<Stop, ConnEnd>
    requires patience { 1 ≤ patience }
    requires idle { IsIdle exchange.old }
    requires full { exchange.old.stop ≡ stop.Full }
    requires reader { IsReader exchange.old.reader.cutter exchange.old.reader.pending }
    ensures responds { Responds result (patience - 1) (C.held conn.old) (C.held conn.new) (D.asks desk.old) (D.asks desk.new) (place_in exchange.old) (place_in exchange.new) }
    ensures idle { IfOk result (λ stop. IsIdle exchange.new × (exchange.new.stop ≡ stop)) }
    ensures left { C.left conn.new ≡ C.left conn.old }
    ensures given { C.Source.given conn.new ≡ C.Source.given conn.old }
    ensures reads { C.Source.faults conn.new ≡ C.Source.faults conn.old }
    ensures later { C.Sink.faults conn.old ≤ C.Sink.faults conn.new }
    ensures failed { result ≡ Err ConnEnd.WriteFault → Rose (C.Sink.faults conn.old) (C.Sink.faults conn.new) }
{
    loop {
        let stop = match pass(alloc, desk, exchange, patience) {
            Ok(stop) => stop,
            Err(_) => return Err(ConnEnd::Memory),
        };
        match write_all(conn, exchange.out.as_slice()) {
            Ok(()) => {}
            Err(_) => return Err(ConnEnd::WriteFault),
        }
        exchange.all_written();
        match stop {
            Stop::Full => {}
            _ => return Ok(stop),
        }
    }
}

/// Serves one connection by a desk, which is asked at most `patience` times for one key of one request.
///
/// Replies are written before the connection is read again: all to one read in one write, unless they pass 64 KiB.
/// The replies to what was read before the connection ended are written, but for those that the end itself keeps
/// back, `Memory` and `WriteFault`, where a front of them is.
pub fn serve_connection<C: Connection, D: Desk>(
    alloc: Global,
    conn: &mut C,
    desk: &mut D,
    patience: u32,
) -> ConnEnd
    requires { 1 ≤ patience }
    // What was asked and written is what is served for the bytes that were read and what the desk told.
    ensures served { Serves patience result (C.left conn.old) (C.left conn.new) (C.Source.given conn.old) (C.Source.given conn.new) (C.held conn.old) (C.held conn.new) (D.asks desk.old) (D.asks desk.new) }
    ensures read_fault { result ≡ ConnEnd.ReadFault → Rose (C.Source.faults conn.old) (C.Source.faults conn.new) }
    ensures write_fault { result ≡ ConnEnd.WriteFault → Rose (C.Sink.faults conn.old) (C.Sink.faults conn.new) }
{
    let Ok(mut exchange) = Exchange::new(alloc) else {
        return ConnEnd::Memory;
    };
    for _read in 0..u32::MAX {
        let count = match exchange.read(conn) {
            Ok(count) => count,
            Err(end) => return end,
        };
        if count == 0 {
            return ConnEnd::End;
        }
        let stop = match respond(alloc, conn, desk, &mut exchange, patience) {
            Ok(stop) => stop,
            Err(end) => return end,
        };
        match stop {
            Stop::Quit => return ConnEnd::Quit,
            Stop::TooLong => return ConnEnd::TooLong,
            _ => {}
        }
    }
    ConnEnd::Spent {
        reads: u64::from(u32::MAX),
    }
}
