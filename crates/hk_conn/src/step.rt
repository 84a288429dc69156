//! Steps of an exchange: what was said is answered.

ghost use Rattle.std.specs.Prelude.{◌≡◌, ◌≤◌, ◌-◌, None, Some, [], IsSome};
ghost use Rattle.hk_conn.specs.Calls.{PiecesAndPauses};
ghost use Rattle.hk_conn.specs.Exchange.{IsExchange, TakesStep};
ghost use Rattle.hk_conn.specs.Pending.{AnswersPending, RepliesPending};
ghost use Rattle.hk_conn.specs.Serving.{stop_at};
ghost use Rattle.hk_conn.specs.Turns.{IsReader};
ghost use Rattle.hk_conn.specs.declared.said.Stop.TheVariants as stop;

use crate::answer::{put_plain, put_values};
use crate::exchange::Exchange;
use crate::pending::{PendingUpdate, is_held_up, update};
use crate::said::{ReaderStep, Said, Stop};
use hk_base::Memory;
use hk_outside::Desk;
use hk_request::Request;
use std::alloc::Global;
use std::collections::VecDeque;

// From this length on the replies to one read are not kept together.
const WRITE_SIZE: usize = 65_536;

/// Answers what was said so far, or as much of it as passes the size of a write, and at most so many things. Updates wait
/// at the desk together, until one has to be told before more is answered. Each key of a request is asked at most
/// `patience` times. Where replies are written in part, nothing is done.
///
/// After an `Err` the updates that wait are still to be told, and nothing else can be done.
pub fn take_step<D: Desk>(
    alloc: Global,
    desk: &mut D,
    exchange: &mut Exchange<D::Waits>,
    patience: u32,
    most: u32,
) -> Result<(), Memory>
    requires patience { 1 ≤ patience }
    requires most { 1 ≤ most }
    requires exchange { IsExchange exchange.old }
    ensures { TakesStep D.will result (patience - 1) (D.asks desk.old) (D.asks desk.new) exchange.old exchange.new }
{
    if exchange.at > 0 {
        return Ok(());
    }
    if exchange.held.is_some() {
        return step_behind(alloc, desk, exchange, patience, most);
    }
    match exchange.stop {
        Stop::Full => step(alloc, desk, exchange, patience, most),
        _ => Ok(()),
    }
}

// The same where something is held: it is answered first, once no update waits.
#[inline(never)]
fn step_behind<D: Desk>(
    alloc: Global,
    desk: &mut D,
    exchange: &mut Exchange<D::Waits>,
    patience: u32,
    most: u32,
) -> Result<(), Memory>
    requires patience { 1 ≤ patience }
    requires most { 1 ≤ most }
    requires exchange { IsExchange exchange.old }
    requires held { IsSome exchange.old.held }
    requires unwritten { exchange.old.at ≡ 0 }
    ensures { TakesStep D.will result (patience - 1) (D.asks desk.old) (D.asks desk.new) exchange.old exchange.new }
{
    if exchange.updates.len() > 0 {
        return Ok(());
    }
    let Some(held) = exchange.held.take() else {
        return Ok(());
    };
    match reply(
        alloc,
        desk,
        patience,
        held,
        &mut exchange.updates,
        &mut exchange.out,
    ) {
        Ok(None) => step(alloc, desk, exchange, patience, most),
        Ok(Some(stop)) => {
            exchange.stop = stop;
            Ok(())
        }
        Err(memory) => Err(memory),
    }
}

// Whether the replies so far pass the size of a write.
fn is_full<W>(updates: &VecDeque<PendingUpdate<W>>, out: &Vec<u8>) -> bool {
    let mut length = out.len();
    for pending in updates.iter() {
        length = length.saturating_add(pending.front.len());
    }
    length > WRITE_SIZE
}

fn hold(held: &mut Option<Said>, said: Said)
    ensures { held.new ≡ Some said }
{
    *held = Some(said);
}

// Answers what is said next, and so on.
fn step<D: Desk>(
    alloc: Global,
    desk: &mut D,
    exchange: &mut Exchange<D::Waits>,
    patience: u32,
    most: u32,
) -> Result<(), Memory>
    requires patience { 1 ≤ patience }
    requires reader { IsReader exchange.old.reader.cutter exchange.old.reader.pending }
    requires held { exchange.old.held ≡ None }
    requires full { exchange.old.stop ≡ stop.Full }
    requires unwritten { exchange.old.at ≡ 0 }
    ensures { TakesStep D.will result (patience - 1) (D.asks desk.old) (D.asks desk.new) exchange.old exchange.new }
{
    let mut more = most;
    loop {
        match exchange.reader.turn(alloc) {
            Ok(ReaderStep::Need) => {
                exchange.stop = Stop::Need;
                return Ok(());
            }
            Ok(ReaderStep::Head) => {}
            Ok(ReaderStep::Says(said)) => {
                if is_held_up(&exchange.updates, &said) {
                    hold(&mut exchange.held, said);
                    return Ok(());
                }
                match reply(
                    alloc,
                    desk,
                    patience,
                    said,
                    &mut exchange.updates,
                    &mut exchange.out,
                ) {
                    Ok(None) => {}
                    Ok(Some(stop)) => {
                        exchange.stop = stop;
                        return Ok(());
                    }
                    Err(memory) => return Err(memory),
                }
                if is_full(&exchange.updates, &exchange.out) {
                    return Ok(());
                }
                more = more.saturating_sub(1);
                if more == 0 {
                    return Ok(());
                }
            }
            Err(memory) => return Err(memory),
        }
    }
}

// Answers what was said, or has it wait. Always inlined, so that the loop of what is said next makes no call for it.
#[inline(always)]
fn reply<D: Desk>(
    alloc: Global,
    desk: &mut D,
    patience: u32,
    said: Said,
    updates: &mut VecDeque<PendingUpdate<D::Waits>>,
    out: &mut Vec<u8>,
) -> Result<Option<Stop>, Memory>
    requires { 1 ≤ patience }
    ensures replies { RepliesPending D.will result (patience - 1) (D.asks desk.old) (D.asks desk.new) updates.old.items updates.new.items out.old.items out.new.items said }
    ensures waits { updates.new.items ≡ [] → updates.old.items ≡ [] }
{
    match answer(alloc, desk, patience, &said, updates, out) {
        Ok(()) => Ok(stop_at(&said)),
        Err(memory) => Err(memory),
    }
}

// Appends the reply to what was said, or has an update wait, behind the replies so far.
fn answer<D: Desk>(
    alloc: Global,
    desk: &mut D,
    patience: u32,
    said: &Said,
    updates: &mut VecDeque<PendingUpdate<D::Waits>>,
    out: &mut Vec<u8>,
) -> Result<(), Memory>
    requires { 1 ≤ patience }
    ensures { AnswersPending D.will result (patience - 1) (D.asks desk.old) (D.asks desk.new) updates.old.items updates.new.items out.old.items out.new.items said.now }
{
    match said {
        Said::Asked(Request::Get { keys, tags }) => {
            put_values(desk, patience, keys.as_slice(), *tags, out)
        }
        Said::Asked(Request::Update { key, op, noreply }) => {
            update(alloc, desk, patience, key, op, *noreply, updates, out)
        }
        Said::Asked(Request::Version) => put_plain(out, said),
        Said::Asked(Request::Quit) => put_plain(out, said),
        Said::Refused(_) => put_plain(out, said),
        Said::BadEnd { .. } => put_plain(out, said),
        Said::LongLine => put_plain(out, said),
        Said::Left => put_plain(out, said),
    }
}

fn stop_at(said: &Said) -> Option<Stop>
    ensures { result ≡ stop_at said.now }
{
    match said {
        Said::Left => Some(Stop::Quit),
        Said::LongLine => Some(Stop::TooLong),
        Said::Asked(_) | Said::Refused(_) | Said::BadEnd { .. } => None,
    }
}

/// Whatever pieces and pauses a loop gives an exchange, at each rest what was written is the same function, `served`, of
/// the bytes that came and of what the desk told.
pub fn pieces_and_pauses_do_not_matter<D: Desk>()
    ensures { PiecesAndPauses D.will }
{}
