//! Updates that wait at the desk, while others are asked.

ghost use Rattle.std.specs.Prelude.{◌≡◌, ◌≤◌, ◌-◌, ◌++◌, true, false, OnOk};
ghost use Rattle.hk_conn.specs.Said.{is_last};
ghost use Rattle.hk_conn.specs.Asking.{told};
ghost use Rattle.hk_conn.specs.Answering.{Answers};
ghost use Rattle.hk_conn.specs.Exchange.{HearsNext, Joins};
ghost use Rattle.hk_conn.specs.Served.{update_text};
ghost use Rattle.hk_conn.specs.Pending.{AnswersPending, FinishesAll, FinishesUpdates, FinishesOne, LetsGo, LetsOneGo};

use crate::answer::put_told;
use crate::exchange::Exchange;
use crate::hear::{hear, hear_on};
use crate::said::Said;
use hk_base::{Key, Memory, Op};
use hk_outside::{Begun, Desk, DeskReply};
use hk_request::Request;
use std::alloc::Global;
use std::collections::VecDeque;
use std::mem;

// So many updates wait at most.
const MOST: usize = 64;

/// An update that waits at the desk, with the replies to what was said before it, and behind those that wait before it.
#[derive(Drop)]
pub struct PendingUpdate<W> {
    pub front: Vec<u8>,
    pub key: Key,
    pub noreply: bool,
    pub waits: W,
}

fn put(out: &mut Vec<u8>, text: Vec<u8>) -> Result<(), Memory>
    ensures { OnOk result (out.new.items ≡ out.old.items ++ text.items) }
{
    if out.is_empty() {
        *out = text;
        return Ok(());
    }
    out.extend_from_slice(text.as_slice())?;
    Ok(())
}

fn put_pending(
    out: &mut Vec<u8>,
    front: Vec<u8>,
    heard: Result<DeskReply, Memory>,
    noreply: bool,
) -> Result<(), Memory>
    ensures { OnOk result (out.new.items ≡ out.old.items ++ (front.items ++ update_text noreply (told heard))) }
{
    match put(out, front) {
        Ok(()) => put_told(out, heard, noreply),
        Err(memory) => Err(memory),
    }
}

// Finishes one of them, and puts its reply.
fn finish_one<D: Desk>(
    desk: &mut D,
    pending: PendingUpdate<D::Waits>,
    out: &mut Vec<u8>,
) -> Result<(), Memory>
    ensures { FinishesOne D.will pending result (D.asks desk.old) (D.asks desk.new) out.old.items out.new.items }
{
    let PendingUpdate {
        front,
        noreply,
        waits,
        ..
    } = pending;
    let heard = desk.finish(waits);
    put_pending(out, front, heard, noreply)
}

// Finishes one of them, whose reply is not put.
fn let_one_go<D: Desk>(desk: &mut D, pending: PendingUpdate<D::Waits>)
    ensures { LetsOneGo D.will pending (D.asks desk.old) (D.asks desk.new) }
{
    let PendingUpdate { waits, .. } = pending;
    let _ = desk.finish(waits);
}

/// Finishes them. No reply is put.
pub fn let_go<D: Desk>(desk: &mut D, updates: &mut VecDeque<PendingUpdate<D::Waits>>)
    ensures { LetsGo D.will (D.asks desk.old) (D.asks desk.new) updates.old.items updates.new.items }
{
    while let Some(pending) = updates.pop_front() {
        let_one_go(desk, pending);
    }
}

// Finishes them, and puts their replies, with those before each.
fn finish_updates<D: Desk>(
    desk: &mut D,
    updates: &mut VecDeque<PendingUpdate<D::Waits>>,
    out: &mut Vec<u8>,
) -> Result<(), Memory>
    ensures { FinishesUpdates D.will result (D.asks desk.old) (D.asks desk.new) updates.old.items updates.new.items out.old.items out.new.items }
{
    while let Some(pending) = updates.pop_front() {
        match finish_one(desk, pending, out) {
            Ok(()) => {}
            Err(memory) => {
                let_go(desk, updates);
                return Err(memory);
            }
        }
    }
    Ok(())
}

/// Finishes all that wait, and puts their replies before what was put behind them.
pub fn finish_all<D: Desk>(
    alloc: Global,
    desk: &mut D,
    updates: &mut VecDeque<PendingUpdate<D::Waits>>,
    out: &mut Vec<u8>,
) -> Result<(), Memory>
    ensures { FinishesAll D.will result (D.asks desk.old) (D.asks desk.new) updates.old.items updates.new.items out.old.items out.new.items }
{
    let behind = mem::replace(out, Vec::new(alloc));
    match finish_updates(desk, updates, out) {
        Ok(()) => put(out, behind),
        Err(memory) => Err(memory),
    }
}

/// Waits for what is told of the update that has waited longest, and puts its reply, where one waits.
///
/// After an `Err` the others are still to be told, and nothing else can be done.
pub fn hear_next<D: Desk>(
    alloc: Global,
    desk: &mut D,
    exchange: &mut Exchange<D::Waits>,
) -> Result<(), Memory>
    ensures { HearsNext D.will result (D.asks desk.old) (D.asks desk.new) exchange.old exchange.new }
{
    let Some(pending) = exchange.updates.pop_front() else {
        return Ok(());
    };
    match finish_one(desk, pending, &mut exchange.told) {
        Ok(()) => join(alloc, exchange),
        Err(memory) => Err(memory),
    }
}

// Once none waits the replies are one text.
fn join<W>(alloc: Global, exchange: &mut Exchange<W>) -> Result<(), Memory>
    ensures { Joins result exchange.old exchange.new }
{
    if exchange.updates.len() > 0 {
        return Ok(());
    }
    let told = mem::replace(&mut exchange.told, Vec::new(alloc));
    let behind = mem::replace(&mut exchange.out, told);
    put(&mut exchange.out, behind)
}

fn has_key<W>(updates: &VecDeque<PendingUpdate<W>>, key: &Key) -> bool {
    updates.iter().any(|pending| pending.key == *key)
}

fn has_one_of<W>(updates: &VecDeque<PendingUpdate<W>>, keys: &[Key]) -> bool {
    keys.iter().any(|key| has_key(updates, key))
}

// Whether this names the key of one of them, or they are as many as may wait.
fn names_one<W>(updates: &VecDeque<PendingUpdate<W>>, request: &Request) -> bool {
    if updates.len() >= MOST {
        return true;
    }
    match request {
        Request::Update { key, .. } => has_key(updates, key),
        Request::Get { keys, .. } => has_one_of(updates, keys.as_slice()),
        _ => false,
    }
}

/// Whether those that wait are to be told before this is answered.
pub fn is_held_up<W>(updates: &VecDeque<PendingUpdate<W>>, said: &Said) -> bool
    ensures { result ≡ true → is_last said.now ≡ false }
{
    if updates.is_empty() {
        return false;
    }
    match said {
        Said::Asked(request) => names_one(updates, request),
        _ => false,
    }
}

// Asks an update that does not wait beside others.
fn ask<D: Desk>(
    desk: &mut D,
    patience: u32,
    key: &Key,
    op: &Op,
    noreply: bool,
    out: &mut Vec<u8>,
) -> Result<(), Memory>
    requires { 1 ≤ patience }
    ensures { Answers result (patience - 1) (D.asks desk.old) (D.asks desk.new) out.old.items out.new.items (Said.Asked (Request.Update key.now op.now noreply)) }
{
    let heard = hear(desk, key, op, patience);
    put_told(out, heard, noreply)
}

// Asks an update. Where it waits, the replies so far stand before it. Where there is no memory to keep what waits, it is told at once.
fn begin<D: Desk>(
    alloc: Global,
    desk: &mut D,
    patience: u32,
    key: Key,
    op: &Op,
    noreply: bool,
    updates: &mut VecDeque<PendingUpdate<D::Waits>>,
    out: &mut Vec<u8>,
) -> Result<(), Memory>
    requires { 1 ≤ patience }
    ensures { AnswersPending D.will result (patience - 1) (D.asks desk.old) (D.asks desk.new) updates.old.items updates.new.items out.old.items out.new.items (Said.Asked (Request.Update key op.now noreply)) }
{
    if updates.reserve(1).is_err() {
        return ask(desk, patience, &key, op, noreply, out);
    }
    match desk.begin(&key, op) {
        Ok(Begun::Waits(waits)) => {
            let front = mem::replace(out, Vec::new(alloc));
            updates.push_back_reserved(PendingUpdate {
                front,
                key,
                noreply,
                waits,
            });
            Ok(())
        }
        Ok(Begun::Told(reply)) => {
            let heard = hear_on(desk, &key, op, patience, Ok(reply));
            put_told(out, heard, noreply)
        }
        Err(memory) => {
            let heard = hear_on(desk, &key, op, patience, Err(memory));
            put_told(out, heard, noreply)
        }
    }
}

/// Asks an update, which may wait where there is memory to keep it.
pub fn update<D: Desk>(
    alloc: Global,
    desk: &mut D,
    patience: u32,
    key: &Key,
    op: &Op,
    noreply: bool,
    updates: &mut VecDeque<PendingUpdate<D::Waits>>,
    out: &mut Vec<u8>,
) -> Result<(), Memory>
    requires { 1 ≤ patience }
    ensures { AnswersPending D.will result (patience - 1) (D.asks desk.old) (D.asks desk.new) updates.old.items updates.new.items out.old.items out.new.items (Said.Asked (Request.Update key.now op.now noreply)) }
{
    let Ok(kept) = key.share() else {
        return ask(desk, patience, key, op, noreply, out);
    };
    begin(alloc, desk, patience, kept, op, noreply, updates, out)
}
