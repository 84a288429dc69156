//! A turn of a connection: what can be done of it now.

ghost use Rattle.std.specs.Prelude.{◌≡◌, ◌<◌, ◌≤◌, ◌-◌, ℕ, length, IfOk};
ghost use Rattle.std.specs.Io.{ReadsAtMost, WritesAtMost};
ghost use Rattle.std.specs.Io.KnownBytes.{ReadConsumes, WriteAppends};
ghost use Rattle.hk_conn.specs.Exchange.{IsExchange};
ghost use Rattle.hk_hosts.specs.Now.{read_of, written_of};
ghost use Rattle.hk_loops.specs.Turns.{Answers, AreOneTurn, Exchanges, TakesTurn, TurnsServe};

use hk_base::Memory;
use hk_conn::{ConnEnd, Exchange, Owed, hear_next, take_step};
use hk_hosts::{Came, PromptConnection};
use hk_outside::{Connection, Desk, Failed};
use std::alloc::Global;
use std::sync::Wait;

// So many things that were said are answered in one turn.
const MOST: u32 = 64;

// So many updates of one connection wait at most.
const MOST_WAITING: u32 = 65;

/// What a connection waits for behind its turn.
#[derive(Clone, Copy, Debug, PartialEq, Eq)]
pub enum Turned {
    /// That its client sends more, or takes what is to be written.
    Waits,
    /// Nothing: it may go on at once.
    More,
    /// It is over.
    Over,
}

/// Others that may go on while a connection waits for what its updates are told.
pub trait Others {
    fn go_on<R: Wait>(&self, rt: &R);
}

// Writes what is taken of the text, which leaves what is to be read.
fn put_now<C: PromptConnection>(conn: &mut C, text: &[u8]) -> Result<Option<usize>, Failed>
    ensures within { WritesAtMost (written_of result) text.now }
    ensures bytes { WriteAppends (C.held conn.old) (C.held conn.new) (written_of result) text.now }
    ensures left { C.left conn.new ≡ C.left conn.old }
{
    conn.write_now(text)
}

// Reads what is there, which leaves what was written.
fn take_now<C: PromptConnection>(conn: &mut C, room: &mut [u8]) -> Result<Came, Failed>
    requires { 0 < length room.old }
    ensures within { ReadsAtMost (read_of result) room.new }
    ensures bytes { ReadConsumes (C.left conn.old) (C.left conn.new) (read_of result) room.new }
    ensures held { C.held conn.new ≡ C.held conn.old }
    ensures room { length room.new ≡ length room.old }
{
    conn.read_now(room)
}

// Writes what the client takes of the replies, and gives whether these are all.
#[tactic(auto, using(hk_conn::proofs::Sound::wrote_sound, crate::proofs::Turning::turn_same, crate::proofs::Turning::turn_wrote_none))]
fn write_some<C: PromptConnection, W: Drop>(
    conn: &mut C,
    exchange: &mut Exchange<W>,
) -> Result<bool, ConnEnd>
    requires { IsExchange exchange.old }
    ensures exchange { IfOk result (λ _. IsExchange exchange.new) }
    ensures turn { IfOk result (λ _. Exchanges (C.left conn.old) (C.left conn.new) (C.held conn.old) (C.held conn.new) exchange.old exchange.new) }
{
    let text = exchange.unwritten();
    if text.is_empty() {
        return Ok(true);
    }
    let length = text.len();
    match put_now(conn, text) {
        Ok(Some(0)) => Err(ConnEnd::WriteFault),
        Ok(Some(count)) => {
            exchange.written(count);
            Ok(count == length)
        }
        Ok(None) => Ok(false),
        Err(_) => Err(ConnEnd::WriteFault),
    }
}

// Takes what the client sent, where nothing else is due: else it takes nothing of it.
#[tactic(auto, using(hk_conn::proofs::Sound::given_sound, crate::proofs::Turning::turn_same, crate::proofs::Turning::turn_read_none, crate::proofs::Turning::turn_read_end, crate::proofs::Turning::turn_read))]
fn read_some<C: PromptConnection, W: Drop>(
    conn: &mut C,
    exchange: &mut Exchange<W>,
    room: &mut [u8],
) -> Result<Came, ConnEnd>
    requires exchange { IsExchange exchange.old }
    requires room { 0 < length room.old }
    ensures exchange { IfOk result (λ _. IsExchange exchange.new) }
    ensures room { length room.new ≡ length room.old }
    ensures turn { IfOk result (λ _. Exchanges (C.left conn.old) (C.left conn.new) (C.held conn.old) (C.held conn.new) exchange.old exchange.new) }
{
    if exchange.owed() != Owed::Bytes {
        return Ok(Came::Bytes(0));
    }
    match take_now(conn, room) {
        Ok(Came::Bytes(count)) => match exchange.give(&room[..count]) {
            Ok(()) => Ok(Came::Bytes(count)),
            Err(_) => Err(ConnEnd::Memory),
        },
        Ok(Came::Nothing) => Ok(Came::Nothing),
        Ok(Came::End) => Ok(Came::End),
        Err(_) => Err(ConnEnd::ReadFault),
    }
}

// Waits for what its updates are told, while others go on.
#[tactic(auto, using(hk_conn::proofs::Sound::heard_sound, crate::proofs::Turning::answers_none))]
fn hear_all<R: Wait, D: Desk, O: Others>(
    rt: &R,
    alloc: Global,
    desk: &mut D,
    exchange: &mut Exchange<D::Waits>,
    others: &O,
) -> Result<(), Memory>
    requires { IsExchange exchange.old }
    ensures exchange { IfOk result (λ _. IsExchange exchange.new) }
    ensures turn { IfOk result (λ _. (m : ℕ) → Answers D.will m (D.asks desk.old) (D.asks desk.new) exchange.old exchange.new) }
{
    if exchange.owed() != Owed::Hear {
        return Ok(());
    }
    others.go_on(rt);
    for _ in 0..MOST_WAITING {
        if exchange.owed() != Owed::Hear {
            return Ok(());
        }
        match hear_next(alloc, desk, exchange) {
            Ok(()) => {}
            Err(memory) => return Err(memory),
        }
    }
    Ok(())
}

// Nobody is to be told any more.
fn let_go<D: Desk>(alloc: Global, desk: &mut D, exchange: &mut Exchange<D::Waits>) {
    for _ in 0..MOST_WAITING {
        if exchange.owed() != Owed::Hear {
            return;
        }
        let _ = hear_next(alloc, desk, exchange);
    }
}

// Answers some of what was said.
#[tactic(auto, using(hk_conn::proofs::Sound::stepped_sound))]
fn answer<R: Wait, D: Desk, O: Others>(
    rt: &R,
    alloc: Global,
    desk: &mut D,
    exchange: &mut Exchange<D::Waits>,
    others: &O,
    patience: u32,
) -> Result<(), ConnEnd>
    requires patience { 1 ≤ patience }
    requires exchange { IsExchange exchange.old }
    ensures exchange { IfOk result (λ _. IsExchange exchange.new) }
    ensures turn { IfOk result (λ _. Answers D.will (patience - 1) (D.asks desk.old) (D.asks desk.new) exchange.old exchange.new) }
{
    match take_step(alloc, desk, exchange, patience, MOST) {
        Ok(()) => {}
        Err(_) => {
            let_go(alloc, desk, exchange);
            return Err(ConnEnd::Memory);
        }
    }
    match hear_all(rt, alloc, desk, exchange, others) {
        Ok(()) => Ok(()),
        Err(_) => {
            let_go(alloc, desk, exchange);
            Err(ConnEnd::Memory)
        }
    }
}

// What it waits for that may have more to read.
fn waits_for<W: Drop>(exchange: &Exchange<W>, has_more: bool) -> Turned {
    match exchange.owed() {
        Owed::Bytes => {
            if has_more {
                Turned::More
            } else {
                Turned::Waits
            }
        }
        Owed::Over => Turned::Over,
        Owed::Step | Owed::Hear | Owed::Write => Turned::More,
    }
}

/// Writes what the client takes of the replies, reads what it sent, once it has all of these, answers some of that, and writes again. Nothing waits for the client. Where
/// an update waits at the desk, it is waited for, and others may go on meanwhile. `ends` says that the client sends no more.
pub fn take_turn<R: Wait, C: PromptConnection, D: Desk, O: Others>(
    rt: &R,
    alloc: Global,
    conn: &mut C,
    desk: &mut D,
    exchange: &mut Exchange<D::Waits>,
    room: &mut [u8],
    others: &O,
    patience: u32,
    ends: bool,
) -> Result<Turned, ConnEnd>
    requires patience { 1 ≤ patience }
    requires room { 0 < length room.old }
    requires exchange { IsExchange exchange.old }
    ensures exchange { IfOk result (λ _. IsExchange exchange.new) }
    ensures room { length room.new ≡ length room.old }
    ensures turn { IfOk result (λ _. TakesTurn D.will (patience - 1) (D.asks desk.old) (D.asks desk.new) (C.left conn.old) (C.left conn.new) (C.held conn.old) (C.held conn.new) exchange.old exchange.new) }
{
    if !write_some(conn, exchange)? {
        return Ok(Turned::Waits);
    }
    let has_more = match read_some(conn, exchange, room)? {
        // Where nothing was to be read yet, something may have come.
        Came::Bytes(count) => ends || count == 0 || count == room.len(),
        Came::Nothing => return Ok(Turned::Waits),
        Came::End => return Ok(Turned::Over),
    };
    answer(rt, alloc, desk, exchange, others, patience)?;
    if !write_some(conn, exchange)? {
        return Ok(Turned::Waits);
    }
    Ok(waits_for(exchange, has_more))
}

/// Turns, one behind the other, are as one, and so is no turn at all.
pub fn turns_are_as_one<D: Desk>()
    ensures { AreOneTurn D.will }
{}

/// However many turns a new exchange takes, at each rest what was written is the same function, `served`, of the bytes that were read and of what the desk told.
pub fn turns_serve_what_is_said<D: Desk>()
    ensures { TurnsServe D.will }
{}
