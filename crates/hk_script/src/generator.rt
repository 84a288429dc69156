//! Events that are drawn from a number.

ghost use Rattle.std.specs.Prelude.{◌≡◌, ◌≤◌, ◌<◌, IfOk, min, decimal};
ghost use Rattle.rand_pcg.specs.Lcg.{Lcg};
ghost use Rattle.hk_script.specs.Drawn.{draw, key_drawn, update_drawn, op_drawn, ask_drawn, place_drawn, call_drawn, take_drawn, resend_drawn, replay_drawn, kind_drawn, event_drawn};

use crate::put::put_number;
use hk_base::{Content, Data, Key, Memory, NodeId, Op};
use hk_event::Event;
use rand_core::utils::NextWord;
use rand_pcg::Pcg32;
use std::alloc::Global;
use std::marker::Model;

// The next word, modulo n.
fn draw(numbers: &mut Pcg32, n: u32) -> u32
    requires { 1 ≤ n }
    ensures next { (result, numbers.new) ≡ draw n numbers.old }
    ensures below { result < n }
{
    numbers.next_word() % n
}

// The key `k` and a digit.
fn key(alloc: Global, digit: u32) -> Result<Key, Memory>
    requires { digit < 8 }
    ensures { IfOk result (λ key. key ≡ key_drawn digit) }
{
    Key::read(alloc, &[b'k', b'0' + digit as u8]).map_err(|_| Memory)
}

// A value as decimal digits.
fn digits(alloc: Global, value: u32) -> Result<Data, Memory>
    ensures { IfOk result (λ bytes. bytes ≡ decimal value) }
{
    let mut text = Vec::new(alloc);
    put_number(&mut text, u64::from(value))?;
    Data::read(alloc, text.as_slice()).map_err(|_| Memory)
}

fn update(alloc: Global, kind: u32, value: u32) -> Result<Op, Memory>
    ensures { IfOk result (λ op. op ≡ update_drawn kind value) }
{
    if kind == 1 {
        let bytes = digits(alloc, value)?;
        return Ok(Op::Write(Content { flags: 0, bytes }));
    }
    if kind == 2 {
        return Ok(Op::Incr(u64::from(value)));
    }
    Ok(Op::Decr(u64::from(value)))
}

#[tactic(auto, unfolding(crate::specs::Drawn::op_drawn))]
fn op(alloc: Global, numbers: &mut Pcg32) -> Result<Op, Memory>
    ensures { IfOk result (λ op. (op, numbers.new) ≡ op_drawn numbers.old) }
{
    let kind = draw(numbers, 4);
    if kind == 0 {
        return Ok(Op::Read);
    }
    let value = draw(numbers, 100);
    update(alloc, kind, value)
}

// A key, and then an operation on it.
#[tactic(auto, unfolding(crate::specs::Drawn::ask_drawn))]
fn ask(alloc: Global, numbers: &mut Pcg32) -> Result<(Key, Op), Memory>
    ensures { IfOk result (λ asked. (asked, numbers.new) ≡ ask_drawn numbers.old) }
{
    let digit = draw(numbers, 8);
    let key = key(alloc, digit)?;
    let asked = op(alloc, numbers)?;
    Ok((key, asked))
}

// A node below `nodes`, and then a key.
fn place(alloc: Global, numbers: &mut Pcg32, nodes: u8) -> Result<(NodeId, Key), Memory>
    requires { 1 ≤ nodes }
    ensures { IfOk result (λ p. (p, numbers.new) ≡ place_drawn nodes numbers.old) }
{
    let node = draw(numbers, u32::from(nodes));
    let digit = draw(numbers, 8);
    let key = key(alloc, digit)?;
    Ok((NodeId(node as u16), key))
}

#[tactic(auto, unfolding(crate::specs::Drawn::call_drawn))]
fn call(alloc: Global, numbers: &mut Pcg32, nodes: u8) -> Result<Event, Memory>
    requires { 1 ≤ nodes }
    ensures { IfOk result (λ event. (event, numbers.new) ≡ call_drawn nodes numbers.old) }
{
    let (node, key) = place(alloc, numbers, nodes)?;
    let op = op(alloc, numbers)?;
    Ok(Event::Call { node, key, op })
}

#[tactic(auto, unfolding(crate::specs::Drawn::take_drawn))]
fn take(numbers: &mut Pcg32, letters: u64) -> Event
    requires { 1 ≤ letters }
    ensures { (result, numbers.new) ≡ take_drawn letters numbers.old }
{
    let back = draw(numbers, letters.min(64) as u32);
    Event::Take {
        letter: letters - u64::from(back),
    }
}

#[tactic(auto, unfolding(crate::specs::Drawn::resend_drawn))]
fn resend(alloc: Global, numbers: &mut Pcg32, nodes: u8) -> Result<Event, Memory>
    requires { 1 ≤ nodes }
    ensures { IfOk result (λ event. (event, numbers.new) ≡ resend_drawn nodes numbers.old) }
{
    let (node, key) = place(alloc, numbers, nodes)?;
    Ok(Event::Resend { node, key })
}

#[tactic(auto, unfolding(crate::specs::Drawn::replay_drawn))]
fn replay(alloc: Global, numbers: &mut Pcg32, nodes: u8) -> Result<Event, Memory>
    requires { 1 ≤ nodes }
    ensures { IfOk result (λ event. (event, numbers.new) ≡ replay_drawn nodes numbers.old) }
{
    let (node, key) = place(alloc, numbers, nodes)?;
    Ok(Event::Replay { node, key })
}

// The event of this kind, of 16.
fn event_of(
    alloc: Global,
    numbers: &mut Pcg32,
    kind: u32,
    nodes: u8,
    letters: u64,
) -> Result<Event, Memory>
    requires { 1 ≤ nodes }
    ensures { IfOk result (λ event. (event, numbers.new) ≡ kind_drawn kind nodes letters numbers.old) }
{
    if kind < 4 {
        return call(alloc, numbers, nodes);
    }
    if kind < 14 {
        if letters == 0 {
            return call(alloc, numbers, nodes);
        }
        return Ok(take(numbers, letters));
    }
    if kind == 14 {
        return resend(alloc, numbers, nodes);
    }
    replay(alloc, numbers, nodes)
}

/// Draws the events of a group: calls on eight keys at any node, most of the others the taking of one of the last 64 letters, and
/// some resends and replays. The same number gives the same events.
#[derive(Drop)]
pub struct Generator {
    nodes: u8,
    numbers: Pcg32,
}

impl Model for Generator {
    ghost use Rattle.std.specs.Prelude.{◌≤◌};
    ghost use Rattle.hk_script.specs.Drawn.{GeneratorState};

    ghost Value = { GeneratorState };

    ghost view = { λ g. record { nodes = g.nodes; numbers = g.numbers } };

    ghost invariant = { λ g. 1 ≤ g.nodes };
}

impl Generator {
    ghost use Rattle.std.specs.Prelude.{OnErr};
    ghost use Rattle.hk_script.specs.Drawn.{numbers_from, generator_step};

    /// The generator that begins with a number, for a group of so many nodes.
    pub fn new(start: u64, nodes: u8) -> Generator
        requires { 1 ≤ nodes }
        ensures { result ≡ record { nodes = nodes; numbers = numbers_from start } }
    {
        Generator {
            nodes,
            numbers: Pcg32::new(start, 54),
        }
    }

    /// The next event of a group that has sent so many letters. After want of memory the generator is as it was.
    pub fn next(&mut self, alloc: Global, letters: u64) -> Result<Event, Memory>
        ensures ok { IfOk result (λ event. (event, self.new) ≡ generator_step self.old letters) }
        ensures err { OnErr result (self.new ≡ self.old) }
    {
        let mut numbers = self.numbers.clone()?;
        let kind = draw(&mut numbers, 16);
        let event = event_of(alloc, &mut numbers, kind, self.nodes, letters)?;
        self.numbers = numbers;
        Ok(event)
    }
}

/// Draws what is asked of a store: one of eight keys, and an operation on it. The same number gives the same.
#[derive(Drop)]
pub struct AskGenerator {
    numbers: Pcg32,
}

impl Model for AskGenerator {
    ghost Value = { Lcg };

    ghost view = { λ g. g.numbers };
}

impl AskGenerator {
    ghost use Rattle.std.specs.Prelude.{OnErr};
    ghost use Rattle.hk_script.specs.Drawn.{numbers_from};

    /// The generator that begins with a number.
    pub fn new(start: u64) -> AskGenerator
        ensures { result ≡ numbers_from start }
    {
        AskGenerator {
            numbers: Pcg32::new(start, 54),
        }
    }

    /// What is asked next. After want of memory the generator is as it was.
    pub fn next(&mut self, alloc: Global) -> Result<(Key, Op), Memory>
        ensures ok { IfOk result (λ asked. (asked, self.new) ≡ ask_drawn self.old) }
        ensures err { OnErr result (self.new ≡ self.old) }
    {
        let mut numbers = self.numbers.clone()?;
        let asked = ask(alloc, &mut numbers)?;
        self.numbers = numbers;
        Ok(asked)
    }
}
