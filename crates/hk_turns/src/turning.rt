//! A worker's turns.

ghost use Rattle.std.specs.Prelude.{◌≡◌, ◌⊎◌, ◌<◌, ◌≤◌, Bool, true};
ghost use Rattle.std.specs.List.{AllByRecursion};
ghost use Rattle.hk_base.specs.Range.{IsLetter};
ghost use Rattle.hk_base.specs.declared.letter.Actor.TheVariants.{Node as NodeActor};
ghost use Rattle.hk_node.specs.Sound.{IsNodeEvent};
ghost use Rattle.hk_node.specs.Laws.{IsNoCall};
ghost use Rattle.hk_overseer.specs.Sends.{is_same};
ghost use Rattle.hk_turns.specs.Turns.{Way, Working, GoesOut, GoOut, IsMadeOrLost, IsReceived, GoesOn, IsTurn, Works};

use crate::worker::Worker;
use crate::workplace::Workplace;
use hk_base::{Actor, Letter, Letters, NodeId};
use hk_link::{Outlet, Parcel};
use hk_node::NodeEvent;
use hk_overseer::{Gate, ring_all, send};
use std::alloc::Global;
use std::sync::Wait;

// Behind so many turns at most others go on with what they made and sent.
const BATCH: u64 = 16;

// Sends the letter if the gate keeps it.
fn put<G: Gate, R: Wait>(
    rt: &R,
    gate: &mut G,
    outlets: &mut Vec<(Actor, Outlet)>,
    shard: u8,
    letter: Letter,
)
    requires shard { shard < 8 }
    requires letter { IsLetter letter }
    ensures { (kept : Bool) × G.answers gate.old kept gate.new × GoesOut kept shard letter outlets.old.items outlets.new.items }
{
    if gate.keeps() {
        send(rt, outlets, shard, letter);
    }
}

// Sends the letters that the gate keeps.
fn put_all<G: Gate, R: Wait>(
    rt: &R,
    gate: &mut G,
    outlets: &mut Vec<(Actor, Outlet)>,
    shard: u8,
    letters: Letters,
)
    requires shard { shard < 8 }
    requires letters { AllByRecursion IsLetter letters }
    ensures { GoOut G.answers shard letters (record { gate = gate.old; outlets = outlets.old.items }) (record { gate = gate.new; outlets = outlets.new.items }) }
{
    for letter in letters.into_vec() {
        put(rt, gate, outlets, shard, letter);
    }
}

// Makes the step of an event at a shard, and sends what it gives. Where memory is wanting, or the shard refuses a letter, the event is lost.
fn make<W: Workplace, G: Gate, R: Wait>(
    rt: &R,
    alloc: Global,
    place: &W,
    gate: &mut G,
    outlets: &mut Vec<(Actor, Outlet)>,
    shard: u8,
    event: NodeEvent,
)
    requires shard { shard < 8 }
    requires event { IsNodeEvent event }
    requires no_call { IsNoCall event }
    ensures { IsMadeOrLost (W.applies place.now) (W.lacks place.now) G.answers shard event (record { gate = gate.old; outlets = outlets.old.items }) (record { gate = gate.new; outlets = outlets.new.items }) }
{
    if let Ok(letters) = place.apply(rt, alloc, shard, event) {
        put_all(rt, gate, outlets, shard, letters);
    }
}

fn is_to(node: NodeId, letter: &Letter) -> bool
    ensures { result ≡ is_same (NodeActor node) letter.now.to }
{
    match letter.to {
        Actor::Node(to) => node.0 == to.0,
        Actor::Manager(_) => false,
    }
}

// A parcel whose letter is not to this node is passed over.
fn receive<W: Workplace, G: Gate, R: Wait>(
    rt: &R,
    alloc: Global,
    place: &W,
    node: NodeId,
    gate: &mut G,
    outlets: &mut Vec<(Actor, Outlet)>,
    parcel: Parcel,
)
    ensures { IsReceived (W.applies place.now) (W.lacks place.now) G.answers (is_same (NodeActor node) parcel.letter.to) parcel (record { gate = gate.old; outlets = outlets.old.items }) (record { gate = gate.new; outlets = outlets.new.items }) }
{
    let Parcel { shard, letter, .. } = parcel;
    if is_to(node, &letter) {
        let event = NodeEvent::Receive(letter);
        make(rt, alloc, place, gate, outlets, shard, event);
    }
}

// Others go on with what the turns so far made and sent.
fn hand_on<W: Workplace, R: Wait>(rt: &R, place: &W, outlets: &[(Actor, Outlet)]) {
    place.wake(rt);
    ring_all(rt, outlets);
}

// The same behind the last turn of a batch.
fn hand_on_behind<W: Workplace, R: Wait>(
    rt: &R,
    place: &W,
    outlets: &[(Actor, Outlet)],
    turn: u64,
) {
    if turn % BATCH == BATCH - 1 {
        hand_on(rt, place, outlets);
    }
}

// What a turn does once there is no parcel.
fn go_on<W: Workplace, G: Gate, R: Wait>(
    rt: &R,
    alloc: Global,
    place: &W,
    worker: &mut Worker,
    outlets: &mut Vec<(Actor, Outlet)>,
    gate: &mut G,
)
    ensures { GoesOn (W.applies place.now) (W.finds place.now) (W.owes place.now) (W.lacks place.now) G.answers (record { worker = worker.old; way = record { gate = gate.old; outlets = outlets.old.items } }) (record { worker = worker.new; way = record { gate = gate.new; outlets = outlets.new.items } }) }
{
    if let Some((shard, manager)) = worker.take_request() {
        let event = NodeEvent::AskLease { manager };
        make(rt, alloc, place, gate, outlets, shard, event);
        return;
    }
    if let Some((shard, due)) = place.take_wanted(rt) {
        make(rt, alloc, place, gate, outlets, shard, due.event());
        return;
    }
    if let Some((shard, due)) = worker.take_due(rt, place) {
        make(rt, alloc, place, gate, outlets, shard, due.event());
        return;
    }
    worker.note(true);
    gate.rest();
}

// One turn.
fn make_turn<W: Workplace, G: Gate, R: Wait>(
    rt: &R,
    alloc: Global,
    place: &W,
    worker: &mut Worker,
    outlets: &mut Vec<(Actor, Outlet)>,
    gate: &mut G,
)
    ensures { IsTurn (W.applies place.now) (W.finds place.now) (W.owes place.now) (W.lacks place.now) G.answers (record { worker = worker.old; way = record { gate = gate.old; outlets = outlets.old.items } }) (record { worker = worker.new; way = record { gate = gate.new; outlets = outlets.new.items } }) }
{
    worker.note(false);
    if let Some(parcel) = worker.take(rt) {
        worker.count(&parcel.letter);
        receive(rt, alloc, place, worker.node(), gate, outlets, parcel);
        return;
    }
    hand_on(rt, place, outlets.as_slice());
    go_on(rt, alloc, place, worker, outlets, gate);
}

// Makes so many turns, and fewer only where `pass` answered false.
fn make_turns<W: Workplace, G: Gate, R: Wait>(
    rt: &R,
    alloc: Global,
    place: &W,
    worker: &mut Worker,
    outlets: &mut Vec<(Actor, Outlet)>,
    gate: &mut G,
    turns: u64,
) -> u64
    ensures made { Works (W.applies place.now) (W.finds place.now) (W.owes place.now) (W.lacks place.now) G.answers G.closed result (record { worker = worker.old; way = record { gate = gate.old; outlets = outlets.old.items } }) (record { worker = worker.new; way = record { gate = gate.new; outlets = outlets.new.items } }) }
    ensures most { result ≤ turns }
    ensures fewer { result < turns → G.closed gate.new ≡ true }
{
    worker.begin(place.ticket(rt));
    for turn in 0..turns {
        if !gate.pass(turn) {
            return turn;
        }
        make_turn(rt, alloc, place, worker, outlets, gate);
        hand_on_behind(rt, place, outlets.as_slice(), turn);
    }
    turns
}

/// Makes so many turns, and fewer only where `pass` answered false. It gives the turns made. Who waits for its steps and its letters is woken behind the last turn,
/// before one that finds no parcel, and behind each sixteenth.
pub fn work<W: Workplace, G: Gate, R: Wait>(
    rt: &R,
    alloc: Global,
    place: &W,
    worker: &mut Worker,
    outlets: &mut Vec<(Actor, Outlet)>,
    gate: &mut G,
    turns: u64,
) -> u64
    ensures made { Works (W.applies place.now) (W.finds place.now) (W.owes place.now) (W.lacks place.now) G.answers G.closed result (record { worker = worker.old; way = record { gate = gate.old; outlets = outlets.old.items } }) (record { worker = worker.new; way = record { gate = gate.new; outlets = outlets.new.items } }) }
    ensures most { result ≤ turns }
    ensures fewer { result < turns → G.closed gate.new ≡ true }
{
    let made = make_turns(rt, alloc, place, worker, outlets, gate, turns);
    hand_on(rt, place, outlets.as_slice());
    made
}
