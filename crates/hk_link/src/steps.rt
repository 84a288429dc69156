//! The steps of the queue under a link.

ghost use Rattle.std.specs.Prelude.{◌≡◌, ◌<◌, length, MatchResult, MatchOption, IfOk};
ghost use Rattle.crossbeam_queue.specs.Passes.{view, IsPassOf, ruled_capacity};
ghost use Rattle.crossbeam_queue.specs.Fifo.{Held};
ghost use Rattle.hk_link.specs.declared.parcel.Parcel.{Parcel};
ghost use Rattle.hk_link.specs.Ends.{IsPut, IsTaken, Moment, opening, nothing, knowing, putting, taking, left_half, right_half, telling, joined};
ghost use Rattle.hk_link.specs.Rule.{HasShare};

use crate::parcel::Parcel;
use crate::rule::{Halves, Known, Line, Looks, Parts, Puts, Takes, Tells, Together};
use crossbeam_queue::Pass;
use hk_base::Memory;
use std::alloc::Global;
use std::sync::Wait;

/// A queue of so many places, and the pass with both rights.
pub fn queue(alloc: Global, room: usize) -> Result<(Line, Pass<Parcel, Known>), Memory>
    requires { 0 < room }
    ensures { IfOk result (λ made. (ruled_capacity made.0 ≡ room) × IsPassOf made.0 made.1 × (view made.1 ≡ opening)) }
{
    let made = Line::ruled(alloc, room)?;
    Ok(made)
}

/// Puts a parcel, which comes back where the queue was full at a moment of the call.
pub fn put<R: Wait>(
    rt: &R,
    line: &Line,
    pass: &mut Pass<Parcel, Known>,
    parcel: Parcel,
) -> Result<(), Parcel>
    requires queue { IsPassOf line.now pass.old }
    requires share { HasShare (view pass.old).put }
    ensures queue { IsPassOf line.now pass.new }
    ensures put { MatchResult result (λ _. IsPut (view pass.old) parcel (view pass.new)) (λ back. (back ≡ parcel) × (view pass.new ≡ view pass.old) × Held {T = Parcel} (ruled_capacity line.now) (Moment (view pass.old))) }
{
    line.push_as::<Puts, R>(rt, pass, parcel)
}

/// Takes the oldest parcel. `None` comes where the queue was empty at a moment of the call.
pub fn take<R: Wait>(rt: &R, line: &Line, pass: &mut Pass<Parcel, Known>) -> Option<Parcel>
    requires queue { IsPassOf line.now pass.old }
    requires share { HasShare (view pass.old).taken }
    ensures queue { IsPassOf line.now pass.new }
    ensures taken { MatchOption result ((view pass.new ≡ view pass.old) × Held {T = Parcel} 0 (Moment (view pass.old))) (λ parcel. IsTaken (view pass.old) parcel (view pass.new)) }
{
    line.pop_as::<Takes, R>(rt, pass)
}

/// Cuts the pass of an inlet off that of an outlet.
pub fn part(line: &Line, pass: &mut Pass<Parcel, Known>) -> Pass<Parcel, Known>
    requires { IsPassOf line.now pass.old }
    ensures queue { IsPassOf line.now pass.new × IsPassOf line.now result }
    ensures known { (view pass.new ≡ putting (view pass.old)) × (view result ≡ taking (view pass.old)) }
{
    line.another::<Parts>(pass)
}

/// Cuts off half of each right.
pub fn halve(line: &Line, pass: &mut Pass<Parcel, Known>) -> Pass<Parcel, Known>
    requires { IsPassOf line.now pass.old }
    ensures queue { IsPassOf line.now pass.new × IsPassOf line.now result }
    ensures known { (view pass.new ≡ left_half (view pass.old)) × (view result ≡ right_half (view pass.old)) }
{
    line.another::<Halves>(pass)
}

/// A pass with no right that has seen what this one has.
pub fn tell(line: &Line, pass: &mut Pass<Parcel, Known>) -> Pass<Parcel, Known>
    requires { IsPassOf line.now pass.old }
    ensures queue { IsPassOf line.now pass.new × IsPassOf line.now result }
    ensures known { (view pass.new ≡ view pass.old) × (view result ≡ telling (view pass.old)) }
{
    line.another::<Tells>(pass)
}

/// Makes one pass of two.
pub fn join(line: &Line, pass: &mut Pass<Parcel, Known>, other: Pass<Parcel, Known>)
    requires { IsPassOf line.now pass.old × IsPassOf line.now other }
    ensures queue { IsPassOf line.now pass.new }
    ensures known { view pass.new ≡ joined (view pass.old) (view other) }
{
    line.absorb::<Together>(pass, other);
}

/// Brings to a pass, which knows nothing of what was taken, what another knows of that.
pub fn unite(line: &Line, pass: &mut Pass<Parcel, Known>, other: &mut Pass<Parcel, Known>)
    requires queue { IsPassOf line.now pass.old × IsPassOf line.now other.old }
    requires apart { (view pass.old).taken ≡ nothing }
    ensures queue { IsPassOf line.now pass.new × IsPassOf line.now other.new }
    ensures known { view pass.new ≡ knowing (view pass.old).put (view other.old).taken }
{
    let taker = part(line, other);
    join(line, pass, taker);
}

/// What the rule tells of what was put and taken.
pub fn look(line: &Line, pass: &mut Pass<Parcel, Known>)
    requires { IsPassOf line.now pass.old }
    ensures queue { IsPassOf line.now pass.new }
    ensures same { view pass.new ≡ view pass.old }
    ensures moment { (held : _) × Moment (view pass.old) held }
{
    line.learn_as::<Looks>(pass);
}
