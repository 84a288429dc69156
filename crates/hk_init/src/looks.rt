//! LOOK: are all managers reserved, and do they agree?

ghost use Rattle.std.specs.Prelude.{◌≡◌, ◌≤◌, ℕ, List, [], ◌∷◌, not, map, position, IfOk};
ghost use Rattle.std.specs.List.{list_any};
ghost use Rattle.hk_inside.specs.declared.inquiry.Inquiry.TheVariants.{Look as LookOf};
ghost use Rattle.hk_init.specs.Deeds.{Did, Asked};
ghost use Rattle.hk_init.specs.Phases.{state_of, looked, Looks, is_alike, other_lease, has_node, Agrees};

use crate::asking::AskHost;
use crate::fault::CommandFault;
use hk_base::Sequence;
use hk_inside::{FoundingHosts, HostTickets, Inquiry, ManagerState, Response};
use std::alloc::{AllocError, Global};

// How a manager stands, by its answer to LOOK.
fn state_of(place: usize, response: Response) -> Result<ManagerState, CommandFault>
    ensures { result ≡ state_of place response }
{
    match response {
        Response::State(state) => Ok(state),
        Response::No { code: _, text } => Err(CommandFault::Refused { text }),
        Response::Board(_) => Err(CommandFault::Unreachable { place }),
        Response::Seated(_) => Err(CommandFault::Unreachable { place }),
        Response::Status(_) => Err(CommandFault::Unreachable { place }),
        Response::Yes => Err(CommandFault::Unreachable { place }),
    }
}

fn look<A: AskHost>(
    asker: &mut A,
    place: usize,
    founding: u64,
) -> Result<ManagerState, CommandFault>
    requires { 1 ≤ founding }
    ensures { Asked (A.deeds asker.old) (A.deeds asker.new) place (LookOf founding) (λ outcome. result ≡ looked place outcome) }
{
    let inquiry = Inquiry::Look { founding };
    match asker.ask(place, &inquiry) {
        Ok(response) => state_of(place, response),
        Err(fault) => Err(CommandFault::of_ask(place, fault)),
    }
}

/// Asks each of so many hosts how its manager stands, which is reserved then.
pub(crate) fn look_at_all<A: AskHost>(
    alloc: Global,
    asker: &mut A,
    count: usize,
    founding: u64,
) -> Result<Sequence<ManagerState>, CommandFault>
    requires { 1 ≤ founding }
    ensures { Did (A.deeds asker.old) (A.deeds asker.new) (λ deeds. Looks count founding deeds result) }
{
    let mut states = Sequence::new(alloc);
    for place in 0..count {
        let state = look(asker, place, founding)?;
        let Ok(()) = states.push(state) else {
            return Err(CommandFault::Memory);
        };
    }
    Ok(states)
}

fn is_alike(a: &ManagerState, b: &ManagerState) -> bool
    ensures { result ≡ is_alike a.now b.now }
{
    a.lease == b.lease && a.skew == b.skew
}

// The first of some states that has another lease or skew than this one.
fn first_unlike(state: &ManagerState, states: &[ManagerState]) -> Option<usize>
    ensures { result ≡ position (λ other. not (is_alike state.now other)) states.now }
{
    states.iter().position(|other| !is_alike(state, other))
}

// The first host that has another lease or skew than host 0.
fn other_lease(states: &[ManagerState]) -> Option<usize>
    ensures { result ≡ other_lease states.now }
{
    let Some((first, _)) = states.split_first() else {
        return None;
    };
    first_unlike(first, states)
}

// Whether a node waits at the host.
fn has_node(state: &ManagerState) -> bool
    ensures { result ≡ has_node state.now }
{
    state.tickets.node.0.iter().any(|byte| *byte != 0)
}

fn is_awaited(states: &[ManagerState]) -> bool
    ensures { result ≡ list_any has_node states.now }
{
    states.iter().any(|state| has_node(state))
}

fn tickets_of(alloc: Global, states: &[ManagerState]) -> Result<Vec<HostTickets>, AllocError>
    ensures { IfOk result (λ tickets. tickets.items ≡ map (λ state. state.tickets) states.now) }
{
    states.iter().map(|state| state.tickets).collect(alloc)
}

/// The tickets of all hosts, where they agree and a node waits.
pub(crate) fn agreed(alloc: Global, states: &[ManagerState]) -> Result<FoundingHosts, CommandFault>
    ensures { Agrees states.now result }
{
    match other_lease(states) {
        Some(place) => return Err(CommandFault::OtherLease { place }),
        None => {}
    }
    if !is_awaited(states) {
        return Err(CommandFault::NoNode);
    }
    match tickets_of(alloc, states) {
        Ok(tickets) => Ok(Sequence::from_vec(tickets)),
        Err(_) => Err(CommandFault::Memory),
    }
}
