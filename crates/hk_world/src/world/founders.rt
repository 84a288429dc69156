//! The founders of a group.

ghost use Rattle.std.specs.Prelude.{◌≡◌, ◌≤◌, map, Ok, IfOk, OnOk};
ghost use Rattle.std.specs.List.{range_with_len};
ghost use Rattle.hk_base.specs.declared.letter.Actor.TheVariants.{Node as OfNode};
ghost use Rattle.hk_clocks.specs.Steps.{clock_step};
ghost use Rattle.hk_clocks.specs.Steps.ClockEvent.{Start as ClockStart};
ghost use Rattle.hk_base.specs.View.{counted};
ghost use Rattle.hk_world.specs.Start.{founding_actors, founding_manager, founding_paces, founding_process, founding_view};
ghost use Rattle.hk_world.specs.Sound.{IsHeader};

use super::start::put_in;
use crate::process::{ManagerProcess, Process};
use hk_base::{Actor, Memory, NodeId, View};
use hk_clocks::Clocks;
use hk_event::Header;
use hk_manager::Manager;
use hk_node::Node;
use std::alloc::Global;
use std::collections::BTreeMap;

/// The founders, each in the first view.
pub(super) fn founders(
    alloc: Global,
    header: Header,
    view: &View,
) -> Result<BTreeMap<NodeId, Process>, Memory>
    requires header { IsHeader header }
    requires view { view.now ≡ founding_view header }
    ensures { IfOk result (λ processes. processes.entries ≡ map (λ id. (id, founding_process header id)) (counted 0 header.nodes)) }
{
    let mut processes = BTreeMap::new(alloc);
    for number in 0..header.nodes {
        let id = NodeId(u16::from(number));
        let view = view.copy(alloc)?;
        let node = Node::founder(alloc, id, view, header.lease, header.skew, header.managers)?;
        let process = Process {
            node,
            crashed: false,
        };
        put_in(&mut processes, id, process)?;
    }
    Ok(processes)
}

/// The managers, each of which holds the first view.
pub(super) fn founding_managers(
    alloc: Global,
    header: Header,
    view: &View,
) -> Result<Vec<ManagerProcess>, Memory>
    requires header { IsHeader header }
    requires view { view.now ≡ founding_view header }
    ensures { IfOk result (λ managers. managers.items ≡ map (λ m. founding_manager header m) (range_with_len 0 header.managers)) }
{
    let mut managers = Vec::new(alloc);
    for number in 0..header.managers {
        let view = view.copy(alloc)?;
        let manager = Manager::new(alloc, number, header.managers, view, header.lease)?;
        managers.push(ManagerProcess {
            manager,
            crashed: false,
        })?;
    }
    Ok(managers)
}

// The clock of an actor starts at 1.
fn start_clock(clocks: &mut Clocks, alloc: Global, actor: Actor) -> Result<(), Memory>
    ensures { OnOk result (clock_step clocks.old (ClockStart actor 1) ≡ Ok clocks.new) }
{
    match clocks.start(alloc, actor, 1) {
        Ok(()) => Ok(()),
        Err(_) => Err(Memory),
    }
}

// The clocks of the founders.
fn node_clocks(alloc: Global, header: Header) -> Result<Clocks, Memory>
    requires { IsHeader header }
    ensures { IfOk result (λ clocks. clocks ≡ record { skew = header.skew; paces = founding_paces (map (λ id. OfNode id) (counted 0 header.nodes)) }) }
{
    let mut clocks = Clocks::new(alloc, header.skew);
    for number in 0..header.nodes {
        start_clock(&mut clocks, alloc, Actor::Node(NodeId(u16::from(number))))?;
    }
    Ok(clocks)
}

/// The clocks of all, which read 1.
pub(super) fn founding_clocks(alloc: Global, header: Header) -> Result<Clocks, Memory>
    requires { IsHeader header }
    ensures { IfOk result (λ clocks. clocks ≡ record { skew = header.skew; paces = founding_paces (founding_actors header) }) }
{
    let mut clocks = node_clocks(alloc, header)?;
    for number in 0..header.managers {
        start_clock(&mut clocks, alloc, Actor::Manager(number))?;
    }
    Ok(clocks)
}
