//! The roll of a manager.

ghost use Rattle.std.specs.Prelude.{◌≡◌, ◌≤◌, [], length, IfOk, OnOk, OnErr};
ghost use Rattle.hk_roll.specs.Rolls.{bound, with_bound, replayed, host_bindings, founding};

use crate::binding::{Binding, Founder};
use hk_base::{Actor, Memory, NodeId};
use hk_fields::Ticket;
use std::alloc::Global;
use std::collections::BTreeMap;
use std::marker::Model;

/// To which tickets a manager has bound numbers. Contracts see the actors that have one, each with its ticket, in order.
#[derive(Drop)]
pub struct Roll {
    bindings: BTreeMap<Actor, Ticket>,
}

impl Model for Roll {
    ghost use Rattle.std.specs.Prelude.{List};
    ghost use Rattle.hk_base.specs.declared.letter.Actor.{Actor};
    ghost use Rattle.hk_fields.specs.declared.tickets.Ticket.{Ticket};

    ghost Value = { List (Actor × Ticket) };

    ghost view = { λ r. r.bindings.entries };
}

impl Roll {
    /// The roll with which a group is founded on these hosts: the number of each manager, and of each node that waited, is its place. Nothing of a former
    /// founding stays.
    pub fn found(alloc: Global, hosts: &[Founder]) -> Result<Roll, Memory>
        requires { length hosts.now ≤ 9 }
        ensures { IfOk result (λ roll. roll ≡ replayed [] (founding 0 hosts.now)) }
    {
        let mut roll = Roll {
            bindings: BTreeMap::new(alloc),
        };
        for (place, host) in hosts.iter().enumerate() {
            roll.found_host(place as u8, host)?;
        }
        Ok(roll)
    }

    /// The roll of a manager whose log has the founding of these hosts and, behind it, these bindings. It is just the roll that the manager had.
    pub fn replay(alloc: Global, hosts: &[Founder], bindings: &[Binding]) -> Result<Roll, Memory>
        requires { length hosts.now ≤ 9 }
        ensures { IfOk result (λ roll. roll ≡ replayed (replayed [] (founding 0 hosts.now)) bindings.now) }
    {
        let mut roll = Roll::found(alloc, hosts)?;
        for binding in bindings {
            roll.bind(*binding)?;
        }
        Ok(roll)
    }

    fn found_host(&mut self, place: u8, host: &Founder) -> Result<(), Memory>
        ensures { OnOk result (self.new ≡ replayed self.old (host_bindings place host.now)) }
    {
        let actor = Actor::Manager(place);
        self.bind(Binding {
            actor,
            ticket: host.manager,
        })?;
        match host.node {
            Some(ticket) => {
                let actor = Actor::Node(NodeId(u16::from(place)));
                self.bind(Binding { actor, ticket })
            }
            None => Ok(()),
        }
    }

    /// The ticket to which the actor's number is bound, if it is bound. A hello of a manager is admitted where this is its ticket.
    pub fn bound(&self, actor: Actor) -> Option<Ticket>
        ensures { result ≡ bound actor self.now }
    {
        match self.bindings.get(&actor) {
            Some(ticket) => Some(*ticket),
            None => None,
        }
    }

    /// Takes a binding that was logged. It is to be one that a step told.
    pub fn bind(&mut self, binding: Binding) -> Result<(), Memory>
        ensures ok { OnOk result (self.new ≡ with_bound self.old binding) }
        ensures err { OnErr result (self.new ≡ self.old) }
    {
        self.bindings.insert(binding.actor, binding.ticket)?;
        Ok(())
    }
}
