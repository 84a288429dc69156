//! What the types of a hello's parts keep, which the laws of hellos have as a premise. These functions do nothing.

ghost use Rattle.std.specs.Prelude.{◌≡◌, length};
ghost use Rattle.hk_fields.specs.Fields.{IsActorField, IsTicket};
ghost use Rattle.hk_hello.specs.Hellos.{IsActorInRange, IsPartyInRange, IsHelloInRange, IsParty, IsHello, IsProof};

use crate::hello::{Hello, HostsDigest, Party};
use crate::mac::Proof;
use hk_base::Actor;
use hk_fields::Ticket;

fn actor_is_value(actor: Actor)
    requires { IsActorInRange actor }
    ensures { IsActorField actor }
{
    match actor {
        Actor::Node(node) => {
            let _number = node.0;
        }
        Actor::Manager(_) => (),
    }
}

fn party_is_value(party: Party)
    requires { IsPartyInRange party }
    ensures { IsParty party }
{
    match party {
        Party::Actor(actor) => actor_is_value(actor),
        Party::Neither => (),
    }
}

fn ticket_is_value(ticket: Ticket)
    ensures { IsTicket ticket }
{
    let _bytes = ticket.0;
}

fn hosts_are_value(hosts: HostsDigest)
    ensures { length hosts.0 ≡ 8 }
{
    let _bytes = hosts.0;
}

// What the types of a hello's ticket and digest keep.
pub fn home_is_value(hello: &Hello)
    ensures ticket { IsTicket hello.now.ticket }
    ensures hosts { length hello.now.hosts.0 ≡ 8 }
{
    ticket_is_value(hello.ticket);
    hosts_are_value(hello.hosts);
}

// What the type of proofs keeps.
pub fn proof_is_value(proof: Proof)
    ensures { IsProof proof }
{
    let _bytes = proof.0;
}

// A hello in range is one that is read.
pub fn hello_is_value(hello: &Hello)
    requires { IsHelloInRange hello.now }
    ensures { IsHello hello.now }
{
    party_is_value(hello.from);
    party_is_value(hello.to);
    let _founding = hello.founding;
    home_is_value(hello);
    let _lease = hello.lease;
    let _skew = hello.skew;
}
