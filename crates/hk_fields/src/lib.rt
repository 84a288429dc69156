//! Numbers, bytes and tickets as the fields of a message: each is read from the front of some bytes, or put behind others.
//! Numbers are big-endian.
//!
//! A reader gives the field and what stands behind it. Each gives just what a definition of `specs/Fields.antt` gives,
//! but for want of memory; so readers of whole messages are made of these as the definitions are, and `proofs/Exact.antt`
//! composes what is known of them: what was read are the bytes that its printer writes, and those are read again,
//! whatever follows.
#![tactic(auto)]

mod fault;
mod hosts;
mod printing;
mod reading;
mod tickets;

pub use fault::FieldFault;
pub use hosts::{
    FoundingHosts, HostTickets, host, host_is_value, hosts_are_values, many_hosts, put_host,
    put_hosts, ticket_is_value,
};
pub use printing::{
    put, put_actor, put_byte, put_number16, put_number32, put_number64, put_text, put_ticket,
};
pub use reading::{
    actor, byte, byte_within, number16, number16_within, number32, number32_within, number64,
    number64_within, take_bytes, text, ticket,
};
pub use tickets::{TICKET_LEN, Ticket};
