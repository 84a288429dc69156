//! Hosts: their addresses as text, connections to them and from them, and random bytes.
//!
//! An [`Address`] is a host's name, or its IPv6 address in brackets, and a port; [`read_address`] reads one, exactly:
//! `specs/Addresses.antt` says which texts are one, and each of these is one of a single address. [`read_hosts`] reads the
//! list of a group's hosts, 1, 3, 5, 7 or 9 addresses that differ (`specs/Lists.antt`). [`DialAt`] and
//! [`DoorsAt`] are what connects to addresses, and what connections come through at one; [`Random`] gives bytes that nobody
//! can guess. Each has a form in memory, and an adapter over the machine: TCP, and the system's source of random bytes. As
//! with all of the outside an object counts its faults, and answers [`Failed`](hk_outside::Failed) only where the count
//! rose.
//!
//! What no clause says: that a name means the host that is meant, that a connection reaches it, that a call waits no
//! longer than it was told, that an [`Ender`] ends its connection, and that random bytes can't be guessed; nor that
//! a call of a [`PromptConnection`] that stopped waiting does not wait.
#![tactic(auto)]

mod address;
mod conn;
mod dial;
mod doors;
mod ender;
mod hosts;
mod now;
mod parts;
mod prompt;
mod random;

ghost use Rattle.hk_hosts.specs.Laws.{TextsAreOfOneAddress, PrintedAddressesAreRead, SamenessIsEquality};

pub use address::{Address, AddressFault, MAX_ADDRESS_LEN, read_address};
pub use conn::{HostConnection, Patient};
pub use dial::{DialAt, HostDialer};
pub use doors::{DoorsAt, HostDoors};
pub use ender::Ender;
pub use hosts::{Hosts, HostsFault, put_hosts, read_hosts};
pub use now::{Came, PromptConnection};
pub use random::{FakeRandom, Random, SystemRandom};

/// Each text is one of one address at most, and what is printed of an address is read as that address, whatever port is the
/// usual one; and two addresses are told to be the same exactly where they are.
pub fn addresses_are_read_as_printed()
    ensures one { TextsAreOfOneAddress }
    ensures printed { PrintedAddressesAreRead }
    ensures same { SamenessIsEquality }
{}
