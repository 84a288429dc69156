//! Doors for clients, at an address.

ghost use Rattle.std.specs.Prelude.{◌≡◌, None, false};
ghost use Rattle.hk_outside.specs.Causes.{Rose};

use hk_accept::next_connection;
use hk_hosts::{Address, DoorsAt, PromptConnection};
use hk_loops::EventLoops;
use hk_outside::{Clock, Doors, Failed, NoDialer};
use hk_shared_state::{Notice, SharedState, rest};
use std::io::Eprint;
use std::sync::Wait;

// So long, in milliseconds, it is waited until a port is tried again that could not be opened.
const REST_MILLIS: u64 = 1_000;

/// Doors at an address, whatever port is told. Once the process is to end, and while its node leaves, no connection comes: so they do not tell how many are left.
#[derive(Drop)]
pub(crate) struct ClientDoors<'doors, 'address, 'shared, D: DoorsAt, R: Wait + Drop, C: Drop> {
    pub(crate) doors: &'doors mut D,
    pub(crate) address: &'address Address,
    pub(crate) shared: &'shared SharedState<R, C>,
}

impl<'doors, 'address, 'shared, D: DoorsAt, R: Wait + Drop, C: Drop> Doors
    for ClientDoors<'doors, 'address, 'shared, D, R, C> {
    type Conn = D::Conn;

    type Dialer = NoDialer<D::Conn>;

    ghost left = { λ d. None };

    ghost faults = { λ d. D.faults d.doors.now };

    ghost closed = { λ d. D.closed d.doors.now };

    fn open(&mut self, _port: u16) -> Result<(), Failed> {
        self.doors.open(self.address)
    }

    fn accept(&mut self) -> Result<Option<D::Conn>, Failed> {
        let come = self.doors.accept();
        if self.shared.is_out() || self.shared.is_leaving() {
            return Ok(None);
        }
        come
    }

    fn close(&mut self) {
        self.doors.close();
    }

    fn dialer(&self) -> NoDialer<D::Conn> {
        NoDialer::new()
    }
}

/// Whether the port of an address can be opened. It is closed again.
pub(crate) fn can_open<D: DoorsAt>(doors: &mut D, address: &Address) -> bool
    ensures left { D.left doors.new ≡ D.left doors.old }
    ensures fault { result ≡ false → Rose (D.faults doors.old) (D.faults doors.new) }
{
    let can = doors.open(address).is_ok();
    doors.close();
    can
}

/// Opens the port of an address, as often as it takes, unless the process is to end: then it gives false. Whoever has it lets it go one day; until then the node serves its
/// group, and clients at other hosts. The operator is told that it is open, and once before that it is not.
pub(crate) fn open_in_time<R: Wait + Eprint + Drop, C: Clock + Drop, D: DoorsAt>(
    shared: &SharedState<R, C>,
    doors: &mut D,
    address: &Address,
) -> bool
    ensures { D.left doors.new ≡ D.left doors.old }
{
    let mut is_told = false;
    for _ in shared.rt.forever() {
        if shared.is_out() {
            return false;
        }
        if doors.open(address).is_ok() {
            shared.tell(&Notice::Listens { address });
            return true;
        }
        if !is_told {
            shared.tell(&Notice::Shut { address });
            is_told = true;
        }
        rest(&shared.rt, REST_MILLIS);
    }
    unreachable!()
}

/// Has the loops serve each connection that comes through open doors, until no more come. One that no loop can serve, for want of memory, is closed.
pub(crate) fn take_each<R: Wait, D: Doors, W: Send + Drop + 'static>(
    rt: &R,
    doors: &mut D,
    loops: &EventLoops<D::Conn, W>,
)
where
    D::Conn: PromptConnection,
{
    for _ in rt.forever() {
        let Some(conn) = next_connection(rt, doors) else {
            return;
        };
        let _ = loops.add(rt, conn);
    }
}
