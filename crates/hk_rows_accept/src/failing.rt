//! Doors through which a connection can't be taken at first, as where too many files are open.

use hk_outside::{Connection, Doors, Failed, MemoryDoors, NoDialer};

#[derive(Drop)]
pub struct FailingDoors<C: Drop> {
    pub doors: MemoryDoors<C>,
    // So many calls fail before one is answered.
    pub failures: u32,
}

impl<C: Connection + Send + Drop + 'static> Doors for FailingDoors<C> {
    ghost use Rattle.std.specs.Prelude.{Some, length};

    type Conn = C;

    type Dialer = NoDialer<C>;

    ghost left = { λ f. Some (length f.doors.conns.items) };

    ghost faults = { λ f. f.doors.faults };

    ghost closed = { λ f. f.doors.is_closed };

    fn open(&mut self, port: u16) -> Result<(), Failed> {
        self.doors.open(port)
    }

    fn accept(&mut self) -> Result<Option<C>, Failed> {
        if self.failures > 0 {
            self.failures -= 1;
            self.doors.faults = self.doors.faults.saturating_add(1);
            return Err(Failed);
        }
        self.doors.accept()
    }

    fn close(&mut self) {
        self.doors.close()
    }

    fn dialer(&self) -> NoDialer<C> {
        self.doors.dialer()
    }
}
