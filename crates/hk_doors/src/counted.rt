//! Doors that count.

ghost use Rattle.std.specs.Prelude.{◌≡◌, Some, false, OnOk};
ghost use Rattle.hk_outside.specs.Causes.{HasCause};
ghost use Rattle.hk_outside.specs.Counts.{Accepts};
ghost use Rattle.hk_doors.specs.Behind.{ComesThrough};

use hk_outside::{Doors, Failed};

/// Doors that tell how many connections they still give, before doors that can't.
#[derive(Drop)]
pub struct CountedDoors<D: Drop> {
    doors: D,
    /// So many more connections may come.
    pub left: u64,
    pub faults: u64,
}

impl<D: Drop> CountedDoors<D> {
    /// Doors before these, through which nobody came yet.
    pub fn new(doors: D) -> CountedDoors<D>
        ensures doors { result.doors ≡ doors }
        ensures left { result.left ≡ 18446744073709551615 }
        ensures faults { result.faults ≡ 0 }
    {
        CountedDoors {
            doors,
            left: u64::MAX,
            faults: 0,
        }
    }
}

impl<D: Doors + Drop> Doors for CountedDoors<D> {
    ghost use Rattle.std.specs.Prelude.{Some};

    type Conn = D::Conn;

    type Dialer = D::Dialer;

    ghost left = { λ d. Some d.left };

    ghost faults = { λ d. d.faults };

    ghost closed = { λ d. D.closed d.doors };

    fn open(&mut self, port: u16) -> Result<(), Failed>
        ensures left { self.new.left ≡ self.old.left }
        ensures opened { OnOk result (D.closed self.new.doors ≡ false) }
        ensures cause { HasCause self.old.faults self.new.faults result }
        ensures behind { HasCause (D.faults self.old.doors) (D.faults self.new.doors) result }
    {
        match self.doors.open(port) {
            Ok(()) => Ok(()),
            Err(Failed) => {
                self.faults = self.faults.saturating_add(1);
                Err(Failed)
            }
        }
    }

    fn accept(&mut self) -> Result<Option<D::Conn>, Failed>
        ensures left { Accepts (Some self.old.left) (Some self.new.left) result }
        ensures cause { HasCause self.old.faults self.new.faults result }
        ensures behind { ComesThrough (D.left self.old.doors) (D.left self.new.doors) (D.faults self.old.doors) (D.faults self.new.doors) result }
    {
        if self.left == 0 {
            return Ok(None);
        }
        if let Ok(come) = self.doors.accept() {
            if let Some(conn) = come {
                self.left -= 1;
                return Ok(Some(conn));
            }
        }
        self.faults = self.faults.saturating_add(1);
        Err(Failed)
    }

    fn close(&mut self) {
        self.doors.close();
    }

    fn dialer(&self) -> D::Dialer {
        self.doors.dialer()
    }
}
