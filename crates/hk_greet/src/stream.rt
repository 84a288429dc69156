//! Reads some bytes, and writes all of some.

ghost use Rattle.std.specs.Prelude.{◌≡◌, ◌≤◌, ◌<◌, ℕ, take, length, Ok, OnOk, OnErr};
ghost use Rattle.std.specs.Io.KnownBytes.{Appends, ReadConsumes, WriteAppends};
ghost use Rattle.std.specs.Io.{ReadsAtMost, WritesAtMost};
ghost use Rattle.hk_outside.specs.Causes.{Rose};
ghost use Rattle.hk_outside.specs.Records.{RecordsRead};

use hk_outside::{Connection, Failed, Sink, Source};

// Reads some bytes, which leaves what was written.
pub fn read_some<C: Connection>(conn: &mut C, room: &mut [u8]) -> Result<usize, Failed>
    ensures bound { ReadsAtMost result room.new }
    ensures bytes { ReadConsumes (C.left conn.old) (C.left conn.new) result room.new }
    ensures given { RecordsRead (C.Source.given conn.old) (C.Source.given conn.new) result room.new }
    ensures later { C.Source.faults conn.old ≤ C.Source.faults conn.new }
    ensures failed { OnErr result (Rose (C.Source.faults conn.old) (C.Source.faults conn.new)) }
    ensures held { C.held conn.new ≡ C.held conn.old }
    ensures writes { C.Sink.faults conn.new ≡ C.Sink.faults conn.old }
{
    conn.read(room)
}

// Writes all of the text, or a front of it, which leaves what is to be read.
pub fn write_all<C: Connection>(conn: &mut C, text: &[u8]) -> Result<(), Failed>
    ensures all { OnOk result (Appends (C.held conn.old) (C.held conn.new) text.now) }
    ensures front { (n : ℕ) × Appends (C.held conn.old) (C.held conn.new) (take n text.now) }
    ensures later { C.Sink.faults conn.old ≤ C.Sink.faults conn.new }
    ensures failed { OnErr result (Rose (C.Sink.faults conn.old) (C.Sink.faults conn.new)) }
    ensures left { C.left conn.new ≡ C.left conn.old }
    ensures given { C.Source.given conn.new ≡ C.Source.given conn.old }
    ensures reads { C.Source.faults conn.new ≡ C.Source.faults conn.old }
{
    let mut at = 0;
    while at < text.len() {
        let (_, rest) = text.split_at(at);
        let Ok(count) = write_some(conn, rest) else {
            return Err(Failed);
        };
        if count == 0 {
            return Err(Failed);
        }
        at += count;
    }
    Ok(())
}

// Writes a front of the text, which leaves what is to be read.
fn write_some<C: Connection>(conn: &mut C, text: &[u8]) -> Result<usize, Failed>
    ensures bound { WritesAtMost result text.now }
    ensures bytes { WriteAppends (C.held conn.old) (C.held conn.new) result text.now }
    ensures later { C.Sink.faults conn.old ≤ C.Sink.faults conn.new }
    ensures failed { OnErr result (Rose (C.Sink.faults conn.old) (C.Sink.faults conn.new)) }
    ensures took_none { result ≡ Ok 0 → 0 < length text.now → Rose (C.Sink.faults conn.old) (C.Sink.faults conn.new) }
    ensures left { C.left conn.new ≡ C.left conn.old }
    ensures given { C.Source.given conn.new ≡ C.Source.given conn.old }
    ensures reads { C.Source.faults conn.new ≡ C.Source.faults conn.old }
{
    conn.write(text)
}
