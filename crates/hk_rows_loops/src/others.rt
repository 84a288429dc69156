//! Others may go on before an update is waited for.

ghost use Rattle.std.specs.Prelude.{None};

use crate::paused::{WHOLE, connection};
use crate::turns::{Counted, Tell, desk, exchange, room, turn};
use hk_base::{Key, Memory, Op};
use hk_loops::Turned;
use hk_outside::{Begun, Desk, DeskReply, FakeDesk, FakeWait};

// A desk that notes how often others were told to go on, each time that it is asked, begins or finishes.
#[derive(Drop)]
struct NotingDesk<'a> {
    desk: FakeDesk,
    others: &'a Counted,
    asked: Vec<u64>,
    begun: Vec<u64>,
    finished: Vec<u64>,
}

impl<'a> Desk for NotingDesk<'a> {
    type Waits = FakeWait;

    ghost asks = { λ desk. None };

    ghost op_of = { λ waits. waits.op };

    fn ask(&mut self, key: &Key, op: &Op) -> Result<DeskReply, Memory> {
        self.asked.push(self.others.times())?;
        self.desk.ask(key, op)
    }

    fn begin(&mut self, key: &Key, op: &Op) -> Result<Begun<FakeWait>, Memory> {
        self.begun.push(self.others.times())?;
        self.desk.begin(key, op)
    }

    fn finish(&mut self, waits: FakeWait) -> Result<DeskReply, Memory> {
        let _ = self.finished.push(self.others.times());
        self.desk.finish(waits)
    }
}

// Two updates that wait together, a read beside them, and an update of a key of theirs, which is asked behind them.
const SENT: &[u8] = b"set a 0 0 1\r\n1\r\nset b 0 0 1\r\n2\r\nget c\r\ndelete a\r\n";

const TELLS: [Tell; 4] = [Tell::Stored, Tell::Stored, Tell::Missing, Tell::Deleted];

#[test]
fn others_are_told_once_before_updates_are_waited_for(rt: HostRuntime) {
    let alloc = rt.alloc();
    let others = Counted::new();
    let mut desk = NotingDesk {
        desk: desk(&rt, alloc, TELLS.as_slice(), true),
        others: &others,
        asked: Vec::new(alloc),
        begun: Vec::new(alloc),
        finished: Vec::new(alloc),
    };
    let mut conn = connection(&rt, alloc, SENT, WHOLE);
    let mut exchange = exchange(&rt, alloc);
    let mut room = room(&rt, alloc, 64);
    let first = turn(
        &rt,
        alloc,
        &mut conn,
        &mut desk,
        &mut exchange,
        &mut room,
        &others,
    );
    assert_eq!(rt; first, Turned::More);
    assert_eq!(rt; conn.written(), b"STORED\r\nSTORED\r\nEND\r\n".as_slice());
    assert_eq!(rt; desk.finished.as_slice(), [1, 1].as_slice());
    let second = turn(
        &rt,
        alloc,
        &mut conn,
        &mut desk,
        &mut exchange,
        &mut room,
        &others,
    );
    assert_eq!(rt; second, Turned::More);
    assert_eq!(rt;
        conn.written(),
        b"STORED\r\nSTORED\r\nEND\r\nDELETED\r\n".as_slice()
    );
    assert_eq!(rt; desk.asked.as_slice(), [0].as_slice());
    assert_eq!(rt; desk.begun.as_slice(), [0, 0, 1].as_slice());
    assert_eq!(rt; desk.finished.as_slice(), [1, 1, 2].as_slice());
}

#[test]
fn where_nothing_waits_nobody_is_told(rt: HostRuntime) {
    let alloc = rt.alloc();
    let others = Counted::new();
    let mut desk = desk(&rt, alloc, TELLS.as_slice(), false);
    let mut conn = connection(&rt, alloc, SENT, WHOLE);
    let mut exchange = exchange(&rt, alloc);
    let mut room = room(&rt, alloc, 64);
    let turned = turn(
        &rt,
        alloc,
        &mut conn,
        &mut desk,
        &mut exchange,
        &mut room,
        &others,
    );
    assert_eq!(rt; turned, Turned::Waits);
    assert_eq!(rt; others.times(), 0);
}
