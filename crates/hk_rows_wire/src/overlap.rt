//! Which updates of one read wait together. No clause says so: these show it.

ghost use Rattle.std.specs.Prelude.{None};

use hk_base::{Answer, Key, Memory, Op};
use hk_conn::{ConnEnd, serve_connection};
use hk_outside::{
    Begun, Desk, DeskReply, FakeDesk, FakeWait, MemoryConnection, MemorySink, MemorySource,
};
use std::alloc::Global;
use std::collections::VecDeque;
use std::process::Abort;

// A late desk that notes what it is called for, with the first byte of the key: `?` to ask, `+` to begin, `-` to finish.
#[derive(Drop)]
struct NotingDesk {
    desk: FakeDesk,
    noted: Vec<u8>,
}

// What waits at it.
#[derive(Drop)]
struct NotedWait {
    first: u8,
    wait: FakeWait,
}

fn first_byte(key: &Key) -> u8 {
    match key.bytes() {
        [first, ..] => *first,
        [] => 0,
    }
}

impl NotingDesk {
    fn note(&mut self, call: u8, first: u8) -> Result<(), Memory> {
        self.noted.push(call)?;
        self.noted.push(first)?;
        Ok(())
    }
}

impl Desk for NotingDesk {
    type Waits = NotedWait;

    ghost asks = { λ desk. None };

    ghost op_of = { λ waits. waits.wait.op };

    fn ask(&mut self, key: &Key, op: &Op) -> Result<DeskReply, Memory> {
        self.note(b'?', first_byte(key))?;
        self.desk.ask(key, op)
    }

    fn begin(&mut self, key: &Key, op: &Op) -> Result<Begun<NotedWait>, Memory> {
        let first = first_byte(key);
        self.note(b'+', first)?;
        match self.desk.begin(key, op) {
            Ok(Begun::Told(reply)) => Ok(Begun::Told(reply)),
            Ok(Begun::Waits(wait)) => Ok(Begun::Waits(NotedWait { first, wait })),
            Err(memory) => Err(memory),
        }
    }

    fn finish(&mut self, waits: NotedWait) -> Result<DeskReply, Memory> {
        let NotedWait { first, wait } = waits;
        let _ = self.note(b'-', first);
        self.desk.finish(wait)
    }
}

// A late desk that tells these.
fn noting(rt: &impl Abort, alloc: Global, answers: &[Answer]) -> NotingDesk {
    let mut replies = VecDeque::new(alloc);
    for answer in answers {
        let answer = answer.share().expect(rt, "memory");
        replies
            .push_back(DeskReply::Told(answer))
            .expect(rt, "memory");
    }
    let mut desk = FakeDesk::new(alloc, replies, 0).expect(rt, "memory");
    desk.late = true;
    NotingDesk {
        desk,
        noted: Vec::new(alloc),
    }
}

// What is written to a client that sends this.
fn written(rt: &impl Abort, alloc: Global, sent: &[u8], desk: &mut NotingDesk) -> Vec<u8> {
    let sent = Vec::from_slice(alloc, sent).expect(rt, "memory");
    let mut conn = MemoryConnection {
        source: MemorySource::new(sent, Vec::new(alloc)),
        sink: MemorySink::new(alloc, Vec::new(alloc)),
    };
    let end = serve_connection(alloc, &mut conn, desk, 3);
    assert_eq!(rt; end, ConnEnd::End);
    Vec::from_slice(alloc, conn.sink.sink.bytes.as_slice()).expect(rt, "memory")
}

#[test]
fn updates_wait_together_until_a_key_comes_again(rt: HostRuntime) {
    let alloc = rt.alloc();
    let answers = [
        Answer::Stored,
        Answer::Stored,
        Answer::Missing,
        Answer::Stored,
        Answer::Missing,
        Answer::Missing,
    ];
    let mut desk = noting(&rt, alloc, answers.as_slice());
    let sent = b"set a 0 0 1\r\n1\r\nset b 0 0 1\r\n2\r\nget c\r\nset a 0 0 1\r\n3\r\nget b a\r\n";
    let replies = written(&rt, alloc, sent.as_slice(), &mut desk);
    assert_eq!(rt;
        replies.as_slice(),
        b"STORED\r\nSTORED\r\nEND\r\nSTORED\r\nEND\r\n".as_slice()
    );
    assert_eq!(rt; desk.noted.as_slice(), b"+a+b?c-a-b+a-a?b?a".as_slice());
}

// Deletes of as many keys as there are bytes in a row from this one.
fn deletes(rt: &impl Abort, alloc: Global, first: u8, count: u8) -> Vec<u8> {
    let mut sent = Vec::new(alloc);
    for number in 0..count {
        sent.extend_from_slice(b"delete ").expect(rt, "memory");
        sent.push(first.wrapping_add(number)).expect(rt, "memory");
        sent.extend_from_slice(b"\r\n").expect(rt, "memory");
    }
    sent
}

#[test]
fn no_more_than_64_wait(rt: HostRuntime) {
    let alloc = rt.alloc();
    let mut answers = Vec::new(alloc);
    for _ in 0..65 {
        answers.push(Answer::Deleted).expect(&rt, "memory");
    }
    let mut desk = noting(&rt, alloc, answers.as_slice());
    let sent = deletes(&rt, alloc, b'0', 65);
    let replies = written(&rt, alloc, sent.as_slice(), &mut desk);
    assert_eq!(rt; replies.len(), 65 * 9);
    assert_eq!(rt; desk.noted.iter().position(|byte| *byte == b'-'), Some(128));
    assert_eq!(rt; desk.noted.len(), 260);
}
