//! What clients send and are told, at a desk of the only node of a group.

ghost use Rattle.std.specs.Prelude.{◌≡◌};
ghost use Rattle.hk_locked.specs.Places.{node_names};
ghost use Rattle.hk_worker.specs.Founding.{names_of};

use crate::completing::Quiet;
use crate::founding::{clock_desk, found};
use hk_conn::{ConnEnd, serve_connection};
use hk_locked::Places;
use hk_outside::{MemoryConnection, MemorySink, MemorySource};
use hk_rows_shared::let_go;
use hk_worker::{Founded, Shards};
use std::alloc::Global;
use std::marker::Brand;
use std::process::Abort;
use std::sync::{Arc, Wait};

// What a client sends, and what it is told. No two speak of one key.
struct Exchange<'a> {
    name: &'a str,
    sent: &'a [u8],
    end: ConnEnd,
    told: &'a [u8],
}

const EXCHANGES: [Exchange<'static>; 6] = [
    Exchange {
        name: "a value and its tag",
        sent: b"set a 7 0 5\r\nhello\r\nget a none\r\ngets a\r\nquit\r\n",
        end: ConnEnd::Quit,
        told: b"STORED\r\nVALUE a 7 5\r\nhello\r\nEND\r\nVALUE a 7 5 131072\r\nhello\r\nEND\r\n",
    },
    Exchange {
        name: "usual traffic",
        sent: b"set visits 0 0 2\r\n41\r\nincr visits 1\r\ndecr visits 50\r\nincr nokey 1\r\nset quiet 0 0 1 noreply\r\nx\r\nget visits quiet\r\nversion\r\n",
        end: ConnEnd::End,
        told: b"STORED\r\n42\r\n0\r\nNOT_FOUND\r\nVALUE visits 0 1\r\n0\r\nVALUE quiet 0 1\r\nx\r\nEND\r\nVERSION hermes-1\r\n",
    },
    Exchange {
        name: "a refused block is passed over",
        sent: b"set b 0 60 4\r\nquit\r\nset b 0 0 2\r\nabcd",
        end: ConnEnd::End,
        told: b"SERVER_ERROR expiry not kept\r\nCLIENT_ERROR bad data chunk\r\n",
    },
    Exchange {
        name: "lines that are refused",
        sent: b"append c 0 0 3\r\nfoo\r\nget\r\nincr c +5\r\n",
        end: ConnEnd::End,
        told: b"ERROR\r\nERROR\r\nCLIENT_ERROR bad number\r\n",
    },
    Exchange {
        name: "what is there is added, replaced and deleted",
        sent: b"add d 0 0 1\r\na\r\nadd d 0 0 1\r\nb\r\ndelete d\r\ndelete d\r\nreplace d 0 0 1\r\nc\r\nget d\r\ndelete d 0\r\n",
        end: ConnEnd::End,
        told: b"STORED\r\nNOT_STORED\r\nDELETED\r\nNOT_FOUND\r\nNOT_STORED\r\nEND\r\nERROR\r\n",
    },
    Exchange {
        name: "stores that look at the key",
        sent: b"add e 0 0 1\r\na\r\nadd e 0 0 1\r\nb\r\ncas e 0 0 1 1\r\nc\r\nreplace e 0 0 1\r\nd\r\ndelete e\r\ndelete e\r\nget e\r\n",
        end: ConnEnd::End,
        told: b"STORED\r\nNOT_STORED\r\nEXISTS\r\nSTORED\r\nDELETED\r\nNOT_FOUND\r\nEND\r\n",
    },
];

// A connection of a client that sends this.
fn connection(rt: &impl Abort, alloc: Global, sent: &[u8]) -> MemoryConnection {
    let sent = Vec::from_slice(alloc, sent).expect(rt, "memory");
    MemoryConnection {
        source: MemorySource::new(sent, Vec::new(alloc)),
        sink: MemorySink::new(alloc, Vec::new(alloc)),
    }
}

fn tells<R: Wait + Abort + Copy + Drop, P: Places>(rt: R, alloc: Global, founded: Founded)
    requires { node_names P.places founded.node ≡ names_of founded }
{
    let shards: Arc<Shards<Quiet, P>> = Arc::new(alloc, founded.named()).expect(&rt, "memory");
    for row in &EXCHANGES {
        let mut desk = clock_desk(rt, alloc, &shards, 1, 5);
        let mut conn = connection(&rt, alloc, row.sent);
        let end = serve_connection(alloc, &mut conn, &mut desk, 64);
        assert_eq!(rt; end, row.end, "{}", row.name);
        assert_eq!(rt; conn.sink.sink.bytes.as_slice(), row.told, "{}", row.name);
        let_go(desk);
        let_go(conn);
    }
    let_go(shards);
}

#[test]
fn replies_of_one_node(rt: HostRuntime) {
    let alloc = rt.alloc();
    let founded = found(&rt, alloc, false);
    tells::<HostRuntime, Brand>(rt, alloc, founded);
}
