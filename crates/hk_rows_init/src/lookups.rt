//! What `leave` says of the node of a host, by what managers tell of it.

use hk_base::{Memory, NodeId, Sequence};
use hk_hello::HelloRefusal;
use hk_hosts::read_hosts;
use hk_init::{AskHost, NoAnswer, leave, put_fault};
use hk_inside::{Counts, Inquiry, Leaver, Response, ShardsTold, Stage, Text};
use hk_outside::SureSink;
use hk_status::{GroupStatus, NodeLine, NodeShown, NodeTold, print_status};
use std::alloc::Global;
use std::process::Abort;

const NOTHING: &str = "group g founding=- stage=empty lease=1000 skew=10\n";

const SEVEN: &str = "group g founding=3f9c27b1d04e8a65 stage=open lease=1000 skew=10
manager 2 c:11400 up=12 records=17
view shards=0-7 epoch=3 members=0,1,7 next=8
node 0 a:11400 ready manager=0 clients=a:11211 shards=8 epoch=3 lease=871 keys=5 bytes=56 gets=0 sets=5 busy=0 aborted=0 unknown=0
node 1 b:11400 ready manager=- clients=b:11211 shards=8 epoch=3 lease=871 keys=5 bytes=56 gets=0 sets=5 busy=0 aborted=0 unknown=0
node 7 c:11400 ready manager=2 clients=c:11211 shards=8 epoch=3 lease=871 keys=5 bytes=56 gets=0 sets=5 busy=0 aborted=0 unknown=0
";

// Host 2 was started again: its node of before is a member still, and its later one is seated.
const TWO: &str = "node 12 c:11400 seated manager=2 clients=c:11211 shards=0
node 7 c:11400 gone manager=2 clients=c:11211 shards=8
waiting manager=2
node 70000 c:11400 ready manager=2 clients=c:11211
node 13 c:11400 ready manager=20 clients=c:11211
node 14 c:11400 ready seated clients=manager=2
";

// Three hosts, of which host 2 has the node of this number. While somebody rests its process is killed, and a second one has the next number.
#[derive(Drop)]
struct Hosts {
    alloc: Global,
    number: u16,
    // What the managers answer to STATUS, where they do.
    told: [Option<&'static str>; 3],
    // Why the manager of host 1 gives no other answer.
    silent: NoAnswer,
    // How often STATUS was asked.
    looks: u32,
    // Node 7 was asked to leave, and another one was.
    seven: bool,
    other: bool,
}

impl Hosts {
    fn new(alloc: Global, told: [Option<&'static str>; 3]) -> Hosts {
        Hosts {
            alloc,
            number: 7,
            told,
            silent: NoAnswer::Silent,
            looks: 0,
            seven: false,
            other: false,
        }
    }

    fn bytes_of(&self, text: &str) -> Result<Sequence<u8>, NoAnswer> {
        match text.as_bytes().to_vec(self.alloc) {
            Ok(text) => Ok(Sequence::from_vec(text)),
            Err(_) => Err(NoAnswer::Memory),
        }
    }

    fn leaves(&mut self, leaver: Leaver) -> Result<Response, NoAnswer> {
        let number = match leaver {
            Leaver::Node(node) => node.0,
            Leaver::Host(_) => self.number,
        };
        self.seven = self.seven || number == 7;
        self.other = self.other || number != 7;
        if number == self.number {
            return Ok(Response::Yes);
        }
        let text = self.bytes_of("no such member")?;
        Ok(Response::No { code: 5, text })
    }
}

impl AskHost for Hosts {
    fn ask(&mut self, place: usize, inquiry: &Inquiry) -> Result<Response, NoAnswer> {
        match inquiry {
            Inquiry::Status => {
                self.looks = self.looks.saturating_add(1);
                match self.told.get(place) {
                    Some(Some(text)) => Ok(Response::Status(self.bytes_of(text)?)),
                    _ => Err(self.silent),
                }
            }
            Inquiry::Leave(leaver) => self.leaves(*leaver),
            _ => Ok(Response::Yes),
        }
    }

    fn read_clock(&mut self) -> u64 {
        0
    }

    fn rest(&mut self, _millis: u64) {
        self.number = 8;
    }
}

// What `leave` says of the node of host 2.
fn said(alloc: Global, group: &mut Hosts) -> Result<Vec<u8>, Memory> {
    let Ok(hosts) = read_hosts(alloc, "a,b,c", 11_400) else {
        return Err(Memory);
    };
    let mut sink = SureSink::new(alloc);
    match leave(alloc, group, 3, Leaver::Host(2), &mut sink) {
        Ok(()) => Ok(sink.bytes),
        Err(fault) => {
            let mut text = Vec::new(alloc);
            put_fault(&mut text, hosts.as_slice(), &fault)?;
            Ok(text)
        }
    }
}

fn says(rt: &impl Abort, alloc: Global, group: &mut Hosts, wanted: &str) -> bool {
    let text = said(alloc, group).expect(rt, "memory");
    text.as_slice() == wanted.as_bytes()
}

#[test]
fn the_node_of_a_host_leaves_and_none_that_comes_behind_it(rt: HostRuntime) {
    let alloc = rt.alloc();
    let mut group = Hosts::new(alloc, [Some(SEVEN), Some(SEVEN), Some(SEVEN)]);
    assert!(rt; says(&rt, alloc, &mut group, "left 7\n"));
    assert_eq!(rt; group.looks, 1);
    assert_eq!(rt; group.number, 8);
    assert!(rt; group.seven && !group.other);
}

#[test]
fn the_first_host_tells_it_that_knows_it(rt: HostRuntime) {
    let alloc = rt.alloc();
    let mut group = Hosts::new(alloc, [Some(NOTHING), Some(SEVEN), None]);
    assert!(rt; says(&rt, alloc, &mut group, "left 7\n"));
    assert_eq!(rt; group.looks, 2);
    let mut group = Hosts::new(alloc, [None, None, Some(SEVEN)]);
    assert!(rt; says(&rt, alloc, &mut group, "left 7\n"));
    assert_eq!(rt; group.looks, 3);
}

#[test]
fn who_has_no_node_that_is_known_is_told(rt: HostRuntime) {
    let alloc = rt.alloc();
    let mut group = Hosts::new(alloc, [Some(NOTHING), None, Some(NOTHING)]);
    assert!(rt; says(&rt, alloc, &mut group, "the node of c:11400 is not known"));
    let mut group = Hosts::new(alloc, [None, None, None]);
    assert!(rt; says(&rt, alloc, &mut group, "a:11400 does not answer"));
    let mut group = Hosts::new(alloc, [Some(NOTHING), None, Some(NOTHING)]);
    group.silent = NoAnswer::Refused(HelloRefusal::AnotherSecret);
    assert!(rt; says(&rt, alloc, &mut group, "the node of c:11400 is not known"));
    let mut group = Hosts::new(alloc, [None, None, None]);
    group.silent = NoAnswer::Refused(HelloRefusal::AnotherSecret);
    assert!(rt; says(&rt, alloc, &mut group, "c:11400 refused: another secret"));
    assert!(rt; !group.seven && !group.other);
}

#[test]
fn of_two_nodes_of_a_host_it_is_the_later_one(rt: HostRuntime) {
    let alloc = rt.alloc();
    let mut group = Hosts::new(alloc, [Some(TWO), None, None]);
    assert!(rt; says(&rt, alloc, &mut group, "no such member"));
    assert!(rt; group.other && !group.seven);
    group.number = 12;
    assert!(rt; says(&rt, alloc, &mut group, "left 12\n"));
}

fn text_of(rt: &impl Abort, alloc: Global, bytes: &[u8]) -> Text {
    Text::from_vec(bytes.to_vec(alloc).expect(rt, "memory"))
}

fn put_node(
    rt: &impl Abort,
    alloc: Global,
    number: u16,
    manager: Option<u8>,
    nodes: &mut Sequence<NodeLine>,
) {
    let node = NodeLine {
        node: NodeId(number),
        inside: text_of(rt, alloc, b"[::1]:11400"),
        state: NodeShown::Copying,
        told: Some(NodeTold {
            manager,
            clients: Text::new(alloc),
            shards: ShardsTold {
                ready: 0,
                least_epoch: 1,
                least_lease_left: 0,
            },
            counts: Counts {
                keys: 0,
                bytes: 0,
                gets: 0,
                sets: 0,
                busy: 0,
                aborted: 0,
                unknown: 0,
            },
        }),
    };
    nodes.push(node).expect(rt, "memory");
}

// A manager that tells its status as managers do.
#[derive(Drop)]
struct Teller {
    alloc: Global,
    text: Vec<u8>,
    asked: Option<NodeId>,
}

impl AskHost for Teller {
    fn ask(&mut self, _place: usize, inquiry: &Inquiry) -> Result<Response, NoAnswer> {
        if let Inquiry::Leave(Leaver::Node(node)) = inquiry {
            self.asked = Some(*node);
            return Err(NoAnswer::Silent);
        }
        match self.text.as_slice().to_vec(self.alloc) {
            Ok(text) => Ok(Response::Status(Sequence::from_vec(text))),
            Err(_) => Err(NoAnswer::Memory),
        }
    }

    fn read_clock(&mut self) -> u64 {
        0
    }

    fn rest(&mut self, _millis: u64) {}
}

#[test]
fn what_a_manager_prints_is_read(rt: HostRuntime) {
    let alloc = rt.alloc();
    let mut nodes = Sequence::new(alloc);
    put_node(&rt, alloc, 0, Some(0), &mut nodes);
    put_node(&rt, alloc, 1, None, &mut nodes);
    put_node(&rt, alloc, 65_535, Some(2), &mut nodes);
    put_node(&rt, alloc, 10, Some(1), &mut nodes);
    let status = GroupStatus {
        group: text_of(&rt, alloc, b"hermes"),
        founding: Some(1),
        stage: Stage::Open,
        lease: 1000,
        skew: 10,
        managers: Sequence::new(alloc),
        views: Sequence::new(alloc),
        nodes,
        waits: Sequence::new(alloc),
        waiting: Sequence::new(alloc),
        is_lost: false,
    };
    let text = print_status(alloc, &status).expect(&rt, "memory");
    let mut teller = Teller {
        alloc,
        text,
        asked: None,
    };
    for (host, number) in [(0_u8, 0_u16), (1, 10), (2, 65_535)] {
        let mut sink = SureSink::new(alloc);
        let told = leave(alloc, &mut teller, 3, Leaver::Host(host), &mut sink);
        assert!(rt; told.is_err());
        assert_eq!(rt; teller.asked, Some(NodeId(number)));
    }
}
