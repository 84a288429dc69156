//! An acceptor and a proposer, letter by letter.

use hk_base::{Ballot, Sequence, View, Voted};
use hk_paxos::{Acceptor, Promise, Proposer};
use std::alloc::Global;

fn ballot(round: u32, manager: u8) -> Ballot {
    Ballot { round, manager }
}

fn view(alloc: Global, epoch: u64, next: u32) -> View {
    View {
        epoch,
        members: Sequence::new(alloc),
        next,
    }
}

#[test]
fn an_acceptor_refuses_below_its_promise(rt: HostRuntime) {
    let alloc = rt.alloc();
    let mut acceptor = Acceptor::new();
    assert!(rt; matches!(acceptor.on_prepare(alloc, ballot(2, 0)), Ok(Some(_))));
    assert!(rt; matches!(acceptor.on_prepare(alloc, ballot(1, 1)), Ok(None)));
    assert!(rt;
        acceptor
            .on_accept(ballot(1, 1), view(alloc, 2, 3))
            .is_none()
    );
    let promise = acceptor.on_prepare(alloc, ballot(2, 1));
    assert!(rt;
        matches!(
            promise,
            Ok(Some(Promise {
                ballot: Ballot {
                    round: 2,
                    manager: 1
                },
                accepted: None
            }))
        )
    );
}

#[test]
fn a_promise_tells_what_was_accepted(rt: HostRuntime) {
    let alloc = rt.alloc();
    let mut acceptor = Acceptor::new();
    let at = acceptor.on_accept(ballot(1, 1), view(alloc, 2, 3));
    assert!(rt; at == Some(ballot(1, 1)));
    let promise = acceptor.on_prepare(alloc, ballot(2, 0));
    assert!(rt;
        matches!(
            promise,
            Ok(Some(Promise {
                accepted: Some(Voted {
                    ballot: Ballot {
                        round: 1,
                        manager: 1
                    },
                    ..
                }),
                ..
            }))
        )
    );
}

// A promise at the ballot 2.0 that tells of no acceptance.
fn promise() -> Promise {
    Promise {
        ballot: ballot(2, 0),
        accepted: None,
    }
}

#[test]
fn a_proposer_of_three_counts_each_manager_once(rt: HostRuntime) {
    let alloc = rt.alloc();
    let at = ballot(2, 0);
    let mut proposer = Proposer::new(alloc, 2, at, view(alloc, 2, 3), 3).expect(&rt, "memory");
    assert!(rt; matches!(proposer.on_accepted(alloc, 0, at), Ok(None)));
    assert!(rt; matches!(proposer.on_promise(alloc, 0, promise()), Ok(None)));
    assert!(rt; matches!(proposer.on_promise(alloc, 0, promise()), Ok(None)));
    let proposed = proposer.on_promise(alloc, 1, promise());
    assert!(rt; matches!(proposed, Ok(Some(View { next: 3, .. }))));
    assert!(rt; matches!(proposer.on_promise(alloc, 2, promise()), Ok(None)));
    assert!(rt; matches!(proposer.on_accepted(alloc, 0, at), Ok(None)));
    assert!(rt; matches!(proposer.on_accepted(alloc, 1, ballot(1, 0)), Ok(None)));
    let chosen = proposer.on_accepted(alloc, 1, at);
    assert!(rt; matches!(chosen, Ok(Some(View { next: 3, .. }))));
    assert!(rt; matches!(proposer.on_accepted(alloc, 2, at), Ok(None)));
}

#[test]
fn a_proposer_takes_what_was_accepted(rt: HostRuntime) {
    let alloc = rt.alloc();
    let at = ballot(2, 0);
    let mut proposer = Proposer::new(alloc, 2, at, view(alloc, 2, 3), 3).expect(&rt, "memory");
    let told = Promise {
        ballot: at,
        accepted: Some(Voted {
            ballot: ballot(1, 1),
            view: view(alloc, 2, 7),
        }),
    };
    assert!(rt; matches!(proposer.on_promise(alloc, 1, told), Ok(None)));
    let proposed = proposer.on_promise(alloc, 2, promise());
    assert!(rt; matches!(proposed, Ok(Some(View { next: 7, .. }))));
}
