//! Acceptors, which promise and accept: phases 1b and 2b of Paxos.

ghost use Rattle.std.specs.Prelude.{◌≡◌, None, IfOk, OnOk, OnErr};
ghost use Rattle.hk_paxos.specs.Paxos.{is_refused, acceptor_new, acceptor_on_prepare, acceptor_on_accept};

use hk_base::{Ballot, Memory, View, Voted};
use std::alloc::Global;

/// An acceptor's answer to a Prepare: it will accept nothing below the ballot. It tells what it accepted last, and at
/// which ballot, if it accepted anything.
#[derive(Drop)]
pub struct Promise {
    pub ballot: Ballot,
    pub accepted: Option<Voted>,
}

/// One manager as an acceptor: the highest ballot that it promised, and what it accepted last.
#[derive(Drop)]
pub struct Acceptor {
    promised: Option<Ballot>,
    accepted: Option<Voted>,
}

/// An equal vote, if there is one.
pub(crate) fn copy_of_vote(alloc: Global, voted: &Option<Voted>) -> Result<Option<Voted>, Memory>
    ensures { IfOk result (λ copy. copy ≡ voted.now) }
{
    match voted {
        None => Ok(None),
        Some(voted) => {
            let view = voted.view.copy(alloc)?;
            Ok(Some(Voted {
                ballot: voted.ballot,
                view,
            }))
        }
    }
}

// Whether a promise forbids the ballot.
fn is_refused(promised: Option<Ballot>, ballot: Ballot) -> bool
    ensures { result ≡ is_refused promised ballot }
{
    match promised {
        None => false,
        Some(promised) => ballot < promised,
    }
}

impl Promise {
    /// A promise at the ballot that tells an equal vote, if there is one.
    pub fn telling(
        alloc: Global,
        ballot: Ballot,
        accepted: &Option<Voted>,
    ) -> Result<Promise, Memory>
        ensures { IfOk result (λ promise. promise ≡ record { ballot = ballot; accepted = accepted.now }) }
    {
        let accepted = copy_of_vote(alloc, accepted)?;
        Ok(Promise { ballot, accepted })
    }
}

impl Acceptor {
    /// An acceptor that promised and accepted nothing.
    pub fn new() -> Acceptor
        ensures { result ≡ acceptor_new }
    {
        Acceptor {
            promised: None,
            accepted: None,
        }
    }

    /// An equal acceptor.
    pub fn copy(&self, alloc: Global) -> Result<Acceptor, Memory>
        ensures { IfOk result (λ copy. copy ≡ self.now) }
    {
        let accepted = copy_of_vote(alloc, &self.accepted)?;
        Ok(Acceptor {
            promised: self.promised,
            accepted,
        })
    }

    /// Phase 1b: promises a ballot that is not below the one promised before. None exactly where it is below.
    /// After `Memory` nothing has changed.
    pub fn on_prepare(&mut self, alloc: Global, ballot: Ballot) -> Result<Option<Promise>, Memory>
        ensures answer { IfOk result (λ answer. answer ≡ (acceptor_on_prepare self.old ballot).answer) }
        ensures after { OnOk result (self.new ≡ (acceptor_on_prepare self.old ballot).after) }
        ensures err { OnErr result (self.new ≡ self.old) }
    {
        if is_refused(self.promised, ballot) {
            return Ok(None);
        }
        let accepted = copy_of_vote(alloc, &self.accepted)?;
        self.promised = Some(ballot);
        Ok(Some(Promise { ballot, accepted }))
    }

    /// Phase 2b: accepts the view at a ballot that is not below the promise, and promises that ballot. It gives the
    /// ballot; None exactly where it is below, and then nothing changes. It takes no memory.
    pub fn on_accept(&mut self, ballot: Ballot, view: View) -> Option<Ballot>
        ensures answer { result ≡ (acceptor_on_accept self.old ballot view).answer }
        ensures after { self.new ≡ (acceptor_on_accept self.old ballot view).after }
    {
        if is_refused(self.promised, ballot) {
            return None;
        }
        self.promised = Some(ballot);
        self.accepted = Some(Voted { ballot, view });
        Some(ballot)
    }
}
