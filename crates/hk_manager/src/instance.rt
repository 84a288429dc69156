//! One instance of Paxos at a manager.

ghost use Rattle.std.specs.Prelude.{◌≡◌, max, IfOk, OnOk, OnErr};
ghost use Rattle.hk_paxos.specs.Paxos.{acceptor_on_prepare, acceptor_on_accept};
ghost use Rattle.hk_manager.specs.Manager.{fresh};

use hk_base::{Ballot, Memory, View};
use hk_paxos::{Acceptor, Promise};
use std::alloc::Global;

/// The greatest epoch of an instance. Letters of the epoch above it are dropped.
pub const MAX_EPOCH: u64 = 18_446_744_073_709_551_614;

/// The greatest round of a ballot that a manager uses or takes.
pub const MAX_ROUND: u32 = 4_294_967_294;

/// What a manager knows of an instance.
#[derive(Drop)]
pub struct Instance {
    /// The manager as an acceptor.
    pub acceptor: Acceptor,
    /// The greatest round that it used itself, or saw in a Prepare or an Accept; 0 where there was none.
    pub round: u32,
}

impl Instance {
    /// An instance of which the manager knows nothing.
    pub(crate) fn new() -> Instance
        ensures { result ≡ fresh }
    {
        Instance {
            acceptor: Acceptor::new(),
            round: 0,
        }
    }

    /// An equal one.
    pub(crate) fn copy(&self, alloc: Global) -> Result<Instance, Memory>
        ensures { IfOk result (λ copy. copy ≡ self.now) }
    {
        let acceptor = self.acceptor.copy(alloc)?;
        Ok(Instance {
            acceptor,
            round: self.round,
        })
    }

    /// Takes a Prepare: the promise, if the acceptor gives one.
    pub(crate) fn prepare(
        &mut self,
        alloc: Global,
        ballot: Ballot,
    ) -> Result<Option<Promise>, Memory>
        ensures answer { IfOk result (λ answer. answer ≡ (acceptor_on_prepare self.old.acceptor ballot).answer) }
        ensures after { OnOk result (self.new ≡ record { acceptor = (acceptor_on_prepare self.old.acceptor ballot).after; round = max self.old.round ballot.round }) }
        ensures err { OnErr result (self.new ≡ self.old) }
    {
        let answer = self.acceptor.on_prepare(alloc, ballot)?;
        self.round = self.round.max(ballot.round);
        Ok(answer)
    }

    /// Takes an Accept: the ballot at which the acceptor accepted, if it did.
    pub(crate) fn accept(&mut self, ballot: Ballot, view: View) -> Option<Ballot>
        ensures answer { result ≡ (acceptor_on_accept self.old.acceptor ballot view).answer }
        ensures after { self.new ≡ record { acceptor = (acceptor_on_accept self.old.acceptor ballot view).after; round = max self.old.round ballot.round } }
    {
        self.round = self.round.max(ballot.round);
        self.acceptor.on_accept(ballot, view)
    }
}
