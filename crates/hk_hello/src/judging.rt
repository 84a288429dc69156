//! What an acceptor makes of a hello.

ghost use Rattle.std.specs.Prelude.{◌≡◌, Option};
ghost use Rattle.hk_hello.specs.Hellos.{proof_of, IsGroupName};
ghost use Rattle.hk_hello.specs.Judging.{has_other_terms, differ, lacks_actor, refusal, IsJudged};

use crate::challenge::Challenge;
use crate::hello::{GroupName, Hello, HostsDigest, Party, Purpose, SignedHello};
use crate::mac::Proof;
use crate::printing::proof_of;
use crate::refusal::HelloRefusal;
use hk_base::{Memory, Sequence};
use std::alloc::Global;
use thiserror::Error;

/// What an acceptor is of, as long as its process runs.
#[derive(Drop)]
pub struct Ours {
    /// What all of its group know, and nobody else.
    pub secret: Sequence<u8>,
    pub group: GroupName,
    pub hosts: HostsDigest,
    /// The length of a lease in milliseconds.
    pub lease: u32,
    /// How far clocks may jump, in milliseconds.
    pub skew: u32,
}

/// What the caller looked up for a hello, as it is when that came.
#[derive(Clone, Copy, Debug, PartialEq, Eq)]
pub struct LookedUp {
    /// The number of the acceptor's founding, 0 where it counts as none.
    pub founding: u64,
    /// Whether who is dialled is at this process.
    pub to_is_here: bool,
    /// Whether who dials is bound to its process.
    pub from_is_bound: bool,
    /// Whether the number of who dials belongs to another process.
    pub is_taken: bool,
}

/// Why no connection is taken.
#[derive(Clone, Copy, Debug, PartialEq, Eq, Error)]
pub enum JudgingFault {
    /// An allocation was refused.
    #[error("no memory")]
    Memory,
    /// The hello is refused; the dialler is told.
    #[error("{0}")]
    Refused(HelloRefusal),
}

fn has_other_terms(ours: &Ours, hello: &Hello) -> bool
    ensures { result ≡ has_other_terms ours.now hello.now }
{
    match hello.from {
        Party::Actor(_) => !(hello.lease == ours.lease && hello.skew == ours.skew),
        Party::Neither => false,
    }
}

fn differ(theirs: u64, ours: u64) -> bool
    ensures { result ≡ differ theirs ours }
{
    theirs != 0 && ours != 0 && theirs != ours
}

fn lacks_actor(looked: LookedUp, hello: &Hello) -> bool
    ensures { result ≡ lacks_actor looked hello.now }
{
    !looked.to_is_here || (hello.purpose == Purpose::Letters && !looked.from_is_bound)
}

// The refusal of a hello whose right proof would be this one.
#[tactic(auto, unfolding(crate::specs::Judging::refusal))]
fn refusal(
    ours: &Ours,
    right: Proof,
    signed: &SignedHello,
    looked: LookedUp,
) -> Option<HelloRefusal>
    ensures { result ≡ refusal ours.now right.0 signed.now looked }
{
    let hello = &signed.hello;
    if signed.proof != right {
        return Some(HelloRefusal::AnotherSecret);
    }
    if hello.group.as_slice() != ours.group.as_slice() {
        return Some(HelloRefusal::AnotherGroup);
    }
    if hello.hosts != ours.hosts {
        return Some(HelloRefusal::OtherHosts);
    }
    if has_other_terms(ours, hello) {
        return Some(HelloRefusal::AnotherLeaseOrSkew);
    }
    if differ(hello.founding, looked.founding) {
        return Some(HelloRefusal::AnotherFounding);
    }
    if lacks_actor(looked, hello) {
        return Some(HelloRefusal::NoSuchActor);
    }
    if looked.is_taken {
        return Some(HelloRefusal::NumberTaken);
    }
    None
}

/// Whether a hello is taken that was asked for by this challenge; else the first refusal that holds.
pub fn judge(
    alloc: Global,
    ours: &Ours,
    challenge: Challenge,
    signed: &SignedHello,
    looked: LookedUp,
) -> Result<(), JudgingFault>
    requires { IsGroupName signed.now.hello.group }
    ensures { IsJudged result (refusal ours.now (proof_of ours.now.secret challenge signed.now.hello) signed.now looked) }
{
    let Ok(right) = proof_of(alloc, ours.secret.as_slice(), challenge, &signed.hello) else {
        return Err(JudgingFault::Memory);
    };
    match refusal(ours, right, signed, looked) {
        Some(refusal) => Err(JudgingFault::Refused(refusal)),
        None => Ok(()),
    }
}
