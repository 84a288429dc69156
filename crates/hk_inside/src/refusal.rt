//! Why a manager refuses.

ghost use Rattle.std.specs.Prelude.{◌≡◌};
ghost use Rattle.hk_inside.specs.Messages.{refusal_code};

use thiserror::Error;

/// Why a manager refuses, or `init` by what managers told it. The text is what NO carries beside the code.
#[derive(Clone, Copy, Debug, PartialEq, Eq, Error)]
pub enum ManagerRefusal<'a> {
    /// The group is open, with this founding.
    #[error("the group lives: founding {0:016x}")]
    Lives(u64),
    /// The host at this address has another lease or skew than others.
    #[error("{0} has another lease or skew")]
    OtherLease(&'a str),
    /// The node of this number serves clients.
    #[error("node {0} is ready")]
    NodeIsReady(u16),
    /// A lease that was granted may run for so many milliseconds more.
    #[error("a lease may run {0} ms")]
    LeaseMayRun(u64),
    /// Who is to leave is in no view.
    #[error("no such member")]
    NoSuchMember,
    /// Who is to leave is the last that is ready.
    #[error("no other member is ready")]
    NoOtherIsReady,
    /// The number is bound to another process.
    #[error("number {0} is taken")]
    Taken(u16),
    /// Not now.
    #[error("wait")]
    Wait,
    /// Too few managers are heard.
    #[error("no majority is up")]
    NoMajority,
    /// The manager is reserved for another founding.
    #[error("another init runs")]
    AnotherInit,
}

impl<'a> ManagerRefusal<'a> {
    /// The code by which NO tells it, 1 to 10.
    pub fn code(&self) -> u8
        ensures { result ≡ refusal_code self.now }
    {
        match self {
            ManagerRefusal::Lives(_) => 1,
            ManagerRefusal::OtherLease(_) => 2,
            ManagerRefusal::NodeIsReady(_) => 3,
            ManagerRefusal::LeaseMayRun(_) => 4,
            ManagerRefusal::NoSuchMember => 5,
            ManagerRefusal::NoOtherIsReady => 6,
            ManagerRefusal::Taken(_) => 7,
            ManagerRefusal::Wait => 8,
            ManagerRefusal::NoMajority => 9,
            ManagerRefusal::AnotherInit => 10,
        }
    }
}
