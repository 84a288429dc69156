//! Why an acceptor takes no connection.

ghost use Rattle.std.specs.Prelude.{◌≡◌};
ghost use Rattle.hk_hello.specs.Hellos.{refusal_code, IsOfCode};

use thiserror::Error;

/// Why an acceptor takes no connection, the first reason that holds.
#[derive(Clone, Copy, Debug, PartialEq, Eq, Error)]
pub enum HelloRefusal {
    /// The dialler did not show that it knows the secret.
    #[error("another secret")]
    AnotherSecret,
    /// The dialler's group has another name.
    #[error("another group")]
    AnotherGroup,
    /// The dialler has another list of hosts.
    #[error("other hosts")]
    OtherHosts,
    /// The dialler is an actor with another lease or skew.
    #[error("another lease or skew")]
    AnotherLeaseOrSkew,
    /// Both are of a founding, and not of the same one.
    #[error("another founding")]
    AnotherFounding,
    /// Who is dialled is not here; or letters come from an actor that is bound to no process.
    #[error("no such actor")]
    NoSuchActor,
    /// The dialler's number belongs to another process.
    #[error("number taken")]
    NumberTaken,
}

impl HelloRefusal {
    /// The code by which it is told, 1 to 7.
    pub fn code(self) -> u8
        ensures { result ≡ refusal_code self }
    {
        match self {
            HelloRefusal::AnotherSecret => 1,
            HelloRefusal::AnotherGroup => 2,
            HelloRefusal::OtherHosts => 3,
            HelloRefusal::AnotherLeaseOrSkew => 4,
            HelloRefusal::AnotherFounding => 5,
            HelloRefusal::NoSuchActor => 6,
            HelloRefusal::NumberTaken => 7,
        }
    }

    // The refusal with this code.
    pub(crate) fn of_code(code: u8) -> Option<HelloRefusal>
        ensures { IsOfCode result code }
    {
        match code {
            1 => Some(HelloRefusal::AnotherSecret),
            2 => Some(HelloRefusal::AnotherGroup),
            3 => Some(HelloRefusal::OtherHosts),
            4 => Some(HelloRefusal::AnotherLeaseOrSkew),
            5 => Some(HelloRefusal::AnotherFounding),
            6 => Some(HelloRefusal::NoSuchActor),
            7 => Some(HelloRefusal::NumberTaken),
            _ => None,
        }
    }
}
