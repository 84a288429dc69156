//! Why a manager refuses.

ghost use Rattle.std.specs.Prelude.{◌≡◌};
ghost use Rattle.hk_office.specs.Answers.{told_as};

use hk_inside::ManagerRefusal;

/// Why a manager refuses what it is asked for.
#[derive(Clone, Copy, Debug, PartialEq, Eq)]
pub enum OfficeRefusal {
    /// The group is open, with this founding.
    Lives(u64),
    /// Who is to leave is in no view.
    NoSuchMember,
    /// Who is to leave is the last that is ready.
    NoOtherIsReady,
    /// The number is bound to another process.
    Taken(u16),
    /// Not now.
    Wait,
    /// Too few managers are heard.
    NoMajority,
    /// The manager is reserved for another founding.
    AnotherInit,
}

impl OfficeRefusal {
    /// The refusal that NO tells, with its code and its text.
    pub fn told(self) -> ManagerRefusal<'static>
        ensures { result ≡ told_as self }
    {
        match self {
            OfficeRefusal::Lives(founding) => ManagerRefusal::Lives(founding),
            OfficeRefusal::NoSuchMember => ManagerRefusal::NoSuchMember,
            OfficeRefusal::NoOtherIsReady => ManagerRefusal::NoOtherIsReady,
            OfficeRefusal::Taken(number) => ManagerRefusal::Taken(number),
            OfficeRefusal::Wait => ManagerRefusal::Wait,
            OfficeRefusal::NoMajority => ManagerRefusal::NoMajority,
            OfficeRefusal::AnotherInit => ManagerRefusal::AnotherInit,
        }
    }
}
