//! Why a script stops.

use hk_outside::Status;

/// Why a script is not followed beyond a line.
#[derive(Clone, Copy, Debug, PartialEq, Eq)]
pub enum Stop {
    /// The line is outside the grammar.
    Bad,
    /// It has more than 4,096 bytes.
    Long,
    /// It is line 1,000,001.
    Lines,
    /// Its event would send a letter beyond number 4,000,000.
    Letters,
}

impl Stop {
    ghost use Rattle.std.specs.Prelude.{◌≡◌};
    ghost use Rattle.hk_drill.specs.Transcript.{status_of};

    /// The status of a script that stops so.
    pub(crate) fn status(self) -> Status
        ensures { result ≡ status_of self }
    {
        match self {
            Stop::Bad => Status::BadLine,
            Stop::Long => Status::TooLong,
            Stop::Lines => Status::TooLong,
            Stop::Letters => Status::TooLong,
        }
    }
}
