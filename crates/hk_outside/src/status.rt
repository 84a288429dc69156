//! How a run of the program ended.

use thiserror::Error;

/// The status of a run. Its number, counted from 0, is the process's.
#[derive(Clone, Copy, Debug, PartialEq, Eq, Error)]
pub enum Status {
    /// The command did all that it is for.
    #[error("done")]
    Done,
    /// An allocation was refused.
    #[error("no memory")]
    Memory,
    /// The words are none of the program's.
    #[error("no command has these words")]
    Usage,
    /// The source failed.
    #[error("a read failed")]
    ReadFault,
    /// The sink failed, or took nothing of a piece.
    #[error("a write failed")]
    WriteFault,
    /// A line of a script is outside its grammar.
    #[error("a line is outside the grammar")]
    BadLine,
    /// A line, the lines or the letters of a script pass their limit.
    #[error("a line, the lines or the letters pass their limit")]
    TooLong,
    /// What the threads of a storm did is no run of the protocol.
    #[error("the journals are those of no run")]
    Gap,
    /// The doors failed.
    #[error("the port could not be opened or served")]
    DoorFault,
    /// A job could not be started.
    #[error("a thread could not be started")]
    SpawnFault,
}

impl Status {
    ghost use Rattle.std.specs.Prelude.{◌≡◌};
    ghost use Rattle.hk_outside.specs.Status.{number_of};

    /// The number that the process ends with.
    pub fn number(self) -> u8
        ensures { result ≡ number_of self }
    {
        self as u8
    }
}
