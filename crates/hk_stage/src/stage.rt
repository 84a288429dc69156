//! How far a manager has come with the founding of its group.

ghost use Rattle.std.specs.Prelude.{◌≡◌};
ghost use Rattle.hk_stage.specs.Stages.{is_open, stage_number};

/// How far a manager has come with the founding of its group, by what its log has.
#[derive(Clone, Copy, Debug, PartialEq, Eq)]
pub enum Stage {
    /// Stage 0: it was founded with nothing.
    Empty,
    /// Stage 1: it was founded with this number, and has not opened the group.
    Founded(u64),
    /// Stage 2: it opened the group of this founding, for good.
    Open(u64),
}

impl Stage {
    /// Whether it is 2.
    pub fn is_open(&self) -> bool
        ensures { result ≡ is_open self.now }
    {
        match self {
            Stage::Empty => false,
            Stage::Founded(_) => false,
            Stage::Open(_) => true,
        }
    }

    /// The stage as a number, 0 to 2.
    pub fn number(&self) -> u8
        ensures { result ≡ stage_number self.now }
    {
        match self {
            Stage::Empty => 0,
            Stage::Founded(_) => 1,
            Stage::Open(_) => 2,
        }
    }
}
