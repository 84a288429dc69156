//! Stages, as logs, boards and openings have them.

ghost use Rattle.std.specs.Prelude.{◌≡◌};
ghost use Rattle.hk_office.specs.Stages.{number_of, stage_told, stage_heard, stage_logged};

use hk_inside::Board;
use hk_log::Founding;
use hk_stage::Stage;

/// The number of the founding, or 0.
pub fn number_of(stage: Stage) -> u64
    ensures { result ≡ number_of stage }
{
    match stage {
        Stage::Empty => 0,
        Stage::Founded(founding) => founding,
        Stage::Open(founding) => founding,
    }
}

/// The stage as a board tells it.
pub fn stage_told(stage: Stage) -> hk_inside::Stage
    ensures { result ≡ stage_told stage }
{
    match stage {
        Stage::Empty => hk_inside::Stage::Empty,
        Stage::Founded(_) => hk_inside::Stage::Founded,
        Stage::Open(_) => hk_inside::Stage::Open,
    }
}

/// The stage that a board tells.
pub fn stage_heard(board: &Board) -> Stage
    ensures { result ≡ stage_heard board.now.stage board.now.founding }
{
    match board.stage {
        hk_inside::Stage::Empty => Stage::Empty,
        hk_inside::Stage::Founded => Stage::Founded(board.founding),
        hk_inside::Stage::Open => Stage::Open(board.founding),
    }
}

/// The stage that a log tells.
pub fn stage_logged(founding: &Option<Founding>, is_open: bool) -> Stage
    ensures { result ≡ stage_logged founding.now is_open }
{
    match founding {
        Some(founding) => {
            if is_open {
                Stage::Open(founding.number)
            } else {
                Stage::Founded(founding.number)
            }
        }
        None => Stage::Empty,
    }
}
