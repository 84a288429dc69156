//! Which responses may be sent.

ghost use Rattle.std.specs.Prelude.{◌≡◌, true, All};
ghost use Rattle.hk_inside.specs.Messages.{IsResponseInRange};
ghost use Rattle.hk_inside.specs.Parts.{IsBoardInRange, IsLineInRange, IsPartyInRange};

use hk_inside::{Board, BoardLine, Party, Response};

fn is_party_in_range(party: Party) -> bool
    ensures { result ≡ true → IsPartyInRange party }
{
    match party {
        Party::Node(_) => true,
        Party::Manager(place) => place < 9,
        Party::Neither => true,
    }
}

fn is_line_in_range(line: &BoardLine) -> bool
    ensures { result ≡ true → IsLineInRange line.now }
{
    is_party_in_range(line.party) && line.inside.as_slice().len() < 256
}

fn is_board_in_range(board: &Board) -> bool
    ensures { result ≡ true → IsBoardInRange board.now }
{
    let lines = board.lines.as_slice();
    lines.len() < 256 && lines.iter().all(|line| is_line_in_range(line))
}

/// Whether a response may be printed.
pub fn is_in_range(response: &Response) -> bool
    ensures { result ≡ true → IsResponseInRange response.now }
{
    match response {
        Response::Board(board) => is_board_in_range(board),
        Response::State(state) => state.place < 9,
        Response::No { code, .. } => 1 <= *code && *code <= 12,
        Response::Seated(_) => true,
        Response::Status(_) => true,
        Response::Yes => true,
    }
}
