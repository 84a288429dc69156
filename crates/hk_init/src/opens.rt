//! STATUS, until all managers are open.

ghost use Rattle.std.specs.Prelude.{◌≡◌, List, [], ◌∷◌, MatchOption};
ghost use Rattle.hk_inside.specs.declared.inquiry.Inquiry.TheVariants.{Status as StatusOf};
ghost use Rattle.hk_init.specs.Deeds.{Did, Asked};
ghost use Rattle.hk_init.specs.Phases.{tells_by, tells, AllTell, FirstLacks, Opens};

use crate::asking::AskHost;
use crate::fault::CommandFault;
use hk_inside::{Inquiry, Response};

/// So many milliseconds pass between two rounds.
pub const REST: u64 = 250;

/// So many times hosts are asked whether they are open.
pub const ROUNDS: u32 = 120;

// Whether an answer to STATUS begins with these words.
fn tells_by(words: &[u8], response: &Response) -> bool
    ensures { result ≡ tells_by words.now response.now }
{
    match response {
        Response::Status(text) => text.as_slice().starts_with(words),
        Response::Yes => false,
        Response::No { .. } => false,
        Response::State(_) => false,
        Response::Board(_) => false,
        Response::Seated(_) => false,
    }
}

fn tells<A: AskHost>(asker: &mut A, place: usize, words: &[u8]) -> bool
    ensures { Asked (A.deeds asker.old) (A.deeds asker.new) place StatusOf (λ outcome. result ≡ tells words.now outcome) }
{
    match asker.ask(place, &Inquiry::Status) {
        Ok(response) => tells_by(words, &response),
        Err(_) => false,
    }
}

// The first of so many hosts that does not tell the words, if there is one.
fn first_lacking<A: AskHost>(asker: &mut A, count: usize, words: &[u8]) -> Option<usize>
    ensures { Did (A.deeds asker.old) (A.deeds asker.new) (λ deeds. MatchOption result (AllTell words.now count deeds) (λ place. FirstLacks words.now count place deeds)) }
{
    for place in 0..count {
        if !tells(asker, place, words) {
            return Some(place);
        }
    }
    None
}

/// Asks each of so many hosts how the group stands until all tell these words.
pub(crate) fn await_all<A: AskHost>(
    asker: &mut A,
    count: usize,
    words: &[u8],
) -> Result<(), CommandFault>
    ensures { Did (A.deeds asker.old) (A.deeds asker.new) (λ deeds. Opens words.now count deeds result) }
{
    let mut lacking = 0;
    for _round in 0..ROUNDS {
        let Some(place) = first_lacking(asker, count, words) else {
            return Ok(());
        };
        asker.rest(REST);
        lacking = place;
    }
    Err(CommandFault::NotOpen { place: lacking })
}
