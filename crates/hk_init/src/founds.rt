//! FOUND, to each host with all tickets.

ghost use Rattle.std.specs.Prelude.{◌≡◌, List, [], ◌∷◌};
ghost use Rattle.hk_inside.specs.Messages.{IsInquiryInRange};
ghost use Rattle.hk_init.specs.Deeds.{Did, Asked};
ghost use Rattle.hk_init.specs.Phases.{taken_by, taken, in_time, Founds};

use crate::asking::AskHost;
use crate::fault::CommandFault;
use hk_inside::{Inquiry, Response};

/// FOUND is sent by readings that are less than so many milliseconds behind the one before the first LOOK. Managers are
/// reserved for 10 s.
pub const FOUND_WITHIN: u64 = 5_000;

// Whether a manager took it, by its answer.
fn taken_by(place: usize, response: Response) -> Result<(), CommandFault>
    ensures { result ≡ taken_by place response }
{
    match response {
        Response::Yes => Ok(()),
        Response::No { code: _, text } => Err(CommandFault::Refused { text }),
        Response::State(_) => Err(CommandFault::Unreachable { place }),
        Response::Board(_) => Err(CommandFault::Unreachable { place }),
        Response::Seated(_) => Err(CommandFault::Unreachable { place }),
        Response::Status(_) => Err(CommandFault::Unreachable { place }),
    }
}

fn found<A: AskHost>(asker: &mut A, place: usize, inquiry: &Inquiry) -> Result<(), CommandFault>
    requires { IsInquiryInRange inquiry.now }
    ensures { Asked (A.deeds asker.old) (A.deeds asker.new) place inquiry.now (λ outcome. result ≡ taken place outcome) }
{
    match asker.ask(place, inquiry) {
        Ok(response) => taken_by(place, response),
        Err(fault) => Err(CommandFault::of_ask(place, fault)),
    }
}

// Whether the managers are still reserved.
fn in_time(began: u64, now: u64) -> bool
    ensures { result ≡ in_time began now }
{
    now.saturating_sub(began) < FOUND_WITHIN
}

/// Sends FOUND to each of so many hosts, if it is in time by the reading that was made before the first LOOK.
pub(crate) fn found_all<A: AskHost>(
    asker: &mut A,
    count: usize,
    began: u64,
    inquiry: &Inquiry,
) -> Result<(), CommandFault>
    requires { IsInquiryInRange inquiry.now }
    ensures { Did (A.deeds asker.old) (A.deeds asker.new) (λ deeds. Founds began count inquiry.now deeds result) }
{
    for place in 0..count {
        let now = asker.read_clock();
        if !in_time(began, now) {
            return Err(CommandFault::Late);
        }
        found(asker, place, inquiry)?;
    }
    Ok(())
}
