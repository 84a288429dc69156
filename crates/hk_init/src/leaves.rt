//! LEAVE, round by round.

ghost use Rattle.std.specs.Prelude.{◌≡◌, ◌||◌, List, [], ◌∷◌};
ghost use Rattle.std.specs.List.{list_any};
ghost use Rattle.hk_inside.specs.Messages.{IsInquiryInRange};
ghost use Rattle.hk_init.specs.Deeds.{Did};
ghost use Rattle.hk_init.specs.Leaving.{has_leave, knows_none, is_leaving, is_unknown, told_against, denied_by, against, later, last_told, why_not, ended, IsRound, Leaves};

use crate::asking::AskHost;
use crate::fault::{CommandFault, NoAnswer};
use hk_inside::{Inquiry, Response};

/// So many milliseconds pass between two rounds.
pub const LEAVE_REST: u64 = 100;

/// So many rounds are made at most. They last longer than any lease.
pub const LEAVE_ROUNDS: u32 = 1_000;

// The refusal that there is no such member.
const NO_SUCH_MEMBER: u8 = 5;

fn has_leave(response: &Response) -> bool
    ensures { result ≡ has_leave response.now }
{
    match response {
        Response::Yes => true,
        Response::No { .. } => false,
        Response::Status(_) => false,
        Response::State(_) => false,
        Response::Board(_) => false,
        Response::Seated(_) => false,
    }
}

fn knows_none(response: &Response) -> bool
    ensures { result ≡ knows_none response.now }
{
    match response {
        Response::No { code, text: _ } => *code == NO_SUCH_MEMBER,
        Response::Yes => false,
        Response::Status(_) => false,
        Response::State(_) => false,
        Response::Board(_) => false,
        Response::Seated(_) => false,
    }
}

fn is_leaving(outcome: &Result<Response, NoAnswer>) -> bool
    ensures { result ≡ is_leaving outcome.now }
{
    match outcome {
        Ok(response) => has_leave(response),
        Err(_) => false,
    }
}

fn is_unknown(outcome: &Result<Response, NoAnswer>) -> bool
    ensures { result ≡ is_unknown outcome.now }
{
    match outcome {
        Ok(response) => knows_none(response),
        Err(_) => false,
    }
}

fn told_against(response: Response) -> Option<CommandFault>
    ensures { result ≡ told_against response }
{
    match response {
        Response::No { code: _, text } => Some(CommandFault::Refused { text }),
        Response::Yes => None,
        Response::Status(_) => None,
        Response::State(_) => None,
        Response::Board(_) => None,
        Response::Seated(_) => None,
    }
}

pub(crate) fn denied_by(place: usize, fault: NoAnswer) -> Option<CommandFault>
    ensures { result ≡ denied_by place fault }
{
    match fault {
        NoAnswer::Memory => Some(CommandFault::Memory),
        NoAnswer::Silent => None,
        NoAnswer::Refused(reason) => Some(CommandFault::Denied { place, reason }),
    }
}

// What the host of a place tells against it.
fn against(place: usize, outcome: Result<Response, NoAnswer>) -> Option<CommandFault>
    ensures { result ≡ against place outcome }
{
    match outcome {
        Ok(response) => told_against(response),
        Err(fault) => denied_by(place, fault),
    }
}

pub(crate) fn later(now: Option<CommandFault>, before: Option<CommandFault>) -> Option<CommandFault>
    ensures { result ≡ later now before }
{
    match now {
        Some(fault) => Some(fault),
        None => before,
    }
}

fn either(one: bool, other: bool) -> bool
    ensures { result ≡ (one || other) }
{
    one || other
}

// What the managers answer in one round.
#[derive(Drop)]
struct Round {
    // Some manager has the node leave, which is a member still.
    leaving: bool,
    // Some manager knows no such member.
    unknown: bool,
    // What the last one tells against it that tells anything.
    against: Option<CommandFault>,
}

// Asks each of so many hosts to have the node leave.
fn ask_each<A: AskHost>(asker: &mut A, count: usize, leave: &Inquiry) -> Round
    requires { IsInquiryInRange leave.now }
    ensures { Did (A.deeds asker.old) (A.deeds asker.new) (IsRound leave.now count (λ outcomes. (result.leaving ≡ list_any is_leaving outcomes) × (result.unknown ≡ list_any is_unknown outcomes) × (result.against ≡ last_told against 0 outcomes))) }
{
    let mut leaving = false;
    let mut unknown = false;
    let mut told: Option<CommandFault> = None;
    for place in 0..count {
        let outcome = asker.ask(place, leave);
        leaving = either(leaving, is_leaving(&outcome));
        unknown = either(unknown, is_unknown(&outcome));
        told = later(against(place, outcome), told);
    }
    Round {
        leaving,
        unknown,
        against: told,
    }
}

pub(crate) fn why_not(against: Option<CommandFault>) -> CommandFault
    ensures { result ≡ why_not against }
{
    match against {
        Some(fault) => fault,
        None => CommandFault::Unreachable { place: 0 },
    }
}

// How it ends once no manager has the node leave, behind so many rounds.
fn ended(rounds: u32, unknown: bool, against: Option<CommandFault>) -> Result<(), CommandFault>
    ensures { result ≡ ended rounds unknown against }
{
    if rounds > 0 && unknown {
        Ok(())
    } else {
        Err(why_not(against))
    }
}

/// Asks so many hosts to have a node leave, round by round, until none of their managers does.
pub(crate) fn leave_all<A: AskHost>(
    asker: &mut A,
    count: usize,
    leave: &Inquiry,
) -> Result<(), CommandFault>
    requires { IsInquiryInRange leave.now }
    ensures { Did (A.deeds asker.old) (A.deeds asker.new) (λ deeds. Leaves leave.now count deeds result) }
{
    for round in 0..LEAVE_ROUNDS {
        let told = ask_each(asker, count, leave);
        if !told.leaving {
            return ended(round, told.unknown, told.against);
        }
        asker.rest(LEAVE_REST);
    }
    Err(CommandFault::StillMember)
}
