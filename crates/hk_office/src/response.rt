//! Answers as responses.

ghost use Rattle.std.specs.Prelude.{◌≡◌, IfOk};
ghost use Rattle.hk_office.specs.Answers.{IsToldAs, IsNo};

use crate::answer::OfficeAnswer;
use crate::refusal::OfficeRefusal;
use hk_base::{Memory, Sequence};
use hk_inside::Response;
use std::alloc::Global;

// The text of a refusal.
fn text_of(alloc: Global, refusal: OfficeRefusal) -> Result<Sequence<u8>, Memory> {
    let Ok(text) = format!(in alloc; "{}", refusal.told()) else {
        return Err(Memory);
    };
    Ok(Sequence::from_vec(text.into_bytes()))
}

fn no(alloc: Global, refusal: OfficeRefusal) -> Result<Response, Memory>
    ensures { IfOk result (λ response. IsNo refusal response) }
{
    let text = text_of(alloc, refusal)?;
    Ok(Response::No {
        code: refusal.told().code(),
        text,
    })
}

impl OfficeAnswer {
    /// The response that tells the answer. There is none yet where it is to be told how the group stands.
    pub fn into_response(self, alloc: Global) -> Result<Option<Response>, Memory>
        ensures { IfOk result (λ response. IsToldAs self response) }
    {
        match self {
            OfficeAnswer::Board(board) => Ok(Some(Response::Board(board))),
            OfficeAnswer::Seated(node) => Ok(Some(Response::Seated(node))),
            OfficeAnswer::State(state) => Ok(Some(Response::State(state))),
            OfficeAnswer::Status => Ok(None),
            OfficeAnswer::Yes => Ok(Some(Response::Yes)),
            OfficeAnswer::No(refusal) => {
                let response = no(alloc, refusal)?;
                Ok(Some(response))
            }
        }
    }
}
