//! The kinds of letters, by their bytes.

ghost use Rattle.std.specs.Prelude.{◌≡◌};
ghost use Rattle.hk_frame.specs.Frames.{kind_byte, letter_kind};
ghost use Rattle.hk_frame.specs.Reading.{kind_named};

use hk_base::Body;

/// What a letter says, by name alone.
#[derive(Clone, Copy, Debug, PartialEq, Eq)]
pub enum LetterKind {
    Inv,
    Ack,
    Val,
    CopyAsk,
    CopyGive,
    LeaseAsk,
    LeaseGive,
    Prepare,
    Promise,
    Accept,
    Accepted,
    Chosen,
    Activate,
}

// The kind of a letter with this body.
pub fn kind_of(body: &Body) -> LetterKind
    ensures { result ≡ letter_kind body.now }
{
    match body {
        Body::Inv { .. } => LetterKind::Inv,
        Body::Ack { .. } => LetterKind::Ack,
        Body::Val { .. } => LetterKind::Val,
        Body::CopyAsk { .. } => LetterKind::CopyAsk,
        Body::CopyGive { .. } => LetterKind::CopyGive,
        Body::LeaseAsk { .. } => LetterKind::LeaseAsk,
        Body::LeaseGive { .. } => LetterKind::LeaseGive,
        Body::Prepare(_) => LetterKind::Prepare,
        Body::Promise { .. } => LetterKind::Promise,
        Body::Accept { .. } => LetterKind::Accept,
        Body::Accepted(_) => LetterKind::Accepted,
        Body::Chosen(_) => LetterKind::Chosen,
        Body::Activate(_) => LetterKind::Activate,
    }
}

// The byte of a kind.
pub fn kind_byte(kind: LetterKind) -> u8
    ensures { result ≡ kind_byte kind }
{
    match kind {
        LetterKind::Inv => 1,
        LetterKind::Ack => 2,
        LetterKind::Val => 3,
        LetterKind::CopyAsk => 4,
        LetterKind::CopyGive => 5,
        LetterKind::LeaseAsk => 6,
        LetterKind::LeaseGive => 7,
        LetterKind::Prepare => 8,
        LetterKind::Promise => 9,
        LetterKind::Accept => 10,
        LetterKind::Accepted => 11,
        LetterKind::Chosen => 12,
        LetterKind::Activate => 13,
    }
}

// The kind that a byte names.
#[tactic(auto, unfolding(crate::specs::Reading::kind_named))]
pub fn kind_named(byte: u8) -> Option<LetterKind>
    ensures { result ≡ kind_named byte }
{
    match byte {
        1 => Some(LetterKind::Inv),
        2 => Some(LetterKind::Ack),
        3 => Some(LetterKind::Val),
        4 => Some(LetterKind::CopyAsk),
        5 => Some(LetterKind::CopyGive),
        6 => Some(LetterKind::LeaseAsk),
        7 => Some(LetterKind::LeaseGive),
        8 => Some(LetterKind::Prepare),
        9 => Some(LetterKind::Promise),
        10 => Some(LetterKind::Accept),
        11 => Some(LetterKind::Accepted),
        12 => Some(LetterKind::Chosen),
        13 => Some(LetterKind::Activate),
        _ => None,
    }
}
