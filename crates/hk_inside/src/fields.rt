//! Fields that stand in several messages, each read from the front of some bytes.

ghost use Rattle.std.specs.Prelude.{◌≡◌, IfOk, OnErr, Err};
ghost use Rattle.hk_fields.specs.declared.fault.FieldFault.TheVariants.{Memory};
ghost use Rattle.hk_fields.specs.Fields.{Gives, text_at};
ghost use Rattle.hk_inside.specs.Reading.{node_at, founding_at, stage_of, stage_at};

use crate::board::Stage;
use crate::report::Text;
use hk_base::NodeId;
use hk_fields::{FieldFault, byte_within, number16, number64_within, put, text};
use std::alloc::Global;

#[tactic(auto, unfolding(crate::specs::Reading::node_at))]
pub fn node(bytes: &[u8]) -> Result<(NodeId, &[u8]), FieldFault>
    ensures { Gives (λ x. (x.0, x.1.now)) result (node_at bytes.now) }
{
    let (node, rest) = number16(bytes)?;
    Ok((NodeId(node), rest))
}

// The number of a founding, not 0.
#[tactic(auto, unfolding(crate::specs::Reading::founding_at))]
pub fn founding(bytes: &[u8]) -> Result<(u64, &[u8]), FieldFault>
    ensures { Gives (λ x. (x.0, x.1.now)) result (founding_at bytes.now) }
{
    number64_within(1, u64::MAX, bytes)
}

#[tactic(auto, unfolding(crate::specs::Reading::stage_of))]
fn stage_of(byte: u8) -> Stage
    ensures { result ≡ stage_of byte }
{
    match byte {
        0 => Stage::Empty,
        1 => Stage::Founded,
        _ => Stage::Open,
    }
}

#[tactic(auto, unfolding(crate::specs::Reading::stage_at))]
pub fn stage(bytes: &[u8]) -> Result<(Stage, &[u8]), FieldFault>
    ensures { Gives (λ x. (x.0, x.1.now)) result (stage_at bytes.now) }
{
    let (byte, rest) = byte_within(0, 2, bytes)?;
    Ok((stage_of(byte), rest))
}

// Bytes, whatever they are, that are kept.
pub fn kept(alloc: Global, bytes: &[u8]) -> Result<Text, FieldFault>
    ensures value { IfOk result (λ text. text ≡ bytes.now) }
    ensures memory { OnErr result (result ≡ Err Memory) }
{
    let mut kept = Vec::new(alloc);
    if put(&mut kept, bytes).is_err() {
        return Err(FieldFault::Memory);
    }
    Ok(Text::from_vec(kept))
}

// A text of at most 255 bytes, that is kept.
pub fn some_text(alloc: Global, bytes: &[u8]) -> Result<(Text, &[u8]), FieldFault>
    ensures { Gives (λ x. (x.0, x.1.now)) result (text_at 0 255 bytes.now) }
{
    let (text, rest) = text(0, 255, bytes)?;
    let kept = kept(alloc, text)?;
    Ok((kept, rest))
}
