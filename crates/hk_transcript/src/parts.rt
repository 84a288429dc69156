//! The parts that several lines have.

ghost use Rattle.std.specs.Prelude.{◌≡◌, ◌++◌, OnOk, decimal};
ghost use Rattle.hk_transcript.specs.Text.{stamp_text, kind_text, content_text};

use hk_base::{Content, Kind, Memory, Stamp};
use hk_script::{put_number, put_text, put_word};

/// A name and a number.
pub fn put_named(out: &mut Vec<u8>, name: &[u8], number: u64) -> Result<(), Memory>
    ensures { OnOk result (out.new.items ≡ out.old.items ++ (name.now ++ decimal number)) }
{
    put_text(out, name)?;
    put_number(out, number)
}

pub(crate) fn put_stamp(out: &mut Vec<u8>, stamp: Stamp) -> Result<(), Memory>
    ensures { OnOk result (out.new.items ≡ out.old.items ++ stamp_text stamp) }
{
    put_number(out, stamp.version)?;
    put_text(out, b".")?;
    put_number(out, u64::from(stamp.node))
}

pub(crate) fn put_kind(out: &mut Vec<u8>, kind: Kind) -> Result<(), Memory>
    ensures { OnOk result (out.new.items ≡ out.old.items ++ kind_text kind) }
{
    match kind {
        Kind::Write => put_text(out, b"write"),
        Kind::Rmw => put_text(out, b"rmw"),
    }
}

pub(crate) fn put_content(out: &mut Vec<u8>, content: &Option<Content>) -> Result<(), Memory>
    ensures { OnOk result (out.new.items ≡ out.old.items ++ content_text content.now) }
{
    match content {
        None => put_text(out, b"gone"),
        Some(content) => {
            put_number(out, u64::from(content.flags))?;
            put_text(out, b" ")?;
            put_word(out, content.bytes.bytes())
        }
    }
}
