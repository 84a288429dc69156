//! The lines that a storm of joint reads writes.

ghost use Rattle.std.specs.Prelude.{◌≡◌, ◌++◌, IfOk, OnOk, decimal};
ghost use Rattle.hk_joint_storm.specs.Text.{request_line, founds_line, kept_text, gap_line, text_of};

use crate::gaps::JointGap;
use hk_base::Memory;
use itoa::Buffer;
use std::alloc::Global;

fn put_text(out: &mut Vec<u8>, text: &[u8]) -> Result<(), Memory>
    ensures { OnOk result (out.new.items ≡ out.old.items ++ text.now) }
{
    out.extend_from_slice(text)?;
    Ok(())
}

fn put_number(out: &mut Vec<u8>, number: u64) -> Result<(), Memory>
    ensures { OnOk result (out.new.items ≡ out.old.items ++ decimal number) }
{
    let mut buffer = Buffer::new();
    out.extend_from_slice(buffer.format(number).as_bytes())?;
    Ok(())
}

fn put_request(out: &mut Vec<u8>, workers: u8, reads: u32) -> Result<(), Memory>
    ensures { OnOk result (out.new.items ≡ out.old.items ++ request_line workers reads) }
{
    put_text(out, b"joint-storm ")?;
    put_number(out, u64::from(workers))?;
    put_text(out, b" ")?;
    put_number(out, u64::from(reads))?;
    put_text(out, b"\n")
}

fn put_founds(out: &mut Vec<u8>, reads: u32, founds: u64) -> Result<(), Memory>
    ensures { OnOk result (out.new.items ≡ out.old.items ++ founds_line reads founds) }
{
    put_text(out, b"found ")?;
    put_number(out, founds)?;
    put_text(out, b" moved ")?;
    put_number(out, u64::from(reads).saturating_sub(founds))?;
    put_text(out, b" legal\n")
}

fn put_kept(out: &mut Vec<u8>, kept: Option<u64>) -> Result<(), Memory>
    ensures { OnOk result (out.new.items ≡ out.old.items ++ kept_text kept) }
{
    match kept {
        Some(ticket) => put_number(out, ticket),
        None => put_text(out, b"none"),
    }
}

fn put_gap(out: &mut Vec<u8>, gap: JointGap) -> Result<(), Memory>
    ensures { OnOk result (out.new.items ≡ out.old.items ++ gap_line gap) }
{
    put_text(out, b"gap joint ")?;
    put_number(out, gap.shown)?;
    put_text(out, b" ")?;
    put_kept(out, gap.kept)?;
    put_text(out, b"\n")
}

/// The lines that tell of so many reads, by the first gap.
pub(crate) fn text(
    alloc: Global,
    workers: u8,
    reads: u32,
    founds: u64,
    gap: Option<JointGap>,
) -> Result<Vec<u8>, Memory>
    ensures { IfOk result (λ text. text.items ≡ text_of workers reads founds gap) }
{
    let mut out = Vec::new(alloc);
    match gap {
        Some(gap) => put_gap(&mut out, gap)?,
        None => {
            put_request(&mut out, workers, reads)?;
            put_founds(&mut out, reads, founds)?;
        }
    }
    Ok(out)
}
