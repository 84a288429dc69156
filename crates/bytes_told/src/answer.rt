//! The words of answers. Each call puts its words behind what is there; after `Memory` a front of them may stand there.

ghost use Rattle.std.specs.Prelude.{◌≡◌, ◌++◌, OnOk, decimal};

use hk_base::{Content, Memory, Op, Stamp};
use itoa::Buffer;

const DIGITS: &[u8; 16] = b"0123456789abcdef";

/// Puts a text.
pub fn put(out: &mut Vec<u8>, text: &[u8]) -> Result<(), Memory>
    ensures { OnOk result (out.new.items ≡ out.old.items ++ text.now) }
{
    out.extend_from_slice(text)?;
    Ok(())
}

/// Puts a decimal number.
pub fn put_number(out: &mut Vec<u8>, number: u64) -> Result<(), Memory>
    ensures { OnOk result (out.new.items ≡ out.old.items ++ decimal number) }
{
    let mut buffer = Buffer::new();
    put(out, buffer.format(number).as_bytes())
}

/// Puts ` 1` or ` 0`.
pub fn put_flag(out: &mut Vec<u8>, flag: bool) -> Result<(), Memory> {
    put(out, if flag { b" 1" } else { b" 0" })
}

/// Puts a space and the bytes.
pub fn put_bytes(out: &mut Vec<u8>, bytes: &[u8]) -> Result<(), Memory> {
    put(out, if bytes.is_empty() { b" -" } else { b" " })?;
    for byte in bytes {
        put(
            out,
            &[
                DIGITS[usize::from(*byte / 16)],
                DIGITS[usize::from(*byte % 16)],
            ],
        )?;
    }
    Ok(())
}

/// Puts a space and the stamp.
pub fn put_stamp(out: &mut Vec<u8>, stamp: Stamp) -> Result<(), Memory> {
    put(out, b" ")?;
    put_number(out, stamp.version)?;
    put(out, b".")?;
    put_number(out, u64::from(stamp.node))
}

fn put_counted(out: &mut Vec<u8>, name: &[u8], number: u64) -> Result<(), Memory> {
    put(out, name)?;
    put_number(out, number)
}

fn put_content(out: &mut Vec<u8>, name: &[u8], content: &Content) -> Result<(), Memory> {
    put_counted(out, name, u64::from(content.flags))?;
    put_bytes(out, content.bytes.bytes())
}

/// Puts a space and the operation.
pub fn put_op(out: &mut Vec<u8>, op: &Op) -> Result<(), Memory> {
    match op {
        Op::Read => put(out, b" get"),
        Op::Write(content) => put_content(out, b" set ", content),
        Op::Cas { tag, content } => {
            put_content(out, b" cas ", content)?;
            put_counted(out, b" ", *tag)
        }
        Op::Incr(by) => put_counted(out, b" incr ", *by),
        Op::Decr(by) => put_counted(out, b" decr ", *by),
        Op::Add(content) => put_content(out, b" add ", content),
        Op::Replace(content) => put_content(out, b" replace ", content),
        Op::Delete => put(out, b" delete"),
    }
}
