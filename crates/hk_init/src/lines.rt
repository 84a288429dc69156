//! Lines of foundings.

ghost use Rattle.std.specs.Prelude.{◌≡◌, ◌<◌, ◌++◌, IfOk, OnOk};
ghost use Rattle.hk_init.specs.Lines.{hex_digit, hex_byte, hex_founding, founded_line, open_words};
ghost use Rattle.hk_init.specs.Leaving.{left_line};

use hk_base::Memory;
use itoa::Buffer;
use std::alloc::Global;

fn hex_digit(n: u8) -> u8
    requires { n < 16 }
    ensures { result ≡ hex_digit n }
{
    if n < 10 { b'0' + n } else { b'a' - 10 + n }
}

fn put_byte(out: &mut Vec<u8>, byte: u8) -> Result<(), Memory>
    ensures { OnOk result (out.new.items ≡ out.old.items ++ hex_byte byte) }
{
    out.push(hex_digit(byte / 16))?;
    out.push(hex_digit(byte % 16))?;
    Ok(())
}

// Puts a founding behind other bytes, as 16 digits.
fn put_founding(out: &mut Vec<u8>, founding: u64) -> Result<(), Memory>
    ensures { OnOk result (out.new.items ≡ out.old.items ++ hex_founding founding) }
{
    for byte in founding.to_be_bytes() {
        put_byte(out, byte)?;
    }
    Ok(())
}

/// The line that `init` writes.
pub(crate) fn founded_line(alloc: Global, founding: u64) -> Result<Vec<u8>, Memory>
    ensures { IfOk result (λ line. line.items ≡ founded_line founding) }
{
    let mut line = Vec::new(alloc);
    line.extend_from_slice(b"founded ")?;
    put_founding(&mut line, founding)?;
    line.push(b'\n')?;
    Ok(line)
}

/// The line that `leave` writes, with the number that it was told.
pub(crate) fn left_line(alloc: Global, number: u64) -> Result<Vec<u8>, Memory>
    ensures { IfOk result (λ line. line.items ≡ left_line number) }
{
    let mut line = Vec::new(alloc);
    line.extend_from_slice(b"left ")?;
    let mut digits = Buffer::new();
    line.extend_from_slice(digits.format(number).as_bytes())?;
    line.push(b'\n')?;
    Ok(line)
}

/// The words with which STATUS begins once a manager is open with this founding.
pub(crate) fn open_words(alloc: Global, group: &[u8], founding: u64) -> Result<Vec<u8>, Memory>
    ensures { IfOk result (λ words. words.items ≡ open_words group.now founding) }
{
    let mut words = Vec::new(alloc);
    words.extend_from_slice(b"group ")?;
    words.extend_from_slice(group)?;
    words.extend_from_slice(b" founding=")?;
    put_founding(&mut words, founding)?;
    words.extend_from_slice(b" stage=open ")?;
    Ok(words)
}
