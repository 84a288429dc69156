//! The parts of a reply's text, each read from the front of some bytes.

ghost use Rattle.std.specs.Prelude.{◌≡◌, ◌≤◌, length, IfOk, IfSome, ◌==◌, ◌&&◌, ◌||◌, nat_lt};
ghost use Rattle.hk_base.specs.declared.key.TheConstants.{MAX_KEY_LEN};
ghost use Rattle.hk_reply.specs.Scans.{Gives, literal_at, ends_at, longer, number_at, number_from, key_from, data_at};
ghost use Rattle.hk_base.specs.KeyBytes.{is_bad_byte};

use hk_base::MAX_KEY_LEN;

/// Why reading stops.
#[derive(Clone, Copy, Debug, PartialEq, Eq)]
pub enum Stop {
    /// An allocation was refused.
    Memory,
    /// The bytes end within a text.
    Need,
    /// No text goes on with the byte that has `left` bytes from it on.
    Bad { left: usize },
}

/// What may stand behind a number.
#[derive(Clone, Copy, Debug, PartialEq, Eq)]
pub enum Tail {
    Space,
    Return,
    Either,
}

// Reads this text.
pub fn literal<'a>(text: &[u8], bytes: &'a [u8]) -> Result<((), &'a [u8]), Stop>
    ensures { Gives (λ x. (x.0, x.1.now)) result (literal_at text.now bytes.now) }
{
    let mut rest = bytes;
    for wanted in text {
        let Some((byte, others)) = rest.split_first() else {
            return Err(Stop::Need);
        };
        if byte != wanted {
            return Err(Stop::Bad { left: rest.len() });
        }
        rest = others;
    }
    Ok(((), rest))
}

#[tactic(auto, unfolding(crate::specs::Scans::ends_at))]
fn ends(tail: Tail, byte: u8) -> bool
    ensures { result ≡ ends_at tail byte }
{
    match tail {
        Tail::Space => byte == b' ',
        Tail::Return => byte == b'\r',
        Tail::Either => byte == b' ' || byte == b'\r',
    }
}

// The number with this digit behind it, where the two make a number that is at most the limit and has no spare zero.
#[tactic(auto, unfolding(crate::specs::Scans::longer))]
fn longer(limit: u64, n: u64, digit: u8) -> Option<u64>
    ensures exact { result ≡ longer limit n digit }
    ensures within { IfSome result (λ more. more ≤ limit) }
{
    if !digit.is_ascii_digit() {
        return None;
    }
    if n == 0 {
        return None;
    }
    let digit = u64::from(digit - b'0');
    if n > (limit - limit.min(digit)) / 10 {
        return None;
    }
    Some(n * 10 + digit)
}

// Reads a decimal number, with no spare zero, and the byte behind it.
pub fn number(limit: u64, tail: Tail, bytes: &[u8]) -> Result<((u64, u8), &[u8]), Stop>
    requires { 9 ≤ limit }
    ensures exact { Gives (λ x. (x.0, x.1.now)) result (number_at limit tail bytes.now) }
    ensures within { IfOk result (λ x. x.0.0 ≤ limit) }
{
    let Some((first, rest)) = bytes.split_first() else {
        return Err(Stop::Need);
    };
    if !first.is_ascii_digit() {
        return Err(Stop::Bad { left: bytes.len() });
    }
    number_from(limit, tail, u64::from(*first - b'0'), rest)
}

fn number_from(limit: u64, tail: Tail, front: u64, bytes: &[u8]) -> Result<((u64, u8), &[u8]), Stop>
    requires { front ≤ limit }
    ensures exact { Gives (λ x. (x.0, x.1.now)) result (number_from limit tail front bytes.now) }
    ensures within { IfOk result (λ x. x.0.0 ≤ limit) }
{
    let mut n = front;
    let mut rest = bytes;
    while let Some((byte, others)) = rest.split_first() {
        if ends(tail, *byte) {
            return Ok(((n, *byte), others));
        }
        match longer(limit, n, *byte) {
            Some(more) => n = more,
            None => return Err(Stop::Bad { left: rest.len() }),
        }
        rest = others;
    }
    Err(Stop::Need)
}

// Whether a key of so many bytes ends before this byte.
fn ends_key(len: usize, byte: u8) -> bool
    ensures { result ≡ ((byte == 32) && nat_lt 0 len) }
{
    byte == b' ' && len > 0
}

// Whether a key of so many bytes can't go on with this byte.
fn stops_key(len: usize, byte: u8) -> bool
    ensures { result ≡ (is_bad_byte byte || (len == MAX_KEY_LEN)) }
{
    byte < 0x21 || byte == 0x7f || len == MAX_KEY_LEN
}

// Reads a key and the space behind it.
pub fn key(bytes: &[u8]) -> Result<(&[u8], &[u8]), Stop>
    ensures { Gives (λ x. (x.0.now, x.1.now)) result (key_from 0 bytes.now) }
{
    let mut len = 0;
    let mut rest = bytes;
    while let Some((byte, others)) = rest.split_first() {
        if ends_key(len, *byte) {
            let (word, _) = bytes.split_at(len);
            return Ok((word, others));
        }
        if stops_key(len, *byte) {
            return Err(Stop::Bad { left: rest.len() });
        }
        len += 1;
        rest = others;
    }
    Err(Stop::Need)
}

// Reads so many bytes, whatever they are.
#[tactic(auto, unfolding(crate::specs::Scans::data_at))]
pub fn data(len: usize, bytes: &[u8]) -> Result<(&[u8], &[u8]), Stop>
    ensures { Gives (λ x. (x.0.now, x.1.now)) result (data_at len bytes.now) }
{
    if bytes.len() < len {
        return Err(Stop::Need);
    }
    Ok(bytes.split_at(len))
}
