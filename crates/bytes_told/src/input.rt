//! Inputs.

/// An input, and the bytes behind it.
#[derive(Clone, Copy, Debug, PartialEq, Eq)]
pub struct Input<'a> {
    pub kind: &'a [u8],
    pub bytes: &'a [u8],
    pub rest: &'a [u8],
}

// What stands before the first such byte, and what stands behind it.
fn cut(mark: u8, bytes: &[u8]) -> Option<(&[u8], &[u8])> {
    let at = bytes.iter().position(|byte| *byte == mark)?;
    let (front, rest) = bytes.split_at(at);
    Some((front, rest.get(1..)?))
}

/// The input that the bytes begin with; none where they begin with no whole input.
pub fn next_input(bytes: &[u8]) -> Option<Input> {
    let (line, behind) = cut(b'\n', bytes)?;
    let (kind, digits) = cut(b' ', line)?;
    let len: usize = str::from_utf8(digits).ok()?.parse().ok()?;
    let bytes = behind.get(..len)?;
    let rest = behind.get(len..)?.get(1..)?;
    Some(Input { kind, bytes, rest })
}
