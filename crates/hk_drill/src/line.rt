//! The lines of a script.

ghost use Rattle.std.specs.Prelude.{◌≡◌};
ghost use Rattle.hk_drill.specs.Transcript.{is_skipped, limit_at};

use crate::stop::Stop;

/// How many bytes a line may have.
pub const MAX_LINE_LEN: usize = 4_096;

/// How many lines a script may have.
pub const MAX_LINES: u64 = 1_000_000;

/// Whether a line says nothing: it is empty, or begins with `#`.
#[tactic(auto, unfolding(crate::specs::Transcript::is_skipped))]
pub(crate) fn is_skipped(line: &[u8]) -> bool
    ensures { result ≡ is_skipped line.now }
{
    if line.is_empty() {
        return true;
    }
    line[0] == b'#'
}

/// The limit that line `number` passes, if it passes one.
#[tactic(auto, unfolding(crate::specs::Transcript::limit_at))]
pub(crate) fn limit_at(number: u64, line: &[u8]) -> Option<Stop>
    ensures { result ≡ limit_at number line.now }
{
    if number > MAX_LINES {
        return Some(Stop::Lines);
    }
    if line.len() > MAX_LINE_LEN {
        return Some(Stop::Long);
    }
    None
}
