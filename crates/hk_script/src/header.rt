//! What the words of a header stand for.

ghost use Rattle.std.specs.Prelude.{◌≡◌, ◌≤◌, [], ◌∷◌, IfSome};
ghost use Rattle.hk_script.specs.Parts.{number_of, some_of, time_of};
ghost use Rattle.hk_script.specs.Lines.{three, header, header_with, is_header, header_of};

use crate::parts::{some, time};
use crate::words::{cut, is, number};
use hk_event::Header;

fn is_header(group: &[u8], managers: &[u8], lease: &[u8], skew: &[u8]) -> bool
    ensures { result ≡ is_header group.now managers.now lease.now skew.now }
{
    is(group, b"group") && (is(managers, b"managers") && (is(lease, b"lease") && is(skew, b"skew")))
}

#[tactic(auto, unfolding(crate::specs::Lines::three))]
fn header_of(managers: u8, nodes: &[u8], lease: &[u8], skew: &[u8]) -> Option<Header>
    ensures { result ≡ three (some_of 16) time_of time_of (header managers) (nodes.now ∷ lease.now ∷ skew.now ∷ []) }
{
    let nodes = some(16, nodes)?;
    let lease = time(lease)?;
    let skew = time(skew)?;
    Some(Header {
        nodes,
        managers,
        lease,
        skew,
    })
}

fn managers_of(managers: &[u8]) -> Option<u8>
    ensures { result ≡ number_of 9 managers.now }
{
    let managers = number(9, managers)?;
    Some(managers as u8)
}

fn header_with(managers: &[u8], nodes: &[u8], lease: &[u8], skew: &[u8]) -> Option<Header>
    ensures { result ≡ header_with (number_of 9 managers.now) (nodes.now ∷ lease.now ∷ skew.now ∷ []) }
{
    match managers_of(managers) {
        None => None,
        Some(managers) => header_of(managers, nodes, lease, skew),
    }
}

/// The header that a line is. Nothing is allocated.
#[tactic(auto, unfolding(crate::specs::Lines::header_of_words))]
pub(crate) fn header(line: &[u8]) -> Option<Header>
    ensures { result ≡ header_of line.now }
{
    let (group, rest) = cut(line)?;
    let (nodes, rest) = cut(rest)?;
    let (word, rest) = cut(rest)?;
    let (managers, rest) = cut(rest)?;
    let (other, rest) = cut(rest)?;
    let (lease, rest) = cut(rest)?;
    let (last, skew) = cut(rest)?;
    match cut(skew) {
        Some(_) => None,
        None => {
            if is_header(group, word, other, last) {
                header_with(managers, nodes, lease, skew)
            } else {
                None
            }
        }
    }
}
