//! How long the frame of a letter is, its form as bytes.

ghost use Rattle.std.specs.Prelude.{◌≡◌, ◌+◌, ◌*◌, ◌≤◌, length, IfSome};
ghost use Rattle.std.specs.List.{sum_by};
ghost use Rattle.hk_base.specs.Range.{IsLetter, IsBody, IsVote};
ghost use Rattle.hk_base.specs.View.{IsView};
ghost use Rattle.hk_base.specs.Lengths.{after_length, content_length, item_length, view_length, vote_length, body_length, frame_length};

use crate::call::Content;
use crate::key::Key;
use crate::letter::{Body, CopyItem, Letter};
use crate::view::{View, Voted};

/// The greatest length of a frame, the form of a letter as bytes: in bytes, the 4 of its own length among them.
pub const MAX_FRAME_LEN: usize = 2_200_004;

fn after_length(after: &Option<Key>) -> usize
    ensures exact { result ≡ after_length after.now }
    ensures short { result ≤ 251 }
{
    match after {
        Some(key) => 1 + key.bytes().len(),
        None => 1,
    }
}

fn content_length(content: &Option<Content>) -> usize
    ensures exact { result ≡ content_length content.now }
    ensures short { result ≤ 1048584 }
{
    match content {
        Some(content) => 8 + content.bytes.bytes().len(),
        None => 0,
    }
}

fn item_length(item: &CopyItem) -> usize
    ensures exact { result ≡ item_length item.now }
    ensures short { result ≤ 1048847 }
{
    13 + item.key.bytes().len() + content_length(&item.content)
}

fn items_length(items: &[CopyItem]) -> usize
    requires { length items.now ≤ 64 }
    ensures exact { result ≡ sum_by item_length items.now }
    ensures short { result ≤ 67126208 }
{
    let mut total = 0;
    for item in items {
        total += item_length(item);
    }
    total
}

fn view_length(view: &View) -> usize
    requires { IsView view.now }
    ensures exact { result ≡ view_length view.now }
    ensures short { result ≤ 45 }
{
    13 + 2 * view.members.len()
}

fn vote_length(vote: &Option<Voted>) -> usize
    requires { IfSome vote.now IsVote }
    ensures exact { result ≡ vote_length vote.now }
    ensures short { result ≤ 51 }
{
    match vote {
        Some(vote) => 6 + view_length(&vote.view),
        None => 1,
    }
}

#[tactic(auto, unfolding(crate::specs::Lengths::body_length))]
fn body_length(body: &Body) -> usize
    requires { IsBody body.now }
    ensures exact { result ≡ body_length body.now }
    ensures short { result ≤ 67126461 }
{
    match body {
        Body::Inv { key, content, .. } => 12 + key.bytes().len() + content_length(content),
        Body::Ack { key, .. } => 21 + key.bytes().len(),
        Body::Val { key, .. } => 11 + key.bytes().len(),
        Body::CopyAsk { after, .. } => after_length(after) + 1,
        Body::CopyGive { after, items, .. } => {
            after_length(after) + 2 + items_length(items.as_slice())
        }
        Body::LeaseAsk { .. } => 8,
        Body::LeaseGive { .. } => 8,
        Body::Prepare(_) => 5,
        Body::Promise { accepted, .. } => 5 + vote_length(accepted),
        Body::Accept { view, .. } => 5 + view_length(view),
        Body::Accepted(_) => 5,
        Body::Chosen(view) => view_length(view),
        Body::Activate(view) => view_length(view),
    }
}

/// How many bytes the frame of a letter takes. A letter fits a frame where they are at most `MAX_FRAME_LEN`.
pub fn frame_length(letter: &Letter) -> usize
    requires { IsLetter letter.now }
    ensures { result ≡ frame_length letter.now }
{
    20 + body_length(&letter.body)
}
