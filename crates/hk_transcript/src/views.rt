//! The words of views and ballots.

ghost use Rattle.std.specs.Prelude.{◌≡◌, ◌++◌, OnOk};
ghost use Rattle.hk_transcript.specs.Text.{members_text, view_text, ballot_text, vote_text};

use crate::parts::put_named;
use hk_base::{Ballot, Memory, NodeId, View, Voted};
use hk_script::{put_number, put_text};

fn put_members(out: &mut Vec<u8>, members: &[NodeId]) -> Result<(), Memory>
    ensures { OnOk result (out.new.items ≡ out.old.items ++ members_text members.now) }
{
    let [first, rest @ ..] = members else {
        return Ok(());
    };
    put_number(out, u64::from(first.0))?;
    for member in rest {
        put_named(out, b",", u64::from(member.0))?;
    }
    Ok(())
}

pub(crate) fn put_view(out: &mut Vec<u8>, view: &View) -> Result<(), Memory>
    ensures { OnOk result (out.new.items ≡ out.old.items ++ view_text view.now) }
{
    put_number(out, view.epoch)?;
    put_named(out, b":", u64::from(view.next))?;
    put_text(out, b":")?;
    put_members(out, view.members.as_slice())
}

pub(crate) fn put_ballot(out: &mut Vec<u8>, ballot: Ballot) -> Result<(), Memory>
    ensures { OnOk result (out.new.items ≡ out.old.items ++ ballot_text ballot) }
{
    put_number(out, u64::from(ballot.round))?;
    put_named(out, b".", u64::from(ballot.manager))
}

/// What an acceptor accepted last.
pub(crate) fn put_vote(out: &mut Vec<u8>, vote: &Option<Voted>) -> Result<(), Memory>
    ensures { OnOk result (out.new.items ≡ out.old.items ++ vote_text vote.now) }
{
    match vote {
        None => put_text(out, b"none"),
        Some(vote) => {
            put_ballot(out, vote.ballot)?;
            put_text(out, b" ")?;
            put_view(out, &vote.view)
        }
    }
}
