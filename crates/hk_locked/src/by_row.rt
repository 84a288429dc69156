//! Reads that are told from a key's row.

ghost use Rattle.std.specs.Prelude.{◌≡◌, ◌≤◌, IfOk};
ghost use Rattle.std.specs.Option.{IfSome};
ghost use Rattle.hk_base.specs.declared.stamp.TheConstants.{MAX_VERSION};
ghost use Rattle.hk_node.specs.Rows.{find_row};
ghost use Rattle.hk_locked.specs.ByRow.{told_by, with_content};

use hk_base::{Answer, Key, Memory, State};
use hk_key::Row;
use hk_node::Node;

/// What a read is told from its key's row.
#[derive(Drop)]
pub struct RowRead {
    pub answer: Answer,
    /// The end of the lease that was seen with the row. The answer holds as long as that runs.
    pub end: u64,
}

// What a read is told of a Valid row.
fn with_content(row: &Row) -> Result<Option<Answer>, Memory>
    requires { row.now.stamp.version ≤ MAX_VERSION }
    ensures { IfOk result (λ told. told ≡ with_content row.now.stamp row.now.content) }
{
    let Some(content) = &row.content else {
        return Ok(Some(Answer::Missing));
    };
    let content = content.share()?;
    Ok(Some(Answer::Found {
        content,
        tag: row.stamp.tag(),
    }))
}

/// What a read of the key is told by its row at the node. None where the row is not Valid.
pub(crate) fn told_by(node: &Node, key: &Key) -> Result<Option<Answer>, Memory>
    requires { IfSome (find_row key.now node.now.rows) (λ row. row.stamp.version ≤ MAX_VERSION) }
    ensures { IfOk result (λ told. told ≡ told_by (find_row key.now node.now.rows)) }
{
    let Some(row) = node.row(key) else {
        return Ok(Some(Answer::Missing));
    };
    match row.state {
        State::Valid => with_content(row),
        _ => Ok(None),
    }
}
