//! The next rows behind a key.

ghost use Rattle.std.specs.Prelude.{◌≡◌, ◌≤◌, IfOk};
ghost use Rattle.std.specs.Option.{option_copied};
ghost use Rattle.hk_copy.specs.Batches.{cut, is_nil, rows_after, size_of};
ghost use Rattle.hk_copy.specs.declared.given.TheConstants.{MAX_BATCH_BYTES};

use crate::given::{Batch, MAX_BATCH_BYTES};
use crate::rows::Rows;
use hk_base::{CopyItem, CopyItems, Key, Memory};
use std::alloc::Global;

// The bytes of an item's key and data.
fn size(item: &CopyItem) -> usize
    ensures { result ≡ size_of item.now }
{
    let key = item.key.bytes().len();
    let data = match &item.content {
        Some(content) => content.bytes.bytes().len(),
        None => 0,
    };
    key + data
}

/// The next rows in the order of their keys, from behind a key or from the start: at most `room` of them, 1 to 64, and at
/// most 2,097,152 bytes of keys and data. It is done exactly where no row is left behind them.
pub fn batch<R: Rows>(
    alloc: Global,
    rows: &R,
    after: Option<&Key>,
    room: u8,
) -> Result<Batch, Memory>
    requires some { 1 ≤ room }
    requires few { room ≤ 64 }
    ensures items { IfOk result (λ batch. batch.items ≡ (cut room MAX_BATCH_BYTES (rows_after (option_copied after.entry) (R.rows rows.now))).taken) }
    ensures done { IfOk result (λ batch. batch.done ≡ is_nil (cut room MAX_BATCH_BYTES (rows_after (option_copied after.entry) (R.rows rows.now))).left) }
{
    let mut items = CopyItems::new(alloc);
    let mut bytes = MAX_BATCH_BYTES;
    let mut next = rows.after(after);
    for taken in 0..room {
        let Some(key) = next else {
            return Ok(Batch { items, done: true });
        };
        let item = rows.item(key)?;
        let size = size(&item);
        if size > bytes {
            return Ok(Batch { items, done: false });
        }
        bytes -= size;
        items.push(item)?;
        next = rows.after(Some(key));
    }
    Ok(Batch {
        items,
        done: next.is_none(),
    })
}
