//! Where the rows stand.

ghost use Rattle.std.specs.Prelude.{◌≡◌, List, IsSome, IfOk, Some};
ghost use Rattle.std.specs.Option.{option_copied};
ghost use Rattle.hk_base.specs.declared.letter.CopyItem.{CopyItem};
ghost use Rattle.hk_copy.specs.Batches.{IsRising, next_key, row_at, rows_after};

use hk_base::{CopyItem, Key, Memory};

/// Rows by key, of which copies can be had.
pub trait Rows {
    /// The rows as they are copied, in the order of their keys.
    ghost rows: { Self → List CopyItem };

    /// The least key of a row that is greater than the given one, or the least key of all. None where there is none.
    fn after(&self, key: Option<&Key>) -> Option<&Key>
        ensures next { option_copied result ≡ next_key (rows_after (option_copied key.entry) (rows self.now)) }
        ensures rising { IsRising (rows self.now) };

    /// A copy of the row of a key that is there. It shares the content.
    fn item(&self, key: &Key) -> Result<CopyItem, Memory>
        requires there { IsSome (row_at key.now (rows self.now)) }
        ensures same { IfOk result (λ item. row_at key.now (rows self.now) ≡ Some item) };
}
