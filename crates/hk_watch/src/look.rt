//! What a look answers.

use crate::watcher::Notice;
use hk_base::Stamp;

/// What a look found. The causes for which nothing is told stand in the order in which they are tested.
#[derive(Clone, Copy, Debug, PartialEq, Eq)]
pub enum Look {
    /// The watcher was told.
    Fired(Notice),
    /// No watch of this number is kept. Nothing was loaded.
    NoWatch,
    /// The cell shows another key, or none.
    Elsewhere,
    /// The row is not Valid.
    Open { stamp: Stamp },
    /// The row's data is more than a cell shows.
    Large { stamp: Stamp },
    /// The row's stamp is not above the last one.
    Old { stamp: Stamp },
}
