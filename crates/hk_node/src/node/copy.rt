//! Copies of nodes, which share keys and contents.

ghost use Rattle.std.specs.Prelude.{◌≡◌, IfOk, OnOk};
ghost use Rattle.hk_node.specs.Rows.{put_row};

use super::Node;
use crate::heard::share;
use hk_base::{Key, Memory, copy_view, share_key};
use hk_key::{BoxedRow, Row};
use std::alloc::Global;
use std::collections::{BTreeMap, BTreeSet};

// Adds a copy of a row.
fn add_copy(
    rows: &mut BTreeMap<Key, BoxedRow>,
    alloc: Global,
    key: &Key,
    row: &Row,
) -> Result<(), Memory>
    ensures { OnOk result (rows.new.entries ≡ put_row key.now row.now rows.old.entries) }
{
    let name = key.share()?;
    let row = row.copy(alloc)?;
    let row = BoxedRow::new(alloc, row)?;
    rows.insert(name, row)?;
    Ok(())
}

fn copy_rows(
    alloc: Global,
    rows: &BTreeMap<Key, BoxedRow>,
) -> Result<BTreeMap<Key, BoxedRow>, Memory>
    ensures { IfOk result (λ same. same.entries ≡ rows.now.entries) }
{
    let mut same = BTreeMap::new(alloc);
    for (key, row) in rows.iter() {
        add_copy(&mut same, alloc, key, row.get())?;
    }
    Ok(same)
}

impl Node {
    /// An equal node, which shares keys and contents.
    pub fn copy(&self, alloc: Global) -> Result<Node, Memory>
        ensures { IfOk result (λ node. node ≡ self.now) }
    {
        let view = copy_view(alloc, &self.view)?;
        let cursor = share_key(&self.cursor)?;
        let ends = share(alloc, &self.ends)?;
        let activated = share(alloc, &self.activated)?;
        let rows = copy_rows(alloc, &self.rows)?;
        Ok(Node {
            id: self.id,
            view,
            ready: self.ready,
            cursor,
            granted: self.granted,
            clock: self.clock,
            skew: self.skew,
            managers: self.managers,
            ends,
            activated,
            rows,
            index: BTreeSet::new(alloc),
            whole: false,
        })
    }
}
