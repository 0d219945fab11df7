// Rebuilds the key store over all live rows, for another number of slots: when the rows outgrow the slots in use, and when a
// compaction leaves so few rows that fewer slots suffice; and builds that of an image. Safe on any rows and store.
#![tactic(auto)]

ghost use Rattle.std.specs.Prelude.{◌<◌};
ghost use Rattle.key_index.specs.inner.Index.{Fits, RowsFit};
ghost use Rattle.key_rebuild.specs.inner.Rebuilding.{RowPut, Rebuilt, NewRowPut, UniqueBuilt};

use key_index::IndexShape;
use row_buffer::row_start;

pub mod renumber; // renumber.rt: new row numbers after a compaction

// Inserts a row if it is live.
fn put_row(t: IndexShape, rows: &[u32], store: &mut [u32], row: u32)
    requires { Fits t rows.now store.old × (row < t.rows) }
    ensures { RowPut t rows.now store.old row store.new }
{
    let at = row_start(row, t.columns);
    if row_buffer::is_dead(rows, at) {
        return;
    }
    let hash = key_index::row_hash(t, rows, row);
    key_index::put(t, store, hash, row);
}

// Makes the slots in use lead to exactly the live rows, whatever their previous contents.
pub fn rebuild(t: IndexShape, rows: &[u32], store: &mut [u32])
    requires { Fits t rows.now store.old }
    ensures { Rebuilt t rows.now store.old store.new }
{
    key_index::empty(t.room, store);
    for row in 0..t.rows {
        put_row(t, rows, store, row);
    }
}

// Inserts a row if it is live. Returns false, and inserts nothing, if an earlier live row has its key.
fn put_new_row(t: IndexShape, rows: &[u32], store: &mut [u32], row: u32) -> bool
    requires { RowsFit t rows.now store.old × (row < t.rows) }
    ensures { NewRowPut t rows.now store.old row result store.new }
{
    let from = row_start(row, t.columns);
    if row_buffer::is_dead(rows, from) {
        return true;
    }
    let to = from + t.keys as usize;
    let hash = key_index::row_hash(t, rows, row);
    let mut before = t;
    before.rows = row;
    key_index::put_new(before, rows, store, &rows[from..to], hash, row)
}

// Like `rebuild`, for rows that are not known to have different keys and that may fill their store: returns whether the keys of live
// rows differ. If they do not, the slots are of no use.
pub fn build_unique(t: IndexShape, rows: &[u32], store: &mut [u32]) -> bool
    requires { RowsFit t rows.now store.old }
    ensures { UniqueBuilt t rows.now result store.new }
{
    key_index::empty(t.room, store);
    for row in 0..t.rows {
        if !put_new_row(t, rows, store, row) {
            return false;
        }
    }
    true
}
