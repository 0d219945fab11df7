// One insert of a merge. The row of a new key is appended. A known key goes through the rule: the row that the rule makes is
// appended, and the old row dies.
ghost use Rattle.std.specs.Prelude.{◌≤◌, ◌+◌, ◌<◌, take, drop};
ghost use Rattle.key_index.specs.Slots.{slots};
ghost use Rattle.table.specs.Sound.{index_shape_of};
ghost use Rattle.merge_pending.specs.inner.Becoming.{Ready};
ghost use Rattle.merge_insert.specs.inner.Inserting.{Inserting};
ghost use Rattle.merge_insert.specs.inner.Ruling.{MadeIs, Makeable, KnownIs};

use super::append::{Stop, insert_new, replace_row};
use merge_rules::TAKE_NEW;
use row_buffer::row_start;
use table::{Header, index_shape};

// Writes the row that the rule makes of an old row and the new cells to the start of `out`. Returns false if the old row is kept.
// For rules 0 and 1 the row made is the surviving row, a part of one of the two stores. Its cells behind the key equal the old
// row's exactly if the old row is kept.
fn make_row<'a>(
    h: Header,
    rows: &'a [u32],
    old: u32,
    pending: &'a [u32],
    from: u32,
    out: &mut [u32],
) -> bool
    requires { Makeable h rows.now pending.now out.old old from }
    ensures { MadeIs h rows.now pending.now out.old old from result out.new }
{
    let width = h.columns as usize;
    let old_at = row_start(old, h.columns);
    let new_at = from as usize;
    let old_row = &rows[old_at..old_at + width];
    if h.rule <= TAKE_NEW {
        let row = merge_rules::surviving_row(
            h.rule, h.keys, h.sort, width, rows, old_at, pending, new_at,
        );
        let keys = h.keys as usize;
        if row_buffer::same_cells(&row[keys..], &old_row[keys..]) {
            return false;
        }
        row_buffer::write_row(out, 0, row);
        return true;
    }
    let new_row = &pending[new_at..new_at + width];
    if !merge_rules::changes(h.rule, h.keys, h.sort, old_row, new_row) {
        return false;
    }
    merge_rules::make(h.rule, h.keys, h.sort, old_row, new_row, out);
    true
}

// Inserts a row of a known key, which goes through the rule. Returns the header, if a row was appended.
fn insert_known(
    h: Header,
    rows: &mut [u32],
    keys: &mut [u32],
    sorts: &mut [u32],
    pending: &[u32],
    from: u32,
    hash: u32,
    old: u32,
    slot: u32,
) -> Result<Option<Header>, Stop>
    requires { Ready h rows.old keys.old sorts.old pending.now × (from + h.columns ≤ h.pending) × (old < h.rows) × (slot < slots (index_shape_of h)) }
    ensures { KnownIs h rows.old keys.old sorts.old (take h.columns (drop from pending.now)) hash old slot rows.new keys.new sorts.new result }
{
    let mut row = [0u32; 8];
    if !make_row(h, rows, old, pending, from, &mut row) {
        return Ok(None);
    }
    let width = h.columns as usize;
    let n = replace_row(h, rows, keys, sorts, &row[0..width], hash, old, slot)?;
    Ok(Some(n))
}

// Applies one insert, whose cells are in the pending store from `from` on. Returns the header, if a row was appended.
pub fn insert_row(
    h: Header,
    rows: &mut [u32],
    keys: &mut [u32],
    sorts: &mut [u32],
    pending: &[u32],
    from: u32,
    hash: u32,
) -> Result<Option<Header>, Stop>
    requires { Ready h rows.old keys.old sorts.old pending.now × (from + h.columns ≤ h.pending) }
    ensures { Inserting h rows.old keys.old sorts.old (take h.columns (drop from pending.now)) hash result rows.new keys.new sorts.new }
{
    let at = from as usize;
    if cells::is_stale(pending[at]) {
        return Ok(None);
    }
    let key = &pending[at..at + h.keys as usize];
    match key_index::look_up(index_shape(h), rows, keys, key, hash) {
        None => {
            let end = at + h.columns as usize;
            let n = insert_new(h, rows, keys, sorts, &pending[at..end], hash)?;
            Ok(Some(n))
        }
        Some(hit) => { insert_known(h, rows, keys, sorts, pending, from, hash, hit.row, hit.slot) }
    }
}
