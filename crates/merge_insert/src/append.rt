// Appends one row to a table: adds its sort entry or stops the merge, writes it after the other rows, and enters it in the key
// store. Stops are tested before anything is written.
ghost use Rattle.std.specs.Prelude.{◌≡◌, ◌≤◌, ◌+◌, ◌<◌};
ghost use Rattle.key_index.specs.Slots.{slots};
ghost use Rattle.table.specs.Sound.{index_shape_of};
ghost use Rattle.merge_insert.specs.inner.Appending.{Enterable, stop_number, AdmissionIs, grown_to, outgrown, Rebuildable, RebuiltGrown, Growable, NewIs, ReplaceIs};

use row_buffer::row_start;
use table::refusing::is_old;
use table::{Header, index_shape};

// Why a merge stops: a row must be appended and cannot be. Each variant has its number.
#[derive(Clone, Copy, Debug, PartialEq, Eq, Hash)]
pub enum Stop {
    // The table has as many rows as its capacity.
    TableFull = 8,
    // The row's sort value is below the largest one appended.
    OldSortValue = 9,
}

impl From<Stop> for u32 {
    ghost from_gives = { λ stop result. result ≡ stop_number stop };

    fn from(stop: Stop) -> u32 {
        stop as u32
    }
}

// Adds the sort entry of a row with this sort value, unless the row stops the merge. Returns the number of sort entries.
fn admit(h: Header, sorts: &mut [u32], value: u32) -> Result<u32, Stop>
    requires { Enterable h sorts.old }
    ensures { AdmissionIs h sorts.old value sorts.new result }
{
    if h.capacity <= h.rows {
        return Err(Stop::TableFull);
    }
    if is_old(h, value) {
        return Err(Stop::OldSortValue);
    }
    Ok(sort_entries::append_entry(sorts, h.entries, value, h.rows))
}

// The header with one more row, whose sort value is now the largest.
fn grown(h: Header, died: u32, entries: u32, value: u32) -> Header
    requires { (h.rows < 65536) × (h.dead + died ≤ 4294967295) }
    ensures { result ≡ grown_to h (h.dead + died) entries value }
{
    let mut n = h;
    n.rows = h.rows + 1;
    n.dead = h.dead + died;
    n.entries = entries;
    n.largest = Some(value);
    n
}

// Whether one more row needs more slots in the key store.
fn is_outgrown(h: Header) -> bool
    requires { h.rows < 65536 }
    ensures { result ≡ outgrown h }
{
    key_index::size_class_for(h.capacity, h.rows + 1)
        != key_index::size_class_for(h.capacity, h.rows)
}

// Rebuilds the key store after a row that needs more slots was written.
fn rebuild_grown(
    h: Header,
    rows: &[u32],
    keys: &mut [u32],
    died: u32,
    entries: u32,
    value: u32,
) -> Header
    requires { Rebuildable h rows.now keys.old died }
    ensures { RebuiltGrown h rows.now keys.old died entries value result keys.new }
{
    let n = grown(h, died, entries, value);
    key_rebuild::rebuild(index_shape(n), rows, keys);
    n
}

// Appends the row of a new key. If the key store is sound, a slot is free.
pub fn insert_new(
    h: Header,
    rows: &mut [u32],
    keys: &mut [u32],
    sorts: &mut [u32],
    cells: &[u32],
    hash: u32,
) -> Result<Header, Stop>
    requires { Growable h rows.old keys.old sorts.old cells.now }
    ensures { NewIs h rows.old keys.old sorts.old cells.now hash rows.new keys.new sorts.new result }
{
    let value = cells[h.sort as usize];
    let entries = admit(h, sorts, value)?;
    row_buffer::write_row(rows, row_start(h.rows, h.columns), cells);
    if is_outgrown(h) {
        return Ok(rebuild_grown(h, rows, keys, 0, entries, value));
    }
    key_index::put(index_shape(h), keys, hash, h.rows);
    Ok(grown(h, 0, entries, value))
}

// Appends a row of a known key. It takes over the key's slot, and the old row dies.
pub fn replace_row(
    h: Header,
    rows: &mut [u32],
    keys: &mut [u32],
    sorts: &mut [u32],
    cells: &[u32],
    hash: u32,
    old: u32,
    slot: u32,
) -> Result<Header, Stop>
    requires { Growable h rows.old keys.old sorts.old cells.now × (old < h.rows) × (slot < slots (index_shape_of h)) }
    ensures { ReplaceIs h rows.old keys.old sorts.old cells.now hash old slot rows.new keys.new sorts.new result }
{
    let value = cells[h.sort as usize];
    let entries = admit(h, sorts, value)?;
    row_buffer::set_stale(rows, row_start(old, h.columns));
    row_buffer::write_row(rows, row_start(h.rows, h.columns), cells);
    if is_outgrown(h) {
        return Ok(rebuild_grown(h, rows, keys, 1, entries, value));
    }
    key_index::replace(keys, slot, hash, h.rows);
    Ok(grown(h, 1, entries, value))
}
