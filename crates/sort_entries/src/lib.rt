// Sort entries: `offsets` of table/mod.rs. A lent store has them, two words each: a value and its first row.
#![tactic(auto)]

ghost use Rattle.std.specs.Prelude.{◌≡◌, ◌≤◌, ◌<◌, drop};
ghost use Rattle.sort_entries.specs.Entries.{entries_of, first_row, entries_sound};
ghost use Rattle.sort_entries.specs.Laws.Positions.{found, absent, range_at};
ghost use Rattle.sort_entries.specs.inner.Append.{EntryFits, Append};
ghost use Rattle.sort_entries.specs.inner.Search.{EntriesFit, SearchResultIs, Ranged, range_of};
ghost use Rattle.sort_entries.specs.inner.Checks.{Decides, Follows, Advanced, head_value, Cells, cell_sound, cells_sound};

use constraints::{AT_MOST, EQUAL, GREATER, LESS};
use offsets::search::binary_search_cells;
use row_buffer::row_start;

// Appends the entry of a row that is appended, or kept by a compaction, if its value rises. Returns the new number of entries.
pub fn append_entry(sorts: &mut [u32], entries: u32, value: u32, row: u32) -> u32
    requires { EntryFits sorts.old entries }
    ensures { Append sorts.old entries value row result sorts.new }
{
    let at = (2 * entries) as usize;
    if 0 < entries {
        let before = at - 2;
        if value <= sorts[before] {
            return entries;
        }
    }
    sorts[at] = value;
    sorts[at + 1] = row;
    entries + 1
}

// Rows from `start` on and below `end`.
#[derive(Clone, Copy)]
pub struct Range {
    pub start: u32,
    pub end: u32,
}

// The row of the entry at a position, or the row count if there is none.
fn row_from(sorts: &[u32], entries: u32, rows: u32, at: u32) -> u32
    requires { EntriesFit sorts.now entries }
    ensures { result ≡ first_row (drop at (entries_of entries sorts.now)) rows }
{
    if entries <= at {
        return rows;
    }
    let row_word = (2 * at + 1) as usize;
    sorts[row_word]
}

// The position of a value among the entries: `binary_search_sort_val`. `Ok`: an entry has the value; the rows from its own on and
// below the next entry's. `Err`: no entry has it; the row of the first entry above it. The row of a missing entry is the row count.
fn binary_search_sort_val(sorts: &[u32], entries: u32, rows: u32, value: u32) -> Result<Range, u32>
    requires { EntriesFit sorts.now entries }
    ensures { SearchResultIs sorts.now entries rows value result }
{
    let at = binary_search_cells(sorts, 2, 0, entries, value);
    let first = row_from(sorts, entries, rows, at);
    if at < entries {
        let word = (2 * at) as usize;
        if sorts[word] == value {
            let next = row_from(sorts, entries, rows, at + 1);
            return Ok(Range {
                start: first,
                end: next,
            });
        }
    }
    Err(first)
}

// The range of a condition kind, if these rows have the value.
fn range_found(kind: u32, with_value: Range, rows: u32) -> Range
    ensures { range_of result ≡ range_at kind (found with_value.start with_value.end) rows }
{
    match kind {
        EQUAL => with_value,
        LESS => Range {
            start: 0,
            end: with_value.start,
        },
        GREATER => Range {
            start: with_value.end,
            end: rows,
        },
        AT_MOST => Range {
            start: 0,
            end: with_value.end,
        },
        _ => Range {
            start: with_value.start,
            end: rows,
        },
    }
}

// The range of a condition kind, if no row has the value and those from `above` on have higher ones.
fn range_absent(kind: u32, above: u32, rows: u32) -> Range
    ensures { range_of result ≡ range_at kind (absent above) rows }
{
    match kind {
        EQUAL => Range { start: 0, end: 0 },
        LESS | AT_MOST => Range {
            start: 0,
            end: above,
        },
        _ => Range {
            start: above,
            end: rows,
        },
    }
}

// `fast_subset` on the sort column, for kinds 1 to 5: equal, less, greater, at most, at least.
pub fn fast_range(sorts: &[u32], entries: u32, rows: u32, kind: u32, value: u32) -> Range
    requires { EntriesFit sorts.now entries }
    ensures { Ranged sorts.now entries rows kind value result }
{
    let standing = binary_search_sort_val(sorts, entries, rows, value);
    match standing {
        Ok(with_value) => range_found(kind, with_value, rows),
        Err(above) => range_absent(kind, above, rows),
    }
}

// Whether the entry at a position is below the row count and above the entry before it, by value and by row.
fn entry_sound(sorts: &[u32], entries: u32, rows: u32, i: u32) -> bool
    requires entries_fit { EntriesFit sorts.now entries }
    requires i_lt_entries { i < entries }
    ensures { Decides (Follows sorts.now rows i) result }
{
    let at = (2 * i) as usize;
    let value = sorts[at];
    let row = sorts[at + 1];
    if rows <= row {
        return false;
    }
    if i == 0 {
        return true;
    }
    let value_before = sorts[at - 2];
    let row_before = sorts[at - 1];
    if value <= value_before {
        return false;
    }
    row_before < row
}

// Whether the entries rise, are below the row count and begin at row 0 if there is a row. One pass.
pub fn entries_sound(sorts: &[u32], entries: u32, rows: u32) -> bool
    requires { EntriesFit sorts.now entries }
    ensures { result ≡ entries_sound (entries_of entries sorts.now) rows }
{
    if row_from(sorts, entries, rows, 0) != 0 {
        return false;
    }
    for i in 0..entries {
        if !entry_sound(sorts, entries, rows, i) {
            return false;
        }
    }
    true
}

// The position of the entry that applies to a row, searched from that of an earlier row.
fn advance(sorts: &[u32], entries: u32, from: u32, row: u32) -> u32
    requires entries_fit { EntriesFit sorts.now entries }
    requires from_le_entries { from ≤ entries }
    ensures { Advanced sorts.now entries from row result }
{
    let mut at = from;
    // No `for`: the next row goes on from the entry where this one stops.
    while at + 1 < entries {
        let word = (2 * at + 3) as usize;
        if row < sorts[word] {
            return at;
        }
        at += 1;
    }
    at
}

// The value of the entry at a position, 0 past the last.
fn value_from(sorts: &[u32], entries: u32, at: u32) -> u32
    requires { EntriesFit sorts.now entries }
    ensures { result ≡ head_value (drop at (entries_of entries sorts.now)) }
{
    if entries <= at {
        return 0;
    }
    let value_word = (2 * at) as usize;
    sorts[value_word]
}

// Whether a row is dead or its sort cell is this value. The sort cell of a dead row is ignored.
fn cell_sound(store: &[u32], columns: u32, sort: u32, rows: u32, row: u32, value: u32) -> bool
    requires cells { Cells store.now columns sort rows }
    requires row_lt_rows { row < rows }
    ensures { result ≡ cell_sound store.now columns sort row value }
{
    let at = row_start(row, columns);
    if cells::is_stale(store[at]) {
        return true;
    }
    let s = sort as usize;
    let cell = store[at + s];
    cell == value
}

// Whether each live row's sort cell is the value of the last entry at or below the row. One pass over rows and entries together.
pub fn sort_cells_sound(
    store: &[u32],
    columns: u32,
    sort: u32,
    rows: u32,
    sorts: &[u32],
    entries: u32,
) -> bool
    requires cells { Cells store.now columns sort rows }
    requires entries_fit { EntriesFit sorts.now entries }
    ensures { result ≡ cells_sound store.now columns sort rows (entries_of entries sorts.now) }
{
    let mut at: u32 = 0;
    for row in 0..rows {
        at = advance(sorts, entries, at, row);
        let value = value_from(sorts, entries, at);
        if !cell_sound(store, columns, sort, rows, row, value) {
            return false;
        }
    }
    true
}
