// Reads of a table by its header and its key store or sort entries: `get_row`, `get_row_column`, `fast_subset`, `version` and
// `updates_since` of table/mod.rs, and the rows since a noted version.
#![tactic(auto)]

ghost use Rattle.std.specs.Prelude.{◌≡◌};
ghost use Rattle.table.specs.Outcomes.{LookedUp, CellRead, RangeRead, VersionRead, RowsSince, RowsSinceVersion};

use constraints::{Constraint, EQUAL_COLUMNS};
use refusals::Refusal;
use row_buffer::row_start;
use sort_entries::Range;
use table::refusing::{
    check_cell, check_fast, check_lookup, check_noted, check_since, check_version,
};
use table::{Header, Version, index_shape};

// Returns the number of the key's live row.
pub fn get_row(h: Header, rows: &[u32], keys: &[u32], key: &[u32]) -> Result<Option<u32>, Refusal>
    ensures { LookedUp h rows.now keys.now key.now result }
{
    check_lookup(h, rows.len(), keys.len(), key.len())?;
    let found = key_index::look_up(index_shape(h), rows, keys, key, cells::compact_hash(key));
    match found {
        None => Ok(None),
        Some(hit) => Ok(Some(hit.row)),
    }
}

// Returns one cell of the key's live row.
pub fn get_row_column(
    h: Header,
    rows: &[u32],
    keys: &[u32],
    key: &[u32],
    column: u32,
) -> Result<Option<u32>, Refusal>
    ensures { CellRead h rows.now keys.now key.now column result }
{
    check_cell(h, rows.len(), keys.len(), key.len(), column)?;
    let found = key_index::look_up(index_shape(h), rows, keys, key, cells::compact_hash(key));
    match found {
        None => Ok(None),
        Some(hit) => {
            let at = row_start(hit.row, h.columns) + column as usize;
            Ok(Some(rows[at]))
        }
    }
}

// Returns the range of rows that meet a condition on the sort column; none for any other condition.
pub fn fast_subset(h: Header, sorts: &[u32], c: Constraint) -> Result<Option<Range>, Refusal>
    ensures { RangeRead h sorts.now c result }
{
    check_fast(h, sorts.len(), c)?;
    if c.kind == EQUAL_COLUMNS {
        return Ok(None);
    }
    if c.column != h.sort {
        return Ok(None);
    }
    let range = sort_entries::fast_range(sorts, h.entries, h.rows, c.kind, c.value);
    Ok(Some(range))
}

// Returns the generation and the row count.
pub fn version(h: Header) -> Result<Version, Refusal>
    ensures { VersionRead h result }
{
    check_version(h)?;
    Ok(Version {
        generation: h.generation,
        rows: h.rows,
    })
}

fn range(start: u32, end: u32) -> Range
    ensures { result ≡ record { start = start; end = end } }
{
    Range { start, end }
}

// Returns the range of rows from `row` on.
pub fn updates_since(h: Header, row: u32) -> Result<Option<Range>, Refusal>
    ensures { RowsSince h row result }
{
    check_since(h, row)?;
    Ok(Some(range(row, h.rows)))
}

// Returns the range of rows since a noted version, given by its generation and row count.
pub fn rows_since_version(h: Header, generation: u32, count: u32) -> Result<Option<Range>, Refusal>
    ensures { RowsSinceVersion h generation count result }
{
    check_noted(h, generation, count)?;
    Ok(Some(range(count, h.rows)))
}
