// Before comes first: whether each live row with a pair's first value in a key column has, by its own sort cell, a live row with
// the second value there and the same other key cells. Each row and each pair that names it takes one lookup in the key index.
#![tactic(auto)]

ghost use Rattle.std.specs.Prelude.{◌≡◌, ◌/◌, ◌<◌, length};
ghost use Rattle.refusals.specs.Refusals.{refusal_number};
ghost use Rattle.precedence.specs.Precedence.{precedence_refusal, PrecedenceChecked};
ghost use Rattle.precedence.specs.inner.Checking.{Tested, OnTable, filed_by, row_filed, row_meets, row_failing, PlaceIs};

use refusals::Refusal;
use row_buffer::row_start;
use table::refusing::check_lookup;
use table::{Header, index_shape};

// A row that fails, and the place, from 0, of the first pair that it fails.
#[derive(Clone, Copy, Debug, PartialEq, Eq)]
pub struct Failure {
    pub row: u32,
    pub place: u32,
}

const MOST_PAIRS: usize = 16;

// The checks of the precedence check. Checks 1 and 2 are those of a lookup by a key of the right width.
fn check_pairs(
    h: Header,
    rows: usize,
    keys: usize,
    column: u32,
    words: usize,
) -> Result<(), Refusal>
    ensures { refusal_number result ≡ precedence_refusal h rows keys column words }
{
    check_lookup(h, rows, keys, h.keys as usize)?;
    if h.keys <= column {
        return Err(Refusal::NoSuchColumn);
    }
    if words % 2 != 0 {
        return Err(Refusal::PairCount);
    }
    if words / 2 < 1 {
        return Err(Refusal::PairCount);
    }
    if MOST_PAIRS < words / 2 {
        return Err(Refusal::PairCount);
    }
    Ok(())
}

// Whether the sort cell of the key's live row is at most `latest`.
fn is_filed_by(h: Header, rows: &[u32], keys: &[u32], key: &[u32], latest: u32) -> bool
    requires { Tested h rows.now keys.now × (length key.now ≡ h.keys) }
    ensures { OnTable h rows.now keys.now (result ≡ filed_by h rows.now key.now latest) }
{
    let found = key_index::look_up(index_shape(h), rows, keys, key, cells::compact_hash(key));
    match found {
        None => false,
        Some(hit) => {
            let at = row_start(hit.row, h.columns) + h.sort as usize;
            rows[at] <= latest
        }
    }
}

// Whether a row has, by its own sort cell, a row with this value in the column and the same other key cells.
fn is_row_filed(h: Header, rows: &[u32], keys: &[u32], column: u32, row: u32, value: u32) -> bool
    requires { Tested h rows.now keys.now × (column < h.keys) × (row < h.rows) }
    ensures { OnTable h rows.now keys.now (result ≡ row_filed h rows.now column row value) }
{
    let from = row_start(row, h.columns);
    let width = h.keys as usize;
    let mut key = [0u32; 8];
    row_buffer::write_row(&mut key, 0, &rows[from..from + width]);
    key[column as usize] = value;
    let latest = rows[from + h.sort as usize];
    is_filed_by(h, rows, keys, &key[0..width], latest)
}

// Whether a row meets a pair of values: the pair does not name it, or the row that it needs exists.
fn meets_pair(
    h: Header,
    rows: &[u32],
    keys: &[u32],
    column: u32,
    row: u32,
    first: u32,
    second: u32,
) -> bool
    requires { Tested h rows.now keys.now × (column < h.keys) × (row < h.rows) }
    ensures { OnTable h rows.now keys.now (result ≡ row_meets h rows.now column row (record { first = first; second = second })) }
{
    let at = row_start(row, h.columns) + column as usize;
    if rows[at] != first {
        return true;
    }
    is_row_filed(h, rows, keys, column, row, second)
}

// The place of the first pair that a row fails; the number of pairs if it fails none. A dead row fails none. Not an Option: with an
// enum the loop over rows took 7 % longer where pairs name rows, and at least 15 % where they name none.
fn failing_pair(
    h: Header,
    rows: &[u32],
    keys: &[u32],
    column: u32,
    pairs: &[u32],
    row: u32,
) -> usize
    requires { Tested h rows.now keys.now × (column < h.keys) × (row < h.rows) }
    ensures { OnTable h rows.now keys.now (PlaceIs (length pairs.now / 2) (row_failing h rows.now column pairs.now row) result) }
{
    let count = pairs.len() / 2;
    let from = row_start(row, h.columns);
    if row_buffer::is_dead(rows, from) {
        return count;
    }
    for place in 0..count {
        let first = pairs[2 * place];
        let second = pairs[2 * place + 1];
        if !meets_pair(h, rows, keys, column, row, first, second) {
            return place;
        }
    }
    count
}

// Checks, in one key column, pairs of values in two words each: a live row with a pair's first value needs a live row with the
// second there, the same other key cells and a sort cell no larger. Returns the lowest row that fails, if any.
pub fn check_precedence(
    h: Header,
    rows: &[u32],
    keys: &[u32],
    column: u32,
    pairs: &[u32],
) -> Result<Option<Failure>, Refusal>
    ensures { PrecedenceChecked h rows.now keys.now column pairs.now result }
{
    check_pairs(h, rows.len(), keys.len(), column, pairs.len())?;
    let count = pairs.len() / 2;
    for row in 0..h.rows {
        let place = failing_pair(h, rows, keys, column, pairs, row);
        if place < count {
            return Ok(Some(Failure {
                row,
                place: place as u32,
            }));
        }
    }
    Ok(None)
}
