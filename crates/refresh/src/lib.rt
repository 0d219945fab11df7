// Gives rows that mention a value a new stamp: `refresh_rows_for_values` of table/rebuild.rs. The index store catches up with the
// table, the rows are found by it and counted in a bitmap, and each is staged for removal and, with the stamp as its sort cell, for
// insertion. If the pending store might be too short, the rows are counted before anything lent is written.
#![tactic(auto)]

ghost use Rattle.std.specs.Prelude.{◌≡◌, false, [], ◌∷◌, ◌+◌, ◌*◌, ◌≤◌, ltb, length, take, set};
ghost use Rattle.lists.specs.Lists.{splice, all, row_at};
ghost use Rattle.plain_table.specs.Staged.{insert, remove_row};
ghost use Rattle.plain_table.specs.Refusing.{overfull};
ghost use Rattle.plain_table.specs.Refreshing.{index_short};
ghost use Rattle.table.specs.Numbers.{opening_of};
ghost use Rattle.table.specs.Refusing.{outside};
ghost use Rattle.table.specs.Stores.{record_words};
ghost use Rattle.bitmap.specs.inner.Bitmaps.{Bitmap};
ghost use Rattle.refresh_spec.specs.Refreshes.{Refreshing};
ghost use Rattle.refresh_spec.specs.inner.Finding.{Lendable, usable};
ghost use Rattle.refusals.specs.Refusals.{refusal_number};
ghost use Rattle.refresh.specs.inner.Testing.{early_refusal, Accepted};
ghost use Rattle.refresh.specs.inner.Finding.{RowsFound};
ghost use Rattle.refresh.specs.inner.Staging.{RowInStore, row_words, rows_words, numbered, Block, BlockWritten, Group, GroupWritten, Stageable, AllWritten, RowsStaged};

use bitmap::{ROW_WORDS, WORDS};
use refresh_index::{FRONT, ROWS_SEEN, catch_up, is_usable, mark_listed};
use refresh_scan::mark_unlisted;
use refresh_spec::Refreshed;
use refusals::Refusal;
use row_buffer::{BITMAP_WORD_BITS, row_start};
use table::refusing::{is_old, is_pending_outside, is_rows_short};
use table::{Header, INSERT, RECORD_HEAD, ROW_RECORD_HEAD};
use table_stage::is_overfull;

const MOST_COLUMNS: usize = 8;

// The words of an index store for each named column of a row: an entry, and two buckets.
const WORDS_PER_CELL: usize = 3;

// The number of summary words of a bitmap. Each is for a group of 4,096 rows.
const GROUPS: u32 = 16;

// Whether every column named is one of the table's.
fn are_columns_there(h: Header, columns: &[u32]) -> bool
    ensures { result ≡ all (λ column. ltb column h.columns) columns.now }
{
    columns.iter().all(|&column| column < h.columns)
}

// Test 2 of the index store.
fn is_index_short(h: Header, index: usize, columns: &[u32]) -> bool
    requires { (outside h ≡ false) × (length columns.now ≤ 8) }
    ensures { result ≡ index_short (opening_of h) columns.now index }
{
    let needed = FRONT + WORDS_PER_CELL * (h.capacity as usize * columns.len());
    index < needed
}

// The tests before test 7.
fn check_refresh(
    h: Header,
    rows: usize,
    pending: usize,
    index: usize,
    columns: &[u32],
    stamp: u32,
) -> Result<(), Refusal>
    ensures { refusal_number result ≡ early_refusal h rows pending index columns.now stamp }
{
    if is_pending_outside(h, pending) {
        return Err(Refusal::OutOfBounds);
    }
    if is_rows_short(h, rows) {
        return Err(Refusal::TooShort);
    }
    if MOST_COLUMNS < columns.len() {
        return Err(Refusal::TooManyColumns);
    }
    if !are_columns_there(h, columns) {
        return Err(Refusal::NoSuchColumn);
    }
    if is_index_short(h, index, columns) {
        return Err(Refusal::TooShort);
    }
    if is_old(h, stamp) {
        return Err(Refusal::OldSortValue);
    }
    Ok(())
}

// Sets the bits of the live rows that mention a value, and returns their number. Rows that the index store has seen are looked up
// in it if it is usable; the others are found by their cells.
fn mark_mentioning(
    h: Header,
    rows: &[u32],
    index: &[u32],
    columns: &[u32],
    values: &[u32],
    goes_on: bool,
    words: &mut [u64],
) -> u32
    requires { Lendable h rows.now columns.now index.now × (goes_on ≡ usable h columns.now index.now) × Bitmap words.old (λ i. false) }
    ensures { RowsFound h rows.now index.now columns.now values.now words.old words.new result }
{
    if !goes_on {
        return mark_unlisted(h, rows, 0, columns, values, words);
    }
    let seen = index[ROWS_SEEN];
    let listed = mark_listed(h, rows, index, columns, values, words);
    listed + mark_unlisted(h, rows, seen, columns, values, words)
}

// Writes the removal of a row.
fn write_removal(h: Header, rows: &[u32], pending: &mut [u32], at: usize, row: u32)
    requires { RowInStore h rows.now row × (at + (h.keys + 3) ≤ length pending.old) }
    ensures { pending.new ≡ splice pending.old at (record_words h.keys (remove_row row (take h.keys (row_at h.columns row rows.now)))) }
{
    let from = row_start(row, h.columns);
    let end = from + h.keys as usize;
    let key = &rows[from..end];
    let hash = cells::compact_hash(key);
    table_stage::write_row_record(pending, at, hash, row, key);
}

// Writes the insert of a row with the stamp as its sort cell. If the sort column is a key column, the key changes.
fn write_restamped(h: Header, rows: &[u32], pending: &mut [u32], at: usize, row: u32, stamp: u32)
    requires { RowInStore h rows.now row × (at + (h.columns + 2) ≤ length pending.old) }
    ensures { pending.new ≡ splice pending.old at (record_words h.keys (insert (set (row_at h.columns row rows.now) h.sort stamp))) }
{
    let from = row_start(row, h.columns);
    let width = h.columns as usize;
    let mut restamped = [0u32; 8];
    row_buffer::write_row(&mut restamped, 0, &rows[from..from + width]);
    restamped[h.sort as usize] = stamp;
    let hash = cells::compact_hash(&restamped[..h.keys as usize]);
    table_stage::write_record(pending, at, INSERT, hash, &restamped[0..width]);
}

// Writes both records of a row.
fn write_row(h: Header, rows: &[u32], pending: &mut [u32], at: usize, row: u32, stamp: u32)
    requires { RowInStore h rows.now row × (at + row_words h ≤ length pending.old) }
    ensures { pending.new ≡ splice pending.old at (rows_words h stamp (numbered h rows.now row ∷ [])) }
{
    write_removal(h, rows, pending, at, row);
    write_restamped(
        h,
        rows,
        pending,
        at + (h.keys + ROW_RECORD_HEAD) as usize,
        row,
        stamp,
    );
}

// Writes the records of the rows whose bits are set in a word, from its lowest bit up. Returns the number of words in use.
fn write_block(
    h: Header,
    rows: &[u32],
    pending: &mut [u32],
    before: u32,
    first: u32,
    marked: u64,
    stamp: u32,
) -> u32
    requires { Block h rows.now pending.old before first marked stamp }
    ensures { BlockWritten h rows.now pending.old before first marked stamp result pending.new }
{
    let mut used = before;
    let mut word = marked;
    while word != 0 {
        let row = first + u64::trailing_zeros(word);
        word = word & (word - 1);
        write_row(h, rows, pending, used as usize, row, stamp);
        used += h.keys + ROW_RECORD_HEAD + (h.columns + RECORD_HEAD);
    }
    used
}

// Writes the records of the rows in the bitmap among those of a group, from word to word by its summary word. Returns the number of
// words in use.
fn write_group(
    h: Header,
    rows: &[u32],
    pending: &mut [u32],
    words: &[u64],
    before: u32,
    group: u32,
    stamp: u32,
) -> u32
    requires { Group h rows.now pending.old words.now before group stamp }
    ensures { GroupWritten h rows.now pending.old words.now before group stamp result pending.new }
{
    let mut used = before;
    let mut flags = words[ROW_WORDS + group as usize];
    while flags != 0 {
        let at = group * BITMAP_WORD_BITS + u64::trailing_zeros(flags);
        flags = flags & (flags - 1);
        let word = words[at as usize];
        used = write_block(h, rows, pending, used, at * BITMAP_WORD_BITS, word, stamp);
    }
    used
}

// Writes the records of all rows in the bitmap, of which there are `count`, in rising order.
fn write_marked(
    h: Header,
    rows: &[u32],
    pending: &mut [u32],
    words: &[u64],
    count: u32,
    stamp: u32,
) -> u32
    requires { Stageable h rows.now pending.old words.now count }
    ensures { AllWritten h rows.now pending.old words.now count stamp result pending.new }
{
    if count == 0 {
        return h.pending;
    }
    let mut used = h.pending;
    for group in 0..GROUPS {
        used = write_group(h, rows, pending, words, used, group, stamp);
    }
    used
}

// Stages the rows in the bitmap, of which there are `count`.
fn stage_marked(
    h: Header,
    rows: &[u32],
    pending: &mut [u32],
    words: &[u64],
    count: u32,
    stamp: u32,
) -> Refreshed
    requires { Stageable h rows.now pending.old words.now count }
    ensures { RowsStaged h rows.now pending.old words.now count stamp result pending.new }
{
    let mut n = h;
    n.pending = write_marked(h, rows, pending, words, count, stamp);
    Refreshed {
        header: n,
        staged: 0 < count,
    }
}

// Whether the free pending words do not suffice for the records of all rows. If they do, test 7 refuses no refresh.
fn is_tight(h: Header, pending: usize) -> bool
    requires { outside h ≡ false }
    ensures { result ≡ overfull h.pending pending (h.rows * (h.keys + 3) + h.rows * (h.columns + 2)) }
{
    is_overfull(
        h.pending,
        pending,
        h.rows * (h.keys + ROW_RECORD_HEAD),
        h.rows * (h.columns + RECORD_HEAD),
    )
}

// A refresh that test 7 cannot refuse: the index store catches up first, so that it lists all rows and the values are looked up in
// it.
fn refresh_by_index(
    h: Header,
    rows: &[u32],
    pending: &mut [u32],
    index: &mut [u32],
    columns: &[u32],
    values: &[u32],
    stamp: u32,
    goes_on: bool,
) -> Refreshed
    requires { Accepted h rows.now pending.old index.old columns.now stamp goes_on × (overfull h.pending (length pending.old) (h.rows * (h.keys + 3) + h.rows * (h.columns + 2)) ≡ false) }
    ensures { Refreshing h rows.now pending.old index.old (record { columns = columns.entry.now; values = values.now; stamp = stamp }) (Ok result) pending.new index.new }
{
    catch_up(h, rows, index, columns, goes_on);
    let mut words = [0u64; WORDS];
    let count = mark_listed(h, rows, index, columns, values, &mut words);
    stage_marked(h, rows, pending, &words, count, stamp)
}

// A refresh that test 7 may refuse: the rows are counted before anything lent is written.
fn refresh_by_scan(
    h: Header,
    rows: &[u32],
    pending: &mut [u32],
    index: &mut [u32],
    columns: &[u32],
    values: &[u32],
    stamp: u32,
    goes_on: bool,
) -> Result<Refreshed, Refusal>
    requires { Accepted h rows.now pending.old index.old columns.now stamp goes_on }
    ensures { Refreshing h rows.now pending.old index.old (record { columns = columns.entry.now; values = values.now; stamp = stamp }) result pending.new index.new }
{
    let mut words = [0u64; WORDS];
    let count = mark_mentioning(h, rows, index, columns, values, goes_on, &mut words);
    let removals = count * (h.keys + ROW_RECORD_HEAD);
    let inserts = count * (h.columns + RECORD_HEAD);
    if is_overfull(h.pending, pending.len(), removals, inserts) {
        return Err(Refusal::PendingFull);
    }
    catch_up(h, rows, index, columns, goes_on);
    Ok(stage_marked(h, rows, pending, &words, count, stamp))
}

// Stages each live row with one of the values in one of the columns for removal and, with the stamp as its sort cell, for
// insertion. The index store catches up with the table.
pub fn refresh_rows_for_values(
    h: Header,
    rows: &[u32],
    pending: &mut [u32],
    index: &mut [u32],
    columns: &[u32],
    values: &[u32],
    stamp: u32,
) -> Result<Refreshed, Refusal>
    ensures { Refreshing h rows.now pending.old index.old (record { columns = columns.entry.now; values = values.now; stamp = stamp }) result pending.new index.new }
{
    check_refresh(h, rows.len(), pending.len(), index.len(), columns, stamp)?;
    let goes_on = is_usable(h, index, columns);
    if is_tight(h, pending.len()) {
        return refresh_by_scan(h, rows, pending, index, columns, values, stamp, goes_on);
    }
    let refreshed = refresh_by_index(h, rows, pending, index, columns, values, stamp, goes_on);
    Ok(refreshed)
}
