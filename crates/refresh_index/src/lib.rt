// An index from value to rows in a lent store: whether a refresh can continue with it, the rows that it refers to, and catching up
// with the table. Index.antt of `refresh_spec` defines the words of the store. Safety does not depend on its contents: each chain
// is followed to lower and lower entries, and a row is tested before its bit is set.
#![tactic(auto)]

ghost use Rattle.std.specs.Prelude.{◌≡◌, true, false, ◌+◌, ◌*◌, ◌≤◌, ◌<◌, eqb, length, get_or, set};
ghost use Rattle.table.specs.Refusing.{outside};
ghost use Rattle.refresh_spec.specs.Index.{bucket_of, entries_under, leads_to};
ghost use Rattle.refresh_spec.specs.inner.Finding.{leads, Lendable, usable, ListedMarked, CaughtUp};
ghost use Rattle.refresh_index.specs.inner.Entries.{Readable, cell_named, fronted, pushed, Fillable, Pushed, UpToDate, Filled, Emptied};
ghost use Rattle.refresh_index.specs.inner.Marking.{MarkedAll, Noted};

use row_buffer::row_start;
use std::mem;
use table::Header;

// The number of words before the entries.
pub const FRONT: usize = 16;

// The first of them.
const MARK: u32 = 1;

// The places of the others: the generation, the number of rows seen, the number of columns named, these columns, the number of
// buckets.
const GENERATION: usize = 1;

pub const ROWS_SEEN: usize = 2;

const COLUMN_COUNT: usize = 3;

const COLUMNS: usize = 4;

const BUCKETS: usize = 12;

// An odd number near the golden section of 2^32: values at equal distances fall into buckets far apart.
const HASH_MULTIPLIER: u64 = 0x9e37_79b9;

// The number of slots for values looked up before.
const RECENT: usize = 1024;

// Whether a refresh by these columns can continue with the store: it is of this generation and these columns, has seen no more rows
// than there are, and has enough buckets for all of them.
pub fn is_usable(h: Header, index: &[u32], columns: &[u32]) -> bool
    requires { (outside h ≡ false) × (length columns.now ≤ 8) × (16 + 3 * (h.capacity * length columns.now) ≤ length index.now) }
    ensures { result ≡ usable h columns.now index.now }
{
    if index[0] != MARK {
        return false;
    }
    if index[GENERATION] != h.generation {
        return false;
    }
    if index[COLUMN_COUNT] as usize != columns.len() {
        return false;
    }
    if !row_buffer::same_key(index, COLUMNS, columns) {
        return false;
    }
    if h.rows < index[ROWS_SEEN] {
        return false;
    }
    let buckets = index[BUCKETS] as usize;
    if buckets < h.rows as usize * columns.len() {
        return false;
    }
    buckets <= 2 * (h.capacity as usize * columns.len())
}

// The bucket of a value, among `buckets`.
pub fn bucket_of(buckets: u32, value: u32) -> usize
    requires { 0 < buckets }
    ensures { (result ≡ bucket_of buckets value) × (result < buckets) }
{
    let hash = value as u64 * HASH_MULTIPLIER % 0x1_0000_0000;
    key_index::home_slot(buckets, hash as u32) as usize
}

// The place where the links of the buckets start.
fn heads_at(h: Header, count: usize) -> usize
    requires { (outside h ≡ false) × (count ≤ 8) }
    ensures { result ≡ 16 + h.capacity * count }
{
    FRONT + h.capacity as usize * count
}

// The cell of a row in the column that is named at a place.
fn cell_named(h: Header, rows: &[u32], columns: &[u32], row: u32, place: usize) -> u32
    requires { Readable h rows.now columns.now × (row < h.rows) × (place < length columns.now) }
    ensures { result ≡ cell_named h rows.now columns.now row place }
{
    let at = row_start(row, h.columns) + columns[place] as usize;
    rows[at]
}

// Makes an entry the last of its value's bucket, with a link to the previous last one.
fn push_entry(index: &mut [u32], heads: usize, buckets: u32, entry: u32, value: u32)
    requires { (0 < buckets) × (16 + entry < heads) × (heads + buckets ≤ length index.old) × (entry < 524288) }
    ensures { index.new ≡ pushed index.old (heads + bucket_of buckets value) entry }
{
    let head = heads + bucket_of(buckets, value);
    index[FRONT + entry as usize] = index[head];
    index[head] = entry + 1;
}

// Pushes the entries of a row, one for each named column.
fn push_row(h: Header, rows: &[u32], index: &mut [u32], columns: &[u32], buckets: u32, row: u32)
    requires { Fillable h rows.now columns.now buckets index.old × (row < h.rows) }
    ensures { Pushed h rows.now columns.now buckets (row * length columns.now) index.old (row * length columns.now + length columns.now) index.new }
{
    let heads = heads_at(h, columns.len());
    let first = row * columns.len() as u32;
    for place in 0..columns.len() {
        let value = cell_named(h, rows, columns, row, place);
        push_entry(index, heads, buckets, first + place as u32, value);
    }
}

// Pushes the entries of a row that is live. A dead row is never found, so it needs none.
fn push_live(h: Header, rows: &[u32], index: &mut [u32], columns: &[u32], buckets: u32, row: u32)
    requires { Fillable h rows.now columns.now buckets index.old × (row < h.rows) }
    ensures { Pushed h rows.now columns.now buckets (row * length columns.now) index.old (row * length columns.now + length columns.now) index.new }
{
    if row_buffer::is_dead(rows, row_start(row, h.columns)) {
        return;
    }
    push_row(h, rows, index, columns, buckets, row);
}

// Writes the words before the entries, which describe the index.
fn write_front(h: Header, index: &mut [u32], columns: &[u32], buckets: u32)
    requires { (16 ≤ length index.old) × (length columns.now ≤ 8) }
    ensures { index.new ≡ fronted h columns.now buckets index.old }
{
    let front = [MARK, h.generation, h.rows, columns.len() as u32];
    row_buffer::write_row(index, 0, &front);
    row_buffer::write_row(index, COLUMNS, columns);
    index[BUCKETS] = buckets;
}

// Pushes the entries of the live rows from `from` on, on top of an index of the rows before it.
fn fill(h: Header, rows: &[u32], index: &mut [u32], columns: &[u32], buckets: u32, from: u32)
    requires { Fillable h rows.now columns.now buckets index.old × (from ≤ h.rows) }
    ensures { Filled h rows.now columns.now buckets from index.old index.new }
{
    for row in from..h.rows {
        push_live(h, rows, index, columns, buckets, row);
    }
    write_front(h, index, columns, buckets);
}

// Empties the buckets, so that no chain continues in entries of an earlier index.
fn empty_buckets(index: &mut [u32], heads: usize, buckets: u32)
    requires { heads + buckets ≤ length index.old }
    ensures { Emptied index.old heads buckets index.new }
{
    index[heads..heads + buckets as usize].fill(0);
}

// Makes the store an index of the whole table. It continues after the rows seen, or starts again with twice as many buckets as
// there are entries, which leaves room to continue and takes time by the rows and not by the capacity.
pub fn catch_up(h: Header, rows: &[u32], index: &mut [u32], columns: &[u32], goes_on: bool)
    requires { Lendable h rows.now columns.now index.old × (goes_on ≡ usable h columns.now index.old) }
    ensures { CaughtUp h rows.now columns.now index.old index.new × UpToDate h columns.now index.new }
{
    if goes_on {
        let seen = index[ROWS_SEEN];
        let buckets = index[BUCKETS];
        fill(h, rows, index, columns, buckets, seen);
        return;
    }
    let buckets = 2 * (h.rows * columns.len() as u32);
    empty_buckets(index, heads_at(h, columns.len()), buckets);
    fill(h, rows, index, columns, buckets, 0);
}

// Sets the bit of an entry's row if the row is live and has the value in the entry's column.
fn mark_entry(
    h: Header,
    rows: &[u32],
    columns: &[u32],
    entry: u32,
    value: u32,
    words: &mut [u64],
) -> u32
    requires { Readable h rows.now columns.now × (entry < h.rows * length columns.now) × (length words.old ≡ 1040) }
    ensures { MarkedAll (leads_to h rows.now columns.now value entry) words.old words.new result }
{
    let count = columns.len() as u32;
    let row = entry / count;
    let place = (entry % count) as usize;
    if row_buffer::is_dead(rows, row_start(row, h.columns)) {
        return 0;
    }
    if cell_named(h, rows, columns, row, place) != value {
        return 0;
    }
    bitmap::mark(words, row)
}

// Sets the bits of the rows that the entries under a value refer to. Each link refers to an entry below the last one, so the loop
// ends.
fn mark_chain(
    h: Header,
    rows: &[u32],
    index: &[u32],
    columns: &[u32],
    value: u32,
    words: &mut [u64],
) -> u32
    requires { Lendable h rows.now columns.now index.now × (usable h columns.now index.now ≡ true) × (length words.old ≡ 1040) }
    ensures { MarkedAll (leads h rows.now columns.now value (entries_under h.capacity index.now value)) words.old words.new result }
{
    let mut limit = index[ROWS_SEEN] * columns.len() as u32;
    if limit == 0 {
        return 0;
    }
    let mut link = index[heads_at(h, columns.len()) + bucket_of(index[BUCKETS], value)];
    let mut marked: u32 = 0;
    while 0 < link && link <= limit {
        let entry = link - 1;
        marked += mark_entry(h, rows, columns, entry, value, words);
        limit = entry;
        link = index[FRONT + entry as usize];
    }
    marked
}

// Whether a value is in its slot of the values looked up before. It is there afterwards.
fn is_repeated(recent: &mut [u32], value: u32) -> bool
    requires { length recent.old ≡ 1024 }
    ensures { (result ≡ eqb (get_or recent.old (bucket_of 1024 value) 0) value) × (recent.new ≡ set recent.old (bucket_of 1024 value) value) }
{
    let slot = bucket_of(RECENT as u32, value);
    mem::replace(&mut recent[slot], value) == value
}

// Sets the bits of the live rows seen that the store lists under the values. Values found among the recent ones are not looked up
// again.
fn mark_values(
    h: Header,
    rows: &[u32],
    index: &[u32],
    columns: &[u32],
    values: &[u32],
    recent: &mut [u32],
    words: &mut [u64],
) -> u32
    requires { Lendable h rows.now columns.now index.now × (usable h columns.now index.now ≡ true) × (length words.old ≡ 1040) × Noted values.now 0 recent.old }
    ensures { ListedMarked h rows.now index.now columns.now values.now words.old words.new result }
{
    let mut marked: u32 = 0;
    for &value in values {
        if !is_repeated(recent, value) {
            marked += mark_chain(h, rows, index, columns, value, words);
        }
    }
    marked
}

// Sets the bits of the live rows seen that the store lists under the values. Returns how many were not set before. An empty slot of
// the recent values has a value of another slot: 0, which belongs to slot 0, and 1 in slot 0.
pub fn mark_listed(
    h: Header,
    rows: &[u32],
    index: &[u32],
    columns: &[u32],
    values: &[u32],
    words: &mut [u64],
) -> u32
    requires { Lendable h rows.now columns.now index.now × (usable h columns.now index.now ≡ true) × (length words.old ≡ 1040) }
    ensures { ListedMarked h rows.now index.now columns.now values.now words.old words.new result }
{
    let mut recent = [0u32; RECENT];
    recent[0] = 1;
    mark_values(h, rows, index, columns, values, &mut recent, words)
}
