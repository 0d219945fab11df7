// Rows of cells, one after another in a lent store: the part of `RowBuffer` of row_buffer/mod.rs that a table uses, and the new
// numbers of rows in a compaction. `at`, `to` and `from` are positions of a row's first cell in the store. Each function on a store
// requires that the row is inside it.
#![tactic(auto)]

ghost use Rattle.std.specs.Prelude.{◌≡◌, ◌+◌, ◌*◌, ◌^◌, ◌≤◌, ◌<◌, ◌++◌, length, take, drop, get_or};
ghost use Rattle.lists.specs.Lists.{splice, same};
ghost use Rattle.cells.specs.Cells.{is_dead};
ghost use Rattle.row_buffer.specs.inner.Rows.{Staled};
ghost use Rattle.row_buffer.specs.Ranks.{set_below};

// The bits of a bitmap word, one for each of so many rows or slots; and its last bit. Adding the last before dividing by the number
// rounds up.
pub const BITMAP_WORD_BITS: u32 = 64;

pub const LAST_BIT: u32 = BITMAP_WORD_BITS - 1;

// The position of a row's first cell in a store of rows of this many columns.
pub fn row_start(row: u32, columns: u32) -> usize
    ensures { result ≡ row * columns }
{
    row as usize * columns as usize
}

// The row at `at` is dead.
pub fn is_dead(rows: &[u32], at: usize) -> bool
    requires { at < length rows.now }
    ensures { result ≡ is_dead (get_or rows.now at 0) }
{
    cells::is_stale(rows[at])
}

// Marks a row dead. Returns whether it was dead already, so that no row is counted as dead twice.
pub fn set_stale(rows: &mut [u32], at: usize) -> bool
    requires { at < length rows.old }
    ensures { Staled rows.old at result rows.new }
{
    let was = cells::is_stale(rows[at]);
    rows[at] = cells::STALE;
    was
}

// Copies a row to the start of a borrowed part of a store. Not by the library's copy: a call for each row is slower, and it needs
// memmove, which a caller in C need not have.
fn copy_row(part: &mut [u32], row: &[u32])
    requires { length row.now ≤ length part.old }
    ensures { part.new ≡ row.now ++ drop (length row.now) part.old }
{
    for i in 0..row.len() {
        part[i] = row[i];
    }
}

// Writes a row into the store.
pub fn write_row(rows: &mut [u32], at: usize, row: &[u32])
    requires { at + length row.now ≤ length rows.old }
    ensures { rows.new ≡ splice rows.old at row.now }
{
    copy_row(&mut rows[at..], row);
}

// Moves a row inside the borrowed part, from `gap` cells after its start to its start. Copies upwards, so each cell is read before
// it is overwritten.
fn move_row(part: &mut [u32], gap: usize, width: usize)
    requires { gap + width ≤ length part.old }
    ensures { part.new ≡ take width (drop gap part.old) ++ drop width part.old }
{
    for i in 0..width {
        part[i] = part[gap + i];
    }
}

// Moves a row down to a position at or below its own. Does nothing if the two are equal.
pub fn move_down(rows: &mut [u32], to: usize, from: usize, width: usize)
    requires { (to ≤ from) × (from + width ≤ length rows.old) }
    ensures { rows.new ≡ splice rows.old to (take width (drop from rows.old)) }
{
    if to == from {
        return;
    }
    let gap = from - to;
    move_row(&mut rows[to..], gap, width);
}

// The same cells in the same order. Not by the library's comparison: a call for each key is slower.
pub fn same_cells(a: &[u32], b: &[u32]) -> bool
    ensures { result ≡ same a.now b.now }
{
    if a.len() != b.len() {
        return false;
    }
    for i in 0..a.len() {
        if a[i] != b[i] {
            return false;
        }
    }
    true
}

// Whether the row at `at` begins with this key.
pub fn same_key(rows: &[u32], at: usize, key: &[u32]) -> bool
    requires { at + length key.now ≤ length rows.now }
    ensures { result ≡ same (take (length key.now) (drop at rows.now)) key.now }
{
    let end = at + key.len();
    same_cells(&rows[at..end], key)
}

// The new number of the row at `bit` of a bitmap word of live rows. `base` is the number of live rows before the word's first row.
pub fn rank(live: u64, base: u32, bit: u32) -> u32
    requires { (bit < 64) × (base ≤ 65536) }
    ensures { result ≡ base + set_below live bit }
{
    let below = live & ((1u64 << bit) - 1);
    base + u64::count_ones(below)
}

// Sets one more bit, above those that are set.
pub fn set_bit(word: u64, bit: u32) -> u64
    requires { (bit < 64) × (word < 2 ^ bit) }
    ensures { result ≡ word + 2 ^ bit }
{
    word | (1u64 << bit)
}
