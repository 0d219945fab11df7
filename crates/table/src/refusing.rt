// The refusals of each operation, "on any numbers at all": one function for each list of checks of specs/Refusing.antt, over the
// header and the lengths of the lent stores. Each returns the first refusal that applies.
ghost use Rattle.std.specs.Prelude.{◌≡◌, false};
ghost use Rattle.refusals.specs.Refusals.{refusal_number};
ghost use Rattle.plain_table.specs.Staged.{openable};
ghost use Rattle.plain_table.specs.Plain.{below};
ghost use Rattle.plain_table.specs.Refusing.{stores_short, words_short, open_refusal};
ghost use Rattle.table.specs.Numbers.{opening_of, largest_view};
ghost use Rattle.table.specs.Refusing as rules;
ghost use Rattle.table.specs.inner.Bounds.{bounds_kept};
ghost use Rattle.table.specs.inner.Lent.{lengths_of};

use super::{Header, LAST_RULE, Lent, MOST_COLUMNS};
use constraints::Constraint;
use key_index::MOST_ROWS;
use refusals::Refusal;
use row_buffer::{BITMAP_WORD_BITS, LAST_BIT};

pub const LAST_GENERATION: u32 = 0xffff_ffff;

// The numbers of an opening other than the capacity are within their bounds.
pub fn keeps_bounds(columns: u32, keys: u32, sort: u32, rule: u32) -> bool
    ensures { result ≡ bounds_kept columns keys sort rule }
{
    if columns < 1 {
        return false;
    }
    if MOST_COLUMNS < columns {
        return false;
    }
    if keys < 1 {
        return false;
    }
    if columns < keys {
        return false;
    }
    if columns <= sort {
        return false;
    }
    rule <= LAST_RULE
}

// The numbers of an opening are within their bounds.
fn is_openable(h: Header) -> bool
    ensures { result ≡ openable (opening_of h) }
{
    if !keeps_bounds(h.columns, h.keys, h.sort, h.rule) {
        return false;
    }
    if h.capacity < 1 {
        return false;
    }
    h.capacity <= MOST_ROWS
}

// Test 1 without the pending store.
pub fn is_outside(h: Header) -> bool
    ensures { result ≡ rules.outside h }
{
    if !is_openable(h) {
        return true;
    }
    if h.capacity < h.rows {
        return true;
    }
    if h.rows < h.dead {
        return true;
    }
    h.rows < h.entries
}

// Test 1 with the pending store.
pub fn is_pending_outside(h: Header, pending: usize) -> bool
    ensures { result ≡ rules.pending_outside h pending }
{
    if is_outside(h) {
        return true;
    }
    pending < h.pending as usize
}

// Test 2 of the row store.
pub fn is_rows_short(h: Header, rows: usize) -> bool
    requires { rules.outside h ≡ false }
    ensures { result ≡ rules.rows_short h rows }
{
    let needed = h.capacity * h.columns;
    rows < needed as usize
}

// Test 2 of the key store or of the sort entries.
pub fn is_pairs_short(h: Header, store: usize) -> bool
    requires { rules.outside h ≡ false }
    ensures { result ≡ rules.pairs_short h store }
{
    let needed = 2 * h.capacity;
    store < needed as usize
}

// Test 2 of rows, keys and sort entries.
pub fn is_stores_short(h: Header, l: Lent) -> bool
    requires { rules.outside h ≡ false }
    ensures { result ≡ stores_short (opening_of h) (lengths_of l) }
{
    if is_rows_short(h, l.rows) {
        return true;
    }
    if is_pairs_short(h, l.keys) {
        return true;
    }
    is_pairs_short(h, l.sorts)
}

// Test 2 of the compaction words.
fn is_words_short(h: Header, l: Lent) -> bool
    requires { rules.outside h ≡ false }
    ensures { result ≡ words_short (opening_of h) (lengths_of l) }
{
    let needed = (h.capacity + LAST_BIT) / BITMAP_WORD_BITS;
    if l.live < needed as usize {
        return true;
    }
    l.base < needed as usize
}

// Whether a sort value is below the largest one appended.
pub fn is_old(h: Header, value: u32) -> bool
    ensures { result ≡ below value (largest_view h.largest) }
{
    h.largest.is_some_and(|last| value < last)
}

// *Open*, of a header with no rows.
pub fn check_open(h: Header, l: Lent) -> Result<(), Refusal>
    requires { (h.rows ≡ 0) × (h.dead ≡ 0) × (h.entries ≡ 0) }
    ensures { refusal_number result ≡ open_refusal (opening_of h) (lengths_of l) }
{
    if is_outside(h) {
        return Err(Refusal::OutOfBounds);
    }
    if !is_stores_short(h, l) {
        return Ok(());
    }
    Err(Refusal::TooShort)
}

// The soundness check.
pub fn check_sound(h: Header, l: Lent) -> Result<(), Refusal>
    ensures { refusal_number result ≡ rules.sound_refusal h l.rows l.keys l.sorts l.pending }
{
    if is_pending_outside(h, l.pending) {
        return Err(Refusal::OutOfBounds);
    }
    if is_stores_short(h, l) {
        return Err(Refusal::TooShort);
    }
    Ok(())
}

// *Merge*: the tests of the soundness check, then those of the compaction words.
pub fn check_merge(h: Header, l: Lent) -> Result<(), Refusal>
    ensures { refusal_number result ≡ rules.merge_refusal h (lengths_of l) }
{
    check_sound(h, l)?;
    if is_words_short(h, l) {
        return Err(Refusal::TooShort);
    }
    Ok(())
}

// *Compact*
pub fn check_compact(h: Header, l: Lent) -> Result<(), Refusal>
    ensures { refusal_number result ≡ rules.compact_refusal h (lengths_of l) }
{
    if is_outside(h) {
        return Err(Refusal::OutOfBounds);
    }
    if is_stores_short(h, l) {
        return Err(Refusal::TooShort);
    }
    if is_words_short(h, l) {
        return Err(Refusal::TooShort);
    }
    if h.generation == LAST_GENERATION {
        return Err(Refusal::LastGeneration);
    }
    Ok(())
}

// *Clear*
pub fn check_clear(h: Header, keys: usize) -> Result<(), Refusal>
    ensures { refusal_number result ≡ rules.clear_refusal h keys }
{
    if is_outside(h) {
        return Err(Refusal::OutOfBounds);
    }
    if is_pairs_short(h, keys) {
        return Err(Refusal::TooShort);
    }
    if h.generation != LAST_GENERATION {
        return Ok(());
    }
    if h.rows == 0 {
        return Ok(());
    }
    Err(Refusal::LastGeneration)
}

// *Key lookup*
pub fn check_lookup(h: Header, rows: usize, keys: usize, cells: usize) -> Result<(), Refusal>
    ensures { refusal_number result ≡ rules.lookup_refusal h rows keys cells }
{
    if is_outside(h) {
        return Err(Refusal::OutOfBounds);
    }
    if is_rows_short(h, rows) {
        return Err(Refusal::TooShort);
    }
    if is_pairs_short(h, keys) {
        return Err(Refusal::TooShort);
    }
    if cells != h.keys as usize {
        return Err(Refusal::WrongWidth);
    }
    Ok(())
}

// *One cell*
pub fn check_cell(
    h: Header,
    rows: usize,
    keys: usize,
    cells: usize,
    column: u32,
) -> Result<(), Refusal>
    ensures { refusal_number result ≡ rules.cell_refusal h rows keys cells column }
{
    check_lookup(h, rows, keys, cells)?;
    if h.columns <= column {
        return Err(Refusal::NoSuchColumn);
    }
    Ok(())
}

// *Fast range*
pub fn check_fast(h: Header, sorts: usize, c: Constraint) -> Result<(), Refusal>
    ensures { refusal_number result ≡ rules.fast_refusal h sorts c }
{
    if is_outside(h) {
        return Err(Refusal::OutOfBounds);
    }
    if is_pairs_short(h, sorts) {
        return Err(Refusal::TooShort);
    }
    if !constraints::known(c, h.columns) {
        return Err(Refusal::NoSuchColumn);
    }
    Ok(())
}

// *Version*
pub fn check_version(h: Header) -> Result<(), Refusal>
    ensures { refusal_number result ≡ rules.version_refusal h }
{
    if !is_outside(h) {
        return Ok(());
    }
    Err(Refusal::OutOfBounds)
}

// *The rows since a noted version*
pub fn check_noted(h: Header, generation: u32, count: u32) -> Result<(), Refusal>
    ensures { refusal_number result ≡ rules.noted_refusal h generation count }
{
    if is_outside(h) {
        return Err(Refusal::OutOfBounds);
    }
    if generation != h.generation {
        return Err(Refusal::OldNote);
    }
    if h.rows < count {
        return Err(Refusal::OldNote);
    }
    Ok(())
}

// *Rows since*
pub fn check_since(h: Header, row: u32) -> Result<(), Refusal>
    ensures { refusal_number result ≡ rules.since_refusal h row }
{
    if is_outside(h) {
        return Err(Refusal::OutOfBounds);
    }
    if h.rows < row {
        return Err(Refusal::PastTheRows);
    }
    Ok(())
}
