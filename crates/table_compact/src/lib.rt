// Compaction: `rehash_impl` of table/mod.rs. One pass moves the live rows down, sets their bits in the compaction words and
// rebuilds the sort entries. A second pass writes the new row numbers to the key store, slot by slot and without hashing. If the
// remaining rows need fewer slots, the key store is rebuilt instead. If no row is dead, only the generation rises.
#![tactic(auto)]

ghost use Rattle.std.specs.Prelude.{◌≡◌, ◌<◌, ◌≤◌, length};
ghost use Rattle.key_index.specs.Slots.{slots};
ghost use Rattle.key_index.specs.inner.Index.{Fits};
ghost use Rattle.key_rebuild.specs.inner.Renumbering.{Ranked};
ghost use Rattle.table.specs.Sound.{index_shape_of};
ghost use Rattle.table.specs.Outcomes.{body, compaction_words, Compacting};
ghost use Rattle.table_compact.specs.inner.Compaction.{Lendable, KeysUpdated, next_generation, Compaction};
ghost use Rattle.table_compact.specs.inner.ClosingUp.{Keepable, RowKept, Block, BlockKept, Closable, Closed};

use refusals::Refusal;
use row_buffer::{BITMAP_WORD_BITS, row_start};
use table::refusing::check_compact;
use table::{Header, Lent, index_shape};

// The numbers of rows and of sort entries that a compaction has kept so far.
#[derive(Clone, Copy)]
pub struct KeptCounts {
    pub rows: u32,
    pub entries: u32,
}

// Moves a live row down and records it in the sort entries. Returns the number of sort entries.
fn keep_row(h: Header, rows: &mut [u32], sorts: &mut [u32], row: u32, kept: KeptCounts) -> u32
    requires { Keepable h rows.old sorts.old row kept }
    ensures { RowKept h rows.old sorts.old row kept result rows.new sorts.new }
{
    let to = row_start(kept.rows, h.columns);
    let from = row_start(row, h.columns);
    let width = h.columns as usize;
    row_buffer::move_down(rows, to, from, width);
    let cell = to + h.sort as usize;
    sort_entries::append_entry(sorts, kept.entries, rows[cell], kept.rows)
}

// Moves the live rows of a block down, in order. Their bits are set in `live`.
fn keep_block(
    h: Header,
    rows: &mut [u32],
    sorts: &mut [u32],
    first: u32,
    live: u64,
    before: KeptCounts,
) -> KeptCounts
    requires { Block h rows.old sorts.old first live before }
    ensures { BlockKept h rows.old sorts.old first live before result rows.new sorts.new }
{
    let mut kept = before;
    let mut word = live;
    while word != 0 {
        let row = first + u64::trailing_zeros(word);
        word = word & (word - 1);
        let entries = keep_row(h, rows, sorts, row, kept);
        kept.entries = entries;
        kept.rows += 1;
    }
    kept
}

// Moves all live rows down, in order, 64 at a time. For each 64 rows it first stores their bitmap word and the number of the next
// live row.
fn close_up(
    h: Header,
    rows: &mut [u32],
    sorts: &mut [u32],
    live: &mut [u64],
    base: &mut [u32],
) -> KeptCounts
    requires { Closable h rows.old sorts.old live.old base.old }
    ensures { Closed h rows.old sorts.old live.old base.old result rows.new sorts.new live.new base.new }
{
    let mut kept = KeptCounts {
        rows: 0,
        entries: 0,
    };
    let mut next: u32 = 0;
    // No `for`: each turn goes on by a block, and the last block may be shorter.
    while next < h.rows {
        let first = next;
        let count = bitmap::word::block(h.rows - first);
        next += count;
        let from = row_start(first, h.columns);
        let word = bitmap::word::bits_of_different_cells(
            rows,
            from,
            h.columns as usize,
            count,
            cells::STALE,
        );
        let at = (first / BITMAP_WORD_BITS) as usize;
        live[at] = word;
        base[at] = kept.rows;
        kept = keep_block(h, rows, sorts, first, word, kept);
    }
    kept
}

// Updates the key store for the remaining rows and header `n`: new row numbers in the same slots, or a rebuilt store if the rows
// need fewer slots.
fn update_keys(h: Header, n: Header, rows: &[u32], keys: &mut [u32], live: &[u64], base: &[u32])
    requires { (Ranked (index_shape_of h) live.now base.now) × (slots (index_shape_of h) ≤ length keys.old) × (Fits (index_shape_of n) rows.now keys.old) }
    ensures { KeysUpdated h n rows.now keys.old live.now base.now keys.new }
{
    let t = index_shape(h);
    let after = index_shape(n);
    if after.room != t.room {
        key_rebuild::rebuild(after, rows, keys);
        return;
    }
    key_rebuild::renumber::renumber(t, keys, live, base);
}

// Compacts a table whose header and stores have passed the tests.
pub fn compact_rows(
    h: Header,
    rows: &mut [u32],
    keys: &mut [u32],
    sorts: &mut [u32],
    live: &mut [u64],
    base: &mut [u32],
) -> Header
    requires { Lendable h rows.old keys.old sorts.old live.old base.old × (h.generation < 4294967295) }
    ensures { Compaction h rows.old keys.old sorts.old live.old base.old result rows.new keys.new sorts.new live.new base.new }
{
    let kept = close_up(h, rows, sorts, live, base);
    let mut n = h;
    n.rows = kept.rows;
    n.dead = 0;
    n.entries = kept.entries;
    n.generation = h.generation + 1;
    update_keys(h, n, rows, keys, live, base);
    n
}

// The header after a compaction of a table without dead rows.
fn next_generation(h: Header) -> Header
    requires { h.generation < 4294967295 }
    ensures { result ≡ next_generation h }
{
    let mut next = h;
    next.generation += 1;
    next
}

// Compacts, whether or not there are dead rows: `rehash`. Without dead rows, rows, key store and sort entries remain.
pub fn compact(
    h: Header,
    rows: &mut [u32],
    keys: &mut [u32],
    sorts: &mut [u32],
    live: &mut [u64],
    base: &mut [u32],
) -> Result<Header, Refusal>
    ensures { Compacting h (body rows.old keys.old sorts.old) (compaction_words live.old base.old) result (body rows.new keys.new sorts.new) (compaction_words live.new base.new) }
{
    let l = Lent {
        rows: rows.len(),
        keys: keys.len(),
        sorts: sorts.len(),
        pending: 0,
        live: live.len(),
        base: base.len(),
    };
    check_compact(h, l)?;
    if h.dead == 0 {
        return Ok(next_generation(h));
    }
    Ok(compact_rows(h, rows, keys, sorts, live, base))
}
