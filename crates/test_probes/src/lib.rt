// Single functions of the library under C names, to compare them with the Rust and to measure them alone. Not part of the shipped
// library.
#![tactic(auto)]

ghost use Rattle.std.specs.Prelude.{◌≡◌, [], ◌∷◌, ◌+◌, ◌≤◌, ◌<◌, length, take, drop, true};
ghost use Rattle.lists.specs.Lists.{splice};
ghost use Rattle.row_buffer.specs.Ranks.{set_below};
ghost use Rattle.cells.specs.Cells.{is_dead, compact_hash, probed, key_hash};
ghost use Rattle.constraints.specs.Constraints.{known, meets};
ghost use Rattle.merge_rules.specs.Rules.{changes_from, survivor};
ghost use Rattle.test_probes.specs.inner.Parts.{MadeInto, Survives, Sized};

use constraints::Constraint;
use key_index::{IndexShape, MOST_ROWS};
use row_buffer::{BITMAP_WORD_BITS, LAST_BIT};

#[unsafe(no_mangle)]
pub extern "C" fn mouldgrey_is_stale(first: u32) -> bool
    ensures { result ≡ is_dead first }
{
    cells::is_stale(first)
}

#[unsafe(no_mangle)]
pub extern "C" fn mouldgrey_from_full(full: u64) -> u32
    ensures { result ≡ compact_hash full }
{
    cells::from_full(full)
}

#[unsafe(no_mangle)]
pub extern "C" fn mouldgrey_probe(hash: u32) -> u64
    ensures { result ≡ probed hash }
{
    cells::probe(hash)
}

#[unsafe(no_mangle)]
pub extern "C" fn mouldgrey_key_hash(key: &[u32]) -> u64
    ensures { result ≡ key_hash key.now }
{
    cells::key_hash(key)
}

#[unsafe(no_mangle)]
pub extern "C" fn mouldgrey_compact_hash(key: &[u32]) -> u32
    ensures { result ≡ compact_hash (key_hash key.now) }
{
    cells::compact_hash(key)
}

#[unsafe(no_mangle)]
pub extern "C" fn mouldgrey_known(kind: u32, column: u32, value: u32, columns: u32) -> bool
    ensures { result ≡ known columns (record { kind = kind; column = column; value = value }) }
{
    constraints::known(
        Constraint {
            kind,
            column,
            value,
        },
        columns,
    )
}

#[unsafe(no_mangle)]
pub extern "C" fn mouldgrey_meets(kind: u32, column: u32, value: u32, row: &[u32]) -> bool
    ensures { result ≡ meets row.now (record { kind = kind; column = column; value = value } ∷ []) }
{
    constraints::meets(
        Constraint {
            kind,
            column,
            value,
        },
        row,
    )
}

#[unsafe(no_mangle)]
pub extern "C" fn mouldgrey_changes(
    rule: u32,
    keys: u32,
    sort: u32,
    old: &[u32],
    new: &[u32],
) -> bool
    ensures { result ≡ changes_from rule keys sort 0 old.now new.now }
{
    merge_rules::changes(rule, keys, sort, old, new)
}

// Writes the row that a rule makes of an old and a new row to the start of `out`. Returns false and does nothing if the rows differ
// in length or `out` is shorter.
#[unsafe(no_mangle)]
pub extern "C" fn mouldgrey_make(
    rule: u32,
    keys: u32,
    sort: u32,
    old: &[u32],
    new: &[u32],
    out: &mut [u32],
) -> bool
    ensures { MadeInto rule keys sort old.now new.now out.old result out.new }
{
    if old.len() != new.len() {
        return false;
    }
    if out.len() < old.len() {
        return false;
    }
    merge_rules::make(rule, keys, sort, old, new, out);
    true
}

// A live row's new number in a compaction; 0 past the limits of a word and a table.
#[unsafe(no_mangle)]
pub extern "C" fn mouldgrey_rank(live: u64, base: u32, bit: u32) -> u32
    ensures { bit < 64 → base ≤ 65536 → result ≡ base + set_below live bit }
{
    if BITMAP_WORD_BITS <= bit {
        return 0;
    }
    if MOST_ROWS < base {
        return 0;
    }
    row_buffer::rank(live, base, bit)
}

fn copy_survivor<'a>(
    rule: u32,
    keys: u32,
    sort: u32,
    width: usize,
    rows: &'a [u32],
    old: usize,
    pending: &'a [u32],
    new: usize,
    out: &mut [u32],
)
    requires { (old + width ≤ length rows.now) × (new + width ≤ length pending.now) × (width ≤ length out.old) × (rule ≤ 1) }
    ensures { out.new ≡ splice out.old 0 (survivor rule keys sort (take width (drop old rows.now)) (take width (drop new pending.now))) }
{
    let row = merge_rules::surviving_row(rule, keys, sort, width, rows, old, pending, new);
    row_buffer::write_row(out, 0, row);
}

// Copies the row that survives under rule 0 or 1 to the start of `out`. Returns false and does nothing under another rule, if a row
// is not within its store, or if `out` is shorter.
#[unsafe(no_mangle)]
pub extern "C" fn mouldgrey_surviving_row<'a>(
    rule: u32,
    keys: u32,
    sort: u32,
    width: usize,
    rows: &'a [u32],
    old: usize,
    pending: &'a [u32],
    new: usize,
    out: &mut [u32],
) -> bool
    ensures { Survives rule keys sort width rows.now old pending.now new out.old result out.new }
{
    if 1 < rule {
        return false;
    }
    if rows.len() < width {
        return false;
    }
    if rows.len() - width < old {
        return false;
    }
    if pending.len() < width {
        return false;
    }
    if pending.len() - width < new {
        return false;
    }
    if out.len() < width {
        return false;
    }
    copy_survivor(rule, keys, sort, width, rows, old, pending, new, out);
    true
}

// The answers if a table does not fit its stores, and if there is no such row.
pub const UNFIT: u64 = 0xffff_ffff_ffff_ffff;

pub const NONE: u64 = 0xffff_ffff_ffff_fffe;

// True if a table's numbers are within their bounds, and its stores are long enough.
fn fits(t: IndexShape, rows: usize, store: usize) -> bool
    ensures { result ≡ true → Sized t rows store }
{
    if t.columns < 1 {
        return false;
    }
    if 8 < t.columns {
        return false;
    }
    if t.keys < 1 {
        return false;
    }
    if t.columns < t.keys {
        return false;
    }
    if t.room < 1 {
        return false;
    }
    if MOST_ROWS < t.room {
        return false;
    }
    if t.room < t.rows {
        return false;
    }
    if rows < (t.room * t.columns) as usize {
        return false;
    }
    if store < (2 * t.room) as usize {
        return false;
    }
    true
}

// The row of a key plus its slot times 2 ^ 32, if there is one.
#[unsafe(no_mangle)]
pub extern "C" fn mouldgrey_find(
    columns: u32,
    keys: u32,
    room: u32,
    count: u32,
    rows: &[u32],
    store: &[u32],
    key: &[u32],
) -> u64 {
    let t = IndexShape {
        columns,
        keys,
        room,
        rows: count,
    };
    if !fits(t, rows.len(), store.len()) {
        return UNFIT;
    }
    if key.len() != keys as usize {
        return UNFIT;
    }
    let hash = cells::compact_hash(key);
    match key_index::look_up(t, rows, store, key, hash) {
        None => NONE,
        Some(hit) => hit.slot as u64 * 0x1_0000_0000 + hit.row as u64,
    }
}

// Adds a new row of a key. Returns 1, or 0 if no slot is free.
#[unsafe(no_mangle)]
pub extern "C" fn mouldgrey_put(room: u32, store: &mut [u32], key: &[u32], row: u32) -> u64 {
    if room < 1 {
        return UNFIT;
    }
    if MOST_ROWS < room {
        return UNFIT;
    }
    if store.len() < (2 * room) as usize {
        return UNFIT;
    }
    if 65535 < row {
        return UNFIT;
    }
    let t = IndexShape {
        columns: 1,
        keys: 1,
        room,
        rows: 0,
    };
    let hash = cells::compact_hash(key);
    if key_index::put(t, store, hash, row) {
        return 1;
    }
    0
}

// Replaces the row in the slot of a key by another row of that key.
#[unsafe(no_mangle)]
pub extern "C" fn mouldgrey_replace(store: &mut [u32], slot: u32, key: &[u32], row: u32) -> u64 {
    if store.len() <= slot as usize {
        return UNFIT;
    }
    if 65535 < row {
        return UNFIT;
    }
    let hash = cells::compact_hash(key);
    key_index::replace(store, slot, hash, row);
    1
}

// Frees the slot of a row that dies, by backward-shift deletion.
#[unsafe(no_mangle)]
pub extern "C" fn mouldgrey_take_out(
    columns: u32,
    keys: u32,
    room: u32,
    count: u32,
    rows: &[u32],
    store: &mut [u32],
    slot: u32,
) -> u64 {
    let t = IndexShape {
        columns,
        keys,
        room,
        rows: count,
    };
    if !fits(t, rows.len(), store.len()) {
        return UNFIT;
    }
    if 2 * room <= slot {
        return UNFIT;
    }
    key_index::remove::remove_row(t, rows, store, slot);
    1
}

// Writes to every slot its row's number after a compaction.
#[unsafe(no_mangle)]
pub extern "C" fn mouldgrey_renumber(
    room: u32,
    count: u32,
    store: &mut [u32],
    live: &[u64],
    base: &[u32],
) -> u64 {
    if room < count {
        return UNFIT;
    }
    if MOST_ROWS < room {
        return UNFIT;
    }
    if store.len() < (2 * room) as usize {
        return UNFIT;
    }
    let words = ((room + LAST_BIT) / BITMAP_WORD_BITS) as usize;
    if live.len() < words {
        return UNFIT;
    }
    if base.len() < words {
        return UNFIT;
    }
    let t = IndexShape {
        columns: 1,
        keys: 1,
        room,
        rows: count,
    };
    key_rebuild::renumber::renumber(t, store, live, base);
    1
}

// The fast range of a condition on the sort column: its end times 2 ^ 32 plus its start.
#[unsafe(no_mangle)]
pub extern "C" fn mouldgrey_fast_range(
    sorts: &[u32],
    entries: u32,
    rows: u32,
    kind: u32,
    value: u32,
) -> u64 {
    if MOST_ROWS < entries {
        return UNFIT;
    }
    if sorts.len() < (2 * entries) as usize {
        return UNFIT;
    }
    let range = sort_entries::fast_range(sorts, entries, rows, kind, value);
    range.end as u64 * 0x1_0000_0000 + range.start as u64
}
