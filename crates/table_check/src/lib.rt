// The soundness check: returns true exactly for sound stores. It takes time linear in slots, rows and pending words if the keys are
// spread over the slots as they should be. It is safe on any stores: a word is tested before it is used as a row number or a
// length.
#![tactic(auto)]

ghost use Rattle.std.specs.Prelude.{◌≡◌, ◌<◌, ◌≤◌, length};
ghost use Rattle.sort_entries.specs.inner.Search.{EntriesFit};
ghost use Rattle.sort_entries.specs.inner.Checks.{Decides, Cells};
ghost use Rattle.table.specs.Numbers.{opening_of};
ghost use Rattle.table.specs.Refusing.{sound_refusal};
ghost use Rattle.table.specs.Outcomes.{Checked};
ghost use Rattle.table_check.specs.inner.Checks.{dead_rows, last_kept, RowsSound, PendingIn, key_place, RecordRead, PendingWhole, SoundStores};

use refusals::Refusal;
use row_buffer::row_start;
use table::{HASH_AT, Header, Lent, RECORD_HEAD, REMOVE_ROW, ROW_RECORD_HEAD, refusing};

// The number of dead rows.
fn dead_rows(h: Header, rows: &[u32]) -> u32
    requires { Cells rows.now h.columns h.sort h.rows }
    ensures { result ≡ dead_rows h rows.now }
{
    let mut dead: u32 = 0;
    for row in 0..h.rows {
        let at = row_start(row, h.columns);
        if row_buffer::is_dead(rows, at) {
            dead += 1;
        }
    }
    dead
}

// Whether the value of the last sort entry is at most the largest value appended. If the entries rise, this holds for all entries.
fn largest_sound(h: Header, sorts: &[u32]) -> bool
    requires { EntriesFit sorts.now h.entries }
    ensures { result ≡ last_kept h sorts.now }
{
    if h.entries == 0 {
        return true;
    }
    let last = sorts[(2 * h.entries - 2) as usize];
    h.largest.is_some_and(|value| last <= value)
}

// Whether the dead count, the sort entries, the largest value and the live sort cells are sound.
pub fn rows_sound(h: Header, rows: &[u32], sorts: &[u32]) -> bool
    requires cells { Cells rows.now h.columns h.sort h.rows }
    requires entries_fit { EntriesFit sorts.now h.entries }
    ensures { Decides (RowsSound h rows.now sorts.now) result }
{
    if h.dead != dead_rows(h, rows) {
        return false;
    }
    if !sort_entries::entries_sound(sorts, h.entries, h.rows) {
        return false;
    }
    if !largest_sound(h, sorts) {
        return false;
    }
    sort_entries::sort_cells_sound(rows, h.columns, h.sort, h.rows, sorts, h.entries)
}

// The offset of the key in a record.
fn key_place(kind: u32) -> u32
    ensures { result ≡ key_place kind }
{
    if kind == REMOVE_ROW {
        return ROW_RECORD_HEAD;
    }
    RECORD_HEAD
}

// The number of words of the record at a place; 0 if there is no complete record.
fn record_words(h: Header, pending: &[u32], at: u32) -> u32
    requires { (PendingIn h pending.now) × (at < h.pending) }
    ensures { RecordRead (opening_of h) pending.now h.pending at result }
{
    let start = at as usize;
    let kind = pending[start];
    if REMOVE_ROW < kind {
        return 0;
    }
    let words = table::kind_words(h, kind);
    if h.pending - at < words {
        return 0;
    }
    let from = start + key_place(kind) as usize;
    let to = from + h.keys as usize;
    if pending[start + HASH_AT] != cells::compact_hash(&pending[from..to]) {
        return 0;
    }
    words
}

// Whether the pending words in use are complete records.
pub fn pending_whole(h: Header, pending: &[u32]) -> bool
    requires { PendingIn h pending.now }
    ensures { Decides (PendingWhole h pending.now) result }
{
    let mut at: u32 = 0;
    // No `for`: each turn goes on by the words of a record.
    while at < h.pending {
        let words = record_words(h, pending, at);
        if words == 0 {
            return false;
        }
        at += words;
    }
    true
}

// Whether a header and stores that passed tests 1 and 2 are sound.
fn stores_sound(h: Header, rows: &[u32], keys: &[u32], sorts: &[u32], pending: &[u32]) -> bool
    requires { sound_refusal h (length rows.now) (length keys.now) (length sorts.now) (length pending.now) ≡ 0 }
    ensures { Decides (SoundStores h rows.now keys.now sorts.now pending.now) result }
{
    if !rows_sound(h, rows, sorts) {
        return false;
    }
    let t = table::index_shape(h);
    if !key_check::key_store_sound(t, rows, keys) {
        return false;
    }
    pending_whole(h, pending)
}

pub fn is_sound(
    h: Header,
    rows: &[u32],
    keys: &[u32],
    sorts: &[u32],
    pending: &[u32],
) -> Result<bool, Refusal>
    ensures { Checked h rows.now keys.now sorts.now pending.now result }
{
    let lent = Lent {
        rows: rows.len(),
        keys: keys.len(),
        sorts: sorts.len(),
        pending: pending.len(),
        live: 0,
        base: 0,
    };
    refusing::check_sound(h, lent)?;
    Ok(stores_sound(h, rows, keys, sorts, pending))
}
