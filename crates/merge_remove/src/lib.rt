// The removals of a merge, by key and by row: one removal, and all of a kind in staging order. A removed row is deleted from the
// key store and marked dead, once.
#![tactic(auto)]

ghost use Rattle.std.specs.Prelude.{◌≡◌, ◌<◌, length};
ghost use Rattle.key_index.specs.inner.Index.{Fits};
ghost use Rattle.key_index.specs.Slots.{slots};
ghost use Rattle.table.specs.inner.FullIndexShape.{full_index_shape_of};
ghost use Rattle.merge_remove.specs.inner.Removals.{Kills, died, removal_of, spared, Removal, RemovalAt, Removed, Removable, Removals, RemovalNext, RemovedNext};

use key_index::IndexShape;
use merge_pending::{next_record, record_length};
use row_buffer::row_start;
use table::{HASH_AT, Header, REMOVE_KEY, ROW_AT, index_shape};

// Deletes the row in a slot from the key store and marks it dead. Returns whether it was live.
fn kill(t: IndexShape, rows: &mut [u32], keys: &mut [u32], row: u32, slot: u32) -> bool
    requires { Fits t rows.old keys.old × (row < t.rows) × (slot < slots t) }
    ensures { Kills t rows.old keys.old row slot result rows.new keys.new }
{
    key_index::remove::remove_row(t, rows, keys, slot);
    let at = row_start(row, t.columns);
    !row_buffer::set_stale(rows, at)
}

// Whether a removal spares the row found by its key: a removal by row does if it names another row.
fn is_spared(kind: u32, row: u32, found: u32) -> bool
    ensures { result ≡ spared kind row found }
{
    kind != REMOVE_KEY && found != row
}

// Removes the live row of a key; if the removal names a row, only if it is that row. Returns whether a row died.
fn remove_one(
    h: Header,
    rows: &mut [u32],
    keys: &mut [u32],
    kind: u32,
    row: u32,
    key: &[u32],
    hash: u32,
) -> bool
    requires { Fits (full_index_shape_of h) rows.old keys.old × (length key.now ≡ h.keys) }
    ensures { Removal h rows.old keys.old (removal_of kind row key.now) hash result rows.new keys.new }
{
    let t = index_shape(h);
    let found = key_index::find_windowed(t, rows, keys, key, hash);
    match found {
        None => false,
        Some(hit) => {
            if is_spared(kind, row, hit.row) {
                return false;
            }
            kill(t, rows, keys, hit.row, hit.slot)
        }
    }
}

// Applies the removal at a place of the pending store, of kind 1 or 2. Its key is as many words behind
// the hash as its kind: in a removal by row the row is between them. Returns whether a row died.
fn remove_record(h: Header, rows: &mut [u32], keys: &mut [u32], pending: &[u32], at: u32) -> bool
    requires { Fits (full_index_shape_of h) rows.old keys.old × RemovalAt h pending.now at }
    ensures { Removed h rows.old keys.old pending.now at result rows.new keys.new }
{
    let place = at as usize;
    let kind = pending[place];
    let hash = pending[place + HASH_AT];
    let row = pending[place + ROW_AT];
    let from = place + HASH_AT + kind as usize;
    let to = from + h.keys as usize;
    remove_one(h, rows, keys, kind, row, &pending[from..to], hash)
}

// Applies the record at a place if it is a removal of this kind. Returns whether a row died.
fn remove_next(
    h: Header,
    rows: &mut [u32],
    keys: &mut [u32],
    pending: &[u32],
    at: u32,
    kind: u32,
) -> bool
    requires { RemovalNext h rows.old keys.old pending.now at kind }
    ensures { RemovedNext h rows.old keys.old pending.now at kind (died result) rows.new keys.new }
{
    if pending[at as usize] != kind {
        return false;
    }
    remove_record(h, rows, keys, pending, at)
}

// Applies all removals of a kind, in staging order. Runs of other records are skipped.
pub fn remove_all(
    h: Header,
    rows: &mut [u32],
    keys: &mut [u32],
    pending: &[u32],
    kind: u32,
) -> Header
    requires { Removable h rows.old keys.old pending.now kind }
    ensures { Removals h rows.old keys.old pending.now kind result rows.new keys.new }
{
    let mut dead = h.dead;
    let mut at: u32 = 0;
    // No `for`: the next record of this kind may lie behind others.
    while let Some(words) = record_length(h, pending, at) {
        let died = remove_next(h, rows, keys, pending, at, kind);
        dead += u32::from(died);
        at = next_record(h, pending, at, words, kind);
    }
    let mut n = h;
    n.dead = dead;
    n
}
