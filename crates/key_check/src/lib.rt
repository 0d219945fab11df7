// The key store's part of the table's soundness check. A key store is sound, and live rows have different keys, exactly if as many
// slots are taken as rows are live, and each live row is reached from its key's home before a free slot and before another row with
// the key. So the words of slots are not tested one by one: a word of no live row would be one taken slot too many. Takes one pass
// over the slots and one over the rows. Safe on any store: a word is validated before it is used as a row number.
#![tactic(auto)]

ghost use Rattle.std.specs.Prelude.{◌≡◌, ◌≤◌, ◌<◌, length};
ghost use Rattle.sort_entries.specs.inner.Checks.{Decides};
ghost use Rattle.key_index.specs.inner.Index.{RowsIn, Fits};
ghost use Rattle.key_check.specs.inner.Check.{is_live_row, taken_count, Reached, Own, KeyStoreSound};

use key_index::{IndexShape, home_slot, slot_word};
use row_buffer::row_start;

// Whether a row is live.
fn row_live(t: IndexShape, rows: &[u32], row: u32) -> bool
    requires { RowsIn t rows.now × (row < t.rows) }
    ensures { result ≡ is_live_row t rows.now row }
{
    let from = row_start(row, t.columns);
    let to = from + t.columns as usize;
    constraints::is_live(&rows[from..to])
}

// How many of the first n slots are taken. The loop has no early return, so that it compiles to vector code. It counts by hand for
// the speed of the whole check, as the two loops below do: with `for`, rows far from their home slots took 1.6 times as long on one of
// two processors.
fn count_taken(n: u32, store: &[u32]) -> u32
    requires { n ≤ length store.now }
    ensures { result ≡ taken_count store.now n }
{
    let mut taken: u32 = 0;
    let mut slot: u32 = 0;
    while slot < n {
        let word = store[slot as usize];
        slot += 1;
        if 0 < word {
            taken += 1;
        }
    }
    taken
}

// Whether a scan from the home slot reaches the row's own word before a free slot and before another row with the key. Counts by
// hand for speed.
fn is_reached(t: IndexShape, rows: &[u32], store: &[u32], key: &[u32], hash: u32, row: u32) -> bool
    requires { (Fits t rows.now store.now) × (length key.now ≡ t.keys) × (row < t.rows) }
    ensures { Decides (Reached t rows.now store.now key.now hash row) result }
{
    let n = 2 * t.room;
    let own = slot_word(hash, row);
    let mut at = home_slot(n, hash);
    let mut passed: u32 = 0;
    while passed < n {
        let word = store[at as usize];
        if word == own {
            return true;
        }
        if word == 0 {
            return false;
        }
        if key_index::is_hit(t, rows, key, hash, word) {
            return false;
        }
        at = key_index::next_slot(n, at);
        passed += 1;
    }
    false
}

// Whether a row is reached from the home of its own key.
fn is_found(t: IndexShape, rows: &[u32], store: &[u32], row: u32) -> bool
    requires { (Fits t rows.now store.now) × (row < t.rows) }
    ensures { Decides (Own t rows.now store.now row) result }
{
    let from = row_start(row, t.columns);
    let to = from + t.keys as usize;
    let hash = cells::compact_hash(&rows[from..to]);
    is_reached(t, rows, store, &rows[from..to], hash, row)
}

// Whether a key store leads to exactly the live rows, and their keys differ. Counts by hand for speed.
pub fn key_store_sound(t: IndexShape, rows: &[u32], store: &[u32]) -> bool
    requires { Fits t rows.now store.now }
    ensures { Decides (KeyStoreSound t rows.now store.now) result }
{
    let mut live: u32 = 0;
    let mut row: u32 = 0;
    while row < t.rows {
        let this = row;
        row += 1;
        if row_live(t, rows, this) {
            if !is_found(t, rows, store, this) {
                return false;
            }
            live += 1;
        }
    }
    live == count_taken(2 * t.room, store)
}
