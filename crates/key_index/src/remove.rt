// Removes a row from the key store by backward-shift deletion. Each later word whose path from its home passes the hole moves back
// into it. So a freed slot is free at once, and there are no tombstones. Safe on any store: a word is validated before it is used
// as a row number.
ghost use Rattle.std.specs.Prelude.{◌≡◌, true, cond, ◌≤◌, ◌<◌};
ghost use Rattle.key_index.specs.Slots.{slots};
ghost use Rattle.key_index.specs.inner.Ring.{names_row, away};
ghost use Rattle.key_index.specs.inner.Index.{RowsIn, Fits, home_of};
ghost use Rattle.key_index.specs.inner.BackwardShift.{Shifted, RowRemoved};

use super::{IndexShape, ROW_RANGE, home_slot, names_row, next_slot};

// The cyclic distance from slot `from` to slot `to`.
fn slots_away(n: u32, from: u32, to: u32) -> u32
    requires { (from < n) × (to < n) × (n ≤ 131072) }
    ensures { result ≡ away n from to }
{
    if from <= to {
        return to - from;
    }
    to + n - from
}

// The distance from the home of the row in a word to slot `at`.
fn home_away(t: IndexShape, rows: &[u32], word: u32, at: u32) -> u32
    requires { (RowsIn t rows.now) × (names_row t word ≡ true) × (at < slots t) }
    ensures { result ≡ away (slots t) (home_of t rows.now word) at }
{
    let hash = super::row_hash(t, rows, word % ROW_RANGE - 1);
    let n = 2 * t.room;
    let home = home_slot(n, hash);
    slots_away(n, home, at)
}

// Branch-free select. The condition depends on a hash, so a branch would be unpredictable.
fn select(first: bool, a: u32, b: u32) -> u32
    ensures { result ≡ cond first a b }
{
    if first {
        return a;
    }
    b
}

// Moves back each word whose path passes the hole; the slot of a moved word is the new hole. Returns the last hole. Where a word
// does not move, the hole is rewritten with the word that it has.
fn close_hole(t: IndexShape, rows: &[u32], store: &mut [u32], slot: u32) -> u32
    requires { (Fits t rows.now store.old) × (slot < slots t) }
    ensures { Shifted t rows.now store.old slot result store.new }
{
    let n = 2 * t.room;
    let mut hole = slot;
    let mut held = store[slot as usize];
    let mut gap = 0;
    let mut at = slot;
    for _ in 0..n {
        at = next_slot(n, at);
        let word = store[at as usize];
        if !names_row(t, word) {
            return hole;
        }
        gap += 1;
        let moves = gap <= home_away(t, rows, word, at);
        held = select(moves, word, held);
        store[hole as usize] = held;
        hole = select(moves, at, hole);
        gap = select(moves, 0, gap);
    }
    hole
}

// Removes the row in a slot. The caller marks the row dead afterwards.
pub fn remove_row(t: IndexShape, rows: &[u32], store: &mut [u32], slot: u32)
    requires { (Fits t rows.now store.old) × (slot < slots t) }
    ensures { RowRemoved t rows.now store.old slot store.new }
{
    let hole = close_hole(t, rows, store, slot);
    store[hole as usize] = 0;
}
