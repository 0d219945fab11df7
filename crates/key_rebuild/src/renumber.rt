// Writes the rows' new numbers after a compaction to the key store, in place and slot by slot. Takes them from the compaction
// bitmap and hashes no key. Safe on any store: a word is validated before it is used as a row number.
ghost use Rattle.std.specs.Prelude.{◌≡◌, ◌+◌, ◌≤◌, ◌<◌, length};
ghost use Rattle.lists.specs.inner.Searching.{map_front};
ghost use Rattle.row_buffer.specs.Ranks.{bitmap_word};
ghost use Rattle.bitmap.specs.inner.Marking.{Spaced, other_at};
ghost use Rattle.key_index.specs.Slots.{slots};
ghost use Rattle.key_rebuild.specs.inner.Renumbering.{renumbered, Ranked, Block, BlockRenumbered};

use bitmap::word::{bits_of_different_cells, block};
use key_index::{IndexShape, MOST_ROWS, ROW_RANGE, names_row};
use row_buffer::BITMAP_WORD_BITS;

// A word with its row's new number and the same 15 hash bits.
fn renumber_word(t: IndexShape, word: u32, live: &[u64], base: &[u32]) -> u32
    requires { Ranked t live.now base.now }
    ensures { result ≡ renumbered t live.now base.now word }
{
    if !names_row(t, word) {
        return word;
    }
    let row = word % ROW_RANGE - 1;
    let at = (row / BITMAP_WORD_BITS) as usize;
    let first = base[at];
    if first > MOST_ROWS {
        return word;
    }
    word / ROW_RANGE * ROW_RANGE + (row_buffer::rank(live[at], first, row % BITMAP_WORD_BITS) + 1)
}

// Half the slots of a block. Their number is constant and their bits fit a slot's word, so that the test of them compiles to vector
// code.
const HALF: u32 = BITMAP_WORD_BITS / 2;

// The bitmap word of the taken slots of half a block.
fn half_bits(store: &[u32], from: usize) -> u32
    requires { from + 32 ≤ length store.now }
    ensures { result ≡ bitmap_word (other_at store.now from 1 0) 32 }
{
    let mut word: u32 = 0;
    for place in 0..HALF {
        let slot = store[from + place as usize];
        let bit = 1u32 << place;
        if slot != 0 {
            word += bit;
        }
    }
    word
}

// The bitmap word of the taken slots of a block.
fn taken_bits(store: &[u32], from: usize, count: u32) -> u64
    requires { Spaced store.now from 1 count }
    ensures { result ≡ bitmap_word (other_at store.now from 1 0) count }
{
    if count < 2 * HALF {
        return bits_of_different_cells(store, from, 1, count, 0);
    }
    let low = half_bits(store, from) as u64;
    let high = half_bits(store, from + HALF as usize) as u64;
    high * 0x1_0000_0000 + low
}

// Renumbers up to 64 slots; visits only those that are taken.
fn renumber_block(
    t: IndexShape,
    store: &mut [u32],
    from: u32,
    count: u32,
    live: &[u64],
    base: &[u32],
)
    requires { (Ranked t live.now base.now) × (Block store.old from count) }
    ensures { BlockRenumbered t live.now base.now store.old from count store.new }
{
    let mut word = taken_bits(store, from as usize, count);
    while word != 0 {
        let at = (from + u64::trailing_zeros(word)) as usize;
        word = word & (word - 1);
        store[at] = renumber_word(t, store[at], live, base);
    }
}

// Gives each row in the store its new number, in place, without reading its key.
pub fn renumber(t: IndexShape, store: &mut [u32], live: &[u64], base: &[u32])
    requires { (Ranked t live.now base.now) × (slots t ≤ length store.old) }
    ensures { store.new ≡ map_front (renumbered t live.now base.now) (slots t) store.old }
{
    let n = 2 * t.room;
    let mut at: u32 = 0;
    // No `for`: each turn goes on by a block, and the last block may be shorter.
    while at < n {
        let count = block(n - at);
        renumber_block(t, store, at, count, live, base);
        at += count;
    }
}
