// The key index: table/sharded_hash_table.rs. Finds the one live row of a key. The slots in use are a ring with linear probing;
// specs/Slots.antt defines their number and contents. The table checks header and stores before it calls. Safety does not depend on
// the contents of a store: a row number is validated before its cells are read, and every scan ends after one round.
#![tactic(auto)]

ghost use Rattle.std.specs.Prelude.{◌≡◌, ℕ, ◌+◌, ◌-◌, ◌/◌, ◌%◌, ◌^◌, ◌≤◌, ◌<◌, true, false, length, get_or, set};
ghost use Rattle.cells.specs.Cells.{compact_hash, key_hash};
ghost use Rattle.key_index.specs.Slots.{key_at, size_class, size_class_for, slots, slot_from};
ghost use Rattle.key_index.specs.inner.Ring.{spread, tagged, names_row};
ghost use Rattle.key_index.specs.inner.Index.{SlotsFit, RowsIn, Fits, RowsFit, HitIs, FoundIs, PutIs, NewPutIs, EmptyIs};
ghost use Rattle.key_index.specs.inner.Window.{Ahead, FreeSoon, TakenRun, OtherRun};

use row_buffer::row_start;

pub mod remove; // remove.rt: a row removed by backward-shift deletion

// The parameters of a key index. `room` is the number of rows that the slots in use are sized for; there are twice as many slots. The
// rows and the store are no fields: a lookup borrows the store, an insertion lends it mutably, and one struct cannot hold both.
#[derive(Clone, Copy)]
pub struct IndexShape {
    pub columns: u32,
    pub keys: u32,
    pub room: u32,
    pub rows: u32,
}

// A row that a lookup finds, and its slot.
#[derive(Clone, Copy)]
pub struct Hit {
    pub row: u32,
    pub slot: u32,
}

// A slot's word: the row's number plus 1 in the low 17 bits, 15 bits of the hash above.
pub const ROW_RANGE: u32 = 0x2_0000;

const HASH_RANGE: u32 = 0x8000;

// The most rows that a table has.
pub const MOST_ROWS: u32 = 65536;

// The size classes below the largest, which is `MOST_ROWS`.
const FIRST_CLASS: u32 = 128;

const SECOND_CLASS: u32 = 512;

const THIRD_CLASS: u32 = 2048;

const FOURTH_CLASS: u32 = 8192;

// The size class for this many rows, regardless of the capacity. The largest class is tested first. Not a `find` over an array of
// the classes: tried, and the proof did not close.
fn size_class(rows: u32) -> u32
    ensures { result ≡ size_class rows }
{
    if FOURTH_CLASS < rows {
        return MOST_ROWS;
    }
    if THIRD_CLASS < rows {
        return FOURTH_CLASS;
    }
    if SECOND_CLASS < rows {
        return THIRD_CLASS;
    }
    if FIRST_CLASS < rows {
        return SECOND_CLASS;
    }
    FIRST_CLASS
}

// The number of rows that the slots in use are sized for. There are two slots for each.
pub fn size_class_for(capacity: u32, rows: u32) -> u32
    ensures { result ≡ size_class_for capacity rows }
{
    size_class(rows).min(capacity)
}

// The home slot of a hash: the hash is multiplied by the number of slots and divided by 2^32. So any number of slots works without
// a remainder operation.
pub fn home_slot(slots: u32, hash: u32) -> u32
    requires { 0 < slots }
    ensures value { result ≡ spread slots hash }
    ensures upper_bound { result < slots }
{
    (hash as u64 * slots as u64 / 0x1_0000_0000) as u32
}

pub fn slot_word(hash: u32, row: u32) -> u32
    requires { row < 65536 }
    ensures { result ≡ tagged hash row }
{
    hash % HASH_RANGE * ROW_RANGE + (row + 1)
}

// The hash of a row's key.
pub fn row_hash(t: IndexShape, rows: &[u32], row: u32) -> u32
    requires { (RowsIn t rows.now) × (row < t.rows) }
    ensures { result ≡ compact_hash (key_hash (key_at t rows.now row)) }
{
    let from = row_start(row, t.columns);
    let to = from + t.keys as usize;
    cells::compact_hash(&rows[from..to])
}

// The next slot, cyclically.
pub fn next_slot(slots: u32, at: u32) -> u32
    requires { at < slots }
    ensures value { result ≡ slot_from slots at 1 }
    ensures upper_bound { result < slots }
{
    let up = at + 1;
    if up < slots {
        return up;
    }
    0
}

// Whether a word has the number of a row of the table. In a sound store each word but 0 has one.
pub fn names_row(t: IndexShape, word: u32) -> bool
    ensures { result ≡ names_row t word }
{
    let number = word % ROW_RANGE;
    if number == 0 {
        return false;
    }
    number <= t.rows
}

// Whether a slot's word leads to a row with this key. The 15 hash bits are tested first: they rule out most other keys, whose rows
// are then not read.
pub fn is_hit(t: IndexShape, rows: &[u32], key: &[u32], hash: u32, word: u32) -> bool
    requires { (RowsIn t rows.now) × (length key.now ≡ t.keys) }
    ensures { HitIs t rows.now key.now hash word (word % 2 ^ 17 - 1) result }
{
    if word / ROW_RANGE != hash % HASH_RANGE {
        return false;
    }
    if !names_row(t, word) {
        return false;
    }
    let row = word % ROW_RANGE - 1;
    let at = row_start(row, t.columns);
    row_buffer::same_key(rows, at, key)
}

// The number of consecutive slots that are tested together. All of them are read, without an early return, so that the test compiles
// to vector code and has no unpredictable branch.
const WINDOW: usize = 8;

// The slots of a long window. The compiler unrolls a loop over so many slots only in part, so that `put` remains short enough to be
// inlined wherever it is called.
const LONG_WINDOW: usize = 64;

// A scan tries to skip whole windows each time it has passed this many slots. Most scans end before that.
const LONG_SCAN: u32 = 16;

// Whether one of a window's words passes a test.
fn some_word<F: Fn(u32) -> bool>(window: &[u32], test: &F) -> bool
    requires { F.IsAlwaysCallable test.now }
    ensures some { result ≡ true → (k : ℕ) × (k < length window.now) × F.post test.now (get_or window.now k 0) true }
    ensures none { result ≡ false → (k : ℕ) → k < length window.now → F.post test.now (get_or window.now k 0) false }
{
    let mut some = false;
    for word in window {
        some = some | test(*word);
    }
    some
}

// The number of slots from `from` on, in whole windows of N, of which none passes a test. They are before the end of the ring.
fn skip_windows<const N: usize, F: Fn(u32) -> bool>(
    slots: u32,
    store: &[u32],
    from: u32,
    test: F,
) -> u32
    requires window { 0 < N }
    requires callable { F.IsAlwaysCallable test }
    requires room { (from < slots) × (slots ≤ length store.now) }
    ensures below { from + result < slots }
    ensures each { (k : ℕ) → k < result → F.post test (get_or store.now (from + k) 0) false }
{
    let end = (slots - from) as usize;
    let mut run = 0;
    // No `for` over chunks: the last chunk must end before the ring does, so a range of starts is no plainer.
    while N < end - run {
        let at = from as usize + run;
        if some_word(&store[at..at + N], &test) {
            return run as u32;
        }
        run += N;
    }
    run as u32
}

// The number of slots from `from` on, in whole windows, of which none is free and none has these 15 bits. They are before the end of
// the ring. A key with these bits is in none of them.
fn skip_other_keys(slots: u32, store: &[u32], from: u32, bits: u32) -> u32
    requires { (from < slots) × (slots ≤ length store.now) }
    ensures { OtherRun slots store.now from bits result }
{
    skip_windows::<WINDOW, _>(slots, store, from, |word| {
        (word == 0) | (word / ROW_RANGE == bits)
    })
}

// The live row that has a key, and its slot. If FAR, the scan skips whole windows once it has passed many slots. `look_up` alone calls
// that one: a longer `find` would no longer be inlined beside it.
fn scan<const FAR: bool>(
    t: IndexShape,
    rows: &[u32],
    store: &[u32],
    key: &[u32],
    hash: u32,
) -> Option<Hit>
    requires { (Fits t rows.now store.now) × (length key.now ≡ t.keys) }
    ensures { FoundIs t rows.now store.now key.now hash result }
{
    let slots = 2 * t.room;
    let mut at = home_slot(slots, hash);
    let mut passed: u32 = 0;
    // No `for`: the count takes whole windows at once.
    while passed < slots {
        let word = store[at as usize];
        if word == 0 {
            return None;
        }
        if is_hit(t, rows, key, hash, word) {
            let row = word % ROW_RANGE - 1;
            return Some(Hit { row, slot: at });
        }
        at = next_slot(slots, at);
        passed += 1;
        if FAR && passed % LONG_SCAN == 0 {
            let run = skip_other_keys(slots, store, at, hash % HASH_RANGE);
            at += run;
            passed += run;
        }
    }
    None
}

// The live row that has a key, and its slot.
pub fn find(t: IndexShape, rows: &[u32], store: &[u32], key: &[u32], hash: u32) -> Option<Hit>
    requires { (Fits t rows.now store.now) × (length key.now ≡ t.keys) }
    ensures { FoundIs t rows.now store.now key.now hash result }
{
    scan::<false>(t, rows, store, key, hash)
}

// Whether a probe that fails at the home slot reaches a free slot before any other slot with the hash's bits. Decided from the home
// and the window after it. False if they do not decide it, or if the window would pass the end of the ring.
fn is_missing(slots: u32, store: &[u32], home: u32, hash: u32) -> bool
    requires { (home < slots) × (slots ≤ length store.now) }
    ensures { result ≡ true → (d : ℕ) × FreeSoon slots store.now home hash d }
{
    let at = home as usize;
    if (slots as usize) - at <= WINDOW {
        return false;
    }
    let window = &store[at + 1..at + 1 + WINDOW];
    let bits = hash % HASH_RANGE;
    if some_word(window, &|word| word / ROW_RANGE == bits) {
        return false;
    }
    if some_word(window, &|word| word == 0) {
        return true;
    }
    store[at] == 0
}

// Whether neither the home slot nor any slot after it, up to a free one, has the hash's bits. Decided from the home and the window
// after it. False if they do not decide it.
fn is_absent(slots: u32, store: &[u32], home: u32, hash: u32) -> bool
    requires { (home < slots) × (slots ≤ length store.now) }
    ensures { result ≡ true → (get_or store.now home 0 / 2 ^ 17 ≡ hash % 2 ^ 15 → ⊥) × ((d : ℕ) × FreeSoon slots store.now home hash d) }
{
    if store[home as usize] / ROW_RANGE == hash % HASH_RANGE {
        return false;
    }
    is_missing(slots, store, home, hash)
}

// Same contract as `find`, but faster for a key that has no row: a window detects most of them. Removals use it, where a row found
// costs more than its lookup. It is short enough to be inlined beside the one call of `look_up`.
pub fn find_windowed(
    t: IndexShape,
    rows: &[u32],
    store: &[u32],
    key: &[u32],
    hash: u32,
) -> Option<Hit>
    requires { (Fits t rows.now store.now) × (length key.now ≡ t.keys) }
    ensures { FoundIs t rows.now store.now key.now hash result }
{
    let slots = 2 * t.room;
    let home = home_slot(slots, hash);
    if is_absent(slots, store, home, hash) {
        return None;
    }
    find(t, rows, store, key, hash)
}

// The number of slots that a scan without branches tests.
const NEAR_SLOTS: u32 = 4;

const PAST_NEAR_SLOTS: u32 = NEAR_SLOTS + 1;

// The smallest distance from `start`, from FIRST on and below END, of a slot that passes a test; END if there is none. Scans from the
// last to the first, so that each step is a branch-free select. 0 if the slots would pass the end of the ring.
fn nearest<const FIRST: u32, const END: u32, F: Fn(u32) -> bool>(
    slots: u32,
    store: &[u32],
    start: u32,
    test: F,
) -> u32
    requires callable { F.IsAlwaysCallable test }
    requires room { (start < slots) × (slots ≤ length store.now) }
    ensures below { start + result < slots }
    ensures each { (k : ℕ) → FIRST ≤ k → k < result → F.post test (get_or store.now (start + k) 0) false }
{
    if slots - start <= END {
        return 0;
    }
    let mut near = END;
    for i in (FIRST..END).rev() {
        if test(store[(start + i) as usize]) {
            near = i;
        }
    }
    near
}

// The distance from the home to the next slot with the hash's bits, if it is one of the next four; otherwise 5. 0 if the slots would
// pass the end of the ring.
fn bits_ahead(slots: u32, store: &[u32], home: u32, hash: u32) -> u32
    requires { (home < slots) × (slots ≤ length store.now) }
    ensures { Ahead slots store.now home hash result }
{
    let bits = hash % HASH_RANGE;
    nearest::<1, PAST_NEAR_SLOTS, _>(slots, store, home, |word| word / ROW_RANGE == bits)
}

// Same contract as `find`, but faster. Most rows are in their key's home slot. A window detects most keys that have no row. Most
// other rows are in the next slot with their hash's bits. Otherwise falls back to the scan that skips windows. Call it once in a library object: it is
// long, and the compiler inlines it only where it is called once.
pub fn look_up(t: IndexShape, rows: &[u32], store: &[u32], key: &[u32], hash: u32) -> Option<Hit>
    requires { (Fits t rows.now store.now) × (length key.now ≡ t.keys) }
    ensures { FoundIs t rows.now store.now key.now hash result }
{
    let slots = 2 * t.room;
    let home = home_slot(slots, hash);
    let word = store[home as usize];
    if is_hit(t, rows, key, hash, word) {
        let row = word % ROW_RANGE - 1;
        return Some(Hit { row, slot: home });
    }
    if is_missing(slots, store, home, hash) {
        return None;
    }
    let slot = home + bits_ahead(slots, store, home, hash);
    let next = store[slot as usize];
    if is_hit(t, rows, key, hash, next) {
        let row = next % ROW_RANGE - 1;
        return Some(Hit { row, slot });
    }
    scan::<true>(t, rows, store, key, hash)
}

// The number of consecutive taken slots from `start` on, at most four. 0 if the four slots would pass the end of the ring.
fn taken_run(slots: u32, store: &[u32], start: u32) -> u32
    requires { (start < slots) × (slots ≤ length store.now) }
    ensures { TakenRun slots store.now start result }
{
    nearest::<0, NEAR_SLOTS, _>(slots, store, start, |word| word == 0)
}

// The number of slots from `from` on, in whole long windows, of which none is free. They are before the end of the ring.
fn skip_taken(slots: u32, store: &[u32], from: u32) -> u32
    requires { (from < slots) × (slots ≤ length store.now) }
    ensures { TakenRun slots store.now from result }
{
    skip_windows::<LONG_WINDOW, _>(slots, store, from, |word| word == 0)
}

// Writes a new row to the first free slot from its key's home on. Returns false, and writes nothing, if there is none.
pub fn put(t: IndexShape, store: &mut [u32], hash: u32, row: u32) -> bool
    requires { (SlotsFit t.room store.old) × (row < 65536) }
    ensures { PutIs (slots t) store.old hash row result store.new }
{
    let slots = 2 * t.room;
    let home = home_slot(slots, hash);
    let mut taken = taken_run(slots, store, home);
    let mut place = home + taken;
    // No `for`: the count takes whole windows at once.
    while taken < slots {
        if store[place as usize] == 0 {
            store[place as usize] = slot_word(hash, row);
            return true;
        }
        place = next_slot(slots, place);
        taken += 1;
        if taken % LONG_SCAN == 0 {
            let run = skip_taken(slots, store, place);
            place += run;
            taken += run;
        }
    }
    false
}

// Like `put`, but also reads the rows, so it is a loop of its own: `put` is inlined in hot loops, and must not test keys.
// Writes a new row to the first free slot from its key's home on, unless a slot before it leads to a row with the key. Returns false,
// and writes nothing, in that case, and if no slot is free.
pub fn put_new(
    t: IndexShape,
    rows: &[u32],
    store: &mut [u32],
    key: &[u32],
    hash: u32,
    row: u32,
) -> bool
    requires { (RowsFit t rows.now store.old) × (length key.now ≡ t.keys) × (row < 65536) }
    ensures { NewPutIs t rows.now store.old key.now hash row result store.new }
{
    let slots = 2 * t.room;
    let mut at = home_slot(slots, hash);
    let mut passed: u32 = 0;
    // No `for`: the count takes whole windows at once.
    while passed < slots {
        let word = store[at as usize];
        if word == 0 {
            store[at as usize] = slot_word(hash, row);
            return true;
        }
        if is_hit(t, rows, key, hash, word) {
            return false;
        }
        at = next_slot(slots, at);
        passed += 1;
        if passed % LONG_SCAN == 0 {
            let run = skip_other_keys(slots, store, at, hash % HASH_RANGE);
            at += run;
            passed += run;
        }
    }
    false
}

// Writes another row's number to the slot of a known key.
pub fn replace(store: &mut [u32], slot: u32, hash: u32, row: u32)
    requires { (slot < length store.old) × (row < 65536) }
    ensures { store.new ≡ set store.old slot (tagged hash row) }
{
    store[slot as usize] = slot_word(hash, row);
}

// Frees every slot.
pub fn empty(room: u32, store: &mut [u32])
    requires { SlotsFit room store.old }
    ensures { EmptyIs room store.old store.new }
{
    store[..(2 * room) as usize].fill(0);
}
