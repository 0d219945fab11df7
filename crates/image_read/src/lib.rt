// Reads the table or the text of an image into lent stores. A refusal changes nothing.
#![tactic(auto)]

ghost use Rattle.std.specs.Prelude.{◌≡◌, ◌+◌, ◌≤◌, ◌<◌, length, take, drop, get_or};
ghost use Rattle.lists.specs.Lists.{splice};
ghost use Rattle.refusals.specs.Refusals.{refusal_number};
ghost use Rattle.crc32.specs.Crc.{bytes_of};
ghost use Rattle.key_index.specs.inner.Index.{Fits};
ghost use Rattle.key_rebuild.specs.inner.Rebuilding.{Rebuilt};
ghost use Rattle.table.specs.inner.Lent.{lengths_of};
ghost use Rattle.table.specs.Outcomes.{body};
ghost use Rattle.image_spec.specs.Outcomes.{with_capacity, ImageRead, TextRead};
ghost use Rattle.image_check.specs.inner.Parsed.{part, IsAt};
ghost use Rattle.image_check.specs.inner.Decoding.{SlotsBuilt};
ghost use Rattle.image_read.specs.inner.Loading.{load_refusal, PartsFit, PartsWritten, Built, Loading, TextIn};

use image_check::MOST_SLOTS;
use image_check::parse::{self, Layout};
use image_spec::{TEXT_AT, WORD_BYTES};
use key_index::IndexShape;
use refusals::Refusal;
use table::{Header, Lent, refusing};

// ---- the table

// The header with another capacity, unless that is 0.
fn with_capacity(h: Header, capacity: u32) -> Header
    ensures { result ≡ with_capacity h capacity }
{
    if capacity == 0 {
        return h;
    }
    Header { capacity, ..h }
}

// The checks of a header and of the lengths of the lent stores, before an image is loaded.
fn check_load(h: Header, l: Lent) -> Result<(), Refusal>
    ensures { refusal_number result ≡ load_refusal h (lengths_of l) }
{
    if refusing::is_outside(h) {
        return Err(Refusal::OutOfBounds);
    }
    if refusing::is_stores_short(h, l) {
        return Err(Refusal::TooShort);
    }
    if l.pending < h.pending as usize {
        return Err(Refusal::TooShort);
    }
    Ok(())
}

// Writes the words from one place to another at the start of a store.
fn write_part(words: &[u32], from: usize, to: usize, store: &mut [u32])
    requires { (from ≤ to) × (to ≤ length words.now) × (to ≤ from + length store.old) }
    ensures { store.new ≡ splice store.old 0 (part words.now from to) }
{
    row_buffer::write_row(store, 0, &words[from..to]);
}

// Writes an image's rows, sort entries and pending words at the starts of their stores.
fn write_parts(words: &[u32], l: Layout, rows: &mut [u32], sorts: &mut [u32], pending: &mut [u32])
    requires { PartsFit words.now l (length rows.old) (length sorts.old) (length pending.old) }
    ensures { PartsWritten words.now l rows.old sorts.old pending.old rows.new sorts.new pending.new }
{
    write_part(words, l.rows, l.sorts, rows);
    write_part(words, l.sorts, l.pending, sorts);
    write_part(words, l.pending, l.end, pending);
}

// Writes a key store for the rows. The slots were built for the same rows and this capacity: they are copied if as many are in use.
fn write_keys(t: IndexShape, capacity: u32, slots: &[u32], rows: &[u32], keys: &mut [u32])
    requires { Fits t rows.now keys.old × Built t capacity rows.now slots.now }
    ensures { Rebuilt t rows.now keys.old keys.new }
{
    let room = key_index::size_class_for(capacity, t.rows);
    if t.room != room {
        key_rebuild::rebuild(t, rows, keys);
        return;
    }
    let count = (2 * room) as usize;
    write_part(slots, 0, count, keys);
}

// Loads an image's table, whose key store is in the slots.
fn load(
    words: &[u32],
    l: Layout,
    slots: &[u32],
    capacity: u32,
    rows: &mut [u32],
    keys: &mut [u32],
    sorts: &mut [u32],
    pending: &mut [u32],
) -> Result<Header, Refusal>
    requires { IsAt words.now l × SlotsBuilt words.now l slots.now × (131072 ≤ length slots.now) }
    ensures { Loading words.now l capacity (body rows.old keys.old sorts.old) pending.old result (body rows.new keys.new sorts.new) pending.new }
{
    let h = l.header;
    let n = with_capacity(h, capacity);
    let lent = Lent {
        rows: rows.len(),
        keys: keys.len(),
        sorts: sorts.len(),
        pending: pending.len(),
        live: 0,
        base: 0,
    };
    check_load(n, lent)?;
    write_parts(words, l, rows, sorts, pending);
    write_keys(table::index_shape(n), h.capacity, slots, rows, keys);
    Ok(n)
}

// Loads the table of an image into lent stores, with another capacity unless that is 0. Refuses with 19, 20, 1 or 2.
pub fn read_image(
    words: &[u32],
    capacity: u32,
    rows: &mut [u32],
    keys: &mut [u32],
    sorts: &mut [u32],
    pending: &mut [u32],
) -> Result<Header, Refusal>
    ensures { ImageRead words.now capacity (body rows.old keys.old sorts.old) pending.old result (body rows.new keys.new sorts.new) pending.new }
{
    let mut slots = [0u32; MOST_SLOTS];
    let l = image_check::decode(words, &mut slots)?;
    load(words, l, &slots, capacity, rows, keys, sorts, pending)
}

// ---- the text

// A byte of an image's text.
fn byte_at(words: &[u32], i: usize) -> u8
    requires { TextIn words.now (i + 1) }
    ensures { result ≡ get_or (bytes_of (drop 15 words.now)) i 0 }
{
    words[TEXT_AT + i / WORD_BYTES].to_le_bytes()[i % WORD_BYTES]
}

// Writes the first `count` bytes of an image's text at the start of the output.
fn write_text(words: &[u32], count: usize, output: &mut [u8])
    requires { TextIn words.now count × (count ≤ length output.old) }
    ensures { output.new ≡ splice output.old 0 (take count (bytes_of (drop 15 words.now))) }
{
    for (i, byte) in output[..count].iter_mut().enumerate() {
        *byte = byte_at(words, i);
    }
}

// Writes the text of an image, in bytes, at the start of the output. Refuses with 19 or 2.
pub fn read_text(words: &[u32], output: &mut [u8]) -> Result<usize, Refusal>
    ensures { TextRead words.now output.old result output.new }
{
    let l = parse::parse(words).ok_or(Refusal::NoImage)?;
    let count = l.text as usize;
    if output.len() < count {
        return Err(Refusal::TooShort);
    }
    write_text(words, count, output);
    Ok(count)
}
