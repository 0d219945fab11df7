// The parts of an image, each written at its place in the output: the head, the text, the words of each store that are in use, and
// the checksum.
ghost use Rattle.std.specs.Prelude.{◌≡◌, ◌+◌, ◌*◌, ◌/◌, ◌≤◌, ◌<◌, length, take, get_or, set};
ghost use Rattle.lists.specs.Lists.{splice};
ghost use Rattle.crc32.specs.Crc.{crc32, bytes_of};
ghost use Rattle.image_spec.specs.Image.{packed, image_body, image_of};
ghost use Rattle.image_write.specs.inner.Parts.{image_head, store_words, words_in_use, Holds};

use abi::encode_header;
use crc32::crc_words;
use image_spec::{FORMAT, HEADER_AT, MAGIC, TEXT_AT, TEXT_LENGTH_AT, WORD_BYTES};
use row_buffer::write_row;
use table::Header;

// Returns how many words a text of so many bytes has.
pub fn packed_length(bytes: usize) -> usize
    requires { bytes ≤ 4096 }
    ensures { result ≡ (bytes + 3) / 4 }
{
    bytes.div_ceil(WORD_BYTES)
}

// Writes the words before the text: "MGTB", the format's number, the header, the text's length in bytes.
fn write_head(h: Header, text: usize, output: &mut [u32])
    requires { (text ≤ 4096) × (15 ≤ length output.old) }
    ensures { output.new ≡ splice output.old 0 (image_head h text) }
{
    let header = encode_header(h);
    output[0] = MAGIC;
    output[1] = FORMAT;
    write_row(output, HEADER_AT, &header);
    output[TEXT_LENGTH_AT] = text as u32;
}

// Returns a byte of the text, 0 behind its end.
fn byte_at(text: &[u8], at: usize) -> u8
    ensures { result ≡ get_or text.now at 0 }
{
    text.get(at).copied().unwrap_or(0)
}

// Returns a word of the text: four bytes, lowest first.
fn text_word(text: &[u8], word: usize) -> u32
    requires { 4 * word < length text.now }
    ensures { result ≡ get_or (packed text.now) word 0 }
{
    let at = WORD_BYTES * word;
    u32::from_le_bytes([
        byte_at(text, at),
        byte_at(text, at + 1),
        byte_at(text, at + 2),
        byte_at(text, at + 3),
    ])
}

// Writes the text.
fn write_text(text: &[u8], output: &mut [u32], at: usize)
    requires { (length text.now ≤ 4096) × (at + (length text.now + 3) / 4 ≤ length output.old) }
    ensures { output.new ≡ splice output.old at (packed text.now) }
{
    let words = packed_length(text.len());
    for (i, word) in output[at..at + words].iter_mut().enumerate() {
        *word = text_word(text, i);
    }
}

// Writes the first words of a store.
fn write_words(store: &[u32], count: usize, output: &mut [u32], at: usize)
    requires { (count ≤ length store.now) × (at + count ≤ length output.old) }
    ensures { output.new ≡ splice output.old at (take count store.now) }
{
    write_row(output, at, &store[..count]);
}

// Writes the words of the stores that are in use.
fn write_stores(
    h: Header,
    rows: &[u32],
    sorts: &[u32],
    pending: &[u32],
    output: &mut [u32],
    at: usize,
)
    requires { Holds h rows.now sorts.now pending.now × (at + words_in_use h ≤ length output.old) }
    ensures { output.new ≡ splice output.old at (store_words h rows.now sorts.now pending.now) }
{
    let cells = h.rows as usize * h.columns as usize;
    let pairs = 2 * (h.entries as usize);
    write_words(rows, cells, output, at);
    write_words(sorts, pairs, output, at + cells);
    write_words(pending, h.pending as usize, output, at + cells + pairs);
}

// Writes all words but the checksum.
pub fn write_body(
    h: Header,
    rows: &[u32],
    sorts: &[u32],
    pending: &[u32],
    text: &[u8],
    output: &mut [u32],
)
    requires { Holds h rows.now sorts.now pending.now × (length text.now ≤ 4096) × (15 + (length text.now + 3) / 4 + words_in_use h ≤ length output.old) }
    ensures { output.new ≡ splice output.old 0 (image_body (image_of h rows.now sorts.now pending.now text.now)) }
{
    let words = packed_length(text.len());
    write_head(h, text.len(), output);
    write_text(text, output, TEXT_AT);
    write_stores(h, rows, sorts, pending, output, TEXT_AT + words);
}

// Writes the checksum of the first words behind them.
pub fn write_checksum(output: &mut [u32], count: usize)
    requires { count < length output.old }
    ensures { output.new ≡ set output.old count (crc32 (bytes_of (take count output.old))) }
{
    let sum = crc_words(&output[..count]);
    output[count] = sum;
}
