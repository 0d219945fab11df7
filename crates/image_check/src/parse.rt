// Parses an image of a table: whether words are one, and where its parts begin. Nothing here depends on whether the table is
// sound.
ghost use Rattle.std.specs.Prelude.{◌≡◌, false, ◌≤◌, length, drop};
ghost use Rattle.sort_entries.specs.inner.Checks.{Decides};
ghost use Rattle.table.specs.Refusing.{outside};
ghost use Rattle.image_check.specs.inner.Parsed.{header_in, layout_of, Placed, Marked, Filled, Measured, Whole, ParsedIs};

use abi::places;
use image_spec::{
    BYTE_RANGE, FIXED_WORDS, FORMAT, HEADER_AT, LONGEST_TEXT, MAGIC, TEXT_AT, TEXT_LENGTH_AT,
    THREE_BYTE_RANGE, TWO_BYTE_RANGE, WORD_BYTES,
};
use table::{Header, refusing};

// Where the largest sort value is, and whether there is one.
const LARGEST_FLAG_AT: usize = HEADER_AT + places::LARGEST_FLAG;

const LARGEST_VALUE_AT: usize = HEADER_AT + places::LARGEST_VALUE;

// The bytes of a word of the text, as an image has the text's length.
const TEXT_WORD_BYTES: u32 = WORD_BYTES as u32;

// The parts of an image: its header, its text's length in bytes, and where rows, sort entries and pending words begin. Each
// part ends where the next begins; the checksum is at `end`.
#[derive(Clone, Copy)]
pub struct Layout {
    pub header: Header,
    pub text: u32,
    pub rows: usize,
    pub sorts: usize,
    pub pending: usize,
    pub end: usize,
}

// Whether the magic number and the format are right, and the value beside a flag 0 is 0.
fn is_marked(words: &[u32]) -> bool
    requires { 16 ≤ length words.now }
    ensures { Decides (Marked words.now) result }
{
    if words[0] != MAGIC {
        return false;
    }
    if words[1] != FORMAT {
        return false;
    }
    if words[LARGEST_FLAG_AT] != 0 {
        return true;
    }
    words[LARGEST_VALUE_AT] == 0
}

// The header that words 2 to 13 encode.
fn header_in(words: &[u32]) -> Header
    requires { 16 ≤ length words.now }
    ensures { result ≡ header_in words.now }
{
    let mut encoded = [0u32; places::HEADER_WORDS];
    encoded.copy_from_slice(&words[HEADER_AT..TEXT_LENGTH_AT]);
    abi::decode_header(&encoded)
}

// The layout of an image with this header and a text of so many bytes.
fn layout_for(h: Header, text: u32) -> Layout
    requires { (outside h ≡ false) × (text ≤ 4096) }
    ensures { result ≡ layout_of h text }
{
    let rows = TEXT_AT + text.div_ceil(TEXT_WORD_BYTES) as usize;
    let sorts = rows + (h.rows * h.columns) as usize;
    let pending = sorts + (2 * h.entries) as usize;
    let end = pending + h.pending as usize;
    Layout {
        header: h,
        text,
        rows,
        sorts,
        pending,
        end,
    }
}

// Whether the text's last word is filled up with zeros.
fn is_filled(words: &[u32], text: u32) -> bool
    requires { Measured words.now text }
    ensures { Decides (Filled (drop 15 words.now) text) result }
{
    let over = text % TEXT_WORD_BYTES;
    if over == 0 {
        return true;
    }
    let last = words[TEXT_AT + (text / TEXT_WORD_BYTES) as usize];
    if over == 1 {
        return last < BYTE_RANGE;
    }
    if over == 2 {
        return last < TWO_BYTE_RANGE;
    }
    last < THREE_BYTE_RANGE
}

// Whether there are as many words as the layout has, the text's last word is filled up, and the checksum is right.
fn is_whole(words: &[u32], l: Layout) -> bool
    requires { (16 ≤ length words.now) × Placed l }
    ensures { Decides (Whole words.now l) result }
{
    let end = l.end;
    if words.len() - 1 != end {
        return false;
    }
    if !is_filled(words, l.text) {
        return false;
    }
    let checksum = crc32::crc_words(&words[..end]);
    words[end] == checksum
}

// The layout of the image that words are, if they are one.
pub fn parse(words: &[u32]) -> Option<Layout>
    ensures { ParsedIs words.now result }
{
    if words.len() < FIXED_WORDS {
        return None;
    }
    if !is_marked(words) {
        return None;
    }
    let h = header_in(words);
    if refusing::is_outside(h) {
        return None;
    }
    let text = words[TEXT_LENGTH_AT];
    if LONGEST_TEXT < text {
        return None;
    }
    let l = layout_for(h, text);
    if !is_whole(words, l) {
        return None;
    }
    Some(l)
}
