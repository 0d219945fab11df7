// A bitmap of rows, 64 to a word, and a summary of its words, so that a pass over it skips words without a row. It visits the set
// rows in rising order.
#![tactic(auto)]

ghost use Rattle.std.specs.Prelude.{◌≡◌, ◌<◌, length};
ghost use Rattle.bitmap.specs.inner.Bitmaps.{MarkedOne};

use row_buffer::BITMAP_WORD_BITS;

pub mod word; // word.rt: the marks of up to 64 places in one word

// The number of words for the maximal number of rows of a table. They are followed by the summary, one bit for each of them.
pub const ROW_WORDS: usize = 1024;

pub const WORDS: usize = 1040;

// A word of the summary has a bit for each of so many words.
const SUMMARY_WORD_BITS: usize = BITMAP_WORD_BITS as usize;

// Sets a row's bit. Returns 1 if it was not set before, else 0.
pub fn mark(words: &mut [u64], row: u32) -> u32
    requires { (length words.old ≡ 1040) × (row < 65536) }
    ensures { MarkedOne words.old row words.new result }
{
    let at = (row / BITMAP_WORD_BITS) as usize;
    let bit = 1u64 << (row % BITMAP_WORD_BITS);
    let word = words[at];
    let over = ROW_WORDS + at / SUMMARY_WORD_BITS;
    let flags = words[over];
    words[at] = word | bit;
    words[over] = flags | (1u64 << (row / BITMAP_WORD_BITS % BITMAP_WORD_BITS));
    if word & bit == 0 {
        return 1;
    }
    0
}
