// Bitmap words of up to 64 positions each. A scan goes from one set bit to the next by the lowest set bit, so it has no
// unpredictable branch for each position.
ghost use Rattle.std.specs.Prelude.{◌≡◌, min};
ghost use Rattle.row_buffer.specs.Ranks.{bitmap_word};
ghost use Rattle.bitmap.specs.inner.Marking.{Spaced, other_at};

use row_buffer::BITMAP_WORD_BITS;

// The number of the remaining positions that the next word covers.
pub fn block(left: u32) -> u32
    ensures { result ≡ min 64 left }
{
    BITMAP_WORD_BITS.min(left)
}

// A bitmap word: the bits of the positions whose cell is different from `than`.
pub fn bits_of_different_cells(
    cells: &[u32],
    from: usize,
    stride: usize,
    count: u32,
    than: u32,
) -> u64
    requires { Spaced cells.now from stride count }
    ensures { result ≡ bitmap_word (other_at cells.now from stride than) count }
{
    let mut word: u64 = 0;
    let mut at = from;
    for bit in 0..count {
        let cell = cells[at];
        at += stride;
        if cell != than {
            word = row_buffer::set_bit(word, bit);
        }
    }
    word
}
