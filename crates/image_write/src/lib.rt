// Writes the image of a table, as defined in specs/Image.antt of `image_spec`.
#![tactic(auto)]

ghost use Rattle.std.specs.Prelude.{◌≡◌, false, ◌≤◌};
ghost use Rattle.refusals.specs.Refusals.{refusal_number};
ghost use Rattle.table.specs.Refusing.{outside};
ghost use Rattle.image_spec.specs.Image.{image_length};
ghost use Rattle.image_spec.specs.Outcomes.{ImageSized, write_refusal, ImageWritten};
ghost use Rattle.image_write.specs.inner.Parts.{size_refusal};

use image_spec::{FIXED_WORDS, LONGEST_TEXT};
use parts::{packed_length, write_body, write_checksum};
use refusals::Refusal;
use table::Header;
use table::refusing::{is_outside, is_pairs_short, is_pending_outside, is_rows_short};

mod parts; // parts.rt: the parts of an image, each written at its place in the output

// The longest text, in bytes, as a length.
const MOST_BYTES: usize = LONGEST_TEXT as usize;

// Returns how many words the image has, with a text of so many bytes.
fn image_length(h: Header, text: usize) -> usize
    requires { (outside h ≡ false) × (text ≤ 4096) }
    ensures { result ≡ image_length h text }
{
    let cells = h.rows as usize * h.columns as usize;
    FIXED_WORDS + packed_length(text) + cells + 2 * (h.entries as usize) + h.pending as usize
}

// The checks of *Image size*.
fn check_size(h: Header, text: usize) -> Result<(), Refusal>
    ensures { refusal_number result ≡ size_refusal h text }
{
    if is_outside(h) {
        return Err(Refusal::OutOfBounds);
    }
    if MOST_BYTES < text {
        return Err(Refusal::TextTooLong);
    }
    Ok(())
}

// The checks of *Write image*, over the lengths of what is lent.
fn check_write(
    h: Header,
    rows: usize,
    sorts: usize,
    pending: usize,
    text: usize,
    output: usize,
) -> Result<(), Refusal>
    ensures { refusal_number result ≡ write_refusal h rows sorts pending text output }
{
    if is_pending_outside(h, pending) {
        return Err(Refusal::OutOfBounds);
    }
    if is_rows_short(h, rows) {
        return Err(Refusal::TooShort);
    }
    if is_pairs_short(h, sorts) {
        return Err(Refusal::TooShort);
    }
    if MOST_BYTES < text {
        return Err(Refusal::TextTooLong);
    }
    if output < image_length(h, text) {
        return Err(Refusal::TooShort);
    }
    Ok(())
}

// Returns how many words the image of a table has, with a text of so many bytes. Refuses with 1 a header whose numbers are outside their
// bounds, with 21 a text that is too long.
pub fn image_size(h: Header, text: usize) -> Result<usize, Refusal>
    ensures { ImageSized h text result }
{
    check_size(h, text)?;
    Ok(image_length(h, text))
}

// Writes the image of a table at the start of the output, and returns how many words it has. Nothing behind it is changed. Refuses with 1
// a header whose numbers are outside their bounds, with 2 a store or an output that is too short, with 21 a text that is too long;
// then nothing is written.
pub fn write_image(
    h: Header,
    rows: &[u32],
    sorts: &[u32],
    pending: &[u32],
    text: &[u8],
    output: &mut [u32],
) -> Result<usize, Refusal>
    ensures { ImageWritten h rows.now sorts.now pending.now text.now output.old result output.new }
{
    check_write(
        h,
        rows.len(),
        sorts.len(),
        pending.len(),
        text.len(),
        output.len(),
    )?;
    let length = image_length(h, text.len());
    write_body(h, rows, sorts, pending, text, output);
    write_checksum(output, length - 1);
    Ok(length)
}
