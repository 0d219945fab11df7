// Images of tables, for C (`abi_image_c`). Each function returns 0 or the number of a refusal, and stores its answer only if it returns 0.
#![tactic(auto)]

ghost use Rattle.refusals.specs.Refusals.{answer_view};
ghost use Rattle.table.specs.Outcomes.{body};
ghost use Rattle.image_spec.specs.Outcomes.{ImageSized, ImageWritten, ImageChecked, ImageRead, TextRead};
ghost use Rattle.abi.specs.Encoding.{decode_header, encode_header, encode_number, Stored, Answers};

use abi::{decode_header, encode_header, store};
use image_check::check_image;
use image_read::{read_image, read_text};
use image_write::{image_size, write_image};
use refusals::{ACCEPTED, Refusal};

// Stores a length as one word of 64 bits.
fn store_length(answer: Result<usize, Refusal>, length: &mut [u64; 1]) -> u32
    ensures { Stored answer_view encode_number answer length.old result length.new }
{
    match answer {
        Err(refusal) => refusal.into(),
        Ok(counted) => {
            *length = [counted as u64];
            ACCEPTED
        }
    }
}

// Stores how many words the image of a table has, with a text of so many bytes. Refuses with 1 or 21.
pub fn mouldgrey_image_size(header: &[u32; 12], text: usize, words: &mut [u64; 1]) -> u32
    ensures { Answers (λ answer. ImageSized (decode_header header.now) text answer) answer_view encode_number words.old result words.new }
{
    let h = decode_header(header);
    let answer = image_size(h, text);
    store_length(answer, words)
}

// Writes the image of a table, with a text, at the start of `image`, and stores how many words it has. Refuses with 1, 2 or 21.
pub fn mouldgrey_write_image(
    header: &[u32; 12],
    rows: &[u32],
    sorts: &[u32],
    pending: &[u32],
    text: &[u8],
    image: &mut [u32],
    words: &mut [u64; 1],
) -> u32
    ensures { Answers (λ answer. ImageWritten (decode_header header.now) rows.now sorts.now pending.now text.now image.old answer image.new) answer_view encode_number words.old result words.new }
{
    let h = decode_header(header);
    let answer = write_image(h, rows, sorts, pending, text, image);
    store_length(answer, words)
}

// Stores the header of an image. Refuses with 19 words that are no image, with 20 an image of a table that is not sound.
pub fn mouldgrey_check_image(image: &[u32], header: &mut [u32; 12]) -> u32
    ensures { Answers (λ answer. ImageChecked image.now answer) answer_view encode_header header.old result header.new }
{
    let answer = check_image(image);
    store(answer, header, encode_header)
}

// Writes the table of an image at the starts of the stores, with another capacity unless that is 0, and stores its header. Refuses with
// 19, 20, 1 or 2.
pub fn mouldgrey_read_image(
    image: &[u32],
    capacity: u32,
    header: &mut [u32; 12],
    rows: &mut [u32],
    keys: &mut [u32],
    sorts: &mut [u32],
    pending: &mut [u32],
) -> u32
    ensures { Answers (λ answer. ImageRead image.now capacity (body rows.old keys.old sorts.old) pending.old answer (body rows.new keys.new sorts.new) pending.new) answer_view encode_header header.old result header.new }
{
    let answer = read_image(image, capacity, rows, keys, sorts, pending);
    store(answer, header, encode_header)
}

// Writes the text of an image at the start of `text`, and stores how many bytes it has. Refuses with 19 or 2.
pub fn mouldgrey_read_image_text(image: &[u32], text: &mut [u8], bytes: &mut [u64; 1]) -> u32
    ensures { Answers (λ answer. TextRead image.now text.old answer text.new) answer_view encode_number bytes.old result bytes.new }
{
    let answer = read_text(image, text);
    store_length(answer, bytes)
}
