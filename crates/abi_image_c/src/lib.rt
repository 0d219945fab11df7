// The functions of `abi_image`, exported to C. A slice is passed as a pointer and a length, a fixed array as a pointer alone.
#![tactic(auto)]

ghost use Rattle.refusals.specs.Refusals.{answer_view};
ghost use Rattle.table.specs.Outcomes.{body};
ghost use Rattle.image_spec.specs.Outcomes.{ImageSized, ImageWritten, ImageChecked, ImageRead, TextRead};
ghost use Rattle.abi.specs.Encoding.{decode_header, encode_header, encode_number, Answers};

// Stores how many words the image of a table has, with a text of so many bytes. Refuses with 1 or 21.
#[unsafe(no_mangle)]
pub extern "C" fn mouldgrey_image_size(header: &[u32; 12], text: usize, words: &mut [u64; 1]) -> u32
    ensures { Answers (λ answer. ImageSized (decode_header header.now) text answer) answer_view encode_number words.old result words.new }
{
    abi_image::mouldgrey_image_size(header, text, words)
}

// Writes the image of a table, with a text, at the start of `image`, and stores how many words it has. Refuses with 1, 2 or 21.
#[unsafe(no_mangle)]
pub extern "C" fn mouldgrey_write_image(
    header: &[u32; 12],
    rows: &[u32],
    sorts: &[u32],
    pending: &[u32],
    text: &[u8],
    image: &mut [u32],
    words: &mut [u64; 1],
) -> u32
    ensures { Answers (λ answer. ImageWritten (decode_header header.now) rows.now sorts.now pending.now text.now image.old answer image.new) answer_view encode_number words.old result words.new }
{
    abi_image::mouldgrey_write_image(header, rows, sorts, pending, text, image, words)
}

// Stores the header of an image. Refuses with 19 words that are no image, with 20 an image of a table that is not sound.
#[unsafe(no_mangle)]
pub extern "C" fn mouldgrey_check_image(image: &[u32], header: &mut [u32; 12]) -> u32
    ensures { Answers (λ answer. ImageChecked image.now answer) answer_view encode_header header.old result header.new }
{
    abi_image::mouldgrey_check_image(image, header)
}

// Writes the table of an image at the starts of the stores, with another capacity unless that is 0, and stores its header. Refuses with
// 19, 20, 1 or 2.
#[unsafe(no_mangle)]
pub extern "C" fn mouldgrey_read_image(
    image: &[u32],
    capacity: u32,
    header: &mut [u32; 12],
    rows: &mut [u32],
    keys: &mut [u32],
    sorts: &mut [u32],
    pending: &mut [u32],
) -> u32
    ensures { Answers (λ answer. ImageRead image.now capacity (body rows.old keys.old sorts.old) pending.old answer (body rows.new keys.new sorts.new) pending.new) answer_view encode_header header.old result header.new }
{
    abi_image::mouldgrey_read_image(image, capacity, header, rows, keys, sorts, pending)
}

// Writes the text of an image at the start of `text`, and stores how many bytes it has. Refuses with 19 or 2.
#[unsafe(no_mangle)]
pub extern "C" fn mouldgrey_read_image_text(
    image: &[u32],
    text: &mut [u8],
    bytes: &mut [u64; 1],
) -> u32
    ensures { Answers (λ answer. TextRead image.now text.old answer text.new) answer_view encode_number bytes.old result bytes.new }
{
    abi_image::mouldgrey_read_image_text(image, text, bytes)
}
