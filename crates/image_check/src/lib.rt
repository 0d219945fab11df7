// Whether words are an image of a sound table. Is safe on any words: a word is tested before it is a length or a row.
#![tactic(auto)]

ghost use Rattle.std.specs.Prelude.{◌≤◌, length};
ghost use Rattle.image_spec.specs.Outcomes.{ImageChecked};
ghost use Rattle.image_check.specs.inner.Parsed.{IsAt};
ghost use Rattle.image_check.specs.inner.Decoding.{ContentsChecked, DecodingIs};

use parse::Layout;
use refusals::Refusal;
use table::Header;

pub mod parse; // parse.rt: whether words are an image, and where its parts are

// Two slots for each row of the largest table.
pub const MOST_SLOTS: usize = 131072;

// Whether the table of an image is sound. An image has no key store, so one is built in the slots; of a sound table it is sound.
fn is_contents_sound(words: &[u32], l: Layout, slots: &mut [u32]) -> bool
    requires { IsAt words.now l × (131072 ≤ length slots.old) }
    ensures { ContentsChecked words.now l result slots.new }
{
    let h = l.header;
    let rows = &words[l.rows..l.sorts];
    if !table_check::rows_sound(h, rows, &words[l.sorts..l.pending]) {
        return false;
    }
    if !key_rebuild::build_unique(table::index_shape(h), rows, slots) {
        return false;
    }
    table_check::pending_whole(h, &words[l.pending..l.end])
}

// The layout of the image that words are: refuses with 19 if they are none, with 20 if its table is not sound. Builds the table's key
// store in the slots.
pub fn decode(words: &[u32], slots: &mut [u32]) -> Result<Layout, Refusal>
    requires { 131072 ≤ length slots.old }
    ensures { DecodingIs words.now result slots.new }
{
    let l = parse::parse(words).ok_or(Refusal::NoImage)?;
    if !is_contents_sound(words, l, slots) {
        return Err(Refusal::UnsoundImage);
    }
    Ok(l)
}

// The header of an image: refuses with 19 if the words are no image, with 20 if its table is not sound.
pub fn check_image(words: &[u32]) -> Result<Header, Refusal>
    ensures { ImageChecked words.now result }
{
    let mut slots = [0u32; MOST_SLOTS];
    let l = decode(words, &mut slots)?;
    Ok(l.header)
}
