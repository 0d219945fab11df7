// Reads a listing's text, into the head's numbers and the rows' cells in order, or into the text of the other form. Each function scans
// the whole text first and computes the length of its output, so that nothing is written if it is refused.
#![tactic(auto)]

ghost use Rattle.std.specs.Prelude.{◌≡◌, true, false, not, ◌&&◌, ◌≤◌, ◌<◌, ◌+◌, length, take, map, ltb, eqb};
ghost use Rattle.lists.specs.Lists.{splice, flatten, iota};
ghost use Rattle.listing_spec.specs.Listings.{ListingRead, listing_view, numbered_view, head_letter, prefix_width, converted_text, ListingConverted};
ghost use Rattle.listing_parse.specs.inner.Surveys.{Listed};
ghost use Rattle.listing_parse.specs.Laws.Steps.{rows_from, ValidRows};
ghost use Rattle.listing_read.specs.inner.ReadResults.{read_view};
ghost use Rattle.std.proofs.Math.Option.{some};
ghost use Rattle.levels_text.specs.Written.{field, text_line};
ghost use Rattle.levels_text.specs.inner.Appending.{Appended};
ghost use Rattle.listing_spec.specs.inner.Checking.{listing_in};
ghost use Rattle.listing_spec.specs.Laws.Conversions.{fields_length};
ghost use Rattle.listing_read.specs.inner.Converting.{converted_row, converted_from, converted_head, converted_length};

use levels_text::write::{number_length, put_line, put_numbered};
use listing_parse::{MOST_FIELDS, Survey, reread_line, row_width, scan_text};
use listing_spec::{ListingHead, NumberedHead};
use refusals::Refusal;

// Writes the numbers of each D line in order.
fn write_rows(numbered: bool, columns: usize, text: &[u8], start: usize, output: &mut [u32])
    requires columns_bound { columns ≤ 8 }
    requires start_in_bounds { start ≤ length text.now }
    requires valid_rows { ValidRows numbered columns text.now start }
    requires start_in_bounds_2 { length (flatten (rows_from text.now start)) ≤ length output.old }
    ensures { output.new ≡ splice output.old 0 (flatten (rows_from text.now start)) }
{
    let width = row_width(numbered, columns);
    let mut at = start;
    let mut used = 0;
    while at < text.len() {
        at = reread_line(text, at, width, &mut output[used..]);
        used += width;
    }
}

// Reads a text that is of the form.
fn read_found(numbered: bool, s: Survey, text: &[u8], output: &mut [u32]) -> Result<Survey, Refusal>
    requires { Listed numbered text.now s }
    ensures { ListingRead numbered text.now output.old (read_view numbered result) output.new }
{
    let columns = s.columns as usize;
    let rows = s.rows as usize;
    let width = row_width(numbered, columns);
    if output.len() < rows * width {
        return Err(Refusal::TooShort);
    }
    write_rows(numbered, columns, text, s.start, output);
    Ok(s)
}

fn read(numbered: bool, text: &[u8], output: &mut [u32]) -> Result<Survey, Refusal>
    ensures { ListingRead numbered text.now output.old (read_view numbered result) output.new }
{
    let s = scan_text(numbered, text);
    if !s.is_listing {
        return Err(Refusal::NoListing);
    }
    read_found(numbered, s, text, output)
}

// Reads a listing in the old form.
pub fn read_listing(text: &[u8], output: &mut [u32]) -> Result<ListingHead, Refusal>
    ensures { ListingRead false text.now output.old (listing_view result) output.new }
{
    let s = read(false, text, output)?;
    Ok(ListingHead {
        columns: s.columns,
        keys: s.keys,
        sort: s.sort,
        rule: s.rule,
        generation: s.generation,
        listed: s.rows,
    })
}

// Reads a listing in the new form.
pub fn read_numbered(text: &[u8], output: &mut [u32]) -> Result<NumberedHead, Refusal>
    ensures { ListingRead true text.now output.old (numbered_view result) output.new }
{
    let s = read(true, text, output)?;
    Ok(NumberedHead {
        columns: s.columns,
        keys: s.keys,
        sort: s.sort,
        rule: s.rule,
        generation: s.generation,
        count: s.count,
        listed: s.rows,
    })
}

// The bytes that all numbers below a count take as fields.
fn numbers_length(count: u32) -> usize
    requires { count ≤ 65536 }
    ensures { result ≡ length (flatten (map field (iota 0 count))) }
{
    let mut total = 0;
    for number in 0..count {
        total += number_length(number);
    }
    total
}

// Writes a D line in the other form: without its number, or with `number` before its cells.
fn convert_row(
    numbered: bool,
    columns: usize,
    number: u32,
    numbers: &[u32],
    output: &mut [u8],
    used: usize,
) -> usize
    requires columns_bound { columns ≤ 8 }
    requires columns_in_bounds { prefix_width numbered + columns ≤ length numbers.now }
    requires numbers_in_bounds { used + length (text_line 68 (converted_row numbered number (take (prefix_width numbered + columns) numbers.now))) ≤ length output.old }
    ensures { Appended output.old used (text_line 68 (converted_row numbered number (take (prefix_width numbered + columns) numbers.now))) output.new result }
{
    if numbered {
        return put_line(output, used, b'D', &numbers[1..columns + 1]);
    }
    put_numbered(output, used, b'D', number, &numbers[..columns])
}

// Writes the D lines in the other form.
fn convert_rows(
    numbered: bool,
    columns: usize,
    text: &[u8],
    start: usize,
    numbers: &mut [u32],
    output: &mut [u8],
    used: usize,
) -> usize
    requires columns_bound { columns ≤ 8 }
    requires start_in_bounds { start ≤ length text.now }
    requires in_bounds { 9 ≤ length numbers.old }
    requires valid_rows { ValidRows numbered columns text.now start }
    requires start_len_bound { length (rows_from text.now start) ≤ 65536 }
    requires start_in_bounds_2 { used + length (flatten (map (text_line 68) (converted_from numbered 0 (rows_from text.now start)))) ≤ length output.old }
    ensures { Appended output.old used (flatten (map (text_line 68) (converted_from numbered 0 (rows_from text.now start)))) output.new result }
{
    let width = row_width(numbered, columns);
    let mut end = used;
    let mut number = 0;
    let mut at = start;
    while at < text.len() {
        at = reread_line(text, at, width, numbers);
        end = convert_row(numbered, columns, number, numbers, output, end);
        number += 1;
    }
    end
}

// Writes the head line in the other form.
fn convert_head(numbered: bool, s: Survey, output: &mut [u8]) -> usize
    requires { length (text_line (head_letter (not numbered)) (converted_head numbered s)) ≤ length output.old }
    ensures { Appended output.old 0 (text_line (head_letter (not numbered)) (converted_head numbered s)) output.new result }
{
    if numbered {
        let head = [s.columns, s.keys, s.sort, s.rule, s.generation];
        return put_line(output, 0, b'T', &head);
    }
    let head = [s.columns, s.keys, s.sort, s.rule, s.generation, s.rows];
    put_line(output, 0, b'U', &head)
}

// Writes the whole text in the other form.
fn write_converted(numbered: bool, s: Survey, text: &[u8], output: &mut [u8]) -> usize
    requires listed { Listed numbered text.now s }
    requires text_in_bounds { length (converted_text numbered (some (listing_in text.now))) ≤ length output.old }
    ensures { Appended output.old 0 (converted_text numbered (some (listing_in text.now))) output.new result }
{
    let used = convert_head(numbered, s, output);
    let mut numbers = [0u32; MOST_FIELDS];
    convert_rows(
        numbered,
        s.columns as usize,
        text,
        s.start,
        &mut numbers,
        output,
        used,
    )
}

// True if some number below the count has no row: there are fewer rows than numbers.
fn lacks_row(numbered: bool, s: Survey) -> bool
    ensures { result ≡ (numbered && not (eqb s.rows s.count)) }
{
    numbered && s.rows != s.count
}

// True if the output is shorter than the text in the other form. The count and the row numbers make that text longer or shorter.
fn lacks_room(numbered: bool, rows: u32, text: usize, output: usize) -> bool
    requires rows_bound { rows ≤ 65536 }
    requires rows_bound_2 { numbered ≡ true → fields_length rows ≤ text }
    ensures { result ≡ ltb output (converted_length numbered rows text) }
{
    let fields = number_length(rows) + numbers_length(rows);
    if numbered {
        return output < text - fields;
    }
    if output < text {
        return true;
    }
    output - text < fields
}

// Converts a text that is of the form.
fn convert_found(
    numbered: bool,
    s: Survey,
    text: &[u8],
    output: &mut [u8],
) -> Result<usize, Refusal>
    requires { Listed numbered text.now s }
    ensures { ListingConverted numbered text.now output.old result output.new }
{
    if lacks_row(numbered, s) {
        return Err(Refusal::MissingRow);
    }
    if lacks_room(numbered, s.rows, text.len(), output.len()) {
        return Err(Refusal::TooShort);
    }
    Ok(write_converted(numbered, s, text, output))
}

// Converts from the given form to the other.
fn convert_listing(numbered: bool, text: &[u8], output: &mut [u8]) -> Result<usize, Refusal>
    ensures { ListingConverted numbered text.now output.old result output.new }
{
    let s = scan_text(numbered, text);
    if s.is_listing {
        return convert_found(numbered, s, text, output);
    }
    Err(Refusal::NoListing)
}

// From the old form to the new: rows are numbered from 0.
pub fn to_numbered(text: &[u8], output: &mut [u8]) -> Result<usize, Refusal>
    ensures { ListingConverted false text.now output.old result output.new }
{
    convert_listing(false, text, output)
}

// From the new form to the old.
pub fn from_numbered(text: &[u8], output: &mut [u8]) -> Result<usize, Refusal>
    ensures { ListingConverted true text.now output.old result output.new }
{
    convert_listing(true, text, output)
}
