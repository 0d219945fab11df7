// Writes a listing of a table, in the old form or the new. Computes the length of the text first, so that nothing is written if the
// output is too short.
#![tactic(auto)]

ghost use Rattle.std.specs.Prelude.{◌≡◌, map, ◌+◌, ◌*◌, ◌≤◌, length};
ghost use Rattle.lists.specs.Lists.{flatten};
ghost use Rattle.levels_text.specs.Written.{field};
ghost use Rattle.levels_text.specs.inner.Appending.{Appended};
ghost use Rattle.listing_write.specs.Writing.{stored_text, ListingWritten};
ghost use Rattle.listing_write.specs.inner.Lines.{head_line, row_line, row_lines, Stored};

use levels_text::write::{number_length, put_line, put_numbered};
use refusals::Refusal;
use table::Header;
use table::refusing::{is_outside, is_rows_short};

// The bytes that numbers take, with a comma before each.
fn numbers_length(numbers: &[u32]) -> usize
    requires { length numbers.now ≤ 8 }
    ensures { result ≡ length (flatten (map field numbers.now)) }
{
    let mut total = 0;
    for number in numbers {
        total += number_length(*number);
    }
    total
}

// The bytes of a row's line; 0 if the row is dead.
fn row_length(numbered: bool, number: u32, row: &[u32]) -> usize
    requires { length row.now ≤ 8 }
    ensures { result ≡ length (row_line numbered number row.now) }
{
    if constraints::is_live(row) {
        let cells = numbers_length(row) + 2;
        if numbered {
            return cells + number_length(number);
        }
        return cells;
    }
    0
}

// The bytes of the lines of the live rows among the first `count`.
fn rows_length(numbered: bool, rows: &[u32], columns: usize, count: u32) -> usize
    requires columns_bound { columns ≤ 8 }
    requires count_bound { count ≤ 65536 }
    requires columns_in_bounds { count * columns ≤ length rows.now }
    ensures { result ≡ length (row_lines numbered columns 0 count rows.now) }
{
    let mut total = 0;
    let mut at = 0;
    for number in 0..count {
        let next = at + columns;
        total += row_length(numbered, number, &rows[at..next]);
        at = next;
    }
    total
}

// The bytes of the head line.
fn head_length(numbered: bool, h: Header) -> usize
    ensures { result ≡ length (head_line numbered h) }
{
    let numbers = [h.columns, h.keys, h.sort, h.rule, h.generation, h.rows];
    if numbered {
        return numbers_length(&numbers) + 2;
    }
    numbers_length(&numbers[..5]) + 2
}

// The bytes of the whole text.
fn text_length(numbered: bool, h: Header, rows: &[u32]) -> usize
    requires { Stored h rows.now }
    ensures { result ≡ length (stored_text numbered h rows.now) }
{
    let head = head_length(numbered, h);
    head + rows_length(numbered, rows, h.columns as usize, h.rows)
}

// Writes the line of a row, if it is live.
fn put_row(text: &mut [u8], used: usize, numbered: bool, number: u32, row: &[u32]) -> usize
    requires { used + length (row_line numbered number row.now) ≤ length text.old }
    ensures { Appended text.old used (row_line numbered number row.now) text.new result }
{
    let live = constraints::is_live(row);
    if live {
        if numbered {
            return put_numbered(text, used, b'D', number, row);
        }
        return put_line(text, used, b'D', row);
    }
    used
}

// Writes the lines of the live rows among the first `count`.
fn put_rows(
    text: &mut [u8],
    used: usize,
    numbered: bool,
    rows: &[u32],
    columns: usize,
    count: u32,
) -> usize
    requires columns_bound { columns ≤ 8 }
    requires columns_in_bounds { count * columns ≤ length rows.now }
    requires rows_in_bounds { used + length (row_lines numbered columns 0 count rows.now) ≤ length text.old }
    ensures { Appended text.old used (row_lines numbered columns 0 count rows.now) text.new result }
{
    let mut end = used;
    let mut at = 0;
    for number in 0..count {
        let next = at + columns;
        end = put_row(text, end, numbered, number, &rows[at..next]);
        at = next;
    }
    end
}

// Writes the head line, in the new form with the row count.
fn put_head(text: &mut [u8], numbered: bool, h: Header) -> usize
    requires { length (head_line numbered h) ≤ length text.old }
    ensures { Appended text.old 0 (head_line numbered h) text.new result }
{
    let numbers = [h.columns, h.keys, h.sort, h.rule, h.generation, h.rows];
    if numbered {
        return put_line(text, 0, b'U', &numbers);
    }
    put_line(text, 0, b'T', &numbers[..5])
}

// Writes the whole text.
fn put_text(numbered: bool, h: Header, rows: &[u32], text: &mut [u8]) -> usize
    requires stored { Stored h rows.now }
    requires rows_in_bounds { length (stored_text numbered h rows.now) ≤ length text.old }
    ensures { Appended text.old 0 (stored_text numbered h rows.now) text.new result }
{
    let used = put_head(text, numbered, h);
    put_rows(text, used, numbered, rows, h.columns as usize, h.rows)
}

// Writes a listing of the table in `rows` to the start of `output`, in the new form if `numbered`. Returns the bytes written.
pub fn write_listing(
    h: Header,
    rows: &[u32],
    numbered: bool,
    output: &mut [u8],
) -> Result<usize, Refusal>
    ensures { ListingWritten numbered h rows.now output.old result output.new }
{
    if is_outside(h) {
        return Err(Refusal::OutOfBounds);
    }
    if is_rows_short(h, rows.len()) {
        return Err(Refusal::TooShort);
    }
    if output.len() < text_length(numbered, h, rows) {
        return Err(Refusal::TooShort);
    }
    Ok(put_text(numbered, h, rows, output))
}
