// Parses the text of a listing line by line: whether it is of a form, its head's numbers, and how many rows it has. Lines are those
// that `levels` reads.
#![tactic(auto)]

ghost use Rattle.std.specs.Prelude.{◌≡◌, true, false, cond, ◌+◌, ◌≤◌, ◌<◌, length, drop};
ghost use Rattle.levels_text.specs.Lines.{is_decimal};
ghost use Rattle.levels_text.specs.Laws.Digits.{digit};
ghost use Rattle.listing_spec.specs.Listings.{head_letter, head_width, prefix_width};
ghost use Rattle.listing_spec.specs.inner.Checking.{pieces, begins, row_fits};
ghost use Rattle.listing_parse.specs.inner.Lines.{ends_line, field_from, DecimalAt, Reread, LineAt, LineReread, RowAt};
ghost use Rattle.listing_parse.specs.inner.Surveys.{Counted, HeadAt, Surveyed};

use table::refusing::keeps_bounds;

pub const MOST_ROWS: usize = 65536;

// One more row than a listing may have: marks a wrong text.
const WRONG: usize = 65537;

// A D line has at most a row number and eight cells, a head line at most six numbers.
pub const MOST_FIELDS: usize = 9;

// A number and the offset after its digits.
#[derive(Clone, Copy)]
struct Number {
    value: u32,
    end: usize,
}

fn no_number() -> Number
    ensures { result.end ≡ 0 }
{
    Number { value: 0, end: 0 }
}

fn is_digit(byte: u8) -> bool
    ensures { result ≡ digit byte }
{
    if byte < b'0' {
        return false;
    }
    byte <= b'9'
}

// True if the last byte is a newline. A loop over digits stops there at the latest, so it does not compare with the length.
fn ends_line(text: &[u8]) -> bool
    ensures { result ≡ ends_line text.now }
{
    if text.len() < 1 {
        return false;
    }
    text[text.len() - 1] == b'\n'
}

// Reads the digits that begin at `start`. The end is 0 if they are not a decimal. The caller checks the byte after them.
fn decimal_at(text: &[u8], start: usize) -> Number
    requires start_in_bounds { start < length text.now }
    requires text_value { ends_line text.now ≡ true }
    ensures { DecimalAt text.now start result }
{
    let mut value: u64 = 0;
    let mut at = start;
    while is_digit(text[at]) {
        value = 10 * value + (text[at] - b'0') as u64;
        if 0xffff_ffff < value {
            return no_number();
        }
        at += 1;
    }
    if at == start {
        return no_number();
    }
    if text[start] == b'0' {
        if start + 1 < at {
            return no_number();
        }
    }
    Number {
        value: value as u32,
        end: at,
    }
}

// Reads the line that begins at `start`. Returns the offset after its newline, or 0 if its letter or number count differs. Nine
// decimals with their commas are shorter than 120 bytes, so the length of the line is not checked.
fn line_at(text: &[u8], start: usize, letter: u8, width: usize, numbers: &mut [u32]) -> usize
    requires start_in_bounds { start < length text.now }
    requires text_value { ends_line text.now ≡ true }
    requires lt_letter { (44 < letter) × (width ≤ 9) }
    requires width_in_bounds { width ≤ length numbers.old }
    ensures { LineAt text.now start letter width result numbers.new }
{
    if text[start] != letter {
        return 0;
    }
    let mut at = start + 1;
    for count in 0..width {
        if text[at] != b',' {
            return 0;
        }
        let number = decimal_at(text, at + 1);
        if number.end == 0 {
            return 0;
        }
        numbers[count] = number.value;
        at = number.end;
    }
    if text[at] != b'\n' {
        return 0;
    }
    at + 1
}

// Reads again a decimal that has passed its checks.
fn reread_decimal(text: &[u8], start: usize) -> Number
    requires text_value { is_decimal (field_from (drop start text.now)) ≡ true }
    requires text_in_bounds { start + length (field_from (drop start text.now)) < length text.now }
    ensures { Reread text.now start result }
{
    let mut value: u32 = 0;
    let mut at = start;
    while b'0' <= text[at] {
        value = 10 * value + (text[at] - b'0') as u32;
        at += 1;
    }
    Number { value, end: at }
}

// Reads again a D line that has passed its checks. Returns the offset after its newline.
pub fn reread_line(text: &[u8], start: usize, width: usize, numbers: &mut [u32]) -> usize
    requires start_in_bounds { start < length text.now }
    requires text_value { begins 68 width (pieces (drop start text.now)) ≡ true }
    requires width_bound { width ≤ 9 }
    requires width_in_bounds { width ≤ length numbers.old }
    ensures { LineReread text.now start width numbers.old result numbers.new }
{
    let mut at = start + 1;
    for count in 0..width {
        let number = reread_decimal(text, at + 1);
        numbers[count] = number.value;
        at = number.end;
    }
    at + 1
}

// How many numbers a D line has.
pub fn row_width(numbered: bool, columns: usize) -> usize
    requires { columns ≤ 8 }
    ensures { result ≡ prefix_width numbered + columns }
{
    if numbered {
        return 1 + columns;
    }
    columns
}

// True if the first cell is not dead, and the row number is at least `least` and below the count.
fn row_fits(numbered: bool, count: u32, least: usize, numbers: &[u32]) -> bool
    requires { prefix_width numbered < length numbers.now }
    ensures { result ≡ row_fits numbered count least numbers.now }
{
    if numbered {
        if numbers[1] == 0xffff_ffff {
            return false;
        }
        if (numbers[0] as usize) < least {
            return false;
        }
        return numbers[0] < count;
    }
    numbers[0] != 0xffff_ffff
}

// Reads the D line that begins at `start`. Returns the offset after it, or 0 if it is wrong.
fn row_at(
    numbered: bool,
    columns: usize,
    count: u32,
    least: usize,
    text: &[u8],
    start: usize,
    numbers: &mut [u32],
) -> usize
    requires le_columns { (1 ≤ columns) × (columns ≤ 8) }
    requires start_in_bounds { start < length text.now }
    requires text_value { ends_line text.now ≡ true }
    requires in_bounds { 9 ≤ length numbers.old }
    ensures { RowAt numbered columns count least text.now start result numbers.new }
{
    let width = row_width(numbered, columns);
    let end = line_at(text, start, b'D', width, numbers);
    if end == 0 {
        return 0;
    }
    if row_fits(numbered, count, least, &numbers[..width]) {
        return end;
    }
    0
}

// How many D lines there are from `start` on, or `WRONG` if one is wrong.
fn count_rows(
    numbered: bool,
    columns: usize,
    count: u32,
    text: &[u8],
    start: usize,
    numbers: &mut [u32],
) -> usize
    requires le_columns { (1 ≤ columns) × (columns ≤ 8) }
    requires start_in_bounds { start ≤ length text.now }
    requires text_value { ends_line text.now ≡ true }
    requires in_bounds { 9 ≤ length numbers.old }
    ensures { Counted numbered columns count text.now start result }
{
    let mut at = start;
    let mut least = 0;
    let mut rows = 0;
    while at < text.len() {
        if rows == MOST_ROWS {
            return WRONG;
        }
        at = row_at(numbered, columns, count, least, text, at, numbers);
        if at == 0 {
            return WRONG;
        }
        least = (numbers[0] as usize) + 1;
        rows += 1;
    }
    rows
}

// The row count of a head; 0 in the old form, which has none.
fn count_in(numbered: bool, last: u32) -> u32
    ensures { result ≡ cond numbered last 0 }
{
    if numbered {
        return last;
    }
    0
}

// Reads the first line of the text, with the letter and width of the form.
fn first_line(numbered: bool, text: &[u8], numbers: &mut [u32]) -> usize
    requires text_value { ends_line text.now ≡ true }
    requires in_bounds { 9 ≤ length numbers.old }
    ensures { LineAt text.now 0 (head_letter numbered) (head_width numbered) result numbers.new }
{
    if numbered {
        return line_at(text, 0, b'U', 6, numbers);
    }
    line_at(text, 0, b'T', 5, numbers)
}

// Reads the head line. Returns the offset after it, or 0 if it is wrong.
fn head_at(numbered: bool, text: &[u8], numbers: &mut [u32]) -> usize
    requires text_value { ends_line text.now ≡ true }
    requires in_bounds { 9 ≤ length numbers.old }
    ensures { HeadAt numbered text.now result numbers.new }
{
    let next = first_line(numbered, text, numbers);
    if next == 0 {
        return 0;
    }
    if 65536 < count_in(numbered, numbers[5]) {
        return 0;
    }
    if keeps_bounds(numbers[0], numbers[1], numbers[2], numbers[3]) {
        return next;
    }
    0
}

// Facts about a text of a form, known before its rows are read: the head's numbers with the row count, how many rows there are, and
// where they begin.
#[derive(Clone, Copy)]
pub struct Survey {
    pub is_listing: bool,
    pub columns: u32,
    pub keys: u32,
    pub sort: u32,
    pub rule: u32,
    pub generation: u32,
    pub count: u32,
    pub rows: u32,
    pub start: usize,
}

fn no_listing() -> Survey
    ensures { result.is_listing ≡ false }
{
    Survey {
        is_listing: false,
        columns: 0,
        keys: 0,
        sort: 0,
        rule: 0,
        generation: 0,
        count: 0,
        rows: 0,
        start: 0,
    }
}

// Scans a whole text.
pub fn scan_text(numbered: bool, text: &[u8]) -> Survey
    ensures { Surveyed numbered text.now result }
{
    if !ends_line(text) {
        return no_listing();
    }
    let mut numbers = [0u32; MOST_FIELDS];
    let start = head_at(numbered, text, &mut numbers);
    if start == 0 {
        return no_listing();
    }
    let columns = numbers[0];
    let keys = numbers[1];
    let sort = numbers[2];
    let rule = numbers[3];
    let generation = numbers[4];
    let count = count_in(numbered, numbers[5]);
    let rows = count_rows(numbered, columns as usize, count, text, start, &mut numbers);
    Survey {
        is_listing: rows != WRONG,
        columns,
        keys,
        sort,
        rule,
        generation,
        count,
        rows: rows as u32,
        start,
    }
}
