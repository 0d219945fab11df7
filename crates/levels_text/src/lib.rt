// Parses the lines that `levels` reads: a letter and comma-separated decimals, as specs/Lines.antt defines them. There are no
// preconditions: if there is no room for the numbers, every line is wrong.
#![tactic(auto)]

ghost use Rattle.std.specs.Prelude.{◌≡◌};
ghost use Rattle.levels_text.specs.inner.Reading.{decimal_of, LineIs, ParsedIs};

use kind::Kind;

pub mod kind; // kind.rt: the kinds of lines
pub mod write; // write.rt: a line of output put behind the bytes of a text

// A line of at most 120 bytes has a letter and at most 59 numbers.
pub const MOST_NUMBERS: usize = 59;

const LONGEST: usize = 120;

// A line of a valid form: its kind, and the count of its numbers, which are at the start of the lent numbers.
#[derive(Clone, Copy)]
pub struct Line {
    pub kind: Kind,
    pub count: usize,
}

// The number in a field, if the field is a decimal.
fn decimal(field: &[u8]) -> Option<u32>
    ensures { result ≡ decimal_of field.now }
{
    if field.is_empty() {
        return None;
    }
    if field[0] == b'0' && 1 < field.len() {
        return None;
    }
    let mut value: u32 = 0;
    for byte in field {
        if !byte.is_ascii_digit() {
            return None;
        }
        value = value.checked_mul(10)?.checked_add(u32::from(*byte - b'0'))?;
    }
    Some(value)
}

// Reads a letter and decimals: a line without its newline. Returns the letter and how many numbers there are. The lent numbers must have
// room for the most that a line can have. Their content is unspecified if the line is wrong.
fn read_line(line: &[u8], numbers: &mut [u32]) -> Option<(u8, usize)>
    ensures { LineIs line.now numbers.old result numbers.new }
{
    if LONGEST < line.len() {
        return None;
    }
    if numbers.len() < MOST_NUMBERS {
        return None;
    }
    let mut fields = line.split(|byte| *byte == b',');
    let [letter] = fields.next()? else {
        return None;
    };
    let mut count = 0;
    for field in fields {
        numbers[count] = decimal(field)?;
        count += 1;
    }
    Some((*letter, count))
}

// Reads a line of a valid form.
pub fn parse(line: &[u8], numbers: &mut [u32]) -> Option<Line>
    ensures { ParsedIs line.now numbers.old result numbers.new }
{
    let (letter, count) = read_line(line, numbers)?;
    let kind = Kind::try_from(letter).ok()?;
    if !kind.takes(count) {
        return None;
    }
    Some(Line { kind, count })
}
